// What a store needs of the root record that it keeps; services and followers have one each.

ghost use Rattle.std.specs.Prelude.{◌≡◌, ◌≤◌, ℕ, List, length, MatchOption};
ghost use Rattle.tw_disk.specs.Kinds.{RecordKind};

use arrayvec::ArrayVec;
use tw_base::Hasher;

/// What a store says of its pages, in its root record.
pub trait Record: Drop + Sized {
    /// How such a record is spelled, and in which stores one may stand, by the hasher's function.
    ghost kind: { (List ℕ → List ℕ) → RecordKind Self };

    /// The bytes of the record.
    fn bytes<H: Hasher>(&self) -> ArrayVec<u8, 512>
        ensures bytes { result.items ≡ (kind H.dig).bytes self.now }
        ensures size { length result.items ≤ 512 };

    /// The record that the bytes are, in a store of so many used pages and of this generation; None exactly where they are none that
    /// may stand there.
    fn read<H: Hasher>(bytes: &[u8], used: u64, generation: u64) -> Option<Self>
        ensures { MatchOption result ((r : Self) → bytes.now ≡ (kind H.dig).bytes r → (kind H.dig).May used generation r → ⊥)
            (λ r. (bytes.now ≡ (kind H.dig).bytes r) × (kind H.dig).May used generation r) };
}
