// A reader that is fed a word in pieces: it keeps where they broke, or that memory was spent. A file is fed in tw_filecmd.

use crate::resumed::Resumed;
use crate::segments::Segments;
use std::alloc::Global;
use std::mem;
use tw_base::{NoMemory, ReadFault};

/// What a reader that is fed pieces knows of them.
#[derive(Drop)]
pub enum Fed<S> {
    /// They are a front of a word.
    Reading(Resumed<S>),
    /// No word goes on at this place of them.
    Broken { place: u64 },
    /// No memory was left for one of them, and this is what was known before of whether they break.
    Spent { broken: bool },
}

impl<S: Segments> Fed<S> {
    ghost use Rattle.std.specs.Prelude.{◌≡◌, ◌↔◌, ℕ, List, [], ◌++◌, IsTrue, Err, OnErr, OnOk};
    ghost use Rattle.tw_base.specs.declared.kinds.failure.ReadFault.TheVariants.{NoMemory as WantOfMemory};
    ghost use Rattle.tw_pieces.specs.Feeding.{HasFed, IsSpent, is_reader_broken};
    ghost use Rattle.tw_base.specs.format.Formats.{Format, IsFront, ReadsAs};
    ghost use Rattle.tw_pieces.specs.Resuming.{StaysFront};

    /// No pieces yet.
    pub fn begin(alloc: Global, state: S) -> Self
        // Where words still go on from no bytes, as the state says, the reader was fed nothing.
        ensures fed { StaysFront (S.rest state) [] 0 → HasFed S.rest (S.rest state) result [] }
        // Memory was left so far.
        ensures unspent { IsSpent result → ⊥ }
    {
        Fed::Reading(Resumed::begin(alloc, state))
    }

    /// A piece more. Where the pieces broke before, nothing is read or held of it. Once no memory was
    /// left, the answer is `NoMemory` for ever; so it is where the pieces so far have 2^64 bytes or
    /// more, too many for their count.
    pub fn feed(&mut self, alloc: Global, piece: &[u8]) -> Result<(), NoMemory>
        // The reader was fed what it was fed before, and then the piece.
        ensures fed { (whole : Format S.Whole) (pieces : List ℕ) → HasFed S.rest whole self.old pieces → HasFed S.rest whole self.new (pieces ++ piece.now) }
        // Where no memory was left, this is known from now on, and of whether the pieces break what was known before.
        ensures spends { OnErr result (IsSpent self.new × (is_reader_broken self.new ≡ is_reader_broken self.old)) }
        // Else memory was left for each piece so far.
        ensures unspent { OnOk result (IsSpent self.new → ⊥) }
        // Behind a piece for which no memory was left none is taken.
        ensures spent { IsSpent self.old → OnOk result ⊥ }
        // Pieces behind a bad byte change nothing.
        ensures still { IsTrue (is_reader_broken self.old) → self.new ≡ self.old }
    {
        match mem::replace(self, Fed::Spent { broken: false }) {
            Fed::Reading(reader) => match reader.feed(alloc, piece) {
                Ok(reader) => *self = Fed::Reading(reader),
                Err(ReadFault::Malformed { place }) => *self = Fed::Broken { place },
                Err(ReadFault::NoMemory) => return Err(NoMemory),
            },
            Fed::Broken { place } => *self = Fed::Broken { place },
            Fed::Spent { broken } => {
                *self = Fed::Spent { broken };
                return Err(NoMemory);
            }
        }
        Ok(())
    }

    /// Whether no word goes on behind the pieces, as the reader knows it.
    pub fn is_broken(&self) -> bool
        ensures told { result ≡ is_reader_broken self.now }
        // While memory was left for each piece, it is so exactly where they are no front of a word.
        ensures exact { (whole : Format S.Whole) (pieces : List ℕ) → HasFed S.rest whole self.now pieces → (IsSpent self.now → ⊥) →
            IsTrue result ↔ (IsFront whole pieces → ⊥) }
    {
        match self {
            Fed::Reading(_) => false,
            Fed::Broken { .. } => true,
            Fed::Spent { broken } => *broken,
        }
    }

    /// The value of the word, now that no piece more comes. Malformed where the pieces are no word.
    pub fn finish(self) -> Result<S::Whole, ReadFault>
        // At the end the answer is that of reading all pieces as one.
        ensures whole { (whole : Format S.Whole) (pieces : List ℕ) → HasFed S.rest whole self pieces → ReadsAs (λ x. x) whole pieces result }
        // Where no memory was left for a piece, that is the answer.
        ensures spent { IsSpent self → result ≡ Err WantOfMemory }
    {
        match self {
            Fed::Reading(reader) => reader.finish(),
            Fed::Broken { place } => Err(ReadFault::Malformed { place }),
            Fed::Spent { .. } => Err(ReadFault::NoMemory),
        }
    }
}
