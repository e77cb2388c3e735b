// The law of images that open with a root record of some kind; `laws.rt` has that of images that open as a store.

ghost use Rattle.std.specs.Prelude.{◌≡◌, ℕ, List, ◌+◌, ◌^◌, ◌≤◌, length};
ghost use Rattle.tw_disk.specs.Image.{Image};
ghost use Rattle.tw_pages.specs.declared.open.StoreFault.{StoreFault};
ghost use Rattle.tw_pages.specs.Records.{IsNotOpenedFor, IsOnce, IsServed, IsWritten, RecordKind, Served, Written};

use tw_base::Hasher;
use tw_disk::Record;

/// An image is served as one thing at most; and one that opens with a record of one kind is opened with none of another.
pub fn record_laws<H: Hasher, R: Record, Q: Record>()
    // An image opens with one record and its pages, or, for one reason, with none.
    ensures served { IsOnce (R.kind H.dig) → (image : Image) (one other : Served R) → IsServed (R.kind H.dig) image one → IsServed (R.kind H.dig) image other → one ≡ other }
    // The pages have numbers below 2^64.
    ensures numbers { (image : Image) (w : Written R) → IsWritten (R.kind H.dig) w image → 4 + length w.pages ≤ 2 ^ 64 }
    // One that opens with a record of one kind is opened with none of another, where no bytes are a record of both.
    ensures apart { ((used generation : ℕ) (r : R) (q : Q) → (R.kind H.dig).May used generation r → (Q.kind H.dig).May used generation q → (R.kind H.dig).bytes r ≡ (Q.kind H.dig).bytes q → ⊥)
        → (image : Image) (w : Written R) → IsWritten (R.kind H.dig) w image → (why : StoreFault) × IsNotOpenedFor (Q.kind H.dig) image why }
{}
