// The laws of atlases, and of files of receipts.

ghost use Rattle.std.specs.Prelude.{◌≡◌, ◌*◌, ◌++◌, ◌<◌, ◌≤◌, ◌↔◌, List, ℕ, length};
ghost use Rattle.std.specs.List.Sorted.{IsStrictlySortedBy};
ghost use Rattle.tw_base.specs.declared.history.report.Hop.{Hop};
ghost use Rattle.tw_base.specs.declared.history.thread.Key.{Key};
ghost use Rattle.tw_base.specs.kinds.Lists.{In};
ghost use Rattle.tw_atlas.specs.Atlases.{IsAtlas};
ghost use Rattle.tw_atlas.specs.Earliest.{IsEarliest};
ghost use Rattle.tw_atlas.specs.ReceiptFiles.{AreReceipts, IsBadAt};
ghost use Rattle.tw_msg.specs.declared.receipt.Receipt.{Receipt};
ghost use Rattle.tw_atlas.specs.Rounds.{hop_cmp, ordered};
ghost use Rattle.tw_atlas.specs.declared.atlas.Atlas.{Atlas};

/// What holds of every atlas that is checked line by line: its arrivals are the least steps to which
/// hops lead, and its legs are the ways there.
pub fn atlas_laws()
    // Where what is checked of an atlas holds, each arrival is at the least step of its service to which a chain of the given
    // hops leads; the legs that are followed back from it are such a chain, which leads there in every family in which its
    // hops stand; and to a service without an arrival no chain leads. Where all hops that stand in a family are given, and
    // some lead to a step of a service, there is an arrival of that service, at that step or earlier.
    ensures earliest { (given : List Hop) (start : Key) (atlas : Atlas) → IsAtlas given start atlas → IsEarliest given start atlas }
    // The arrivals are determined by the legs.
    ensures one { (given : List Hop) (start : Key) (one other : Atlas) → IsAtlas given start one → IsAtlas given start other → one.legs ≡ other.legs → one ≡ other }
    // The different hops of a list stand by service, step, recorder and archived step, and none twice.
    ensures rise { (given : List Hop) → IsStrictlySortedBy hop_cmp (ordered given) }
    // They are the hops of the list, and no others.
    ensures same { (given : List Hop) (hop : Hop) → In hop (ordered given) ↔ In hop given }
    // There are at most as many of them as the list has hops.
    ensures few { (given : List Hop) → length (ordered given) ≤ length given }
{}

/// What holds of files of receipts: each has one list of them, or one place of its first bad byte.
pub fn receipt_file_laws()
    // A file of receipts has 116 bytes for each.
    ensures size { (most : ℕ) (bytes : List ℕ) (receipts : List Receipt) → AreReceipts most bytes receipts → length bytes ≡ 116 * length receipts }
    // It has one list of them, however many there may be.
    ensures one { (most more : ℕ) (bytes : List ℕ) (ones others : List Receipt) → AreReceipts most bytes ones → AreReceipts more bytes others → ones ≡ others }
    // Where so many may be, other bytes have one place of a first bad byte.
    ensures one_place { (most : ℕ) (bytes : List ℕ) (place other : ℕ) → IsBadAt most bytes place → IsBadAt most bytes other → place ≡ other }
    // A bad byte that stands in the front of a file is the first of the whole.
    ensures front { (most : ℕ) (front more : List ℕ) (place : ℕ) → IsBadAt most front place → place < length front → IsBadAt most (front ++ more) place }
{}
