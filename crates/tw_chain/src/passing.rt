// Whether a single check of a proof passes; `finding.rt` keeps the lowest reason of those that don't.

ghost use Rattle.std.specs.Prelude.{◌≡◌, ◌≤◌, length, IsTrue, ◌↔◌};
ghost use Rattle.tw_base.specs.declared.kinds.limits.TheConstants.{LAST_STEP, MOST_EVENTS, MOST_EVENT_BYTES};
ghost use Rattle.tw_skipproof.specs.Acceptance.{Reaches, ShowsEvent};
ghost use Rattle.tw_skipproof.specs.Openings.{IsOpeningAt, opening_auth};
ghost use Rattle.tw_skipproof.specs.Paths.{Climbs};
ghost use Rattle.tw_treeproof.specs.Answers.{Checks};

use tw_base::{Ask, Digest, EventPart, Hasher, Thread, TreeProof, is_same_digest};
use tw_events::check_event;
use tw_skipproof::{Opening, Part, Path, check_opening, climb};
use tw_treeproof::{Shown, check};

/// Whether the path climbs from this authenticator of the lower step to that one of the upper step.
pub fn climbs<H: Hasher>(path: &Path, from: u64, to: u64, bottom: &Digest, upper: &Digest) -> bool
    requires { from ≤ LAST_STEP }
    // Yes exactly where the path climbs from the lower authenticator to the upper one.
    ensures { IsTrue result ↔ Climbs H.dig path.now.links from to bottom.now upper.now }
{
    match climb::<H>(path, from, to, bottom) {
        None => false,
        Some(top) => is_same_digest(&top, upper),
    }
}

/// Whether the path of the part climbs from what its opening computes to this authenticator of the
/// top.
pub fn reaches<H: Hasher>(at: &Part, upper: &Digest) -> bool
    requires step { at.now.step ≤ LAST_STEP }
    requires top { at.now.top ≤ LAST_STEP }
    // Yes exactly where the path of the part climbs from what its opening computes to the authenticator.
    ensures { IsTrue result ↔ Reaches H.dig at.now upper.now }
{
    match check_opening::<H>(&at.opening, at.step) {
        None => false,
        Some(bottom) => climbs::<H>(&at.path, at.top, at.step, &bottom, upper),
    }
}

/// Whether the opening computes the thread's authenticator.
pub fn opens<H: Hasher>(thread: &Thread, opening: &Opening) -> bool
    requires { thread.now.step ≤ LAST_STEP }
    // Yes exactly where the opening is one of the thread's step, and computes its authenticator.
    ensures { IsTrue result ↔ (IsOpeningAt thread.now.step opening.now × (opening_auth H.dig thread.now.step opening.now ≡ thread.now.auth)) }
{
    match check_opening::<H>(opening, thread.step) {
        None => false,
        Some(auth) => is_same_digest(&auth, &thread.auth),
    }
}

/// Whether the event computes the event root of the opening.
pub fn shows<H: Hasher>(opening: &Opening, event: &EventPart) -> bool
    requires few { opening.now.count ≤ MOST_EVENTS }
    requires small { length event.now.event ≤ MOST_EVENT_BYTES }
    // Yes exactly where the event computes the event root of the opening.
    ensures { IsTrue result ↔ ShowsEvent H.dig opening.now event.now }
{
    check_event::<H>(
        &opening.event_root,
        opening.count,
        event.index,
        event.event.as_slice(),
        &event.path,
    )
}

/// Whether the tree proof gives the answer to the question under this root.
pub fn answers<H: Hasher>(root: &Digest, ask: &Ask, shown: &TreeProof) -> bool
    // Yes exactly where the tree proof gives the answer to the question under the root.
    ensures { IsTrue result ↔ Checks H.dig root.now ask.now shown.now }
{
    match check::<H>(root, ask, shown) {
        Shown::Wrong => false,
        Shown::Present | Shown::Absent | Shown::Nearest(_) => true,
    }
}
