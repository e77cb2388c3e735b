// The lowest reason against a proof, as its checks follow one another.

ghost use Rattle.std.specs.Prelude.{◌≡◌, ℕ, ◌≤◌, List, [], ◌∷◌, length, Some, None, if◌then◌else◌};
ghost use Rattle.tw_base.specs.declared.kinds.limits.TheConstants.{LAST_STEP, MOST_EVENTS, MOST_EVENT_BYTES};
ghost use Rattle.tw_base.specs.declared.history.report.Reason.TheVariants.{BadTree};
ghost use Rattle.tw_base.specs.declared.history.thread.Thread.{Thread as Anchor};
ghost use Rattle.tw_chain.specs.Finding.{found_in, is_lower as is_lower_of, lower_of, reason_with};
ghost use Rattle.tw_chain.specs.Checks.{checks, link_checks, opening_checks, under_anchor as under_anchor_of};
ghost use Rattle.tw_chain.specs.Checks.Check.{AnswerOf, EventOf, InOrder, PathOf};
ghost use Rattle.tw_chain.specs.Checks.Upper.{Known};
ghost use Rattle.tw_chain.specs.declared.proof.Proof.TheVariants.{Archived};

use crate::passing::{answers, climbs, opens, reaches, shows};
use crate::proof::ThreadProof;
use tw_base::{Ask, Digest, EventPart, Hasher, Reason, Thread, TreeProof, find_anchor};
use tw_skipproof::{Opening, Part, Path};

/// Whether the first reason is the lower one: by its number, and then by its place.
fn is_lower(one: &Reason, other: &Reason) -> bool
    ensures { result ≡ is_lower_of one.now other.now }
{
    one.number() < other.number() || (one.number() == other.number() && one.place() < other.place())
}

/// The lower of what was found and this reason; of one number and place the first.
pub fn lower(found: Option<Reason>, reason: Reason) -> Option<Reason>
    // The lower of what was found and the reason, by number and then by place; of two alike what was found.
    ensures { result ≡ lower_of found (Some reason) }
{
    match found {
        Some(first) if !is_lower(&reason, &first) => Some(first),
        _ => Some(reason),
    }
}

/// What was found, and the reason where the check doesn't pass.
pub fn unless(passes: bool, found: Option<Reason>, reason: Reason) -> Option<Reason>
    // The lower of what was found and the reason where the check doesn't pass; else what was found.
    ensures { result ≡ lower_of found (if passes then None else Some reason) }
{
    if passes { found } else { lower(found, reason) }
}

/// What is found with the check that the lower step isn't above the upper one.
pub fn with_order(found: Option<Reason>, lower: u64, upper: u64) -> Option<Reason>
    // The lowest of what was found and of what the order of the two steps gives.
    ensures { (dig : List ℕ → List ℕ) (anchors : List Anchor) → result ≡ reason_with dig anchors found (InOrder lower upper ∷ []) }
{
    unless(lower <= upper, found, Reason::BadOrder)
}

/// What is found of the head of a proof, a step under an anchor.
pub fn under_anchor<H: Hasher>(at: &Part, anchors: &[Thread]) -> Option<Reason>
    requires step { at.now.step ≤ LAST_STEP }
    requires top { at.now.top ≤ LAST_STEP }
    // The lowest reason of the checks of a step under an anchor, where one of them doesn't pass.
    ensures { result ≡ found_in H.dig anchors.now (under_anchor_of 0 at.now) }
{
    let found = with_order(None, at.step, at.top);
    match find_anchor(anchors, &at.service, at.top) {
        None => lower(
            found,
            Reason::NotHeld {
                service: at.service,
                step: at.top,
            },
        ),
        Some(anchor) => unless(
            reaches::<H>(at, &anchor.auth),
            found,
            Reason::BadPath { part: 0 },
        ),
    }
}

/// What is found with the checks of a thread under an anchor, the path from there down to it.
pub fn with_link<H: Hasher>(
    found: Option<Reason>,
    part: u8,
    thread: &Thread,
    top: u64,
    path: &Path,
    anchors: &[Thread],
) -> Option<Reason>
    requires { top ≤ LAST_STEP }
    // The lowest of what was found and of what the checks of the thread under its anchor give.
    ensures { result ≡ reason_with H.dig anchors.now found
        (link_checks part (record { service = thread.now.from; step = thread.now.step; top = top; auth = thread.now.auth; path = path.now })) }
{
    let found = with_order(found, thread.step, top);
    match find_anchor(anchors, &thread.from, top) {
        None => lower(
            found,
            Reason::NotHeld {
                service: thread.from,
                step: top,
            },
        ),
        Some(anchor) => unless(
            climbs::<H>(path, top, thread.step, &thread.auth, &anchor.auth),
            found,
            Reason::BadPath { part },
        ),
    }
}

/// What is found with the check that the path of a part climbs to this authenticator of its top.
pub fn with_path<H: Hasher>(
    found: Option<Reason>,
    part: u8,
    at: &Part,
    upper: &Digest,
) -> Option<Reason>
    requires step { at.now.step ≤ LAST_STEP }
    requires top { at.now.top ≤ LAST_STEP }
    // The lowest of what was found and of what the path to the known authenticator gives.
    ensures { (anchors : List Anchor) → result ≡ reason_with H.dig anchors found (PathOf part at.now (Known upper.now) ∷ []) }
{
    unless(reaches::<H>(at, upper), found, Reason::BadPath { part })
}

/// What is found with the checks of the opening of a thread's step, where there is one.
pub fn with_opening<H: Hasher>(
    found: Option<Reason>,
    part: u8,
    thread: &Thread,
    opening: &Option<Opening>,
) -> Option<Reason>
    requires { thread.now.step ≤ LAST_STEP }
    // The lowest of what was found and of what the checks of the opening give; without an opening, what was found.
    ensures { (anchors : List Anchor) → result ≡ reason_with H.dig anchors found (opening_checks part thread.now opening.now) }
{
    match opening {
        None => found,
        Some(opening) => {
            let found = with_order(found, 1, thread.step);
            unless(
                opens::<H>(thread, opening),
                found,
                Reason::BadOpening { part },
            )
        }
    }
}

/// What is found with the check that the event computes the event root of the opening.
pub fn with_event<H: Hasher>(
    found: Option<Reason>,
    part: u8,
    opening: &Opening,
    event: &EventPart,
) -> Option<Reason>
    requires few { opening.now.count ≤ MOST_EVENTS }
    requires small { length event.now.event ≤ MOST_EVENT_BYTES }
    // The lowest of what was found and of what the event under the opening's root gives.
    ensures { (anchors : List Anchor) → result ≡ reason_with H.dig anchors found (EventOf part opening.now event.now ∷ []) }
{
    unless(shows::<H>(opening, event), found, Reason::BadEvent { part })
}

/// What is found with the check that the tree proof gives the answer under this root.
pub fn with_answer<H: Hasher>(
    found: Option<Reason>,
    part: u8,
    root: &Digest,
    ask: &Ask,
    shown: &TreeProof,
) -> Option<Reason>
    // The lowest of what was found and of what the tree proof's answer under the root gives.
    ensures { (anchors : List Anchor) → result ≡ reason_with H.dig anchors found (AnswerOf part root.now ask.now shown.now ∷ []) }
{
    unless(
        answers::<H>(root, ask, shown),
        found,
        Reason::BadTree { part },
    )
}

/// What is found with the check that a tree proof gives an answer where no root is known, which never
/// passes.
pub fn without_answer(found: Option<Reason>, part: u8) -> Option<Reason>
    // The lowest of what was found and the reason of a tree proof that gives no answer.
    ensures { result ≡ lower_of found (Some (BadTree part)) }
{
    lower(found, Reason::BadTree { part })
}

/// What is found of a proof that a thread was received.
pub fn found_of_thread<H: Hasher>(proof: &ThreadProof, anchors: &[Thread]) -> Option<Reason>
    requires step { proof.now.at.step ≤ LAST_STEP }
    requires top { proof.now.at.top ≤ LAST_STEP }
    // The lowest reason of the checks of a proof that a thread was received, where one of them doesn't pass.
    ensures { result ≡ found_in H.dig anchors.now (checks (Archived proof.now)) }
{
    let found = under_anchor::<H>(&proof.at, anchors);
    let found = with_order(found, proof.entry.archived, proof.at.step);
    let ask = Ask::Present(proof.entry);
    with_answer::<H>(found, 0, &proof.at.opening.archive_root, &ask, &proof.shown)
}
