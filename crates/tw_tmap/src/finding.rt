// The lowest reason against map files, as their checks follow one another; tw_chain/src/finding.rt has that against proofs.

ghost use Rattle.std.specs.Prelude.{◌≡◌, ◌↔◌, ℕ, ◌-◌, ◌<◌, ◌≤◌, List, [], ◌∷◌, IsTrue};
ghost use Rattle.tw_base.specs.declared.kinds.limits.TheConstants.{LAST_STEP};
ghost use Rattle.tw_chain.specs.Checks.{under_anchor as under_anchor_of};
ghost use Rattle.tw_chain.specs.Checks.Check.{NeedsAnchor};
ghost use Rattle.tw_chain.specs.Finding.{found_in, lower_of, reason_with};
ghost use Rattle.tw_skipproof.specs.Acceptance.{Reaches};
ghost use Rattle.tw_tmap.specs.Checking.{high_part, low_file_part};

use crate::map_file::{HighFile, LowFile, LowPart};
use tw_base::{Digest, Hasher, Name, Reason, Thread, find_anchor, is_same_digest};
use tw_chain::{climbs, lower, unless, with_order};
use tw_skipproof::check_opening;

/// The lower of two that were found; of one number and place the first.
pub(crate) fn lower_found(found: Option<Reason>, more: Option<Reason>) -> Option<Reason>
    ensures { result ≡ lower_of found more }
{
    match more {
        None => found,
        Some(reason) => lower(found, reason),
    }
}

/// What is found with the check that an anchor of the service and step is held.
pub(crate) fn with_anchor(
    found: Option<Reason>,
    service: &Name,
    step: u64,
    anchors: &[Thread],
) -> Option<Reason>
    ensures { (dig : List ℕ → List ℕ) → result ≡ reason_with dig anchors.now found (NeedsAnchor (record { from = service.now; step = step }) ∷ []) }
{
    match find_anchor(anchors, service, step) {
        None => lower(
            found,
            Reason::NotHeld {
                service: *service,
                step,
            },
        ),
        Some(_) => found,
    }
}

/// Whether the path of the step before a low file's climbs from what its opening computes to this
/// authenticator of the top.
fn low_reaches<H: Hasher>(low: &LowFile, part: &LowPart, upper: &Digest) -> bool
    requires some { 0 < low.now.step }
    requires step { low.now.step ≤ LAST_STEP }
    requires top { low.now.top ≤ LAST_STEP }
    ensures { IsTrue result ↔ Reaches H.dig (low_file_part low.now part.now) upper.now }
{
    let step = low.step - 1;
    match check_opening::<H>(&part.opening, step) {
        None => false,
        Some(bottom) => climbs::<H>(&part.path, low.top, step, &bottom, upper),
    }
}

/// What is found of the step before a low file's, under its anchor.
pub(crate) fn low_under<H: Hasher>(
    low: &LowFile,
    part: &LowPart,
    anchors: &[Thread],
) -> Option<Reason>
    requires some { 0 < low.now.step }
    requires step { low.now.step ≤ LAST_STEP }
    requires top { low.now.top ≤ LAST_STEP }
    ensures { result ≡ found_in H.dig anchors.now (under_anchor_of 0 (low_file_part low.now part.now)) }
{
    let found = with_order(None, low.step - 1, low.top);
    match find_anchor(anchors, &low.service, low.top) {
        None => lower(
            found,
            Reason::NotHeld {
                service: low.service,
                step: low.top,
            },
        ),
        Some(anchor) => unless(
            low_reaches::<H>(low, part, &anchor.auth),
            found,
            Reason::BadPath { part: 0 },
        ),
    }
}

/// Whether the opening of a high file computes this authenticator of its top.
#[tactic(auto, unfolding(tw_skipproof::specs::Paths::climbed))]
fn high_reaches<H: Hasher>(high: &HighFile, upper: &Digest) -> bool
    requires { high.now.top ≤ LAST_STEP }
    ensures { IsTrue result ↔ Reaches H.dig (high_part high.now) upper.now }
{
    match check_opening::<H>(&high.opening, high.top) {
        None => false,
        Some(auth) => is_same_digest(&auth, upper),
    }
}

/// What is found of the top of a high file, under its anchor.
pub(crate) fn high_under<H: Hasher>(high: &HighFile, anchors: &[Thread]) -> Option<Reason>
    requires { high.now.top ≤ LAST_STEP }
    ensures { result ≡ found_in H.dig anchors.now (under_anchor_of 1 (high_part high.now)) }
{
    // (the check of order comes first, as for any part; step and top are one here, so it passes)
    let found = with_order(None, high.top, high.top);
    match find_anchor(anchors, &high.service, high.top) {
        None => lower(
            found,
            Reason::NotHeld {
                service: high.service,
                step: high.top,
            },
        ),
        Some(anchor) => unless(
            high_reaches::<H>(high, &anchor.auth),
            found,
            Reason::BadPath { part: 1 },
        ),
    }
}
