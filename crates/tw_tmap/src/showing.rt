// What each of two map files shows by its tree proof, and the bound that it tells.

ghost use Rattle.std.specs.Prelude.{◌≡◌, ◌<◌, ◌≤◌, None, MatchOption};
ghost use Rattle.tw_base.specs.declared.kinds.limits.TheConstants.{LAST_STEP};
ghost use Rattle.tw_base.specs.history.TreeProofs.{ancestors_of};
ghost use Rattle.tw_treeproof.specs.Answers.{Checks, shown_answer};
ghost use Rattle.tw_chain.specs.Finding.{found_in};
ghost use Rattle.tw_tmap.specs.Checking.{archived_if_of as archived_step_of, before_checks, before_told, first_after, high_ask as high_ask_of, high_checks, high_told, last_before, low_ask as low_ask_of, low_checks, low_told, nearest_in, step_if_of as step_of};

use crate::finding::{high_under, low_under, lower_found, with_anchor};
use crate::map_file::{HighFile, LowFile, LowPart};
use tw_base::limits::LAST_STEP;
use tw_base::{Ask, Entry, Hasher, Key, Name, Reason, Thread};
use tw_chain::{lower, with_order};
use tw_treeproof::{Shown, check};

/// What is found of a low or a high map file, and, where nothing is, the bound that it tells.
#[derive(Drop)]
pub(crate) struct Judged<T> {
    pub(crate) found: Option<Reason>,
    pub(crate) bound: T,
}

/// The step of an entry of the peer, and 0 of another one's or of none. (tw_evidence/src/judging.rt has the same.)
fn step_if_of(peer: &Name, entry: Option<Entry>) -> u64
    ensures { result ≡ step_of peer.now entry }
{
    match entry {
        Some(entry) if entry.thread.from == *peer => entry.thread.step,
        _ => 0,
    }
}

/// The archived step of an entry of the service, and none of another one's.
fn archived_if_of(service: &Name, entry: Option<Entry>) -> Option<u64>
    ensures { result ≡ archived_step_of service.now entry }
{
    match entry {
        Some(entry) if entry.thread.from == *service => Some(entry.archived),
        _ => None,
    }
}

/// The question for the service's last thread in an archive: no thread has a step of 2^40.
pub fn ask_last(service: &Name) -> Ask
    // It asks for the nearest entry below the service's key of step 2^40.
    ensures { result ≡ last_before service.now }
{
    Ask::Below(Key {
        from: *service,
        step: LAST_STEP + 1,
    })
}

/// The question for the service's first thread of this step, from 1 on, or of a later one in an archive.
pub fn ask_first(service: &Name, step: u64) -> Ask
    requires { 0 < step }
    // It asks for the nearest entry above the service's key of the step before.
    ensures { result ≡ first_after service.now step }
{
    Ask::Above(Key {
        from: *service,
        step: step - 1,
    })
}

/// The entry that the low file shows, or that none is below the asked key; none where its tree proof is
/// wrong.
fn low_entry<H: Hasher>(low: &LowFile, part: &LowPart) -> Option<Option<Entry>>
    ensures { MatchOption result (Checks H.dig part.now.opening.archive_root (low_ask_of low.now) part.now.shown → ⊥)
        (λ entry. Checks H.dig part.now.opening.archive_root (low_ask_of low.now) part.now.shown
        × (entry ≡ nearest_in (shown_answer (low_ask_of low.now) (ancestors_of part.now.shown)))) }
{
    match check::<H>(
        &part.opening.archive_root,
        &ask_last(&low.peer),
        &part.shown,
    ) {
        Shown::Nearest(entry) => Some(entry),
        Shown::Present | Shown::Absent | Shown::Wrong => None,
    }
}

/// The entry that the high file shows, or that none is above the asked key; none where its tree proof is
/// wrong.
fn high_entry<H: Hasher>(high: &HighFile) -> Option<Option<Entry>>
    requires { 0 < high.now.step }
    ensures { MatchOption result (Checks H.dig high.now.opening.archive_root (high_ask_of high.now) high.now.shown → ⊥)
        (λ entry. Checks H.dig high.now.opening.archive_root (high_ask_of high.now) high.now.shown
        × (entry ≡ nearest_in (shown_answer (high_ask_of high.now) (ancestors_of high.now.shown)))) }
{
    match check::<H>(
        &high.opening.archive_root,
        &ask_first(&high.peer, high.step),
        &high.shown,
    ) {
        Shown::Nearest(entry) => Some(entry),
        Shown::Present | Shown::Absent | Shown::Wrong => None,
    }
}

/// What is found of the step before a low file's.
fn low_before<H: Hasher>(low: &LowFile, part: &LowPart, anchors: &[Thread]) -> Judged<u64>
    requires some { 0 < low.now.step }
    requires step { low.now.step ≤ LAST_STEP }
    requires top { low.now.top ≤ LAST_STEP }
    ensures found { result.found ≡ found_in H.dig anchors.now (before_checks low.now part.now) }
    ensures bound { result.found ≡ None → result.bound ≡ before_told low.now part.now }
{
    let found = low_under::<H>(low, part, anchors);
    match low_entry::<H>(low, part) {
        Some(entry) => Judged {
            found,
            bound: step_if_of(&low.peer, entry),
        },
        None => Judged {
            found: lower(found, Reason::BadTree { part: 0 }),
            bound: 0,
        },
    }
}

/// What is found of the low file.
pub(crate) fn low_judged<H: Hasher>(low: &LowFile, anchors: &[Thread]) -> Judged<u64>
    requires some { 0 < low.now.step }
    requires step { low.now.step ≤ LAST_STEP }
    requires top { low.now.top ≤ LAST_STEP }
    ensures found { result.found ≡ found_in H.dig anchors.now (low_checks low.now) }
    ensures bound { result.found ≡ None → result.bound ≡ low_told low.now }
{
    let found = with_order(None, low.step, low.top);
    match &low.shown {
        None => Judged {
            found: with_anchor(found, &low.service, low.top, anchors),
            bound: 0,
        },
        Some(part) => {
            let before = low_before::<H>(low, part, anchors);
            Judged {
                found: lower_found(found, before.found),
                bound: before.bound,
            }
        }
    }
}

/// What is found of the high file.
pub(crate) fn high_judged<H: Hasher>(high: &HighFile, anchors: &[Thread]) -> Judged<Option<u64>>
    requires some { 0 < high.now.step }
    requires top { high.now.top ≤ LAST_STEP }
    ensures found { result.found ≡ found_in H.dig anchors.now (high_checks high.now) }
    ensures bound { result.found ≡ None → result.bound ≡ high_told high.now }
{
    let found = high_under::<H>(high, anchors);
    match high_entry::<H>(high) {
        Some(entry) => Judged {
            found,
            bound: archived_if_of(&high.peer, entry),
        },
        None => Judged {
            found: lower(found, Reason::BadTree { part: 1 }),
            bound: None,
        },
    }
}
