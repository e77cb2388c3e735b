// Which rule of sound histories two files break by what they say; `contradicting.rt` makes a verdict of it.

ghost use Rattle.std.specs.Prelude.{◌≡◌, ◌-◌};
ghost use Rattle.tw_contradict.specs.Rules.{are_at_one_step as at_one_step, are_two as two, breaks as breaks_rule, broken as broken_by, by_entries, conflict_of as conflict_in, differ_at as differ, do_fall as fall, first_broken as first_broken_of, goes_back as clock_back, has_events_too as events_too, has_other_empty_root as other_empty_root, has_other_genesis as other_genesis, is_denied as denied, is_own as own, is_received_later as received_later, is_same_key as same_key, lacks_entry as lacks, times_fall as fall_back};

use crate::facts::{Conflict, Facts, Lack, Rule};
use tw_base::{Digest, Entry, Hasher, genesis, is_same_digest, no_events};

/// The rules, in the order in which they are looked at.
const RULES: [Rule; 15] = [
    Rule::Denied,
    Rule::OwnThread,
    Rule::ReceivedLater,
    Rule::TwoEntries,
    Rule::TwoAtOneStep,
    Rule::StepsFall,
    Rule::EventsToo,
    Rule::ClockBack,
    Rule::TwoAuthenticators,
    Rule::OtherThanLine,
    Rule::TwoLines,
    Rule::OtherBefore,
    Rule::OtherBeforeLine,
    Rule::OtherGenesis,
    Rule::OtherEmptyRoot,
];

/// Whether the lack is of the entry's service and step, up to the step that received it or a later one.
fn lacks_entry(lack: &Lack, entry: &Entry) -> bool
    ensures { result ≡ lacks lack.now entry.now }
{
    entry.thread.from == lack.peer
        && lack.above < entry.thread.step
        && entry.thread.step <= lack.last
        && entry.archived <= lack.upto
}

/// Whether both threads are of one service and step.
fn is_same_key(one: &Entry, other: &Entry) -> bool
    ensures { result ≡ same_key one.now other.now }
{
    one.thread.from == other.thread.from && one.thread.step == other.thread.step
}

/// Whether they are, and have two authenticators or were received by two steps.
fn are_two(one: &Entry, other: &Entry) -> bool
    ensures { result ≡ two one.now other.now }
{
    let is_one = is_same_digest(&one.thread.auth, &other.thread.auth)
        && one.archived == other.archived;
    is_same_key(one, other) && !is_one
}

/// Whether one step received both, and they are of two services or steps.
fn are_at_one_step(one: &Entry, other: &Entry) -> bool
    ensures { result ≡ at_one_step one.now other.now }
{
    one.archived == other.archived && !is_same_key(one, other)
}

/// Whether both are of one service, and the one of the lower step was received later.
fn do_fall(one: &Entry, other: &Entry) -> bool
    ensures { result ≡ fall one.now other.now }
{
    one.thread.from == other.thread.from
        && one.thread.step < other.thread.step
        && other.archived < one.archived
}

/// Whether both authenticators are of one step, and differ.
fn differ_at(step: u64, auth: &Digest, at: u64, other: &Digest) -> bool
    ensures { result ≡ differ step auth.now at other.now }
{
    step == at && !is_same_digest(auth, other)
}

/// Whether both times are there, and the later step's is the lower one.
fn times_fall(earlier: Option<u64>, later: Option<u64>) -> bool
    ensures { result ≡ fall_back earlier later }
{
    match (earlier, later) {
        (Some(time), Some(next)) => next < time,
        _ => false,
    }
}

/// Whether the one shows an entry which the other lacks.
fn is_denied(one: &Facts, other: &Facts) -> bool
    ensures { result ≡ denied one.now other.now }
{
    match (&one.entry, &other.lack) {
        (Some(entry), Some(lack)) => lacks_entry(lack, entry),
        _ => false,
    }
}

/// Whether the archive has a thread of its own service.
fn is_own(one: &Facts) -> bool
    ensures { result ≡ own one.now }
{
    match &one.entry {
        Some(entry) => entry.thread.from == one.service,
        None => false,
    }
}

/// Whether the archive has a thread that a later step received.
fn is_received_later(one: &Facts) -> bool
    ensures { result ≡ received_later one.now }
{
    match &one.entry {
        Some(entry) => one.step < entry.archived,
        None => false,
    }
}

/// Whether a thread of one service and step has two authenticators, or two steps received it.
fn are_entries_two(one: &Facts, other: &Facts) -> bool
    ensures { result ≡ by_entries two one.now other.now }
{
    match (&one.entry, &other.entry) {
        (Some(entry), Some(also)) => are_two(entry, also),
        _ => false,
    }
}

/// Whether one step received two threads.
fn are_received_at_once(one: &Facts, other: &Facts) -> bool
    ensures { result ≡ by_entries at_one_step one.now other.now }
{
    match (&one.entry, &other.entry) {
        (Some(entry), Some(also)) => are_at_one_step(entry, also),
        _ => false,
    }
}

/// Whether of two threads of one service that of the lower step was received later.
fn do_steps_fall(one: &Facts, other: &Facts) -> bool
    ensures { result ≡ by_entries fall one.now other.now }
{
    match (&one.entry, &other.entry) {
        (Some(entry), Some(also)) => do_fall(entry, also),
        _ => false,
    }
}

/// Whether a step that received a thread has events.
fn has_events_too(one: &Facts, other: &Facts) -> bool
    ensures { result ≡ events_too one.now other.now }
{
    match &one.entry {
        Some(entry) => entry.archived == other.step && 0 < other.count,
        None => false,
    }
}

/// Whether an earlier step has a later time.
fn goes_back(one: &Facts, other: &Facts) -> bool
    ensures { result ≡ clock_back one.now other.now }
{
    one.step < other.step && times_fall(one.time, other.time)
}

/// Whether the step goes on from another authenticator than this one of the step before it.
fn goes_on_from_another(one: &Facts, before: u64, auth: &Digest) -> bool
    ensures { result ≡ differ (one.now.step - 1) one.now.before before auth.now }
{
    differ_at(one.step.saturating_sub(1), &one.before, before, auth)
}

/// Whether the first step doesn't go on from the service's step 0.
fn has_other_genesis<H: Hasher>(one: &Facts) -> bool
    ensures { result ≡ other_genesis H.dig one.now }
{
    goes_on_from_another(one, 0, &genesis::<H>(&one.service))
}

/// Whether a step without events has another root than that of none, or one with events has that root.
fn has_other_empty_root<H: Hasher>(one: &Facts) -> bool
    ensures { result ≡ other_empty_root H.dig one.now }
{
    let is_root_of_none = is_same_digest(&one.event_root, &no_events::<H>());
    if one.count == 0 {
        !is_root_of_none
    } else {
        is_root_of_none
    }
}

/// Whether both files break the rule, in this order.
#[tactic(auto, unfolding(crate::specs::Rules::breaks))]
fn breaks<H: Hasher>(rule: Rule, one: &Facts, other: &Facts) -> bool
    ensures { result ≡ breaks_rule H.dig rule one.now other.now }
{
    match rule {
        Rule::Denied => is_denied(one, other),
        Rule::OwnThread => is_own(one),
        Rule::ReceivedLater => is_received_later(one),
        Rule::TwoEntries => are_entries_two(one, other),
        Rule::TwoAtOneStep => are_received_at_once(one, other),
        Rule::StepsFall => do_steps_fall(one, other),
        Rule::EventsToo => has_events_too(one, other),
        Rule::ClockBack => goes_back(one, other),
        Rule::TwoAuthenticators => differ_at(one.step, &one.auth, other.step, &other.auth),
        Rule::OtherThanLine => differ_at(one.line.step, &one.line.auth, other.step, &other.auth),
        Rule::TwoLines => differ_at(
            one.line.step,
            &one.line.auth,
            other.line.step,
            &other.line.auth,
        ),
        Rule::OtherBefore => goes_on_from_another(one, other.step, &other.auth),
        Rule::OtherBeforeLine => goes_on_from_another(one, other.line.step, &other.line.auth),
        Rule::OtherGenesis => has_other_genesis::<H>(one),
        Rule::OtherEmptyRoot => has_other_empty_root::<H>(one),
    }
}

/// What both files break of the rule, in this order or in the other.
#[tactic(auto, unfolding(crate::specs::Rules::broken))]
fn broken<H: Hasher>(rule: Rule, one: &Facts, other: &Facts) -> Option<Conflict>
    ensures { result ≡ broken_by H.dig rule one.now other.now }
{
    if breaks::<H>(rule, one, other) {
        return Some(Conflict {
            rule,
            one: *one,
            other: *other,
        });
    }
    if breaks::<H>(rule, other, one) {
        return Some(Conflict {
            rule,
            one: *other,
            other: *one,
        });
    }
    None
}

/// The first of these rules that both files break.
#[tactic(auto, unfolding(crate::specs::Rules::first_broken))]
fn first_broken<H: Hasher>(rules: &[Rule], one: &Facts, other: &Facts) -> Option<Conflict>
    ensures { result ≡ first_broken_of H.dig rules.now one.now other.now }
{
    match rules.split_first() {
        None => None,
        Some((rule, more)) => match broken::<H>(*rule, one, other) {
            Some(conflict) => Some(conflict),
            None => first_broken::<H>(more, one, other),
        },
    }
}

/// The first rule that both files break; none where they are of two services.
#[tactic(auto, unfolding(crate::specs::Rules::conflict_of))]
pub(crate) fn conflict_of<H: Hasher>(one: &Facts, other: &Facts) -> Option<Conflict>
    ensures { result ≡ conflict_in H.dig one.now other.now }
{
    if one.service == other.service {
        first_broken::<H>(&RULES, one, other)
    } else {
        None
    }
}
