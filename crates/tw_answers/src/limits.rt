// The limits of stores, and the lines of the tables of refusals that need no page. The tables are defined in `specs/Limits`; the
// calls of `Service` tell theirs in their comments (tw_service/src/service.rt and asking.rt).

ghost use Rattle.std.specs.Prelude.{◌≡◌, ◌≢◌, ◌+◌, ◌-◌, ◌≤◌, ◌<◌, ◌^◌, length, false, IsNone, None};
ghost use Rattle.std.specs.Option.{option_map};
ghost use Rattle.tw_base.specs.declared.kinds.limits.TheConstants.{LAST_TIME};
ghost use Rattle.tw_base.specs.kinds.Bytes.{AreBytes};
ghost use Rattle.tw_base.specs.kinds.Lists.{Each};
ghost use Rattle.tw_answers.specs.Limits.{events_size, clock_refusal as clock_refusal_of, first_long, append_refusal as append_refusal_of, archive_refusal as archive_refusal_of, event_refusal as event_refusal_of, limits_refusal as limits_refusal_of, link_refusal as link_refusal_of, order_refusal as order_refusal_of, own_refusal as own_refusal_of, thread_refusal as thread_refusal_of, top_refusal as top_refusal_of};
ghost use Rattle.tw_base.specs.history.Limits.{MayRecord};

use tw_base::limits::{LAST_STEP, MOST_EVENT_BYTES, MOST_EVENTS, MOST_STEP_BYTES};
use tw_base::{Bytes, EventList, Name, Refusal};

/// The bytes of a root record of a history whose steps have no time; one with a time has 8 more.
pub const ROOT_BYTES: u64 = 112;

/// The bytes of a root record with a time.
pub const TIMED_ROOT_BYTES: u64 = 120;

/// The most pages that a step adds to a store, with some to spare: one of events adds at most 19, one of a thread at most 24, its own
/// and 23 of the archive's tree.
pub const MOST_PAGES_OF_A_STEP: u64 = 64;

/// The limits of a history and of its root record, by number.
pub fn limit_laws()
    // `LAST_STEP`, the greatest number of a step, is 2^40 - 1.
    ensures step { LAST_STEP ≡ 2 ^ 40 - 1 }
    // `LAST_TIME`, the greatest time that a step may claim, is 2^40 - 1.
    ensures time { LAST_TIME ≡ 2 ^ 40 - 1 }
    // `MOST_EVENTS`, the most events of a step, is 1,024.
    ensures events { MOST_EVENTS ≡ 1024 }
    // `MOST_EVENT_BYTES`, the most bytes of an event, is 1,024.
    ensures event { MOST_EVENT_BYTES ≡ 1024 }
    // `MOST_STEP_BYTES`, the most bytes of the events of a step together, is 65,536.
    ensures bytes { MOST_STEP_BYTES ≡ 65536 }
    // `MOST_PAGES_OF_A_STEP`, the most pages that a step adds to a store, is 64.
    ensures pages { MOST_PAGES_OF_A_STEP ≡ 64 }
    // `ROOT_BYTES`, the bytes of a root record of a history whose steps have no time, is 112.
    ensures root { ROOT_BYTES ≡ 112 }
    // `TIMED_ROOT_BYTES`, the bytes of one with a time, is 120.
    ensures timed { TIMED_ROOT_BYTES ≡ 120 }
{}

/// The length of an event.
fn event_length(event: &[u8]) -> u64
    ensures value { result ≡ length event.now }
    ensures bytes { AreBytes event.now }
{
    event.len() as u64
}

/// The length of the first event that is longer than 1,024 bytes.
fn first_long_length(events: &[Bytes]) -> Option<u64>
    ensures answer { result ≡ option_map (λ event. length event) (first_long events.now) }
    ensures bytes { IsNone result → Each AreBytes events.now }
{
    for event in events {
        let size = event_length(event.as_slice());
        if size > MOST_EVENT_BYTES {
            return Some(size);
        }
    }
    None
}

/// The bytes of all events.
fn total_bytes(events: &[Bytes]) -> u64
    requires { events_size events.now < 2 ^ 64 }
    ensures { result ≡ events_size events.now }
{
    let mut bytes = 0;
    for event in events {
        bytes += event.len() as u64;
    }
    bytes
}

/// The refusal of events beyond the limits of a step.
#[tactic(auto, unfolding(crate::specs::Limits::limits_refusal))]
pub fn limits_refusal(events: &EventList) -> Option<Refusal>
    ensures answer { result ≡ limits_refusal_of events.now }
    ensures within { IsNone result → MayRecord events.now }
{
    let count = events.len() as u64;
    if count > MOST_EVENTS {
        return Some(Refusal::TooMany { count });
    }
    if let Some(bytes) = first_long_length(events.as_slice()) {
        return Some(Refusal::TooLong { bytes });
    }
    let bytes = total_bytes(events.as_slice());
    if bytes > MOST_STEP_BYTES {
        return Some(Refusal::TooLong { bytes });
    }
    None
}

/// The refusal of a time that is below the greatest one so far.
fn clock_refusal(clock: Option<u64>, time: Option<u64>) -> Option<Refusal>
    ensures { result ≡ clock_refusal_of clock time }
{
    let last = clock?;
    let given = time?;
    if given < last {
        return Some(Refusal::ClockBack { last, given });
    }
    None
}

/// The refusal of one more step of these events, with this time or none, by the table of `append`;
/// `clock` is the greatest time so far.
#[tactic(auto, unfolding(crate::specs::Limits::append_refusal))]
pub fn append_refusal(
    is_broken: bool,
    steps: u64,
    clock: Option<u64>,
    events: &EventList,
    time: Option<u64>,
) -> Option<Refusal>
    requires { steps ≤ LAST_STEP }
    ensures answer { result ≡ append_refusal_of is_broken steps clock events.now time }
    ensures room { IsNone result → steps < LAST_STEP }
    ensures within { IsNone result → MayRecord events.now }
    ensures clock { IsNone result → clock_refusal_of clock time ≡ None }
    ensures whole { IsNone result → is_broken ≡ false }
{
    if is_broken {
        return Some(Refusal::Reopen);
    }
    if steps >= LAST_STEP {
        return Some(Refusal::Full);
    }
    if let Some(refusal) = limits_refusal(events) {
        return Some(refusal);
    }
    clock_refusal(clock, time)
}

/// The refusal of a message of this service by one of that name, by the first lines of the table of
/// `receive`.
#[tactic(auto, unfolding(crate::specs::Limits::own_refusal))]
pub fn own_refusal(is_broken: bool, name: &Name, from: &Name) -> Option<Refusal>
    ensures answer { result ≡ own_refusal_of is_broken name.now from.now }
    ensures whole { IsNone result → is_broken ≡ false }
    ensures other { IsNone result → from.now ≢ name.now }
{
    if is_broken {
        return Some(Refusal::Reopen);
    }
    if *from == *name {
        return Some(Refusal::Own);
    }
    None
}

/// The refusal of one more step that archives a thread, with this time or none, by the last lines of the
/// table of `receive`; `clock` is the greatest time so far.
#[tactic(auto, unfolding(crate::specs::Limits::archive_refusal))]
pub fn archive_refusal(steps: u64, clock: Option<u64>, time: Option<u64>) -> Option<Refusal>
    requires { steps ≤ LAST_STEP }
    ensures answer { result ≡ archive_refusal_of steps clock time }
    ensures room { IsNone result → steps < LAST_STEP }
    ensures clock { IsNone result → clock_refusal_of clock time ≡ None }
{
    if steps == LAST_STEP {
        return Some(Refusal::Full);
    }
    clock_refusal(clock, time)
}

/// The refusal of the message of the last step with a path down to an earlier one, which may be 0, by the table of
/// `thread_out`.
#[tactic(auto, unfolding(crate::specs::Limits::thread_refusal))]
pub fn thread_refusal(is_broken: bool, last: u64, since: u64) -> Option<Refusal>
    ensures answer { result ≡ thread_refusal_of is_broken last since }
    ensures order { IsNone result → (1 ≤ last) × (since ≤ last) }
    ensures whole { IsNone result → is_broken ≡ false }
{
    if is_broken {
        return Some(Refusal::Reopen);
    }
    if 0 < last && since <= last {
        return None;
    }
    Some(Refusal::NoStep { last })
}

/// The refusal of a proof of a step's authenticator under a top, by the table of `prove_link` of `Service`. The step may be 0, as
/// every history has an authenticator there; so only the top has to be 1 or above.
#[tactic(auto, unfolding(crate::specs::Limits::link_refusal))]
pub fn link_refusal(is_broken: bool, last: u64, step: u64, top: u64) -> Option<Refusal>
    ensures answer { result ≡ link_refusal_of is_broken last step top }
    ensures order { IsNone result → (1 ≤ top) × (step ≤ top) × (top ≤ last) }
    ensures whole { IsNone result → is_broken ≡ false }
{
    if is_broken {
        return Some(Refusal::Reopen);
    }
    if step <= top && 1 <= top && top <= last {
        return None;
    }
    Some(Refusal::NoStep { last })
}

/// The refusal of a proof of a step under a top, by the first two lines of the table of
/// `prove_event`.
#[tactic(auto, unfolding(crate::specs::Limits::order_refusal))]
pub fn order_refusal(is_broken: bool, last: u64, step: u64, top: u64) -> Option<Refusal>
    ensures answer { result ≡ order_refusal_of is_broken last step top }
    ensures order { IsNone result → (1 ≤ step) × (step ≤ top) × (top ≤ last) }
    ensures whole { IsNone result → is_broken ≡ false }
{
    if is_broken {
        return Some(Refusal::Reopen);
    }
    if 1 <= step && step <= top && top <= last {
        return None;
    }
    Some(Refusal::NoStep { last })
}

/// The refusal of a high map file under a top, by the table of `prove_high`.
#[tactic(auto, unfolding(crate::specs::Limits::top_refusal))]
pub fn top_refusal(is_broken: bool, last: u64, top: u64) -> Option<Refusal>
    ensures answer { result ≡ top_refusal_of is_broken last top }
    ensures order { IsNone result → (1 ≤ top) × (top ≤ last) }
    ensures whole { IsNone result → is_broken ≡ false }
{
    if is_broken {
        return Some(Refusal::Reopen);
    }
    if 1 <= top && top <= last {
        return None;
    }
    Some(Refusal::NoStep { last })
}

/// The refusal of an index that isn't below the count of events.
#[tactic(auto, unfolding(crate::specs::Limits::event_refusal))]
pub fn event_refusal(count: u32, index: u64) -> Option<Refusal>
    ensures answer { result ≡ event_refusal_of count index }
    ensures below { IsNone result → index < count }
{
    if index < count as u64 {
        return None;
    }
    Some(Refusal::NoEvent { count })
}
