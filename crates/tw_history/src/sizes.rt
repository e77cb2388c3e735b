// How many bytes the file of a history in memory has, told before one is written; tw_export counts as it appends.

ghost use Rattle.std.specs.Prelude.{◌≡◌, ◌+◌, ◌*◌, ◌<◌, ◌≤◌, ◌^◌, length, sum_by};
ghost use Rattle.std.specs.Option.{option_map_or};
ghost use Rattle.tw_base.specs.kinds.Lists.{Each};
ghost use Rattle.tw_base.specs.history.HistoryCodec.{content_codec, event_codec, history_bytes, recorded_codec};
ghost use Rattle.tw_history.specs.Tables.{IsInRange};
ghost use Rattle.tw_history.specs.WritingSteps.{has_events, step_size as step_size_of};
ghost use Rattle.tw_base.specs.declared.kinds.limits.TheConstants.{LAST_STEP, MOST_EVENTS, MOST_EVENT_BYTES};

use crate::history::History;
use crate::step::Step;
use tw_base::{Bytes, Content};

/// The number of bytes of the history's file: 12 of `TWH1` and of the number of steps, those of the name, and those of the steps.
pub(crate) fn file_size(history: &History) -> u64
    ensures { result ≡ length (history_bytes history.now) }
{
    let name = history.name.as_bytes();
    12 + name.len() as u64 + steps_size(history.steps.as_slice())
}

/// The number of bytes of the steps.
fn steps_size(steps: &[Step]) -> u64
    requires contents { Each (λ s. IsInRange s.content) steps.now }
    requires few { length steps.now ≤ LAST_STEP }
    ensures size { result ≡ sum_by step_size_of steps.now }
    ensures small { result < 2 ^ 62 }
{
    let mut size = 0;
    for step in steps {
        size += step_size(step);
    }
    size
}

/// The number of bytes of the step with its new nodes: 16 for each of these, and 6 of their number and of the root.
fn step_size(step: &Step) -> u64
    requires { IsInRange step.now.content }
    ensures size { result ≡ step_size_of step.now }
    ensures small { result < 2 ^ 22 }
{
    recorded_size(step.time, &step.content) + 16 * step.fresh as u64 + 6
}

/// The number of bytes of what a step records: its kind, its time, if any, and its content.
fn recorded_size(time: Option<u64>, content: &Content) -> u64
    requires { IsInRange content.now }
    ensures size { result ≡ length (recorded_codec.write (time, content.now)) }
    ensures small { result < 2 ^ 21 + 9 }
{
    1 + time_size(time) + content_size(content)
}

/// The number of bytes of the time, if there is one.
fn time_size(time: Option<u64>) -> u64
    ensures size { result ≡ option_map_or (λ _. 8) time 0 }
    ensures small { result ≤ 8 }
{
    match time {
        Some(_) => 8,
        None => 0,
    }
}

/// The number of bytes of the content.
fn content_size(content: &Content) -> u64
    requires { IsInRange content.now }
    ensures size { result ≡ length ((content_codec (has_events content.now)).write content.now) }
    ensures small { result < 2 ^ 21 }
{
    match content {
        Content::Events(events) => 4 + events_size(events.as_slice()),
        Content::Received(thread) => {
            let thread = thread.get();
            let name = thread.from.as_bytes();
            let auth = &thread.auth.0;
            8 + name.len() as u64 + auth.len() as u64
        }
    }
}

/// The number of bytes of the events, each behind its length.
fn events_size(events: &[Bytes]) -> u64
    requires few { length events.now ≤ MOST_EVENTS }
    requires sizes { Each (λ event. length event ≤ MOST_EVENT_BYTES) events.now }
    ensures size { result ≡ sum_by (λ event. length (event_codec.write event)) events.now }
    ensures small { result ≤ 1028 * length events.now }
{
    let mut size = 0;
    for event in events {
        size += event_size(event);
    }
    size
}

/// The number of bytes of the event behind its length.
fn event_size(event: &Bytes) -> u64
    requires { length event.now ≤ MOST_EVENT_BYTES }
    ensures size { result ≡ length (event_codec.write event.now) }
    ensures small { result ≤ 1028 }
{
    4 + event.len() as u64
}
