// What is looked at of a step's thread and of its events, while a history is judged.

ghost use Rattle.std.specs.Prelude.{◌≡◌, ◌≢◌, ◌↔◌, ◌≤◌, List, [], length, sum_by, Some, IsTrue, IfSome};
ghost use Rattle.std.specs.Option.{option_to_list};
ghost use Rattle.tw_base.specs.declared.history.thread.Entry.{Entry};
ghost use Rattle.tw_base.specs.kinds.Lists.{Each};
ghost use Rattle.tw_base.specs.kinds.Bytes.{AreBytes};
ghost use Rattle.tw_base.specs.history.Limits.{FitTogether, IsWithinLimits};
ghost use Rattle.tw_base.specs.history.History.{events_of, thread_of};
ghost use Rattle.tw_history.specs.JudgingSteps.{IsGreatest, IsLater, greatest_of};
ghost use Rattle.tw_history.specs.Tables.{IsInRange, step_of};
ghost use Rattle.tw_base.specs.declared.kinds.limits.TheConstants.{MOST_EVENTS, MOST_EVENT_BYTES};

use super::greatest::GreatestSteps;
use crate::step::Step;
use tw_base::limits::MOST_STEP_BYTES;
use tw_base::{Bytes, Content, Name, Thread, see_bytes, see_digest, see_name};

/// The thread that the step received; None where it has events. (`thread_of_content` of `lookup.rt` does this of a content.)
pub(super) fn received_thread(step: &Step) -> Option<Thread>
    ensures { result ≡ thread_of (Some (step_of step.now [])) }
{
    match &step.content {
        Content::Events(_) => None,
        Content::Received(thread) => Some(*thread.get()),
    }
}

/// How many threads there are: one or none.
pub(super) fn count(thread: &Option<Thread>) -> u64
    ensures { result ≡ length (option_to_list thread.now) }
{
    match thread {
        Some(_) => 1,
        None => 0,
    }
}

/// Whether a thread is of another service than this.
pub(super) fn is_of_another(own: &Name, thread: &Option<Thread>) -> bool
    ensures { IsTrue result ↔ IfSome thread.now (λ t. t.from ≢ own.now) }
{
    match thread {
        Some(thread) => thread.from != *own,
        None => true,
    }
}

/// Whether the step of a thread is above the greatest one of its service.
pub(super) fn is_later(greatest: &GreatestSteps, thread: &Option<Thread>) -> bool
    ensures { (es : List Entry) → IsGreatest es (greatest_of greatest.now)
        → (IsTrue result ↔ IfSome thread.now (λ t. IsLater t es)) }
{
    match thread {
        Some(thread) => match greatest.of(&thread.from) {
            Some(step) => step < thread.step,
            None => true,
        },
        None => true,
    }
}

/// Whether the events of the step have together at most 65,536 bytes.
pub(super) fn events_fit(step: &Step) -> bool
    requires { IsInRange step.now.content }
    ensures { IsTrue result ↔ FitTogether (events_of (Some (step_of step.now []))) }
{
    match &step.content {
        Content::Events(events) => total_size(events.as_slice()) as u64 <= MOST_STEP_BYTES,
        Content::Received(_) => true,
    }
}

/// The number of bytes of the events together.
fn total_size(events: &[Bytes]) -> usize
    requires count { length events.now ≤ MOST_EVENTS }
    requires sizes { Each (λ event. length event ≤ MOST_EVENT_BYTES) events.now }
    ensures { result ≡ sum_by (λ event. length event) events.now }
{
    let mut total = 0;
    for event in events {
        total += event.len();
    }
    total
}

/// Tells a proof that what a step of a table records is within the limits: names, digests and bytes are so by their types.
pub(super) fn limits_law(content: &Content)
    requires { IsInRange content.now }
    ensures { IsWithinLimits content.now }
{
    match content {
        Content::Events(events) => events_law(events.as_slice()),
        Content::Received(thread) => {
            let thread = thread.get();
            see_name(&thread.from);
            see_digest(&thread.auth);
        }
    }
}

/// Tells a proof that each event is a list of bytes.
fn events_law(events: &[Bytes])
    ensures { Each AreBytes events.now }
{
    for event in events {
        see_bytes(event.as_slice());
    }
}
