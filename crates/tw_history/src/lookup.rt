// What a history in memory has at a step; of pages tw_skiplist/src/reading.rt tells it.

ghost use Rattle.std.specs.Prelude.{◌≡◌, ◌+◌, ◌^◌, ◌<◌, ◌≤◌, length, take, sum_by, Some, slice_get, IfNone, IfSome, OnSome};
ghost use Rattle.tw_base.specs.history.History.{entry_to, events_at, step_at, thread_of, time_at};
ghost use Rattle.tw_base.specs.history.Limits.{IsTimeWithinLimits};
ghost use Rattle.tw_base.specs.kinds.Lists.{Each};
ghost use Rattle.tw_base.specs.history.Tree.{forest};
ghost use Rattle.tw_history.specs.Tables.{IsInRange, IsTable, step_of, steps_of_table};
ghost use Rattle.tw_base.specs.history.HistoryCodec.{thread_in};
ghost use Rattle.tw_history.specs.PassSteps.{passed_events};
ghost use Rattle.tw_base.specs.declared.kinds.limits.TheConstants.{LAST_STEP};

use crate::history::History;
use crate::step::{Node, Step};
use tw_base::{Content, Entry, Thread};

/// The steps and the nodes that the history is a table of.
pub fn table_of(history: &History) -> (&[Step], &[Node])
    ensures steps { history.now.steps ≡ steps_of_table result.0.now result.1.now }
    ensures count { length history.now.steps ≡ length result.0.now }
    ensures table { IsTable result.0.now result.1.now }
{
    (history.steps.as_slice(), history.nodes.as_slice())
}

/// The number of the history's steps.
pub fn count_of_steps(history: &History) -> u64
    ensures count { result ≡ length history.now.steps }
    ensures few { result ≤ LAST_STEP }
{
    let (steps, _) = table_of(history);
    steps.len() as u64
}

/// The step at this index, with the nodes that it adds to those of the steps before it, which are `before` many.
fn step_with_nodes<'a>(
    steps: &'a [Step],
    nodes: &'a [Node],
    index: usize,
    before: usize,
) -> (&'a Step, &'a [Node])
    requires inside { index < length steps.now }
    requires counted { sum_by (λ s. s.fresh) steps.now ≡ length nodes.now }
    requires before { before ≡ sum_by (λ s. s.fresh) (take index steps.now) }
    requires contents { Each (λ s. IsInRange s.content) steps.now }
    ensures step { slice_get (steps_of_table steps.now nodes.now) index ≡ Some (step_of result.0.now result.1.now) }
    ensures content { IsInRange result.0.now.content }
{
    let step = &steps[index];
    let fresh = step.fresh as usize;
    (step, &nodes[before..before + fresh])
}

/// The step behind the first `index` steps, with the nodes that it adds to those of the steps
/// before it, which are `before` many.
pub(crate) fn step_behind(history: &History, index: u64, before: usize) -> (&Step, &[Node])
    requires inside { index < length history.now.steps }
    requires before { length (forest history.now index) ≡ before + 1 }
    ensures step { slice_get history.now.steps index ≡ Some (step_of result.0.now result.1.now) }
    ensures content { IsInRange result.0.now.content }
    ensures few { length history.now.steps ≤ LAST_STEP }
{
    let (steps, nodes) = table_of(history);
    step_with_nodes(steps, nodes, index as usize, before)
}

/// The content of the step behind the first `index` steps.
pub(crate) fn content_behind(history: &History, index: u64) -> &Content
    requires { index < length history.now.steps }
    ensures events { events_at history.now (index + 1) ≡ passed_events result.now }
    ensures thread { thread_of (step_at history.now (index + 1)) ≡ thread_in result.now }
    ensures range { IsInRange result.now }
{
    let (steps, _) = table_of(history);
    &steps[index as usize].content
}

/// The time of the step behind the first `index` steps, if it has one.
pub(crate) fn time_behind(history: &History, index: u64) -> Option<u64>
    requires { index < length history.now.steps }
    ensures time { result ≡ time_at history.now (index + 1) }
    ensures limit { IsTimeWithinLimits result }
{
    let (steps, _) = table_of(history);
    steps[index as usize].time
}

/// The content of the step, if the history has it: the steps count from 1.
pub(crate) fn content_at(history: &History, step: u64) -> Option<&Content>
    ensures none { IfNone result ((0 < step) × (step ≤ length history.now.steps) → ⊥) }
    ensures step { OnSome result ((0 < step) × (step ≤ length history.now.steps)) }
    ensures events { IfSome result (λ content. events_at history.now step ≡ passed_events content.now) }
    ensures thread { IfSome result (λ content. thread_of (step_at history.now step) ≡ thread_in content.now) }
    ensures range { IfSome result (λ content. IsInRange content.now) }
{
    if step == 0 || step > count_of_steps(history) {
        None
    } else {
        Some(content_behind(history, step - 1))
    }
}

/// The thread that the content is, if it is one.
fn thread_of_content(content: &Content) -> Option<Thread>
    ensures { result ≡ thread_in content.now }
{
    match content {
        Content::Events(_) => None,
        Content::Received(thread) => Some(*thread.get()),
    }
}

/// The thread that the step received, if it received one.
pub(crate) fn thread_at(history: &History, step: u64) -> Option<Thread>
    ensures { result ≡ thread_of (step_at history.now step) }
{
    match content_at(history, step) {
        None => None,
        Some(content) => thread_of_content(content),
    }
}

/// The archive's entry of the thread that the step received, if it received one and isn't above the
/// last one that counts.
pub(crate) fn entry_up_to(history: &History, last: u64, step: u64) -> Option<Entry>
    ensures { result ≡ entry_to history.now last step }
{
    if step > last {
        return None;
    }
    match thread_at(history, step) {
        None => None,
        Some(thread) => Some(Entry {
            thread,
            archived: step,
        }),
    }
}
