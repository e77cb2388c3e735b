// The first steps of a history in memory, copied; tw_export copies steps from pages, and tw_join/src/copying.rt parts of proofs.

ghost use Rattle.std.specs.Prelude.{◌≡◌, ◌≤◌, length, sum_by, IfOk};
ghost use Rattle.tw_base.specs.declared.kinds.limits.TheConstants.{LAST_STEP};
ghost use Rattle.tw_adopt.specs.HistoryFronts.{first_steps as first_steps_of};
ghost use Rattle.tw_history.specs.Tables.{IsTable, steps_of_table};

use std::alloc::Global;
use tw_base::{Bytes, Content, EventList, Name, NoMemory, ReceivedThread, StepEvents};
use tw_history::{History, Node, Nodes, Step, Steps, table_of};

/// A copy of the events.
fn copy_events(alloc: Global, events: &[Bytes]) -> Result<StepEvents, NoMemory>
    ensures { IfOk result (λ copies. copies ≡ events.now) }
{
    let mut copies = EventList::with_capacity(alloc, events.len())?;
    for event in events {
        copies.push(Bytes::from_slice(alloc, event.as_slice())?)?;
    }
    Ok(StepEvents::new(copies))
}

/// A copy of what a step records.
fn copy_content(alloc: Global, content: &Content) -> Result<Content, NoMemory>
    ensures { IfOk result (λ copy. copy ≡ content.now) }
{
    match content {
        Content::Events(events) => Ok(Content::Events(copy_events(alloc, events.as_slice())?)),
        Content::Received(thread) => {
            Ok(Content::Received(ReceivedThread::new(alloc, *thread.get())?))
        }
    }
}

/// A copy of the step.
fn copy_step(alloc: Global, step: &Step) -> Result<Step, NoMemory>
    ensures { IfOk result (λ copy. copy ≡ step.now) }
{
    Ok(Step {
        content: copy_content(alloc, &step.content)?,
        time: step.time,
        fresh: step.fresh,
        root: step.root,
    })
}

/// Copies of the steps.
fn copy_steps(alloc: Global, steps: &[Step]) -> Result<Steps, NoMemory>
    ensures { IfOk result (λ copies. copies ≡ steps.now) }
{
    let mut copies = Steps::with_capacity(alloc, steps.len())?;
    for step in steps {
        copies.push(copy_step(alloc, step)?)?;
    }
    Ok(copies)
}

/// Copies of the nodes.
fn copy_nodes(alloc: Global, nodes: &[Node]) -> Result<Nodes, NoMemory>
    ensures { IfOk result (λ copies. copies ≡ nodes.now) }
{
    Ok(Nodes::from_vec(Vec::from_slice(alloc, nodes)?))
}

/// How many nodes the steps add.
fn count_nodes(steps: &[Step]) -> usize
    requires { length steps.now ≤ LAST_STEP }
    ensures { result ≡ sum_by (λ s. s.fresh) steps.now }
{
    let mut count = 0;
    for step in steps {
        count += step.fresh as usize;
    }
    count
}

/// The history of a service that copies of the steps and nodes stand for.
fn copy_table(
    alloc: Global,
    name: &Name,
    steps: &[Step],
    nodes: &[Node],
) -> Result<History, NoMemory>
    requires { IsTable steps.now nodes.now }
    ensures { IfOk result (λ copy. copy ≡ record { name = name.now; steps = steps_of_table steps.now nodes.now }) }
{
    let nodes = copy_nodes(alloc, nodes)?;
    let steps = copy_steps(alloc, steps)?;
    Ok(History::new(*name, steps, nodes))
}

/// The history of the first so many steps of a history, at most all, with copies of what they hold.
pub(crate) fn first_steps(alloc: Global, history: &History, count: u64) -> Result<History, NoMemory>
    requires { count ≤ length history.now.steps }
    ensures { IfOk result (λ first. first ≡ first_steps_of history.now count) }
{
    let (steps, nodes) = table_of(history);
    let (first, _) = steps.split_at(count as usize);
    let (known, _) = nodes.split_at(count_nodes(first));
    copy_table(alloc, history.service(), first, known)
}
