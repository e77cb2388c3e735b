// Taking the steps of a history's file one after another into a table, for `reading.rt`.

ghost use Rattle.std.specs.Prelude.{◌≡◌, ℕ, ◌+◌, ◌^◌, ◌<◌, ◌≤◌, ◌++◌, length, map, IfOk};
ghost use Rattle.tw_base.specs.declared.kinds.limits.TheConstants.{LAST_STEP};
ghost use Rattle.tw_base.specs.format.Codecs.{counted, many};
ghost use Rattle.tw_base.specs.history.HistoryCodec.{node_codec, step_codec};
ghost use Rattle.tw_base.specs.history.Limits.{IsTimeWithinLimits};
ghost use Rattle.tw_base.specs.kinds.Lists.{Each};
ghost use Rattle.tw_base.specs.format.Taking.{Takes};
ghost use Rattle.tw_history.specs.declared.reading_steps.Table.{Table};
ghost use Rattle.tw_history.specs.declared.step.Step.{Step};
ghost use Rattle.tw_history.specs.Tables.{IsInRange, IsTable, added_behind, node_of, step_of, steps_of_table};

use crate::step::{Node, Nodes, Step, Steps};
use std::alloc::Global;
use tw_base::limits::LAST_STEP;
use tw_base::{ReadFault, take_number, take_recorded};

/// The steps read so far, and their nodes.
#[derive(Drop)]
pub(crate) struct Table {
    pub(crate) steps: Steps,
    pub(crate) nodes: Nodes,
}

/// Takes a node.
#[tactic(auto, unfolding(tw_base::specs::history::HistoryCodec::node_codec, tw_base::specs::format::Seen::codecs))]
fn take_node(bytes: &[u8], at: &mut u64) -> Result<Node, ReadFault>
    requires { at.old ≤ length bytes.now }
    ensures takes { Takes node_codec node_of bytes.now at.old at.new result }
    ensures entry { IfOk result (λ n. n.entry < 2 ^ 64) }
{
    let left = take_number(bytes, at, 4, 0, u32::MAX as u64)?;
    let entry = take_number(bytes, at, 8, 0, u64::MAX)?;
    let right = take_number(bytes, at, 4, 0, u32::MAX as u64)?;
    Ok(Node {
        left: left as u32,
        entry,
        right: right as u32,
    })
}

/// Takes so many nodes, and appends them.
fn take_nodes(bytes: &[u8], at: &mut u64, count: u64, nodes: &mut Nodes) -> Result<(), ReadFault>
    requires within { at.old ≤ length bytes.now }
    requires entries { Each (λ n. n.entry < 2 ^ 64) nodes.old }
    ensures takes { Takes (many count node_codec) (λ _. map node_of (added_behind nodes.old nodes.new)) bytes.now at.old at.new result }
    ensures kept { IfOk result (λ _. nodes.new ≡ nodes.old ++ added_behind nodes.old nodes.new) }
    ensures count { IfOk result (λ _. length nodes.new ≡ length nodes.old + count) }
    ensures entries { IfOk result (λ _. Each (λ n. n.entry < 2 ^ 64) nodes.new) }
{
    for _i in 0..count {
        nodes.push(take_node(bytes, at)?)?;
    }
    Ok(())
}

/// Takes the number of a step's new nodes, and each of them, and appends them.
fn take_fresh(bytes: &[u8], at: &mut u64, nodes: &mut Nodes) -> Result<u16, ReadFault>
    requires within { at.old ≤ length bytes.now }
    requires entries { Each (λ n. n.entry < 2 ^ 64) nodes.old }
    ensures takes { Takes (counted 2 0 65535 node_codec) (λ _. map node_of (added_behind nodes.old nodes.new)) bytes.now at.old at.new result }
    ensures kept { IfOk result (λ _. nodes.new ≡ nodes.old ++ added_behind nodes.old nodes.new) }
    ensures count { IfOk result (λ fresh. length nodes.new ≡ length nodes.old + fresh) }
    ensures entries { IfOk result (λ _. Each (λ n. n.entry < 2 ^ 64) nodes.new) }
{
    let fresh = take_number(bytes, at, 2, 0, u16::MAX as u64)?;
    take_nodes(bytes, at, fresh, nodes)?;
    Ok(fresh as u16)
}

/// Takes a step, and appends its new nodes.
#[tactic(auto, unfolding(tw_base::specs::history::HistoryCodec::step_codec, tw_base::specs::format::Seen::codecs))]
fn take_step(
    alloc: Global,
    bytes: &[u8],
    at: &mut u64,
    nodes: &mut Nodes,
) -> Result<Step, ReadFault>
    requires within { at.old ≤ length bytes.now }
    requires entries { Each (λ n. n.entry < 2 ^ 64) nodes.old }
    ensures takes { Takes step_codec (λ (s : Step). step_of s (added_behind nodes.old nodes.new)) bytes.now at.old at.new result }
    ensures kept { IfOk result (λ _. nodes.new ≡ nodes.old ++ added_behind nodes.old nodes.new) }
    ensures count { IfOk result (λ s. length nodes.new ≡ length nodes.old + s.fresh) }
    ensures content { IfOk result (λ s. IsInRange s.content) }
    ensures time { IfOk result (λ s. IsTimeWithinLimits s.time) }
    ensures entries { IfOk result (λ _. Each (λ n. n.entry < 2 ^ 64) nodes.new) }
{
    let (time, content) = take_recorded(alloc, bytes, at)?;
    let fresh = take_fresh(bytes, at, nodes)?;
    let root = take_number(bytes, at, 4, 0, u32::MAX as u64)?;
    Ok(Step {
        content,
        time,
        fresh,
        root: root as u32,
    })
}

/// Takes so many steps, from step 1 on.
fn take_table(alloc: Global, bytes: &[u8], at: &mut u64, count: u64) -> Result<Table, ReadFault>
    requires within { at.old ≤ length bytes.now }
    requires few { count ≤ LAST_STEP }
    ensures takes { Takes (many count step_codec) (λ (t : Table). steps_of_table t.steps t.nodes) bytes.now at.old at.new result }
    ensures table { IfOk result (λ t. IsTable t.steps t.nodes) }
{
    // Each step has at least 11 bytes: its kind, the numbers of its events and nodes, and its root.
    let most_left = (bytes.len() as u64 - *at) / 11;
    let mut steps = Steps::with_capacity(alloc, count.min(most_left) as usize)?;
    let mut nodes = Nodes::new(alloc);
    for _i in 0..count {
        steps.push(take_step(alloc, bytes, at, &mut nodes)?)?;
    }
    Ok(Table { steps, nodes })
}

/// Takes the number of steps, and each of them, from step 1 on.
pub(crate) fn take_steps(alloc: Global, bytes: &[u8], at: &mut u64) -> Result<Table, ReadFault>
    requires { at.old ≤ length bytes.now }
    ensures takes { Takes (counted 8 0 LAST_STEP step_codec) (λ (t : Table). steps_of_table t.steps t.nodes) bytes.now at.old at.new result }
    ensures table { IfOk result (λ t. IsTable t.steps t.nodes) }
{
    let count = take_number(bytes, at, 8, 0, LAST_STEP)?;
    take_table(alloc, bytes, at, count)
}
