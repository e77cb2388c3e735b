// Whether the new nodes of a step name known ones, and what is kept of their trees, while a history is judged.

ghost use Rattle.std.specs.Prelude.{◌≡◌, ◌↔◌, ℕ, suc, ◌+◌, ◌<◌, ◌^◌, length, map, IsSome, IsTrue, IfOk, false};
ghost use Rattle.tw_base.specs.kinds.Lists.{Each};
ghost use Rattle.tw_base.specs.history.History.{entry_to, fresh_of, step_at};
ghost use Rattle.tw_base.specs.history.Rules.{NodesFit};
ghost use Rattle.tw_base.specs.history.Tree.{IsRising, entries, forest, new_trees};
ghost use Rattle.tw_history.specs.JudgingSteps.{summary_of};
ghost use Rattle.tw_history.specs.Tables.{node_of};

use super::keys::{key_at, rises};
use super::summary::Summary;
use crate::history::History;
use crate::step::Node;
use tw_base::NoMemory;

/// Whether the entry is a step, up to this one, that received a thread.
fn is_received(history: &History, step: u64, entry: u64) -> bool
    ensures { IsTrue result ↔ IsSome (entry_to history.now step entry) }
{
    entry <= step && key_at(history, entry).is_some()
}

/// Whether the node of this number names nodes before it and a step, up to this one, that received a
/// thread.
fn is_known(history: &History, step: u64, number: usize, node: &Node) -> bool
    ensures { IsTrue result ↔ (node.now.left < number) × (node.now.right < number) × IsSome (entry_to history.now step node.now.entry) }
{
    let left = node.left as usize;
    let right = node.right as usize;
    left < number && right < number && is_received(history, step, node.entry)
}

/// Whether each of the new nodes of the step, of which the first has this number, does so.
fn are_known(history: &History, step: u64, first: usize, nodes: &[Node]) -> bool
    requires { first + length nodes.now < 2 ^ 64 }
    ensures { IsTrue result ↔ NodesFit history.now step first (map node_of nodes.now) }
{
    let mut number = first;
    for node in nodes {
        if !is_known(history, step, number, node) {
            return false;
        }
        number += 1;
    }
    true
}

/// Whether each of the new nodes of the step names known ones, and the root is that of a node so far.
pub(super) fn names_known(
    history: &History,
    step: u64,
    first: usize,
    nodes: &[Node],
    root: u32,
) -> bool
    requires { first + length nodes.now < 2 ^ 64 }
    ensures { IsTrue result ↔ NodesFit history.now step first (map node_of nodes.now) × (root < first + length nodes.now) }
{
    let end = first + nodes.len();
    are_known(history, step, first, nodes) && (root as usize) < end
}

/// Appends the summaries of the trees of the new nodes of the step after the earlier ones; false
/// exactly where one of these trees doesn't rise.
pub(super) fn plant(
    history: &History,
    earlier: u64,
    nodes: &[Node],
    summaries: &mut Vec<Summary>,
) -> Result<bool, NoMemory>
    requires known { NodesFit history.now (suc earlier) (length (forest history.now earlier)) (map node_of nodes.now) }
    requires fresh { fresh_of (step_at history.now (suc earlier)) ≡ map node_of nodes.now }
    requires before { summaries.old.items ≡ map summary_of (forest history.now earlier) }
    requires rising { Each (λ t. IsRising (entries t)) (forest history.now earlier) }
    ensures risen { IfOk result (λ rise. IsTrue rise → (summaries.new.items ≡ map summary_of (forest history.now (suc earlier)))
        × Each (λ t. IsRising (entries t)) (new_trees history.now earlier)) }
    ensures fallen { IfOk result (λ rise. rise ≡ false → Each (λ t. IsRising (entries t)) (new_trees history.now earlier) → ⊥) }
{
    for node in nodes {
        let left = summaries[node.left as usize];
        let right = summaries[node.right as usize];
        if !rises(history, &left, node.entry, &right) {
            return Ok(false);
        }
        let summary = Summary::of_branch(&left, node.entry, &right);
        summaries.push(summary)?;
    }
    Ok(true)
}
