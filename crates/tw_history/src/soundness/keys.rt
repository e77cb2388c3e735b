// Whether the keys of each tree rise, while a history is judged.

ghost use Rattle.std.specs.Prelude.{◌≡◌, ◌↔◌, [], Some, IsTrue, option_map};
ghost use Rattle.tw_base.specs.declared.history.thread.Entry.{Entry};
ghost use Rattle.tw_base.specs.kinds.Lists.{Each};
ghost use Rattle.tw_base.specs.history.Entries.{KeyBelow, key_of, thread_key};
ghost use Rattle.tw_base.specs.history.History.{entry_at, thread_of};
ghost use Rattle.tw_base.specs.history.Tree.{Tree, IsRising, entries};
ghost use Rattle.tw_base.specs.history.Tree.Tree.{Branch};
ghost use Rattle.tw_history.specs.JudgingSteps.{AreReceived, summary_of};
ghost use Rattle.tw_history.specs.Tables.{step_of};

use super::summary::Summary;
use crate::history::History;
use crate::step::Step;
use tw_base::{Content, Key, compare_keys};

/// The key of the thread that the step received; None where there is no such step or it has events.
pub(super) fn key_at(history: &History, step: u64) -> Option<Key>
    ensures { result ≡ option_map key_of (entry_at history.now step) }
{
    let index = step.checked_sub(1)?;
    let step = history.steps.as_slice().get(index as usize)?;
    key_of_step(step)
}

/// The key of the thread that this step received; None where it has events.
fn key_of_step(step: &Step) -> Option<Key>
    ensures { result ≡ option_map thread_key (thread_of (Some (step_of step.now []))) }
{
    match &step.content {
        Content::Events(_) => None,
        Content::Received(thread) => {
            let thread = thread.get();
            Some(Key {
                from: thread.from,
                step: thread.step,
            })
        }
    }
}

/// Whether the thread of the one step comes before that of the other.
fn comes_before(history: &History, one: u64, other: u64) -> bool
    ensures { (e f : Entry) → entry_at history.now one ≡ Some e → entry_at history.now other ≡ Some f
        → (IsTrue result ↔ KeyBelow (key_of e) (key_of f)) }
{
    match (key_at(history, one), key_at(history, other)) {
        (Some(one), Some(other)) => compare_keys(&one, &other).is_lt(),
        _ => false,
    }
}

/// Whether each entry of a rising tree comes before the thread of the step.
fn is_before(history: &History, tree: &Summary, step: u64) -> bool
    ensures { (t : Tree) (e : Entry) → tree.now ≡ summary_of t → AreReceived history.now (entries t) → IsRising (entries t)
        → entry_at history.now step ≡ Some e → (IsTrue result ↔ Each (λ f. KeyBelow (key_of f) (key_of e)) (entries t)) }
{
    tree.count == 0 || comes_before(history, tree.last, step)
}

/// Whether the thread of the step comes before each entry of a rising tree.
fn is_after(history: &History, step: u64, tree: &Summary) -> bool
    ensures { (t : Tree) (e : Entry) → tree.now ≡ summary_of t → AreReceived history.now (entries t) → IsRising (entries t)
        → entry_at history.now step ≡ Some e → (IsTrue result ↔ Each (λ f. KeyBelow (key_of e) (key_of f)) (entries t)) }
{
    tree.count == 0 || comes_before(history, step, tree.first)
}

/// Whether the tree of these rising sides, whose root has the thread of the step, rises.
pub(super) fn rises(history: &History, left: &Summary, step: u64, right: &Summary) -> bool
    ensures { (l r : Tree) (e : Entry) → left.now ≡ summary_of l → right.now ≡ summary_of r
        → AreReceived history.now (entries l) → AreReceived history.now (entries r) → IsRising (entries l) → IsRising (entries r)
        → entry_at history.now step ≡ Some e → (IsTrue result ↔ IsRising (entries (Branch l e r))) }
{
    is_before(history, left, step) && is_after(history, step, right)
}
