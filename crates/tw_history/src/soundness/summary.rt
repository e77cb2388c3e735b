// What is kept of a tree while a history is judged: how many entries, and which steps received the first and last.

ghost use Rattle.std.specs.Prelude.{◌≡◌, ◌≢◌};
ghost use Rattle.tw_base.specs.declared.history.thread.Entry.{Entry};
ghost use Rattle.tw_base.specs.history.Tree.{Tree};
ghost use Rattle.tw_base.specs.history.Tree.Tree.{Branch, Empty};
ghost use Rattle.tw_history.specs.JudgingSteps.{summary_of};

/// How many entries a tree has, and the steps that received the first and the last of them.
#[derive(Clone, Copy, Drop, Debug)]
pub(crate) struct Summary {
    /// The number of entries; 2^64 - 1 stands for more, which no rising tree has.
    pub(crate) count: u64,
    /// The step that received the first entry, 0 where there is none.
    pub(crate) first: u64,
    /// The step that received the last entry, 0 where there is none.
    pub(crate) last: u64,
}

impl Summary {
    /// The summary of the empty tree.
    pub(crate) fn of_none() -> Self
        ensures { result ≡ summary_of Empty }
    {
        Summary {
            count: 0,
            first: 0,
            last: 0,
        }
    }

    /// The summary of the tree of these sides whose root has the thread that the step received.
    pub(crate) fn of_branch(left: &Summary, step: u64, right: &Summary) -> Self
        ensures { (l r : Tree) (e : Entry) → left.now ≡ summary_of l → right.now ≡ summary_of r → step ≡ e.archived
            → result ≡ summary_of (Branch l e r) }
    {
        Summary {
            count: left.count.saturating_add(right.count).saturating_add(1),
            first: left.end_or(left.first, step),
            last: right.end_or(right.last, step),
        }
    }

    /// This end of the tree, or the step where it has no entry.
    fn end_or(&self, end: u64, step: u64) -> u64
        ensures none { self.now.count ≡ 0 → result ≡ step }
        ensures some { self.now.count ≢ 0 → result ≡ end }
    {
        if self.count == 0 { step } else { end }
    }
}
