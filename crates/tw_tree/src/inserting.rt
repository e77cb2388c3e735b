// One entry more in a tree in memory, for tests: the tree is copied, and isn't balanced. Services have theirs in pages,
// in `tw_rbtree`.

ghost use Rattle.std.specs.Prelude.{◌≡◌, IfOk};
ghost use Rattle.std.specs.Ordering.{is_lt};
ghost use Rattle.tw_base.specs.history.Tree.{IsRising, entries};
ghost use Rattle.tw_base.specs.history.WithLeaf.{with_leaf};
ghost use Rattle.tw_tree.specs.Inserting.{Inserts};
ghost use Rattle.tw_tree.specs.TreeMeaning.{meant_tree};

use crate::searching::get;
use crate::tree::Tree;
use std::alloc::Global;
use tw_base::{Entry, NoMemory, entry_key, is_below};

/// Why an entry isn't put into a tree.
#[derive(Clone, Copy, PartialEq, Eq, Debug, Drop)]
pub enum InsertFault {
    /// The tree has an entry of this key.
    Present,
    /// There was no memory.
    NoMemory,
}

/// A tree like this one. Calls itself as deep as the tree is high.
fn copy(alloc: Global, tree: &Tree) -> Result<Tree, NoMemory>
    ensures { IfOk result (λ copied. meant_tree copied ≡ meant_tree tree.now) }
{
    match tree {
        Tree::Empty => Ok(Tree::Empty),
        Tree::Branch { left, entry, right } => {
            let left = copy(alloc, left)?;
            let right = copy(alloc, right)?;
            Tree::branch(alloc, left, *entry, right)
        }
    }
}

/// A copy of the tree, with the entry at the empty place to which its key leads. Calls itself as
/// deep as the tree is high.
#[tactic(auto, unfolding(tw_base::specs::history::WithLeaf::with_leaf))]
fn grown(alloc: Global, tree: &Tree, entry: &Entry) -> Result<Tree, NoMemory>
    ensures { IfOk result (λ new. meant_tree new ≡ with_leaf (meant_tree tree.now) entry.now) }
{
    match tree {
        Tree::Empty => Tree::branch(alloc, Tree::Empty, *entry, Tree::Empty),
        Tree::Branch {
            left,
            entry: here,
            right,
        } => {
            if is_below(&entry_key(entry), &entry_key(here)) {
                let left = grown(alloc, left, entry)?;
                let right = copy(alloc, right)?;
                Tree::branch(alloc, left, *here, right)
            } else {
                let left = copy(alloc, left)?;
                let right = grown(alloc, right, entry)?;
                Tree::branch(alloc, left, *here, right)
            }
        }
    }
}

/// A new tree that has the entry too, at the empty place to which its key leads; the tree is left
/// as it is, and its nodes are copied. The tree's keys rise. `Present` exactly where it has an entry
/// of the key; `NoMemory`: there was no memory. Calls itself as deep as the tree is high.
pub fn insert_plain(alloc: Global, tree: &Tree, entry: Entry) -> Result<Tree, InsertFault>
    requires { IsRising (entries (meant_tree tree.now)) }
    // An entry is put into a tree whose keys rise at the empty place to which its key leads, so that the list of
    // entries has it in its place, and rises still; `Present` is answered exactly where the key is there.
    ensures { Inserts (meant_tree tree.now) entry result }
{
    if get(tree, &entry_key(&entry)).is_some() {
        return Err(InsertFault::Present);
    }
    match grown(alloc, tree, &entry) {
        Ok(new) => Ok(new),
        Err(NoMemory) => Err(InsertFault::NoMemory),
    }
}
