// The archive's tree in memory: a binary tree of entries, of any shape.

ghost use Rattle.std.specs.Prelude.{◌≡◌, ◌++◌, OnOk, IfOk};
ghost use Rattle.tw_base.specs.history.Auth.{tree_label};
ghost use Rattle.tw_base.specs.kinds.Texts.{empty_tree_text};
ghost use Rattle.tw_base.specs.history.Tree.{entries};
ghost use Rattle.tw_base.specs.history.Tree.Tree.{Empty as NoEntry, Branch as RootedAt};
ghost use Rattle.tw_tree.specs.TreeMeaning.{meant_tree};

use std::alloc::Global;
use tw_base::{Digest, Entries, Entry, Hasher, NoMemory, empty_tree, tree_node};

/// A binary tree of entries. The archive of a service is one whose entries rise by name and then
/// step; its label and its list don't need that order.
///
/// What goes over a tree calls itself on its sides, as the derived `drop` does too: it takes room on
/// the stack for each node from the root down to the deepest one.
#[derive(Drop)]
pub enum Tree {
    /// The tree without entries.
    Empty,
    /// An entry at the root, between the tree of the earlier entries and that of the later ones.
    Branch {
        left: Box<Tree>,
        entry: Entry,
        right: Box<Tree>,
    },
}

impl Tree {
    /// The tree without entries. Takes no memory.
    pub fn empty() -> Tree
        ensures { meant_tree result ≡ NoEntry }
    {
        Tree::Empty
    }

    /// The tree of the entry at its root, between its left and its right side. An `Err`: there was
    /// no memory; both sides are then dropped.
    pub fn branch(alloc: Global, left: Tree, entry: Entry, right: Tree) -> Result<Tree, NoMemory>
        // A tree of an entry between two sides stands for that of the definitions.
        ensures { IfOk result (λ tree. meant_tree tree ≡ RootedAt (meant_tree left) entry (meant_tree right)) }
    {
        let left = Box::new(alloc, left)?;
        let right = Box::new(alloc, right)?;
        Ok(Tree::Branch { left, entry, right })
    }
}

/// The tree's label: the digest of the text of its root, over the labels of its two sides. Hashes
/// one text for each entry and that of the empty tree once, and takes no memory. Calls itself as
/// deep as the tree is high.
pub fn label<H: Hasher>(tree: &Tree) -> Digest
    // The label of a tree is that of the tree that it stands for.
    ensures label { result ≡ tree_label H.dig (meant_tree tree.now) }
{
    label_over::<H>(tree, &empty_tree::<H>())
}

/// The tree's label, where that of the empty tree is at hand.
#[tactic(auto, unfolding(tw_base::specs::history::Auth::tree_label))]
fn label_over<H: Hasher>(tree: &Tree, empty: &Digest) -> Digest
    requires { empty.now ≡ H.dig empty_tree_text }
    ensures { result ≡ tree_label H.dig (meant_tree tree.now) }
{
    match tree {
        Tree::Empty => *empty,
        Tree::Branch { left, entry, right } => {
            let left = label_over::<H>(left, empty);
            let right = label_over::<H>(right, empty);
            tree_node::<H>(&left, entry, &right)
        }
    }
}

/// The tree's entries in order: those of the left side, the root's, those of the right side. The
/// time is linear in their number. An `Err`: there was no memory. Calls itself as deep as the tree
/// is high.
pub fn list(alloc: Global, tree: &Tree) -> Result<Entries, NoMemory>
    // The list of a tree is that of the tree that it stands for, in order.
    ensures { IfOk result (λ listed. listed ≡ entries (meant_tree tree.now)) }
{
    let mut listed = Entries::new(alloc);
    push_all(&mut listed, tree)?;
    Ok(listed)
}

/// Appends the tree's entries in order.
fn push_all(listed: &mut Entries, tree: &Tree) -> Result<(), NoMemory>
    ensures { OnOk result (listed.new ≡ listed.old ++ entries (meant_tree tree.now)) }
{
    match tree {
        Tree::Empty => Ok(()),
        Tree::Branch { left, entry, right } => {
            push_all(listed, left)?;
            listed.push(*entry)?;
            push_all(listed, right)
        }
    }
}
