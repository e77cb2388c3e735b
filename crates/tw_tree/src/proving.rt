// Making a proof over a tree in memory, for tests; tw_rbtree/src/proving.rt makes one over a tree in pages.

ghost use Rattle.std.specs.Prelude.{◌≡◌, ◌↔◌, IfOk, IsTrue};
ghost use Rattle.tw_base.specs.history.Tree.{IsRising, entries};
ghost use Rattle.tw_base.specs.history.TreeProofs.{IsSo, place_of_ask, proof_at as proof_of_place, way_up};
ghost use Rattle.tw_tree.specs.TreeMeaning.{meant_tree};
ghost use Rattle.tw_tree.specs.Proving.{Proves};
ghost use Rattle.tw_tree.specs.declared.proving.ProveFault.TheVariants.{NoMemory as WantedMemory};

use crate::searching::get;
use crate::tree::{Tree, label};
use std::alloc::Global;
use tw_base::{
    Ancestor, AncestorList, Ask, Hasher, NoMemory, TreeProof, entry_key, goes_left, meets,
};

/// Why no proof is made.
#[derive(Clone, Copy, PartialEq, Eq, Debug, Drop)]
pub enum ProveFault {
    /// The tree hasn't the asked entry, or has an entry of the key that is said to be absent.
    Untrue,
    /// There was no memory.
    NoMemory,
}

impl From<NoMemory> for ProveFault {
    ghost from_gives = { λ _ fault. fault ≡ WantedMemory };

    fn from(_none: NoMemory) -> Self {
        ProveFault::NoMemory
    }
}

/// The part of the tree at the asked place.
#[tactic(auto, unfolding(tw_base::specs::history::TreeProofs::place_of_ask))]
fn place<'a>(tree: &'a Tree, ask: &Ask) -> &'a Tree
    ensures { meant_tree result.now ≡ place_of_ask ask.now (meant_tree tree.now) }
{
    let mut here = tree;
    while let Tree::Branch { left, entry, right } = here {
        if meets(ask, entry) {
            return here;
        }
        here = if goes_left(ask, entry) { left } else { right };
    }
    here
}

/// The nodes above the asked place, nearest first. Calls itself once for each of them.
#[tactic(auto, unfolding(tw_base::specs::history::TreeProofs::way_up))]
fn nodes_above<H: Hasher>(alloc: Global, tree: &Tree, ask: &Ask) -> Result<AncestorList, NoMemory>
    ensures { IfOk result (λ up. up ≡ way_up H.dig ask.now (meant_tree tree.now)) }
{
    match tree {
        Tree::Branch { left, entry, right } if !meets(ask, entry) => {
            let (taken, other) = if goes_left(ask, entry) {
                (left, right)
            } else {
                (right, left)
            };
            let mut ancestors = nodes_above::<H>(alloc, taken, ask)?;
            let other = label::<H>(other);
            ancestors.push(Ancestor {
                entry: *entry,
                other,
            })?;
            Ok(ancestors)
        }
        _ => Ok(AncestorList::new(alloc)),
    }
}

/// The proof of a place below these nodes.
fn proof_at<H: Hasher>(place: &Tree, ancestors: AncestorList) -> TreeProof
    ensures { result ≡ proof_of_place H.dig (meant_tree place.now) ancestors }
{
    match place {
        Tree::Empty => TreeProof::Gap { ancestors },
        Tree::Branch { left, right, .. } => TreeProof::Present {
            left: label::<H>(left),
            right: label::<H>(right),
            ancestors,
        },
    }
}

/// Whether what is asked is so of the tree.
fn is_so(tree: &Tree, ask: &Ask) -> bool
    requires { IsRising (entries (meant_tree tree.now)) }
    ensures { IsTrue result ↔ IsSo (entries (meant_tree tree.now)) ask.now }
{
    match ask {
        Ask::Present(asked) => get(tree, &entry_key(asked)) == Some(*asked),
        Ask::Absent(key) => get(tree, key).is_none(),
        Ask::Below(_) | Ask::Above(_) => true,
    }
}

/// The proof that the tree has of the answer to the question. The tree's keys rise. Where no way down
/// has more than 128 nodes and the entries' steps are within 1 to 2^40 - 1, the proof has a spelling.
/// `Untrue` exactly where the asked entry isn't there or the key that is said to be absent is;
/// `NoMemory`: there was no memory. No node is hashed twice.
pub fn prove<H: Hasher>(alloc: Global, tree: &Tree, ask: &Ask) -> Result<TreeProof, ProveFault>
    requires { IsRising (entries (meant_tree tree.now)) }
    // Of a tree whose keys rise the tree's own proof is made exactly where what is asked is so of its entries: that it
    // has an entry, or lacks a key. That there is an entry next to a key, or none, always is.
    ensures { Proves H.dig (meant_tree tree.now) ask.now result }
{
    if !is_so(tree, ask) {
        return Err(ProveFault::Untrue);
    }
    let ancestors = nodes_above::<H>(alloc, tree, ask)?;
    Ok(proof_at::<H>(place(tree, ask), ancestors))
}
