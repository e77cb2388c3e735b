// The labels of a page's tree and of its parts, over those of its children; tw_base has that of one node.

ghost use Rattle.std.specs.Prelude.{◌≡◌, ◌+◌, ◌<◌, ◌≤◌, ℕ, length, slice_get};
ghost use Rattle.tw_rbnode.specs.Shape.{Shape, size};
ghost use Rattle.tw_rbnode.specs.Slots.{IsTree};
ghost use Rattle.tw_rbnode.specs.Trees.{label_at, labels_of, page_label, sides_at};

use crate::child::Child;
use crate::kept::{Kept, entry_of};
use crate::links::{Link, link_at};
use crate::node::RbNode;
use tw_base::{Digest, Hasher, tree_node};

/// The label of the tree that the page stands for, by those of its children. Hashes one text for each entry.
pub fn label<H: Hasher>(node: &RbNode) -> Digest
    // The label is that of the tree of the page's entries over trees that have the children's labels.
    ensures { result ≡ page_label H.dig node.now }
{
    label_in::<H>(
        &node.links,
        node.entries.as_slice(),
        node.children.as_slice(),
        0,
        node.entries.len() as u8,
        node.top,
    )
}

/// The label of the tree in the slots above `low` up to `high`, whose root slot is `at`.
pub(crate) fn label_in<H: Hasher>(
    links: &[Link; 26],
    entries: &[Kept],
    children: &[Child],
    low: u8,
    high: u8,
    at: u8,
) -> Digest
    requires entries { high ≤ length entries.now }
    requires children { high < length children.now }
    requires tree { (t : Shape) × (IsTree (slice_get links.now) low t at) × (high ≡ low + size t) }
    ensures { (t : Shape) → IsTree (slice_get links.now) low t at → high ≡ low + size t → result ≡ label_at H.dig entries.now (labels_of children.now) low t }
{
    if at == 0 {
        return children[low as usize].label;
    }
    let link = link_at(links, at);
    let left = label_in::<H>(links, entries, children, low, at - 1, link.left);
    let right = label_in::<H>(links, entries, children, at, high, link.right);
    tree_node::<H>(&left, &entry_of(entries, at as usize - 1), &right)
}

/// The labels of the two sides of a slot, which is from 1 to the number of keys.
pub fn sides<H: Hasher>(node: &RbNode, slot: u8) -> (Digest, Digest)
    requires some { 0 < slot }
    requires most { slot ≤ length node.now.entries }
    // The labels are those of the left and the right side of the node in the tree of the page.
    ensures { result ≡ sides_at H.dig node.now.entries (labels_of node.now.children) slot 0 node.now.shape }
{
    sides_in::<H>(
        &node.links,
        node.entries.as_slice(),
        node.children.as_slice(),
        0,
        node.entries.len() as u8,
        node.top,
        slot,
    )
}

/// The labels of the two sides of a slot of the tree in the slots above `low` up to `high`.
fn sides_in<H: Hasher>(
    links: &[Link; 26],
    entries: &[Kept],
    children: &[Child],
    low: u8,
    high: u8,
    at: u8,
    slot: u8,
) -> (Digest, Digest)
    requires entries { high ≤ length entries.now }
    requires children { high < length children.now }
    requires some { low < slot }
    requires most { slot ≤ high }
    requires tree { (t : Shape) × (IsTree (slice_get links.now) low t at) × (high ≡ low + size t) }
    ensures { (t : Shape) → IsTree (slice_get links.now) low t at → high ≡ low + size t → result ≡ sides_at H.dig entries.now (labels_of children.now) slot low t }
{
    let link = link_at(links, at);
    if slot == at {
        let left = label_in::<H>(links, entries, children, low, at - 1, link.left);
        let right = label_in::<H>(links, entries, children, at, high, link.right);
        return (left, right);
    }
    if slot < at {
        sides_in::<H>(links, entries, children, low, at - 1, link.left, slot)
    } else {
        sides_in::<H>(links, entries, children, at, high, link.right, slot)
    }
}
