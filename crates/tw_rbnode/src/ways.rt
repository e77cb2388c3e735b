// The nodes of a page above a slot or a place, of which `tw_rbtree` makes tree proofs.

ghost use Rattle.std.specs.Prelude.{◌≡◌, ◌+◌, ◌*◌, ◌<◌, ◌≤◌, ◌++◌, ◌∷◌, [], ℕ, length, slice_get, take};
ghost use Rattle.tw_rbnode.specs.Answers.{IsThereAsFound};
ghost use Rattle.tw_rbnode.specs.Shape.{Shape, size, depth};
ghost use Rattle.tw_rbnode.specs.Slots.{IsTree};
ghost use Rattle.tw_rbnode.specs.Trees.{above_at, labels_of, mark_of as mark_of_found, nodes_above};

use crate::child::Child;
use crate::kept::{Kept, entry_of};
use crate::labels::label_in;
use crate::links::{Link, link_at};
use crate::node::{Found, RbNode, child_at};
use tw_base::{Ancestor, Hasher};

/// The nodes of a page above a slot or a place.
#[derive(Clone, Copy, Debug, Drop)]
pub struct WayDown {
    /// How many nodes there are, at most 9: no way down such a tree has more.
    pub count: u8,
    /// The nodes, nearest first, in the first `count` places; the others mean nothing.
    pub nodes: [Ancestor; 9],
}

impl WayDown {
    /// Puts a node behind the others.
    fn push(&mut self, node: Ancestor)
        requires { self.old.count < 9 }
        ensures nodes { take self.new.count self.new.nodes ≡ take self.old.count self.old.nodes ++ node ∷ [] }
        ensures count { self.new.count ≡ self.old.count + 1 }
    {
        self.nodes[self.count as usize] = node;
        self.count += 1;
    }
}

/// The page's nodes above the slot or the place, nearest first, at most 9: each with the label of its side to which the way doesn't
/// lead. The slot is from 1 to the number of keys, the place from 0 to it.
pub fn way<H: Hasher>(node: &RbNode, at: &Found) -> WayDown
    requires { IsThereAsFound node.now.entries at.now }
    // The nodes are those of the page's tree above the slot or the place, nearest first, each with the label of its other side.
    ensures nodes { take result.count result.nodes ≡ nodes_above H.dig node.now at.now }
    // There are at most 9 nodes.
    ensures most { result.count ≤ 9 }
{
    let blank = Ancestor {
        entry: entry_of(node.entries.as_slice(), 0),
        other: child_at(node, 0).label,
    };
    let mut way = WayDown {
        count: 0,
        nodes: [blank; 9],
    };
    way_in::<H>(
        &node.links,
        node.entries.as_slice(),
        node.children.as_slice(),
        0,
        node.entries.len() as u8,
        node.top,
        mark_of(at),
        &mut way,
    );
    way
}

/// Twice the slot, or one more than twice the place, which lies between the marks of the slots beside it.
fn mark_of(at: &Found) -> u8
    requires { mark_of_found at.now < 256 }
    ensures { result ≡ mark_of_found at.now }
{
    match *at {
        Found::At(slot) => 2 * slot,
        Found::Between(place) => 2 * place + 1,
    }
}

/// Puts the nodes above the mark, of the tree in the slots above `low` up to `high`.
fn way_in<H: Hasher>(
    links: &[Link; 26],
    entries: &[Kept],
    children: &[Child],
    low: u8,
    high: u8,
    at: u8,
    mark: u8,
    way: &mut WayDown,
)
    requires entries { high ≤ length entries.now }
    requires children { high < length children.now }
    requires tree { (t : Shape) × (IsTree (slice_get links.now) low t at) × (high ≡ low + size t) × (way.old.count + depth t ≤ 9) }
    ensures nodes { (t : Shape) → IsTree (slice_get links.now) low t at → high ≡ low + size t →
        (take way.new.count way.new.nodes ≡ take way.old.count way.old.nodes ++ above_at H.dig entries.now (labels_of children.now) mark low t)
        × (way.new.count ≤ way.old.count + depth t) }
{
    if at == 0 || mark == 2 * at {
        return;
    }
    let link = link_at(links, at);
    let entry = entry_of(entries, at as usize - 1);
    if mark < 2 * at {
        way_in::<H>(links, entries, children, low, at - 1, link.left, mark, way);
        let other = label_in::<H>(links, entries, children, at, high, link.right);
        way.push(Ancestor { entry, other });
    } else {
        way_in::<H>(links, entries, children, at, high, link.right, mark, way);
        let other = label_in::<H>(links, entries, children, low, at - 1, link.left);
        way.push(Ancestor { entry, other });
    }
}
