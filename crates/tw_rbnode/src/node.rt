// A page of an archive's tree, and what it has.

ghost use Rattle.std.specs.Prelude.{◌≡◌, ◌+◌, ◌-◌, ◌<◌, ◌≤◌, ℕ, length, slice_get, Option, Some};
ghost use Rattle.tw_base.specs.history.Tree.{IsRising};
ghost use Rattle.tw_rbnode.specs.Answers.{IsFound};
ghost use Rattle.tw_rbnode.specs.Page.{IsNode};
ghost use Rattle.tw_rbnode.specs.Slots.{below_at, slot_of};

use crate::child::Child;
use crate::kept::{Kept, entry_of};
use crate::links::{Link, link_at};
use arrayvec::ArrayVec;
use std::cmp::Ordering;
use std::marker::Model;
use tw_base::{Entry, Key, compare_keys, entry_key};

/// One page of an archive's tree: 1 to 24 entries whose keys rise, at the nodes of a red-black tree, and a child at each of that
/// tree's empty places. Slots, which have the entries, are counted from 1, and places, which have the children, from 0.
#[derive(Drop)]
pub struct RbNode {
    pub(crate) level: u8,
    pub(crate) top: u8,
    pub(crate) links: [Link; 26],
    pub(crate) entries: ArrayVec<Kept, 24>,
    pub(crate) children: ArrayVec<Child, 25>,
}

impl Model for RbNode {
    ghost use Rattle.std.specs.Prelude.{◌≡◌, ◌≤◌, ℕ, slice_get, List, length};
    ghost use Rattle.std.specs.Coded.{codes};
    ghost use Rattle.tw_rbnode.specs.Page.{TreePage, IsNode, shape_of, coded_shape};
    ghost use Rattle.tw_rbnode.specs.Slots.{IsTree};

    ghost Value = { TreePage };

    ghost coded = { Prim.hlevel (codes, coded_shape) };

    ghost view = { λ s. record { level = s.level; shape = shape_of 25 (slice_get s.links) s.top; entries = s.entries.items; children = s.children.items } };

    ghost invariant = { λ s. IsTree (slice_get s.links) 0 (shape_of 25 (slice_get s.links) s.top) s.top
        × IsNode (record { level = s.level; shape = shape_of 25 (slice_get s.links) s.top; entries = s.entries.items; children = s.children.items }) };
}

/// Where a key is among the keys of a page.
#[derive(Clone, Copy, PartialEq, Eq, Debug, Drop)]
pub enum Found {
    /// In this slot, from 1 to the number of keys.
    At(u8),
    /// At this place it would stand, from 0 to the number of keys.
    Between(u8),
}

/// What comes of one entry more; once it is staged it is `Grown` of `tw_rbtree`.
#[derive(Drop)]
pub enum Added {
    /// The page, with the entry.
    One(RbNode),
    /// Two pages of 12 entries and the entry between them, where the page was full.
    Two {
        left: RbNode,
        middle: Entry,
        right: RbNode,
    },
}

/// The level of the page, 0 to 10: 0 is a leaf page, whose children are the empty tree.
pub fn level(node: &RbNode) -> u8
    ensures { result ≡ node.now.level }
{
    node.level
}

/// How many keys the page has, 1 to 24.
pub fn keys(node: &RbNode) -> u8
    ensures count { result ≡ length node.now.entries }
    // A page has 1 to 24 entries whose keys rise, at the nodes of a red-black tree with as many, and a child more.
    ensures is_node { IsNode node.now }
{
    node.entries.len() as u8
}

/// The root slot.
pub fn top(node: &RbNode) -> u8
    ensures { result ≡ slot_of 0 node.now.shape }
{
    node.top
}

/// The entry in a slot, from 1 to the number of keys.
pub fn entry_at(node: &RbNode, slot: u8) -> Entry
    requires some { 0 < slot }
    requires most { slot ≤ length node.now.entries }
    ensures { slice_get node.now.entries (slot - 1) ≡ Some result }
{
    entry_of(node.entries.as_slice(), slot as usize - 1)
}

/// The child at a place, from 0 to the number of keys.
pub fn child_at(node: &RbNode, place: u8) -> Child
    requires { place ≤ length node.now.entries }
    ensures { slice_get node.now.children place ≡ Some result }
{
    node.children[place as usize]
}

/// The left and the right slot of a slot, which is from 1 to the number of keys; 0 is an empty place.
pub fn below(node: &RbNode, slot: u8) -> (u8, u8)
    requires some { 0 < slot }
    requires most { slot ≤ length node.now.entries }
    // The two slots are those of the node's sides in the tree of the page.
    ensures { result ≡ below_at slot 0 node.now.shape }
{
    let link = link_at(&node.links, slot);
    (link.left, link.right)
}

/// The slot that has the key, or the place where it would stand; `seek` of `tw_rbtree` looks so for what is asked of a tree.
pub fn find(node: &RbNode, key: &Key) -> Found
    // What is found is the slot that has the key, or the place between the keys below it and those above it.
    ensures { IsFound node.now.entries key.now result }
{
    find_in(node.entries.as_slice(), key)
}

fn find_in(entries: &[Kept], key: &Key) -> Found
    requires rising { IsRising entries.now }
    requires few { length entries.now < 255 }
    ensures { IsFound entries.now key.now result }
{
    for (place, kept) in entries.iter().enumerate() {
        match compare_keys(key, &entry_key(&kept.entry)) {
            Ordering::Less => return Found::Between(place as u8),
            Ordering::Equal => return Found::At(place as u8 + 1),
            Ordering::Greater => {}
        }
    }
    Found::Between(entries.len() as u8)
}
