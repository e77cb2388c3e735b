// Pages with one entry more, of one key, and with another child; `tw_rbtree` adds an entry to a tree of pages by them.

ghost use Rattle.std.specs.Prelude.{◌≡◌, ◌+◌, ◌<◌, ◌≤◌, ◌++◌, ◌∷◌, [], ◌≢◌, ℕ, List, length, replicate, slice_get, take, drop};
ghost use Rattle.arrayvec.specs.ArrayVec.{array_vec_len};
ghost use Rattle.tw_base.specs.history.Entries.{key_of};
ghost use Rattle.tw_base.specs.kinds.Lists.{Each};
ghost use Rattle.tw_base.specs.history.Tree.{IsRising};
ghost use Rattle.tw_base.specs.history.Limits.{IsEntryInRange};
ghost use Rattle.tw_rbnode.specs.Answers.{IsAdded, more_entries as with_entry, more_children as with_sides};
ghost use Rattle.tw_rbnode.specs.Children.{AddedHasChildren, HasChildren, IsChildAt};
ghost use Rattle.tw_rbnode.specs.Page.{IsBetween, IsNode};
ghost use Rattle.tw_rbnode.specs.declared.limits.TheConstants.{TOP_LEVEL};

use crate::child::Child;
use crate::kept::{Kept, entry_of};
use crate::limits::TOP_LEVEL;
use crate::links::{BLANK, LEAF, Link, with_node};
use crate::node::{Added, RbNode};
use arrayvec::ArrayVec;
use tw_base::{Entry, Hasher, put};

/// The entries with one more at the place.
fn more_entries<const N: usize>(entries: &[Kept], place: usize, entry: Entry) -> ArrayVec<Kept, N>
    requires there { place ≤ length entries.now }
    requires room { length entries.now < N }
    ensures { result.items ≡ with_entry entries.now place entry }
{
    let mut out = ArrayVec::new();
    put(&mut out, &entries[..place]);
    out.push(Kept { entry });
    put(&mut out, &entries[place..]);
    out
}

/// The children with two in place of the one at the place.
fn more_children<const N: usize>(
    children: &[Child],
    place: usize,
    left: Child,
    right: Child,
) -> ArrayVec<Child, N>
    requires there { place < length children.now }
    requires room { length children.now < N }
    ensures { result.items ≡ with_sides children.now place left right }
{
    let mut out = ArrayVec::new();
    put(&mut out, &children[..place]);
    out.push(left);
    out.push(right);
    put(&mut out, &children[place + 1..]);
    out
}

/// The children with another one at the place.
fn other_child(children: &[Child], place: usize, child: Child) -> ArrayVec<Child, 25>
    requires there { place < length children.now }
    requires room { length children.now ≤ 25 }
    ensures { result.items ≡ take place children.now ++ child ∷ [] ++ drop (place + 1) children.now }
{
    let mut out = ArrayVec::new();
    put(&mut out, &children[..place]);
    out.push(child);
    put(&mut out, &children[place + 1..]);
    out
}

/// The links of a page of 12 entries, of which a split makes two, behind the blank one: the root is slot 7, and nodes of depth 3 are red.
const BALANCED: [Link; 13] = [
    BLANK,
    LEAF,
    Link {
        red: false,
        left: 1,
        right: 3,
    },
    LEAF,
    Link {
        red: false,
        left: 2,
        right: 6,
    },
    LEAF,
    Link {
        red: false,
        left: 5,
        right: 0,
    },
    Link {
        red: false,
        left: 4,
        right: 10,
    },
    LEAF,
    Link {
        red: false,
        left: 8,
        right: 0,
    },
    Link {
        red: false,
        left: 9,
        right: 12,
    },
    LEAF,
    Link {
        red: false,
        left: 11,
        right: 0,
    },
];

/// These links, and blank ones behind them.
fn balanced_links() -> [Link; 26]
    ensures { result ≡ BALANCED ++ replicate 13 BLANK }
{
    let mut links = [BLANK; 26];
    links[..13].copy_from_slice(&BALANCED);
    links
}

/// A page of 12 entries, whose tree is the balanced one.
fn balanced(level: u8, entries: &[Kept], children: &[Child]) -> RbNode
    requires level { level ≤ TOP_LEVEL }
    requires count { length entries.now ≡ 12 }
    requires places { length children.now ≡ 13 }
    requires rising { IsRising entries.now }
    requires ranges { Each IsEntryInRange entries.now }
    ensures level { result.level ≡ level }
    ensures entries { result.entries ≡ entries.now }
    ensures children { result.children ≡ children.now }
{
    let mut kept = ArrayVec::new();
    put(&mut kept, entries);
    let mut sides = ArrayVec::new();
    put(&mut sides, children);
    RbNode {
        level,
        top: 7,
        links: balanced_links(),
        entries: kept,
        children: sides,
    }
}

/// The page of this one key, at a level from 0 to 10. Both children are the empty tree at level 0, and pages at every other level.
pub fn single<H: Hasher>(level: u8, entry: Entry, left: Child, right: Child) -> RbNode
    requires level { level ≤ TOP_LEVEL }
    requires range { IsEntryInRange entry }
    requires left { IsChildAt H.dig level left }
    requires right { IsChildAt H.dig level right }
    ensures level { result.level ≡ level }
    // The page has the entry alone, between the two children.
    ensures entries { result.entries ≡ entry ∷ [] }
    ensures children { result.children ≡ left ∷ right ∷ [] }
    // Its children are the empty tree at level 0, and pages at every other level.
    ensures kinds { HasChildren H.dig result }
{
    let mut links = [BLANK; 26];
    links[1] = Link {
        red: false,
        left: 0,
        right: 0,
    };
    let mut entries = ArrayVec::new();
    entries.push(Kept { entry });
    let mut children = ArrayVec::new();
    children.push(left);
    children.push(right);
    RbNode {
        level,
        top: 1,
        links,
        entries,
        children,
    }
}

/// The page with this child at the place, from 0 to the number of keys, and all else as before. Its level isn't 0, and the child
/// is a page.
pub fn put_child(node: &RbNode, place: u8, child: Child) -> RbNode
    requires level { node.now.level ≢ 0 }
    requires there { place ≤ length node.now.entries }
    requires page { 0 < child.page }
    ensures level { result.level ≡ node.now.level }
    ensures shape { result.shape ≡ node.now.shape }
    // The page has the same entries, and the same children but for the one at the place.
    ensures entries { result.entries ≡ node.now.entries }
    ensures children { result.children ≡ take place node.now.children ++ child ∷ [] ++ drop (place + 1) node.now.children }
    // Where the children were pages, they still are.
    ensures kinds { (dig : List ℕ → List ℕ) → HasChildren dig node.now → HasChildren dig result }
{
    let mut entries = ArrayVec::new();
    put(&mut entries, node.entries.as_slice());
    RbNode {
        level: node.level,
        top: node.top,
        links: node.links,
        entries,
        children: other_child(node.children.as_slice(), place as usize, child),
    }
}

/// The page with one more entry at the place, from 0 to the number of keys, where its key lies strictly between the keys beside
/// the place; the two children stand there in place of one. Where the page is full, it becomes two pages and the entry between
/// them. Both children are the empty tree at level 0, and pages at every other level.
pub fn add<H: Hasher>(node: &RbNode, place: u8, entry: Entry, left: Child, right: Child) -> Added
    requires range { IsEntryInRange entry }
    requires between { IsBetween node.now.entries place (key_of entry) }
    requires left { IsChildAt H.dig node.now.level left }
    requires right { IsChildAt H.dig node.now.level right }
    // The entries and the children are those of before with the entry between the two children at the place. There are two pages
    // exactly where the page had 24 entries: those of keys 1 to 12 and 14 to 25.
    ensures added { IsAdded node.now place entry left right result }
    // Where the children were the empty tree at level 0 or pages at another one, they still are.
    ensures kinds { HasChildren H.dig node.now → AddedHasChildren H.dig result }
{
    if node.entries.len() < 24 {
        Added::One(with_one_more(node, place, entry, left, right))
    } else {
        split(node, place, entry, left, right)
    }
}

/// The page with one more entry, where it isn't full.
fn with_one_more(node: &RbNode, place: u8, entry: Entry, left: Child, right: Child) -> RbNode
    requires range { IsEntryInRange entry }
    requires between { IsBetween node.now.entries place (key_of entry) }
    requires room { length node.now.entries < 24 }
    ensures level { result.level ≡ node.now.level }
    ensures entries { result.entries ≡ with_entry node.now.entries place entry }
    ensures children { result.children ≡ with_sides node.now.children place left right }
{
    let count = node.entries.len() as u8;
    let (links, top) = with_node(&node.links, node.top, count, place);
    let entries = more_entries(node.entries.as_slice(), place as usize, entry);
    let children = more_children(node.children.as_slice(), place as usize, left, right);
    RbNode {
        level: node.level,
        top,
        links,
        entries,
        children,
    }
}

/// The two pages and the entry between them, where the page is full.
fn split(node: &RbNode, place: u8, entry: Entry, left: Child, right: Child) -> Added
    requires range { IsEntryInRange entry }
    requires between { IsBetween node.now.entries place (key_of entry) }
    requires full { length node.now.entries ≡ 24 }
    ensures { IsAdded node.now place entry left right result }
{
    let entries: ArrayVec<Kept, 25> = more_entries(node.entries.as_slice(), place as usize, entry);
    let children: ArrayVec<Child, 26> = more_children(
        node.children.as_slice(),
        place as usize,
        left,
        right,
    );
    let all = entries.as_slice();
    let sides = children.as_slice();
    Added::Two {
        left: balanced(node.level, &all[..12], &sides[..13]),
        middle: entry_of(all, 12),
        right: balanced(node.level, &all[13..], &sides[13..]),
    }
}
