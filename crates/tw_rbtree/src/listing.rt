// The nodes of a tree that are new since a page, for the file of a history (tw_export).

ghost use Rattle.std.specs.Prelude.{◌≡◌, ◌≢◌, ◌==◌, ◌||◌, None, IfOk};
ghost use Rattle.tw_disk.specs.Answers.{ReadsPages};
ghost use Rattle.tw_rbnode.specs.Page.{IsNode};
ghost use Rattle.tw_rbnode.specs.Slots.{slot_of};
ghost use Rattle.tw_rbtree.specs.FaultWords.{tree_faults};
ghost use Rattle.tw_rbtree.specs.Reading.{child_in};
ghost use Rattle.tw_rbtree.specs.Listing.{IsPartAt, IsSplit, is_old as is_old_page, listed, part_listed, part_of_shape};

use crate::descending::child_page;
use crate::fault::TreeFault;
use crate::new_node::{NewNode, NewNodes, Side};
use crate::reading::{read_child, read_root, see_node};
use std::alloc::Global;
use tw_base::{Entry, Hasher, Root};
use tw_disk::Pages;
use tw_disk::limits::FIRST_PAGE;
use tw_rbnode::{RbNode, below, entry_at, keys, level, top};

/// The part of a page's tree in the slots above `base` up to `end`, whose root slot is `top`.
#[derive(Clone, Copy, Drop)]
pub(crate) struct Part {
    pub base: u8,
    pub end: u8,
    pub top: u8,
}

/// The whole tree of a page.
fn whole(node: &RbNode) -> Part
    ensures part { IsPartAt node.now result.base result.end result.top (part_of_shape result.top 0 node.now.shape) }
    ensures base { result.base ≡ 0 }
    ensures top { result.top ≡ slot_of 0 node.now.shape }
{
    Part {
        base: 0,
        end: keys(node),
        top: top(node),
    }
}

/// The entry of a part's root slot, and the parts on both sides of it.
#[derive(Clone, Copy, Drop)]
pub(crate) struct Split {
    pub before: Part,
    pub entry: Entry,
    pub behind: Part,
}

/// The part of a page, taken apart at its root slot.
fn take_apart(node: &RbNode, part: Part) -> Split
    requires some { part.top ≢ 0 }
    requires part { IsPartAt node.now part.base part.end part.top (part_of_shape part.top 0 node.now.shape) }
    ensures { IsSplit node.now part result }
{
    let entry = entry_at(node, part.top);
    let (left, right) = below(node, part.top);
    let before = Part {
        base: part.base,
        end: part.top - 1,
        top: left,
    };
    let behind = Part {
        base: part.top,
        end: part.end,
        top: right,
    };
    Split {
        before,
        entry,
        behind,
    }
}

/// The node of this entry between these sides, with a page number.
fn between(left: Side, entry: &Entry, right: Side, page: u64) -> NewNode
    ensures { result ≡ record { left = left; entry = entry.now; right = right; page = page } }
{
    NewNode {
        left,
        entry: *entry,
        right,
        page,
    }
}

/// Whether the number is one that pages have, and below the other one.
#[tactic(auto, unfolding(crate::specs::Listing::is_old))]
fn is_old(page: u64, since: u64) -> bool
    ensures { result ≡ is_old_page page since }
{
    FIRST_PAGE <= page && page < since
}

/// Reads the tree page of this number, of this level and between these two entries, to the heap. It stays a call, so that no call of
/// [`list_part`] has a page on the stack.
#[inline(never)]
fn child_on_heap<P: Pages, H: Hasher>(
    alloc: Global,
    pages: &mut P,
    page: u64,
    wanted: u8,
    low: &Option<Entry>,
    high: &Option<Entry>,
) -> Result<Box<RbNode>, TreeFault>
    ensures reads { ReadsPages tree_faults P.view P.same pages.old pages.new (λ n. n.value) result (λ ps. child_in H.dig ps wanted low.now high.now page) }
    ensures level { IfOk result (λ n. n.value.level ≡ wanted) }
    ensures node { IfOk result (λ n. IsNode n.value) }
{
    let child = read_child::<P, H>(pages, page, wanted, low, high)?;
    see_node(&child);
    match Box::new(alloc, child) {
        Ok(child) => Ok(child),
        Err(_none) => Err(TreeFault::NoMemory),
    }
}

/// Lists the nodes of this part of a page, which lies between these two entries, and of the pages below it from number `since` on,
/// behind those that are listed; the part's root gets this page number. Calls itself for each side.
#[tactic(auto, using(crate::proofs::ListLaws::parts_listed))]
fn list_part<P: Pages, H: Hasher>(
    alloc: Global,
    pages: &mut P,
    nodes: &mut NewNodes,
    since: u64,
    page: u64,
    node: &RbNode,
    part: Part,
    low: &Option<Entry>,
    high: &Option<Entry>,
) -> Result<Side, TreeFault>
    requires { IsPartAt node.now part.base part.end part.top (part_of_shape part.top 0 node.now.shape) }
    ensures reads { ReadsPages tree_faults P.view P.same pages.old pages.new (λ side. record { nodes = nodes.new; side = side }) result
        (λ ps. part_listed H.dig ps since node.now page low.now high.now part.base part.top nodes.old) }
{
    if part.top == 0 {
        if level(node) == 0 {
            return Ok(Side::Empty);
        }
        let page = child_page(node, part.base);
        if is_old(page, since) {
            return Ok(Side::Old(page));
        }
        let child = child_on_heap::<P, H>(alloc, pages, page, level(node) - 1, low, high)?;
        let below = &*child;
        let tree = whole(below);
        return list_part::<P, H>(alloc, pages, nodes, since, page, below, tree, low, high);
    }
    let Split {
        before,
        entry,
        behind,
    } = take_apart(node, part);
    let middle = Some(entry);
    let left = list_part::<P, H>(alloc, pages, nodes, since, 0, node, before, low, &middle)?;
    let right = list_part::<P, H>(alloc, pages, nodes, since, 0, node, behind, &middle, high)?;
    nodes.push(between(left, &entry, right, page))?;
    Ok(Side::New(nodes.len() as u64))
}

/// Lists the nodes of a page, and of those below it, behind those that are listed.
fn list_page<P: Pages, H: Hasher>(
    alloc: Global,
    pages: &mut P,
    nodes: &mut NewNodes,
    since: u64,
    page: u64,
    node: &RbNode,
) -> Result<Side, TreeFault>
    ensures reads { ReadsPages tree_faults P.view P.same pages.old pages.new (λ side. record { nodes = nodes.new; side = side }) result
        (λ ps. part_listed H.dig ps since node.now page None None 0 (slot_of 0 node.now.shape) nodes.old) }
{
    let tree = whole(node);
    list_part::<P, H>(alloc, pages, nodes, since, page, node, tree, &None, &None)
}

/// Whether the root has no page, or an older one than this.
fn is_older(root: &Root, since: u64) -> bool
    ensures { result ≡ ((root.now.page == 0) || is_old_page root.now.page since) }
{
    root.page == 0 || is_old(root.page, since)
}

/// The nodes of those pages of the tree under the root whose numbers are at least `since`, each behind those of its sides. Reads
/// these pages alone; a page of 1 to 3 that is named is bad, and isn't read.
#[tactic(auto, using(crate::proofs::ListLaws::roots_listed))]
pub fn fresh<P: Pages, H: Hasher>(
    alloc: Global,
    pages: &mut P,
    root: &Root,
    since: u64,
) -> Result<NewNodes, TreeFault>
    // It changes nothing of what the pages tell, `DiskFault` comes only where the count of faults rose, and `Present` and `Untrue` never.
    // Over told pages the answer is what is found in them, whatever they keep, a disk fault and want of memory excepted: the nodes
    // of the pages from this number on, or `BadPage` with the first page met that doesn't fit its place.
    ensures reads { ReadsPages tree_faults P.view P.same pages.old pages.new (λ nodes. nodes) result (λ ps. listed H.dig ps since root.now) }
{
    let mut nodes = NewNodes::new(alloc);
    if is_older(root, since) {
        return Ok(nodes);
    }
    let first = read_root::<P, H>(pages, root.page)?;
    list_page::<P, H>(alloc, pages, &mut nodes, since, root.page, &first)?;
    Ok(nodes)
}
