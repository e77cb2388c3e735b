// Reading the bytes of one page of the archive's tree, and the rules that they keep; `tw_rbtree` reads trees of pages.
#![tactic(auto, unfolding(crate::specs::Seen::nodes))]

ghost use Rattle.std.specs.Prelude.{◌≡◌, ◌≢◌, ◌↔◌, ◌+◌, ◌≤◌, ◌<◌, ℕ, suc, length, map, false, IfErr, IsTrue, MatchOption, slice_get, Some};
ghost use Rattle.tw_base.specs.kinds.Lists.{Each};
ghost use Rattle.tw_base.specs.format.Codecs.{many};
ghost use Rattle.tw_base.proofs.lemmas.format.CodecLaws.{Lawful};
ghost use Rattle.tw_base.specs.format.Taking.{Takes};
ghost use Rattle.tw_base.specs.kinds.Texts.{empty_tree_text};
ghost use Rattle.tw_base.specs.history.Tree.{IsRising};
ghost use Rattle.tw_base.specs.format.PageBytes.{IsPageOf};
ghost use Rattle.tw_base.specs.history.Limits.{IsEntryInRange};
ghost use Rattle.tw_rbnode.specs.Children.{IsChildAt};
ghost use Rattle.tw_rbnode.specs.NodeBytes.{LiesBelow, MayStand, child_codec, colour_codec, counted_codec, fields_of, held_codec, held_of, page_node_codec, slot_codec};
ghost use Rattle.tw_rbnode.specs.Page.{IsNode, TreePage};
ghost use Rattle.tw_rbnode.specs.declared.limits.TheConstants.{MOST_KEYS, TOP_LEVEL};

use crate::child::Child;
use crate::kept::{Kept, entry_of};
use crate::limits::{MOST_KEYS, TOP_LEVEL};
use crate::links::{BLANK, Link, height_in, link_at, put};
use crate::node::RbNode;
use crate::slot::Slot;
use arrayvec::ArrayVec;
use tw_base::{
    Digest, Hasher, Page, ReadFault, empty_tree, entry_key, is_below, is_same_digest, page_to,
    take_digest, take_entry, take_number, take_text,
};

/// The root slot, the slots and the children of a page.
#[derive(Drop)]
struct Held {
    top: u8,
    slots: ArrayVec<Slot, 24>,
    children: ArrayVec<Child, 25>,
}

/// What the bytes of a page have.
#[derive(Drop)]
struct PageFields {
    level: u8,
    held: Held,
}

/// Takes the colour of a node: whether it is red.
fn take_colour(bytes: &[u8], at: &mut u64) -> Result<bool, ReadFault>
    requires { at.old ≤ length bytes.now }
    ensures takes { Takes colour_codec (λ red. red) bytes.now at.old at.new result }
    ensures memory { IfErr result (λ fault. fault ≢ ReadFault.NoMemory) }
{
    let colour = take_number(bytes, at, 1, 0, 1)?;
    Ok(colour == 1)
}

/// What a page has many of.
trait Taken: Copy + Default + Drop {
    ghost use Rattle.tw_base.specs.format.Codecs.{Codec};

    /// How one is spelled.
    ghost codec: { Codec Self };

    /// Takes one.
    fn take(bytes: &[u8], at: &mut u64) -> Result<Self, ReadFault>
        requires { at.old ≤ length bytes.now }
        ensures takes { Takes codec (λ x. x) bytes.now at.old at.new result }
        ensures memory { IfErr result (λ fault. fault ≢ ReadFault.NoMemory) };
}

impl Taken for Slot {
    ghost codec = { slot_codec };

    #[tactic(auto, unfolding(crate::specs::NodeBytes::slot_codec, tw_base::specs::format::Seen::records))]
    fn take(bytes: &[u8], at: &mut u64) -> Result<Self, ReadFault> {
        let red = take_colour(bytes, at)?;
        let left = take_number(bytes, at, 1, 0, 255)? as u8;
        let right = take_number(bytes, at, 1, 0, 255)? as u8;
        let entry = take_entry(bytes, at)?;
        Ok(Slot {
            link: Link { red, left, right },
            entry: Kept { entry },
        })
    }
}

impl Taken for Child {
    ghost codec = { child_codec };

    fn take(bytes: &[u8], at: &mut u64) -> Result<Self, ReadFault> {
        let page = take_number(bytes, at, 8, 0, u64::MAX)?;
        let label = take_digest(bytes, at)?;
        Ok(Child { page, label })
    }
}

/// Takes so many.
#[tactic(auto)]
fn take_many<T: Taken, const N: usize>(
    bytes: &[u8],
    at: &mut u64,
    count: u8,
) -> Result<ArrayVec<T, N>, ReadFault>
    requires within { at.old ≤ length bytes.now }
    requires few { count ≤ N }
    requires lawful { Lawful T.codec }
    ensures takes { Takes (many count T.codec) (λ all. all.items) bytes.now at.old at.new result }
    ensures memory { IfErr result (λ fault. fault ≢ ReadFault.NoMemory) }
{
    let mut all: ArrayVec<T, N> = ArrayVec::new();
    for _i in 0..count {
        all.push(T::take(bytes, at)?);
    }
    Ok(all)
}

/// Takes the root slot, so many slots, and one child more.
#[tactic(auto, unfolding(tw_base::specs::format::Codecs::pair))]
fn take_held(bytes: &[u8], at: &mut u64, count: u8) -> Result<Held, ReadFault>
    requires within { at.old ≤ length bytes.now }
    requires some { 1 ≤ count }
    requires few { count ≤ 24 }
    ensures takes { Takes (held_codec count) (λ h. (h.top, (h.slots.items, h.children.items))) bytes.now at.old at.new result }
    ensures memory { IfErr result (λ fault. fault ≢ ReadFault.NoMemory) }
{
    let top = take_number(bytes, at, 1, 1, count as u64)? as u8;
    let slots = take_many(bytes, at, count)?;
    let children = take_many(bytes, at, count + 1)?;
    Ok(Held {
        top,
        slots,
        children,
    })
}

/// Takes the number of the keys, and what stands behind it.
#[tactic(auto, unfolding(tw_base::specs::format::Codecs::by_kind))]
fn take_counted_slots(bytes: &[u8], at: &mut u64) -> Result<Held, ReadFault>
    requires { at.old ≤ length bytes.now }
    ensures takes { Takes counted_codec (λ h. (h.top, (h.slots.items, h.children.items))) bytes.now at.old at.new result }
    ensures memory { IfErr result (λ fault. fault ≢ ReadFault.NoMemory) }
{
    let count = take_number(bytes, at, 1, 1, MOST_KEYS)? as u8;
    take_held(bytes, at, count)
}

/// Takes what the bytes of a page have, behind the 3 of tree pages; those of steps, of events and of heads begin with 1, 2 and 4.
#[tactic(auto, unfolding(crate::specs::NodeBytes::page_node_codec, tw_base::specs::format::Seen::records))]
fn take_fields(bytes: &[u8], at: &mut u64) -> Result<PageFields, ReadFault>
    requires { at.old ≤ length bytes.now }
    ensures takes { Takes page_node_codec (λ f. (f.level, (f.held.top, (f.held.slots.items, f.held.children.items)))) bytes.now at.old at.new result }
    ensures memory { IfErr result (λ fault. fault ≢ ReadFault.NoMemory) }
{
    take_text(bytes, at, &[3])?;
    let level = take_number(bytes, at, 1, 0, TOP_LEVEL as u64)? as u8;
    let held = take_counted_slots(bytes, at)?;
    Ok(PageFields { level, held })
}

// ---- the rules

/// Whether the child is of the level and lies below the page.
#[tactic(auto)]
fn is_child<H: Hasher>(level: u8, page: u64, child: &Child, empty: &Digest) -> bool
    requires { empty.now ≡ H.dig empty_tree_text }
    ensures { IsTrue result ↔ (IsChildAt H.dig level child.now × LiesBelow page level child.now) }
{
    if level == 0 {
        child.page == 0 && is_same_digest(&child.label, empty)
    } else {
        0 < child.page && child.page < page
    }
}

/// Whether all children are of the level and lie below the page.
#[tactic(auto)]
fn are_children<H: Hasher>(level: u8, page: u64, children: &[Child]) -> bool
    ensures { IsTrue result ↔ Each (λ c. IsChildAt H.dig level c × LiesBelow page level c) children.now }
{
    let empty = empty_tree::<H>();
    for child in children {
        if !is_child::<H>(level, page, child, &empty) {
            return false;
        }
    }
    true
}

/// Whether the keys rise.
#[tactic(auto)]
fn are_rising(entries: &[Kept]) -> bool
    requires { 0 < length entries.now }
    ensures { IsTrue result ↔ IsRising entries.now }
{
    for index in 1..entries.len() {
        let before = entry_of(entries, index - 1);
        let own = entry_of(entries, index);
        if !is_below(&entry_key(&before), &entry_key(&own)) {
            return false;
        }
    }
    true
}

/// The links of the slots, behind one that leads nowhere.
#[tactic(auto)]
fn links_of(slots: &[Slot]) -> [Link; 26]
    requires { length slots.now ≤ 24 }
    ensures blank { slice_get result 0 ≡ Some (record { red = false; left = 0; right = 0 }) }
    ensures links { (k : ℕ) → k < length slots.now → slice_get result (k + 1) ≡ slice_get (map (λ s. s.link) slots.now) k }
{
    let mut links = [BLANK; 26];
    for index in 0..slots.len() {
        put(&mut links, index as u8 + 1, slots[index].link);
    }
    links
}

/// The entries of the slots.
#[tactic(auto)]
fn entries_of(slots: &[Slot]) -> ArrayVec<Kept, 24>
    requires { length slots.now ≤ 24 }
    ensures { result.items ≡ map (λ s. s.entry) slots.now }
{
    let mut entries = ArrayVec::new();
    for slot in slots {
        entries.push(slot.entry);
    }
    entries
}

/// The page that has these fields, where its slots are a red-black tree whose keys rise.
#[tactic(auto)]
fn node_of(level: u8, held: Held) -> Option<RbNode>
    requires level { level ≤ TOP_LEVEL }
    requires some { 0 < length held.slots.items }
    requires few { length held.slots.items ≤ MOST_KEYS }
    requires top { held.top ≤ length held.slots.items }
    requires places { length held.children.items ≡ length held.slots.items + 1 }
    requires ranges { Each (λ s. IsEntryInRange s.entry) held.slots.items }
    ensures { MatchOption result ((p : TreePage) → IsNode p → held_of p ≡ (held.top, (held.slots.items, held.children.items)) → ⊥)
        (λ n. IsNode n × (n.level ≡ level) × (held_of n ≡ (held.top, (held.slots.items, held.children.items)))) }
{
    let count = held.slots.len() as u8;
    let links = links_of(held.slots.as_slice());
    let entries = entries_of(held.slots.as_slice());
    let Some(_height) = height_in(&links, 0, count, held.top) else {
        return None;
    };
    if link_at(&links, held.top).red || !are_rising(entries.as_slice()) {
        return None;
    }
    Some(RbNode {
        level,
        top: held.top,
        links,
        entries,
        children: held.children,
    })
}

/// The page that these bytes are under this page number; None exactly where they aren't one that may stand there. Whether the pages
/// of its children are read, have the level one lower, or are within the store is not told.
#[tactic(auto)]
pub fn read_node<H: Hasher>(bytes: &Page, page: u64) -> Option<RbNode>
    // The answer is the page whose spelling the bytes are, with a red-black tree, keys that rise, and children of its level, which
    // lie below it; None is answered exactly where there is none.
    ensures { MatchOption result ((p : TreePage) → MayStand H.dig page p → IsPageOf page_node_codec bytes.now (fields_of p) → ⊥)
        (λ n. MayStand H.dig page n × IsPageOf page_node_codec bytes.now (fields_of n)) }
{
    let mut at = 0;
    let read = take_fields(bytes, &mut at);
    let Some(fields) = page_to(bytes, at, read) else {
        return None;
    };
    if !are_children::<H>(fields.level, page, fields.held.children.as_slice()) {
        return None;
    }
    node_of(fields.level, fields.held)
}
