// Writing the bytes of one page of the archive's tree, which `reading.rt` reads.
#![tactic(auto, unfolding(crate::specs::Seen::nodes_written))]

ghost use Rattle.std.specs.Prelude.{◌≡◌, ◌+◌, ◌*◌, ◌≤◌, ◌<◌, ◌++◌, ◌∷◌, [], length, drop, flat_map, take};
ghost use Rattle.tw_base.specs.kinds.Lists.{Each};
ghost use Rattle.tw_base.specs.format.PageBytes.{IsPageOf};
ghost use Rattle.tw_base.specs.history.EntryCodec.{entry_codec};
ghost use Rattle.tw_base.specs.history.Limits.{IsEntryInRange};
ghost use Rattle.tw_rbnode.specs.NodeBytes.{child_codec, fields_of, links_of, page_node_codec, slot_codec, slots_with};

use crate::child::Child;
use crate::kept::Kept;
use crate::links::{Link, link_at};
use crate::node::RbNode;
use crate::slot::Slot;
use arrayvec::ArrayVec;
use tw_base::{Entry, Page, PageFront};

/// Puts an entry into the page, 64 bytes; `put_entry` of tw_base appends one to `Bytes`.
fn put_entry(page: &mut PageFront, entry: &Entry)
    requires room { length page.old + 64 ≤ 4096 }
    requires range { IsEntryInRange entry.now }
    ensures bytes { page.new ≡ page.old ++ entry_codec.write entry.now }
    ensures fits { entry_codec.Fits entry.now }
    ensures size { length page.new ≡ length page.old + 64 }
{
    page.put(entry.thread.from.as_bytes());
    page.put_number(entry.thread.step, 8);
    page.put_digest(&entry.thread.auth);
    page.put_number(entry.archived, 8);
}

/// Puts a slot, 67 bytes.
#[tactic(auto, unfolding(crate::specs::Seen::slots))]
fn put_slot(page: &mut PageFront, slot: &Slot)
    requires room { length page.old + 67 ≤ 4096 }
    requires range { IsEntryInRange slot.now.entry }
    ensures bytes { page.new ≡ page.old ++ slot_codec.write slot.now }
    ensures fits { slot_codec.Fits slot.now }
    ensures size { length page.new ≡ length page.old + 67 }
{
    page.put_number(if slot.link.red { 1 } else { 0 }, 1);
    page.put_number(slot.link.left as u64, 1);
    page.put_number(slot.link.right as u64, 1);
    put_entry(page, &slot.entry.entry);
}

/// Puts the slots.
#[tactic(auto)]
fn put_slots(page: &mut PageFront, slots: &[Slot])
    requires room { length page.old + 67 * length slots.now ≤ 4096 }
    requires ranges { Each (λ s. IsEntryInRange s.entry) slots.now }
    ensures bytes { page.new ≡ page.old ++ flat_map slot_codec.write slots.now }
    ensures fits { Each slot_codec.Fits slots.now }
    ensures size { length page.new ≡ length page.old + 67 * length slots.now }
{
    for slot in slots {
        put_slot(page, slot);
    }
}

/// Puts a child, 40 bytes.
fn put_one(page: &mut PageFront, child: &Child)
    requires { length page.old + 40 ≤ 4096 }
    ensures bytes { page.new ≡ page.old ++ child_codec.write child.now }
    ensures fits { child_codec.Fits child.now }
    ensures size { length page.new ≡ length page.old + 40 }
{
    page.put_number(child.page, 8);
    page.put_digest(&child.label);
}

/// Puts the children.
#[tactic(auto)]
fn put_children(page: &mut PageFront, children: &[Child])
    requires { length page.old + 40 * length children.now ≤ 4096 }
    ensures bytes { page.new ≡ page.old ++ flat_map child_codec.write children.now }
    ensures fits { Each child_codec.Fits children.now }
{
    for child in children {
        put_one(page, child);
    }
}

/// The slots of the page.
#[tactic(auto)]
fn slots_of(node: &RbNode) -> ArrayVec<Slot, 24>
    ensures slots { result.items ≡ slots_with (links_of 0 node.now.shape) node.now.entries }
    ensures count { length result.items ≡ length node.now.entries }
    ensures ranges { Each (λ s. IsEntryInRange s.entry) result.items }
{
    slots_in(&node.links, node.entries.as_slice())
}

/// The slots with these links, of which the first is slot 1's, and entries.
#[tactic(auto)]
fn slots_in(links: &[Link; 26], entries: &[Kept]) -> ArrayVec<Slot, 24>
    requires { length entries.now ≤ 24 }
    ensures slots { result.items ≡ slots_with (take (length entries.now) (drop 1 links.now)) entries.now }
    ensures long { length links.now ≡ 26 }
{
    let mut slots = ArrayVec::new();
    for index in 0..entries.len() {
        slots.push(Slot {
            link: link_at(links, index as u8 + 1),
            entry: entries[index],
        });
    }
    slots
}

/// The bytes of the page. Takes no memory.
pub fn write_node(node: &RbNode) -> Page
    // The bytes are those that the format gives the page, and they may be read.
    ensures { IsPageOf page_node_codec result (fields_of node.now) }
{
    let mut page = PageFront::new();
    page.put(&[3]);
    page.put_number(node.level as u64, 1);
    page.put_number(node.entries.len() as u64, 1);
    page.put_number(node.top as u64, 1);
    put_slots(&mut page, slots_of(node).as_slice());
    put_children(&mut page, node.children.as_slice());
    page.into_page()
}
