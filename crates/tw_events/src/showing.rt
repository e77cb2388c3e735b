// The part of a proof that shows one event among the events of its step; tw_answers and tw_history make whole proofs of it.

ghost use Rattle.std.specs.Prelude.{◌≡◌, ℕ, ◌<◌, ◌≤◌, List, length, IfOk};
ghost use Rattle.tw_base.specs.events.AuditPath.{ChecksEvent, audit_texts, path_length};
ghost use Rattle.tw_base.specs.events.EventParts.{event_part as event_part_of};
ghost use Rattle.tw_base.specs.events.EventTree.{event_root as event_root_of};
ghost use Rattle.tw_base.specs.kinds.Handing.{Hands};
ghost use Rattle.tw_base.specs.kinds.Lists.{Each};
ghost use Rattle.tw_base.specs.declared.kinds.limits.TheConstants.{MOST_EVENTS, MOST_EVENT_BYTES};

use crate::check::root_above_leaf;
use crate::path::event_path;
use std::alloc::Global;
use tw_base::{
    Bytes, Digest, EventPart, Hasher, NoMemory, Transcript, Unwritten, event_leaf_told, sides_of,
};

/// The event of that index (from 0) among at most 1,024 events, each of at most 1,024 bytes, with its
/// audit path. With it the event checks under the root of the events. Copies the one event, and hashes
/// each text of the others at most once.
pub fn event_part<H: Hasher>(
    alloc: Global,
    events: &[Bytes],
    index: u32,
) -> Result<EventPart, NoMemory>
    requires inside { index < length events.now }
    requires few { length events.now ≤ MOST_EVENTS }
    requires small { Each (λ event. length event ≤ MOST_EVENT_BYTES) events.now }
    // What is told of an event is the event at its index among the events, and its audit path of RFC 6962.
    ensures part { IfOk result (λ part. part ≡ event_part_of H.dig events.now index) }
    // With it the event checks under the root of the events.
    ensures checks { IfOk result (λ part. ChecksEvent H.dig (event_root_of H.dig events.now) (length events.now) part.index part.event part.path) }
    ensures small { IfOk result (λ part. length part.event ≤ MOST_EVENT_BYTES) }
{
    let path = event_path::<H>(alloc, events, index)?;
    let event = Bytes::from_slice(alloc, events[index as usize].as_slice())?;
    Ok(EventPart { index, event, path })
}

/// The root that `root_over` computes. Its texts are handed on: that of the event's leaf, and then those of the
/// nodes above it, upwards.
pub fn root_over_told<T: Transcript>(part: &EventPart, count: u32, texts: &mut T) -> Digest
    requires inside { part.now.index < count }
    requires few { count ≤ MOST_EVENTS }
    requires small { length part.now.event ≤ MOST_EVENT_BYTES }
    requires path { length part.now.path ≡ path_length count part.now.index }
    // Where an event checks under a root, what its path leads to is that root.
    ensures root { (root : List ℕ) → ChecksEvent T.dig root count part.now.index part.now.event part.now.path → result ≡ root }
    // The texts of the event and its path are handed on.
    ensures took { Hands T.took texts.old texts.new (audit_texts T.dig count part.now.index part.now.event part.now.path) }
{
    let sides = sides_of(count as usize, part.index as usize);
    let leaf = event_leaf_told(part.event.as_slice(), texts);
    root_above_leaf(sides, part.path.as_slice(), leaf, texts)
}

/// The root of at most 1,024 events, computed from what `event_part` told of one of them, which has at
/// most 1,024 bytes: so nothing that its path was computed from is hashed again. Takes no memory.
pub fn root_over<H: Hasher>(part: &EventPart, count: u32) -> Digest
    requires inside { part.now.index < count }
    requires few { count ≤ MOST_EVENTS }
    requires small { length part.now.event ≤ MOST_EVENT_BYTES }
    requires path { length part.now.path ≡ path_length count part.now.index }
    // Where an event checks under a root, what its path leads to is that root.
    ensures { (root : List ℕ) → ChecksEvent H.dig root count part.now.index part.now.event part.now.path → result ≡ root }
{
    root_over_told(part, count, &mut Unwritten::<H>::new())
}
