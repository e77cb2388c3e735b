// Reading lists of events of files, each behind its length, within the limits of a step or of a format; tw_skiplist reads those of pages.
#![tactic(auto, unfolding(crate::specs::format::Codecs::number_codec))]

ghost use Rattle.std.specs.Prelude.{◌≡◌, ℕ, ◌^◌, ◌<◌, ◌≤◌, length, IfOk};
ghost use Rattle.tw_base.specs.declared.kinds.limits.TheConstants.{MOST_EVENTS};
ghost use Rattle.tw_base.specs.format.Codecs.{counted, many, sized_codec};
ghost use Rattle.tw_base.specs.history.HistoryCodec.{event_codec};
ghost use Rattle.tw_base.specs.format.Taking.{Takes};

use crate::format::taking::{take_number, take_sized};
use crate::kinds::failure::ReadFault;
use crate::kinds::limits::{MOST_EVENT_BYTES, MOST_EVENTS};
use crate::kinds::sequence::EventList;
use std::alloc::Global;

/// Takes so many events, each behind its length in four bytes (at most `most`).
fn take_event_list(
    alloc: Global,
    bytes: &[u8],
    at: &mut u64,
    count: u64,
    most: u64,
) -> Result<EventList, ReadFault>
    requires within { at.old ≤ length bytes.now }
    requires fits { most < 256 ^ 4 }
    ensures { Takes (many count (sized_codec 4 0 most)) (λ events. events) bytes.now at.old at.new result }
{
    // Each event has at least the four bytes of its length.
    let most_left = (bytes.len() as u64 - *at) / 4;
    let mut events = EventList::with_capacity(alloc, count.min(most_left) as usize)?;
    for _i in 0..count {
        events.push(take_sized(alloc, bytes, at, 4, 0, most)?)?;
    }
    Ok(events)
}

/// Takes the number of events in four bytes (at most `most_events`), and each of them behind its
/// length in four bytes (at most `most_bytes`). No room is taken for events that don't come.
pub fn take_events_within(
    alloc: Global,
    bytes: &[u8],
    at: &mut u64,
    most_events: u64,
    most_bytes: u64,
) -> Result<EventList, ReadFault>
    requires within { at.old ≤ length bytes.now }
    requires events { most_events < 256 ^ 4 }
    requires bytes { most_bytes < 256 ^ 4 }
    // Events whose number and sizes are within the limits that are handed in are taken at a place exactly as their
    // codec reads them; else the place of the first bad byte is told.
    ensures { Takes (counted 4 0 most_events (sized_codec 4 0 most_bytes)) (λ events. events) bytes.now at.old at.new result }
{
    let count = take_number(bytes, at, 4, 0, most_events)?;
    take_event_list(alloc, bytes, at, count, most_bytes)
}

/// Takes the number of events (at most 1,024), and each of them behind its length (at most 1,024).
pub fn take_events(alloc: Global, bytes: &[u8], at: &mut u64) -> Result<EventList, ReadFault>
    requires { at.old ≤ length bytes.now }
    // A step's events are taken at a place exactly as their codec reads them; else the place of the first bad byte is
    // told.
    ensures { Takes (counted 4 0 MOST_EVENTS event_codec) (λ events. events) bytes.now at.old at.new result }
{
    take_events_within(alloc, bytes, at, MOST_EVENTS, MOST_EVENT_BYTES)
}
