// Staging the event pages of a step, each with a piece of the stream of its events; `event_pages.rt` reads them.

ghost use Rattle.std.specs.Prelude.{◌≡◌, ℕ, ◌+◌, ◌*◌, ◌<◌, ◌≤◌, ◌^◌, ◌++◌, List, length, IfOk, OnOk};
ghost use Rattle.std.specs.Int.{to_be_bytes, w32};
ghost use Rattle.tw_base.specs.kinds.Lists.{Each};
ghost use Rattle.tw_disk.specs.Answers.{AddsPages};
ghost use Rattle.tw_disk.specs.Found.Found.{Is};
ghost use Rattle.tw_disk.specs.WalkFaults.{memory_alone};
ghost use Rattle.tw_skiplist.specs.Appended.{with_pieces};
ghost use Rattle.tw_skiplist.specs.Events.{piece_count};
ghost use Rattle.tw_base.specs.history.Limits.{MayRecord};
ghost use Rattle.tw_steppage.specs.StepBytes.{event_page_bytes, piece, stream};

use std::alloc::Global;
use tw_base::{Bytes, EventList, NoMemory};
use tw_disk::Pages;
use tw_steppage::event_page;
use tw_steppage::limits::{MOST_PIECE_BYTES, MOST_STREAM_BYTES};

// Puts an event behind its length, as a history's file has it, into which the stream is copied.
fn put_event(into: &mut Bytes, event: &Bytes) -> Result<(), NoMemory>
    requires { length event.now < 2 ^ 32 }
    ensures { OnOk result (into.new ≡ into.old ++ (to_be_bytes w32 (length event.now) ++ event.now)) }
{
    into.extend_from_slice(&(event.len() as u32).to_be_bytes())?;
    into.extend_from_slice(event.as_slice())?;
    Ok(())
}

/// Each event behind its length.
pub(crate) fn stream_of(alloc: Global, events: &EventList) -> Result<Bytes, NoMemory>
    requires { MayRecord events.now }
    ensures stream { IfOk result (λ bytes. bytes ≡ stream events.now) }
    ensures size { IfOk result (λ bytes. length bytes ≤ MOST_STREAM_BYTES) }
{
    let mut bytes = Bytes::new(alloc);
    let items = events.as_slice();
    for event in items {
        put_event(&mut bytes, event)?;
    }
    Ok(bytes)
}

// The piece of this number.
fn piece_of(stream: &[u8], number: u16) -> &[u8]
    requires { MOST_PIECE_BYTES * number ≤ length stream.now }
    ensures piece { result.now ≡ piece stream.now number }
    ensures size { length result.now ≤ MOST_PIECE_BYTES }
{
    let rest = &stream[(MOST_PIECE_BYTES * number as u64) as usize..];
    &rest[..rest.len().min(MOST_PIECE_BYTES as usize)]
}

// The event page of this number.
fn piece_page(step: u64, stream: &[u8], number: u16) -> [u8; 4096]
    requires { MOST_PIECE_BYTES * number ≤ length stream.now }
    ensures { result ≡ event_page_bytes step number (piece stream.now number) }
{
    event_page(step, number, piece_of(stream, number))
}

/// Stages the event pages of a step, and answers how many they are.
pub(crate) fn stage_pieces<P: Pages>(
    pages: &mut P,
    step: u64,
    stream: &[u8],
) -> Result<u16, NoMemory>
    requires used { (P.view pages.old).used < 2 ^ 47 }
    requires size { length stream.now ≤ MOST_STREAM_BYTES }
    ensures adds { AddsPages memory_alone P.view P.same pages.old pages.new (λ count. count) result (λ ps. Is
        (with_pieces ps step stream.now)) }
    ensures count { IfOk result (λ count. count ≡ piece_count (length stream.now)) }
    ensures used { IfOk result (λ count. (P.view pages.new).used ≡ (P.view pages.old).used + count) }
    ensures few { (P.view pages.new).used ≤ (P.view pages.old).used + piece_count (length stream.now) }
{
    let mut count = 0u16;
    while MOST_PIECE_BYTES * (count as u64) < stream.len() as u64 {
        pages.stage(&piece_page(step, stream, count))?;
        count += 1;
    }
    Ok(count)
}
