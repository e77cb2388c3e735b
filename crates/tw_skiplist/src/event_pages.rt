// Reading the events of a step from its event pages; `pieces.rt` writes these pages.

ghost use Rattle.std.specs.Prelude.{◌≡◌, ℕ, ◌+◌, ◌*◌, ◌<◌, ◌≤◌, ◌^◌, length, take, drop, IfErr, IfOk, IfSome, OnOk, MatchBool, MatchOption};
ghost use Rattle.std.specs.Int.{from_be_bytes, w32};
ghost use Rattle.tw_disk.specs.Answers.{AnswersAs, ReadsPages};
ghost use Rattle.tw_disk.specs.Found.{spelled};
ghost use Rattle.tw_disk.specs.WalkFaults.{walk_faults};
ghost use Rattle.tw_disk.specs.declared.walk_fault.WalkFault.TheVariants.{BadPage};
ghost use Rattle.tw_skiplist.specs.ListFaults.{list_faults};
ghost use Rattle.tw_base.specs.history.Limits.{MayRecord};
ghost use Rattle.tw_skiplist.specs.ScanSteps.{HasEventAt, IsNoEventAt, copied, tested};
ghost use Rattle.tw_disk.specs.Found.Found.{Is, Bad};
ghost use Rattle.tw_skiplist.specs.Events.{events_from, events_on, last_event_page, piece_behind, piece_count, piece_size as piece_size_of, pieces_from, stream_in};
ghost use Rattle.tw_steppage.specs.StepBytes.{piece_codec};

use crate::fault::ListFault;
use crate::info::EventsAt;
use std::alloc::Global;
use tw_base::limits::{MOST_EVENT_BYTES, MOST_EVENTS, MOST_STEP_BYTES, PAGE_SIZE};
use tw_base::{Bytes, EventList, NoMemory, Page};
use tw_disk::{Pages, WalkFault, read_page};
use tw_steppage::limits::{MOST_PIECE_BYTES, MOST_STREAM_BYTES};
use tw_steppage::{event_piece, is_event_page};

// How many bytes of a stream of this size the event page of this number has.
fn piece_size(size: u32, number: u16) -> usize
    requires { MOST_PIECE_BYTES * number < size }
    ensures value { result ≡ piece_size_of size number }
    ensures most { result ≤ MOST_PIECE_BYTES }
{
    let left = size as u64 - MOST_PIECE_BYTES * number as u64;
    left.min(MOST_PIECE_BYTES) as usize
}

// The piece that the bytes of the page of this number have, as the event page of a number of the step.
fn piece_from(
    bytes: &Page,
    page: u64,
    step: u64,
    number: u16,
    count: usize,
) -> Result<&[u8], WalkFault>
    requires { count ≤ MOST_PIECE_BYTES }
    ensures answer { AnswersAs walk_faults (λ piece. piece.now) result (spelled page PAGE_SIZE
        (piece_codec step number count) bytes.now) }
    ensures bad { IfErr result (λ fault. fault ≡ BadPage page) }
{
    if !is_event_page(bytes, step, number, count) {
        return Err(WalkFault::BadPage { page });
    }
    Ok(event_piece(bytes, count))
}

// Reads the event page of this number of the step into a page that may hold anything, and appends its piece of the stream.
fn add_piece<P: Pages>(
    pages: &mut P,
    at: &EventsAt,
    number: u16,
    bytes: &mut Page,
    into: &mut Bytes,
) -> Result<(), ListFault>
    requires page { at.now.stream.page + number < 2 ^ 64 }
    requires more { MOST_PIECE_BYTES * number < at.now.stream.size }
    ensures reads { ReadsPages list_faults P.view P.same pages.old pages.new (λ _. into.new) result
        (λ ps. piece_behind ps at.now number into.old) }
    ensures next { OnOk result (at.now.stream.page + number + 1 < 2 ^ 64) }
    ensures grown { OnOk result (length into.old ≤ length into.new) }
{
    let page = at.stream.page + number as u64;
    let count = piece_size(at.stream.size, number);
    read_page(pages, page, bytes)?;
    let piece = piece_from(bytes, page, at.step, number, count)?;
    into.extend_from_slice(piece)?;
    Ok(())
}

// Tells a proof that the number of a page is one that a `u64` has.
fn page_range(page: u64)
    ensures { page < 2 ^ 64 }
{}

/// Reads the event pages of a step, and appends the bytes that they have. Answers the page that was read last
/// before them or among them.
#[tactic(auto, using(crate::proofs::PieceCounts::pieces_go_on))]
fn add_stream<P: Pages>(pages: &mut P, at: &EventsAt, into: &mut Bytes) -> Result<u64, ListFault>
    requires { at.now.stream.size ≤ MOST_STREAM_BYTES }
    ensures reads { ReadsPages list_faults P.view P.same pages.old pages.new (λ _. into.new) result
        (λ ps. pieces_from ps at.now (piece_count at.now.stream.size) 0 into.old) }
    ensures last { IfOk result (λ last. last ≡ last_event_page at.now (piece_count at.now.stream.size)) }
    ensures grown { OnOk result (length into.old ≤ length into.new) }
{
    let size = at.stream.size as u64;
    page_range(at.stream.page);
    let mut bytes = [0; PAGE_SIZE];
    let mut last = at.page;
    let mut number = 0u16;
    while MOST_PIECE_BYTES * (number as u64) < size {
        add_piece(pages, at, number, &mut bytes, into)?;
        last = at.stream.page + number as u64;
        number += 1;
    }
    Ok(last)
}

/// The bytes that the event pages of a step have, and the page that was read last before them or
/// among them.
#[derive(Drop)]
struct StreamRead {
    bytes: Bytes,
    last: u64,
}

/// Reads the event pages of a step.
fn read_stream<P: Pages>(
    alloc: Global,
    pages: &mut P,
    at: &EventsAt,
) -> Result<StreamRead, ListFault>
    requires { at.now.stream.size ≤ MOST_STREAM_BYTES }
    ensures reads { ReadsPages list_faults P.view P.same pages.old pages.new (λ r. r.bytes) result
        (λ ps. stream_in ps at.now) }
    ensures last { IfOk result (λ r. r.last ≡ last_event_page at.now (piece_count at.now.stream.size)) }
{
    let mut bytes = Bytes::new(alloc);
    let last = add_stream(pages, at, &mut bytes)?;
    Ok(StreamRead { bytes, last })
}

// ---- the events in it

// The number that the four bytes from a place on spell.
fn u32_at(bytes: &[u8], at: usize) -> u32
    requires { at + 4 ≤ length bytes.now }
    ensures { result ≡ from_be_bytes w32 (take 4 (drop at bytes.now)) }
{
    let mut number = [0; 4];
    number.copy_from_slice(&bytes[at..at + 4]);
    u32::from_be_bytes(number)
}

// The size of the event that stands at a place behind its length, where one of at most 1,024 bytes does.
fn event_size_at(bytes: &[u8], at: usize) -> Option<usize>
    requires { at ≤ length bytes.now }
    ensures { MatchOption result (IsNoEventAt bytes.now at) (λ n. HasEventAt bytes.now at n) }
{
    if bytes.len() - at < 4 {
        return None;
    }
    let size = u32_at(bytes, at) as usize;
    if size as u64 > MOST_EVENT_BYTES || bytes.len() - at - 4 < size {
        return None;
    }
    Some(size)
}

/// The events that the bytes spell, as many as the count, if they spell any within the limits of a step. (tw_base takes those of files.)
fn read_events(alloc: Global, bytes: &[u8], count: u32) -> Result<Option<EventList>, NoMemory>
    ensures answer { IfOk result (λ found. (page : ℕ)
        → MatchOption found (events_on page count bytes.now ≡ Bad page)
        (λ events. events_on page count bytes.now ≡ Is events)) }
    ensures limits { IfOk result (λ found. IfSome found (λ events. MayRecord events × (length events ≡ count))) }
{
    if count as u64 > MOST_EVENTS {
        return Ok(None);
    }
    let mut events = EventList::new(alloc);
    let mut at = 0;
    for index in 0..count {
        let Some(size) = event_size_at(bytes, at) else {
            return Ok(None);
        };
        let event = Bytes::from_slice(alloc, &bytes[at + 4..at + 4 + size])?;
        events.push(event)?;
        at += 4 + size;
    }
    if at != bytes.len() || at as u64 > 4 * count as u64 + MOST_STEP_BYTES {
        return Ok(None);
    }
    Ok(Some(events))
}

/// Whether the bytes spell events within the limits of a step, as many as the count; `read_events` makes these of them.
fn are_events(bytes: &[u8], count: u32) -> bool
    ensures { (page : ℕ) → MatchBool result (tested page count bytes.now ≡ Is tt) (tested page count bytes.now ≡ Bad page) }
{
    if count as u64 > MOST_EVENTS {
        return false;
    }
    let mut at = 0;
    for index in 0..count {
        let Some(size) = event_size_at(bytes, at) else {
            return false;
        };
        at += 4 + size;
    }
    if at != bytes.len() || at as u64 > 4 * count as u64 + MOST_STEP_BYTES {
        return false;
    }
    true
}

/// Appends the events of a step, each behind its length, from where they stand.
#[tactic(auto, unfolding(crate::specs::ScanSteps::copied))]
pub(crate) fn copy_from<P: Pages>(
    pages: &mut P,
    at: &EventsAt,
    into: &mut Bytes,
) -> Result<(), ListFault>
    ensures reads { ReadsPages list_faults P.view P.same pages.old pages.new (λ _. into.new) result
        (λ ps. copied ps at.now into.old) }
{
    if at.stream.size as u64 > MOST_STREAM_BYTES {
        return Err(ListFault::BadPage { page: at.page });
    }
    let start = into.len();
    let last = add_stream(pages, at, into)?;
    if !are_events(&into.as_slice()[start..], at.count) {
        return Err(ListFault::BadPage { page: last });
    }
    Ok(())
}

/// The events of a step, from where they stand.
#[tactic(auto, unfolding(crate::specs::Events::events_from))]
pub(crate) fn read_from<P: Pages>(
    alloc: Global,
    pages: &mut P,
    at: &EventsAt,
) -> Result<EventList, ListFault>
    ensures reads { ReadsPages list_faults P.view P.same pages.old pages.new (λ x. x) result
        (λ ps. events_from ps at.now) }
    ensures counted { IfOk result (λ events. MayRecord events × (length events ≡ at.now.count)) }
{
    if at.stream.size as u64 > MOST_STREAM_BYTES {
        return Err(ListFault::BadPage { page: at.page });
    }
    let StreamRead { bytes, last } = read_stream(alloc, pages, at)?;
    match read_events(alloc, bytes.as_slice(), at.count)? {
        None => Err(ListFault::BadPage { page: last }),
        Some(events) => Ok(events),
    }
}
