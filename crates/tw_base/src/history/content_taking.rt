// Reading a thread, and what a step of a history's file records; `thread_writing.rt` and tw_history/src/writing.rt write them.
#![tactic(auto, unfolding(crate::specs::history::Seen::contents))]

ghost use Rattle.std.specs.Prelude.{◌≡◌, ◌≢◌, ◌≤◌, length, IfErr};
ghost use Rattle.tw_base.specs.history.HistoryCodec.{is_of_events as is_kind_of_events, is_timed as is_timed_kind};
ghost use Rattle.tw_base.specs.history.HistoryCodec.{of_kind, recorded_codec, thread_codec};
ghost use Rattle.tw_base.specs.format.Taking.{Takes};

use crate::format::event_taking::take_events;
use crate::format::taking::{take_digest, take_name, take_number};
use crate::format::time::take_time;
use crate::history::content::Content;
use crate::history::received_thread::ReceivedThread;
use crate::history::step_events::StepEvents;
use crate::history::thread::Thread;
use crate::kinds::failure::ReadFault;
use crate::kinds::limits::LAST_STEP;
use std::alloc::Global;

/// Takes a thread: a service, one of its steps from 1 on, and its authenticator there.
pub fn take_thread(bytes: &[u8], at: &mut u64) -> Result<Thread, ReadFault>
    requires { at.old ≤ length bytes.now }
    // A thread is taken at a place exactly as its codec reads it; else the place of the first bad byte is told.
    ensures takes { Takes thread_codec (λ t. t) bytes.now at.old at.new result }
    // `NoMemory` is never answered.
    ensures memory { IfErr result (λ fault. fault ≢ ReadFault.NoMemory) }
{
    let from = take_name(bytes, at)?;
    let step = take_number(bytes, at, 8, 1, LAST_STEP)?;
    let auth = take_digest(bytes, at)?;
    Ok(Thread { from, step, auth })
}

/// Whether a step of this kind has a time.
#[tactic(auto)]
pub fn is_timed(kind: u64) -> bool
    ensures { result ≡ is_timed_kind kind }
{
    kind >= 3
}

/// Whether a step of this kind has events, and not a thread.
#[tactic(auto)]
pub fn is_of_events(kind: u64) -> bool
    ensures { result ≡ is_kind_of_events kind }
{
    kind == 1 || kind == 3
}

/// Takes what a step of this kind has: its time, if any, and its events or the thread that it received.
fn take_of_kind(
    alloc: Global,
    bytes: &[u8],
    at: &mut u64,
    kind: u64,
) -> Result<(Option<u64>, Content), ReadFault>
    requires { at.old ≤ length bytes.now }
    ensures { Takes (of_kind kind) (λ r. r) bytes.now at.old at.new result }
{
    let time = take_time(bytes, at, is_timed(kind))?;
    if is_of_events(kind) {
        let events = take_events(alloc, bytes, at)?;
        return Ok((time, Content::Events(StepEvents::new(events))));
    }
    let thread = take_thread(bytes, at)?;
    Ok((time, Content::Received(ReceivedThread::new(alloc, thread)?)))
}

/// Takes the time of a step, if it has one, and what it records, behind its kind: 1 for events, 2
/// for a thread, 3 and 4 for these with a time.
#[tactic(auto)]
pub fn take_recorded(
    alloc: Global,
    bytes: &[u8],
    at: &mut u64,
) -> Result<(Option<u64>, Content), ReadFault>
    requires { at.old ≤ length bytes.now }
    // What a step records, with its time where its kind has one, is taken at a place exactly as its codec reads it;
    // else the place of the first bad byte is told.
    ensures { Takes recorded_codec (λ r. r) bytes.now at.old at.new result }
{
    let kind = take_number(bytes, at, 1, 1, 4)?;
    take_of_kind(alloc, bytes, at, kind)
}
