// What a history of a schedule received: its first thread of a service from a step on, and how many threads.

ghost use Rattle.std.specs.Prelude.{◌≡◌, ◌≤◌, length, option_and_then, Some};
ghost use Rattle.std.specs.Option.{option_to_list};
ghost use Rattle.tw_base.specs.declared.history.thread.Thread.{Thread};
ghost use Rattle.tw_base.specs.declared.kinds.limits.TheConstants.{LAST_STEP};
ghost use Rattle.tw_base.specs.history.History.{received};
ghost use Rattle.tw_base.specs.history.HistoryCodec.{thread_in};
ghost use Rattle.tw_tmap.specs.Bounds.{first_from};

use tw_base::{Content, Entry, Name};
use tw_history::{History, table_of};

/// The entry of the thread that a step received, if it received one.
fn entry_of(content: &Content, archived: u64) -> Option<Entry>
    ensures { result ≡ option_and_then (λ (t : Thread). Some (record { thread = t; archived = archived })) (thread_in content.now) }
{
    match content {
        Content::Events(_) => None,
        Content::Received(thread) => Some(Entry {
            thread: *thread.get(),
            archived,
        }),
    }
}

/// The entry, where it is of this service and of this step or a later one.
fn entry_from(entry: Option<Entry>, from: &Name, least: u64) -> Option<Entry>
    ensures { result ≡ first_from from.now least (option_to_list entry) }
{
    match entry {
        Some(entry) if entry.thread.from == *from && least <= entry.thread.step => Some(entry),
        _ => None,
    }
}

/// The first entry of a thread of this service, of this step or a later one, that the history received.
pub(crate) fn first_entry(history: &History, from: &Name, least: u64) -> Option<Entry>
    ensures { result ≡ first_from from.now least (received history.now (length history.now.steps)) }
{
    let (steps, _) = table_of(history);
    for (index, step) in steps.iter().enumerate() {
        let entry = entry_of(&step.content, index as u64 + 1);
        if let Some(found) = entry_from(entry, from, least) {
            return Some(found);
        }
    }
    None
}

/// How many entries these are.
fn count_of(entry: Option<Entry>) -> u64
    ensures { result ≡ length (option_to_list entry) }
{
    match entry {
        None => 0,
        Some(_) => 1,
    }
}

/// How many threads the history received.
pub(crate) fn count_received(history: &History) -> u64
    ensures count { result ≡ length (received history.now (length history.now.steps)) }
    ensures few { result ≤ LAST_STEP }
{
    let (steps, _) = table_of(history);
    let mut count = 0;
    for (index, step) in steps.iter().enumerate() {
        count += count_of(entry_of(&step.content, index as u64 + 1));
    }
    count
}
