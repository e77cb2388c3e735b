// The entries of an archive, read, and appended to `Bytes`; tw_rbnode/src/writing.rt puts them into tree pages.
#![tactic(auto, unfolding(crate::specs::history::Seen::entries_seen))]

ghost use Rattle.std.specs.Prelude.{◌≡◌, ◌≢◌, ◌≤◌, ◌++◌, length, IfErr, OnOk};
ghost use Rattle.tw_base.specs.history.EntryCodec.{entry_codec};
ghost use Rattle.tw_base.specs.history.Limits.{IsEntryInRange};
ghost use Rattle.tw_base.specs.format.Taking.{Takes};

use crate::format::taking::take_number;
use crate::format::writers::put_number;
use crate::history::content_taking::take_thread;
use crate::history::thread::Entry;
use crate::history::thread_writing::put_thread;
use crate::kinds::failure::{NoMemory, ReadFault};
use crate::kinds::limits::LAST_STEP;
use crate::kinds::sequence::Bytes;

/// Takes an entry, 64 bytes. Takes no memory.
#[tactic(auto, unfolding(crate::specs::format::Seen::records, crate::specs::history::EntryCodec::entry_codec))]
pub fn take_entry(bytes: &[u8], at: &mut u64) -> Result<Entry, ReadFault>
    requires { at.old ≤ length bytes.now }
    // An entry is taken at a place exactly as its codec reads it; else the place of the first bad byte is told.
    ensures takes { Takes entry_codec (λ e. e) bytes.now at.old at.new result }
    // `NoMemory` is never answered.
    ensures memory { IfErr result (λ fault. fault ≢ ReadFault.NoMemory) }
{
    let thread = take_thread(bytes, at)?;
    let archived = take_number(bytes, at, 8, 1, LAST_STEP)?;
    Ok(Entry { thread, archived })
}

/// Appends the entry, 64 bytes. They spell it where its steps are within 1 to 2^40 - 1.
pub fn put_entry(into: &mut Bytes, entry: &Entry) -> Result<(), NoMemory>
    // What is appended of an entry is its bytes in the format.
    ensures ok { OnOk result (into.new ≡ into.old ++ entry_codec.write entry.now) }
    // An entry whose two steps are within their limits has that spelling.
    ensures fits { OnOk result (IsEntryInRange entry.now → entry_codec.Fits entry.now) }
{
    put_thread(into, &entry.thread)?;
    put_number(into, entry.archived, 8)
}
