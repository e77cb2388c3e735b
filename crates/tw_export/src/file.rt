// The bytes of a history's file, to which one step after another is added within the file's limits.
#![tactic(auto, unfolding(tw_base::specs::format::Seen::fields))]

ghost use Rattle.std.specs.Prelude.{◌≡◌, ℕ, IfOk, List, OnOk, drop, length, take, true};
ghost use Rattle.tw_export.specs.Copied.{file_before};
ghost use Rattle.tw_export.specs.Files.{begun, stays_short as stays_short_of, told_file, with_text};
ghost use Rattle.tw_export.specs.Told.{file_of};

use std::alloc::Global;
use std::mem;
use tw_base::limits::MOST_HISTORY_BYTES;
use tw_base::{Bytes, Name, NoMemory};
use tw_history::put_file_front;

/// The file so far: its bytes, which are kept while it is within its limits, how many they are or would be,
/// at most 2^64 - 1, and whether it is within them.
#[derive(Drop)]
pub(crate) struct HistoryFile {
    pub bytes: Bytes,
    pub size: u64,
    pub is_short: bool,
}

/// The file of a history of this name before the first of so many steps, in room for so many bytes, at most those that a file may have.
#[tactic(auto, unfolding(tw_history::specs::WritingSteps::front_codec, tw_base::specs::format::Seen::codecs))]
pub(crate) fn begin_file(
    alloc: Global,
    name: &Name,
    count: u64,
    room: u64,
) -> Result<HistoryFile, NoMemory>
    ensures { IfOk result (λ file. file_of file ≡ begun name.now count) }
{
    let mut bytes = Bytes::with_capacity(alloc, room.min(MOST_HISTORY_BYTES) as usize)?;
    put_file_front(&mut bytes, name, count)?;
    let size = bytes.len() as u64;
    Ok(HistoryFile {
        bytes,
        size,
        is_short: true,
    })
}

/// Whether the file stays within its limits with so many bytes more, of a step with few new nodes or not.
fn stays_short(file: &HistoryFile, more: u64, is_few: bool) -> bool
    ensures { (text : List ℕ) → length text ≡ more → result ≡ stays_short_of (file_of file.now) text is_few }
{
    file.is_short && is_few && file.size.saturating_add(more) <= MOST_HISTORY_BYTES
}

/// The file with the bytes of one step more, which has few new nodes or not.
#[tactic(auto)]
pub(crate) fn add_text(file: &mut HistoryFile, text: &[u8], is_few: bool) -> Result<(), NoMemory>
    ensures { OnOk result (file_of file.new ≡ with_text (file_of file.old) text.now is_few) }
{
    let more = text.len() as u64;
    file.is_short = stays_short(file, more, is_few);
    file.size = file.size.saturating_add(more);
    if file.is_short {
        file.bytes.extend_from_slice(text)?;
    }
    Ok(())
}

/// Cuts off what stands behind so many bytes.
fn cut(alloc: Global, bytes: &mut Bytes, end: usize)
    ensures { bytes.new ≡ take end bytes.old }
{
    let mut items = mem::replace(bytes, Bytes::new(alloc)).into_vec();
    items.truncate(end);
    *bytes = Bytes::from_vec(items);
}

/// Takes in the bytes from `start` on, which were appended and are those of one step more without new nodes: where the file isn't within its
/// limits with them, they are cut off.
#[tactic(auto)]
pub(crate) fn take_text(alloc: Global, file: &mut HistoryFile, start: usize)
    ensures { file_of file.new ≡ with_text (file_before (file_of file.old) start) (drop start file.old.bytes) true }
{
    let more = file.bytes.len().saturating_sub(start) as u64;
    file.is_short = stays_short(file, more, true);
    file.size = file.size.saturating_add(more);
    if !file.is_short {
        cut(alloc, &mut file.bytes, start);
    }
}

/// The bytes of the file, or, where it isn't within its limits, how many it would have.
pub(crate) fn end_file(file: HistoryFile) -> Result<Bytes, u64>
    ensures { result ≡ told_file (file_of file) }
{
    let HistoryFile {
        bytes,
        size,
        is_short,
    } = file;
    if is_short { Ok(bytes) } else { Err(size) }
}
