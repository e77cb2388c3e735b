// Reading a history's file into memory, where it is sound; its steps are taken in `reading_steps.rt`.

ghost use Rattle.std.specs.Prelude.{◌≡◌, ◌≤◌, length, MatchResult};
ghost use Rattle.tw_base.specs.format.Formats.{ReadsAs};
ghost use Rattle.tw_base.specs.history.HistoryCodec.{history_codec, history_layout};
ghost use Rattle.tw_base.specs.history.Sound.{IsSound};
ghost use Rattle.tw_base.specs.format.Taking.{Takes};
ghost use Rattle.tw_history.specs.Refusals.{ReadsHistory, TellsRule};

use crate::fault::HistoryFault;
use crate::history::History;
use crate::reading_steps::{Table, take_steps};
use crate::soundness::is_sound;
use crate::writing::MAGIC;
use std::alloc::Global;
use tw_base::limits::MOST_HISTORY_BYTES;
use tw_base::{ReadFault, take_name, take_text, whole_to};

/// Takes a history, sound or not.
#[tactic(auto, unfolding(tw_base::specs::history::HistoryCodec::history_codec, tw_base::specs::format::Seen::records))]
fn take_history(alloc: Global, bytes: &[u8], at: &mut u64) -> Result<History, ReadFault>
    requires { at.old ≤ length bytes.now }
    ensures { Takes history_codec (λ h. h) bytes.now at.old at.new result }
{
    take_text(bytes, at, &MAGIC)?;
    let name = take_name(bytes, at)?;
    let Table { steps, nodes } = take_steps(alloc, bytes, at)?;
    Ok(History::new(name, steps, nodes))
}

/// The history that the bytes spell, sound or not.
pub(crate) fn read_table(alloc: Global, bytes: &[u8]) -> Result<History, ReadFault>
    ensures { ReadsAs (λ h. h) history_layout bytes.now result }
{
    let mut at = 0;
    let read = take_history(alloc, bytes, &mut at);
    whole_to(bytes, at, read)
}

/// The sound history that the bytes spell. It comes exactly where they are a history file of a sound
/// history; else the first of these faults that stands: TooLong where they are more than 67,108,864,
/// with their number; Malformed where they are no history file; Unsound where the history breaks a
/// rule, with the least step and then the least rule. The time is near linear in the bytes, and so is
/// the memory.
pub fn read_history(alloc: Global, bytes: &[u8]) -> Result<History, HistoryFault>
    // Bytes are read as a history exactly where they are at most 67,108,864, spell one and it is sound. Else the first
    // of these is told that stands: how many there are; the exact place at which no history file goes on; the least
    // step that breaks one of the rules, and the least rule that it breaks.
    ensures read { ReadsHistory bytes.now result }
{
    if bytes.len() as u64 > MOST_HISTORY_BYTES {
        return Err(HistoryFault::TooLong {
            bytes: bytes.len() as u64,
        });
    }
    match read_table(alloc, bytes) {
        Ok(history) => judged_sound(alloc, history),
        Err(ReadFault::Malformed { place }) => Err(HistoryFault::Malformed { place }),
        Err(ReadFault::NoMemory) => Err(HistoryFault::NoMemory),
    }
}

/// The history, if it is sound.
fn judged_sound(alloc: Global, history: History) -> Result<History, HistoryFault>
    ensures { MatchResult result (λ h. (h ≡ history) × IsSound history) (TellsRule history) }
{
    is_sound(alloc, &history)?;
    Ok(history)
}
