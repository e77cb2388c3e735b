// Reading the events file of which `append` makes a step.

ghost use Rattle.std.specs.Prelude.{◌≤◌, length};
ghost use Rattle.tw_base.specs.format.Codecs.{IsUnambiguous};
ghost use Rattle.tw_base.specs.format.Formats.{ReadsAs};
ghost use Rattle.tw_base.specs.format.Taking.{Takes};
ghost use Rattle.tw_msg.specs.EventsFile.{events_codec, events_file};

use std::alloc::Global;
use tw_base::{EventList, ReadFault, take_events_within, take_text, whole_to};

/// How an events file begins: the four bytes `TWE1`.
const MAGIC: [u8; 4] = [0x54, 0x57, 0x45, 0x31];

/// Takes an events file; the number of events and their lengths are any that four bytes hold, since too many or too long ones are
/// refused by `append`, with their number or length.
#[tactic(auto, unfolding(crate::specs::EventsFile::events_codec, tw_base::specs::format::Codecs::behind))]
fn take_file(alloc: Global, bytes: &[u8], at: &mut u64) -> Result<EventList, ReadFault>
    requires { at.old ≤ length bytes.now }
    ensures { Takes events_codec (λ events. events) bytes.now at.old at.new result }
{
    take_text(bytes, at, &MAGIC)?;
    take_events_within(alloc, bytes, at, u32::MAX as u64, u32::MAX as u64)
}

/// The events of an events file: the four bytes `TWE1`, the number of events in four bytes, and for
/// each event its length in four bytes and its bytes; numbers are big-endian, and any that fits is
/// allowed. Malformed exactly where the bytes are no such file, with the place of the first byte at
/// which none goes on; where they end too early, that is their length. Takes no more memory than
/// the events that are there, and reads each byte once.
pub fn read_events(alloc: Global, bytes: &[u8]) -> Result<EventList, ReadFault>
    // A file of events is read exactly where its bytes spell one, with its events; else the place of the first bad byte
    // is told.
    ensures { ReadsAs (λ events. events) events_file bytes.now result }
{
    let mut at = 0;
    let read = take_file(alloc, bytes, &mut at);
    whole_to(bytes, at, read)
}

/// The words of events files: each has one list of events, a list of events has one spelling, and no
/// word is the front of a longer one.
pub fn events_file_laws()
    // A file has one list of events, events have one spelling, and no file is the front of a longer one.
    ensures { IsUnambiguous events_codec }
{}
