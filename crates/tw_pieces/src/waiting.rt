// How many bytes of a link, an opening or an event that comes in pieces are waited for, as far as the
// bytes that are held tell.
#![tactic(auto, unfolding(crate::specs::Seen::sizes))]

ghost use Rattle.std.specs.Prelude.{◌<◌, ◌≤◌, length, IfOk};
ghost use Rattle.tw_base.specs.declared.kinds.limits.TheConstants.{LAST_STEP, MOST_EVENTS, MOST_EVENT_BYTES};
ghost use Rattle.tw_base.specs.format.Taking.{Takes};
ghost use Rattle.tw_skipproof.specs.Codecs.{event_part_codec, link_codec, opening_codec};
ghost use Rattle.tw_pieces.specs.PieceSteps.{StaysUntil, roots_codec, sizes_codec};

use tw_base::limits::MOST_EVENT_BYTES;
use tw_base::{Digest, ReadFault, path_length, take_digest, take_number, top_level};
use tw_skipproof::take_count;

/// Takes the roots of an opening, its count of events and its time.
fn take_roots(
    bytes: &[u8],
    at: &mut u64,
    least: u64,
) -> Result<(Digest, (Digest, (u32, Option<u64>))), ReadFault>
    requires within { at.old ≤ length bytes.now }
    requires least { least ≤ MOST_EVENTS }
    ensures { Takes (roots_codec least) (λ r. r) bytes.now at.old at.new result }
{
    let event_root = take_digest(bytes, at)?;
    let archive_root = take_digest(bytes, at)?;
    let counted = take_count(bytes, at, least)?;
    Ok((event_root, (archive_root, counted)))
}

/// Takes the index of an event and the number of its bytes.
fn take_sizes(bytes: &[u8], at: &mut u64, count: u32) -> Result<(u64, u64), ReadFault>
    requires within { at.old ≤ length bytes.now }
    requires some { 1 ≤ count }
    requires few { count ≤ MOST_EVENTS }
    ensures takes { Takes (sizes_codec count) (λ s. s) bytes.now at.old at.new result }
    ensures range { IfOk result (λ s. (s.0 < count) × (s.1 ≤ MOST_EVENT_BYTES)) }
{
    let index = take_number(bytes, at, 4, 0, count as u64 - 1)?;
    let size = take_number(bytes, at, 4, 0, MOST_EVENT_BYTES)?;
    Ok((index, size))
}

/// How many bytes the record of the link that leaves the step has. (`held` is for the clause alone.)
#[tactic(auto)]
pub fn link_until(held: &[u8], step: u64) -> usize
    requires { step ≤ LAST_STEP }
    // While fewer bytes are held than the link has, none of them can be the last, and none can be wrong.
    ensures { StaysUntil (link_codec step).format held.now result }
{
    32 + 32 * top_level(step) as usize
}

/// How many bytes an opening of the step has; 0 where its time isn't there yet.
#[tactic(auto)]
pub fn opening_until(held: &[u8], least: u64, step: u64) -> usize
    requires least { least ≤ MOST_EVENTS }
    requires step { step ≤ LAST_STEP }
    // While fewer bytes are held than are told, none of them can be the last of the opening, and none can be wrong.
    ensures { StaysUntil (opening_codec least step).format held.now result }
{
    let mut at = 0;
    match take_roots(held, &mut at, least) {
        Ok(_) => at as usize + (32 + 32 * top_level(step) as usize),
        Err(_) => 0,
    }
}

/// How many bytes the event's part has; 0 where its sizes aren't there yet.
#[tactic(auto)]
pub fn event_until(held: &[u8], count: u32) -> usize
    requires some { 1 ≤ count }
    requires few { count ≤ MOST_EVENTS }
    // While fewer bytes are held than are told, none of them can be the last of the event's part, and none can be wrong.
    ensures { StaysUntil (event_part_codec count).format held.now result }
{
    let mut at = 0;
    match take_sizes(held, &mut at, count) {
        Ok((index, size)) => {
            at as usize + (size as usize + 32 * path_length(count, index as u32) as usize)
        }
        Err(_) => 0,
    }
}
