// Reading openings and paths within proofs, map files and messages, and alone, as tests do.
#![tactic(auto, unfolding(crate::specs::Codecs::link_codec, crate::specs::Codecs::opening_codec, tw_base::specs::format::Seen::records))]

ghost use Rattle.std.specs.Prelude.{◌≡◌, ℕ, ◌<◌, ◌≤◌, length, IfOk};
ghost use Rattle.tw_base.specs.declared.kinds.limits.TheConstants.{LAST_STEP, MOST_EVENTS};
ghost use Rattle.tw_base.specs.format.Formats.{ReadsAs};
ghost use Rattle.tw_base.specs.format.Taking.{Takes};
ghost use Rattle.tw_skipproof.specs.declared.path.Path.{Path};
ghost use Rattle.tw_skipproof.specs.Codecs.{count_codec, counted_with, link_codec, opening_codec, path_codec};
ghost use Rattle.tw_skipproof.specs.Paths.{hop};

use crate::hop::level_of_hop;
use crate::opening::Opening;
use crate::path::{Link, LinkList, Path};
use std::alloc::Global;
use tw_base::limits::MOST_EVENTS;
use tw_base::{
    ReadFault, power_of_two, take_digest, take_flag, take_labels, take_number, take_time,
    top_level, whole_to,
};

/// Takes the count of events, and the time where there is to be one.
#[tactic(auto, unfolding(tw_base::specs::format::Codecs::pair))]
pub(crate) fn take_counted(
    bytes: &[u8],
    at: &mut u64,
    least: u64,
    timed: bool,
) -> Result<(u32, Option<u64>), ReadFault>
    requires within { at.old ≤ length bytes.now }
    requires least { least ≤ MOST_EVENTS }
    ensures takes { Takes (counted_with least timed) (λ c. c) bytes.now at.old at.new result }
    ensures range { IfOk result (λ c. (least ≤ c.0) × (c.0 ≤ MOST_EVENTS)) }
{
    let count = take_number(bytes, at, 3, least, MOST_EVENTS)? as u32;
    let time = take_time(bytes, at, timed)?;
    Ok((count, time))
}

/// Takes the count word with a count of events of at least `least`, and the time where one follows. (`tw_pieces` takes these alone.)
#[tactic(auto)]
pub fn take_count(bytes: &[u8], at: &mut u64, least: u64) -> Result<(u32, Option<u64>), ReadFault>
    requires within { at.old ≤ length bytes.now }
    requires least { least ≤ MOST_EVENTS }
    // A count of events and the time are taken at a place exactly as their codec reads them; else the place of the first bad byte is told.
    ensures takes { Takes (count_codec least) (λ c. c) bytes.now at.old at.new result }
    ensures range { IfOk result (λ c. (least ≤ c.0) × (c.0 ≤ MOST_EVENTS)) }
{
    let timed = take_flag(bytes, at)?;
    take_counted(bytes, at, least, timed)
}

/// Takes an opening of the step with a count of events of at least `least`.
pub fn take_opening(
    alloc: Global,
    bytes: &[u8],
    at: &mut u64,
    least: u64,
    step: u64,
) -> Result<Opening, ReadFault>
    requires within { at.old ≤ length bytes.now }
    requires least { least ≤ MOST_EVENTS }
    requires step { step ≤ LAST_STEP }
    // An opening of a step is taken at a place exactly as its codec reads it; else the place of the first bad byte is told.
    ensures takes { Takes (opening_codec least step) (λ o. o) bytes.now at.old at.new result }
    ensures count { IfOk result (λ o. (least ≤ o.count) × (o.count ≤ MOST_EVENTS)) }
{
    let event_root = take_digest(bytes, at)?;
    let archive_root = take_digest(bytes, at)?;
    let (count, time) = take_count(bytes, at, least)?;
    let prev = take_digest(bytes, at)?;
    let others = take_labels(alloc, bytes, at, top_level(step) as u64)?;
    Ok(Opening {
        event_root,
        archive_root,
        count,
        time,
        prev,
        others,
    })
}

/// Takes the record of the link that leaves the step.
pub fn take_link(alloc: Global, bytes: &[u8], at: &mut u64, step: u64) -> Result<Link, ReadFault>
    requires within { at.old ≤ length bytes.now }
    requires step { step ≤ LAST_STEP }
    // The record of a link is taken at a place exactly as its codec reads it; else the place of the first bad byte is
    // told.
    ensures { Takes (link_codec step) (λ l. l) bytes.now at.old at.new result }
{
    let datum = take_digest(bytes, at)?;
    let others = take_labels(alloc, bytes, at, top_level(step) as u64)?;
    Ok(Link { datum, others })
}

/// The step that the greedy path's next link leads to.
pub fn next_step(from: u64, to: u64) -> u64
    requires below { to < from }
    requires step { from ≤ LAST_STEP }
    // The next step of a path is that of the greedy rule.
    ensures value { result ≡ hop from to }
    ensures less { result < from }
{
    from - power_of_two(level_of_hop(from, to))
}

/// Takes the path between the two steps.
pub fn take_path(
    alloc: Global,
    bytes: &[u8],
    at: &mut u64,
    from: u64,
    to: u64,
) -> Result<Path, ReadFault>
    requires within { at.old ≤ length bytes.now }
    requires step { from ≤ LAST_STEP }
    // A path is taken at a place exactly as its codec reads it; else the place of the first bad byte is told.
    ensures { Takes (path_codec from to) (λ (p : Path). p.links) bytes.now at.old at.new result }
{
    let mut links = LinkList::new(alloc);
    let mut step = from;
    while step > to {
        links.push(take_link(alloc, bytes, at, step)?)?;
        step = next_step(step, to);
    }
    Ok(Path { links })
}

/// The opening of the step (0 to 2^40 - 1) that the bytes spell, from first to last. Malformed
/// exactly where they spell none, with the place of the first byte at which no opening goes on.
#[tactic(auto)]
pub fn read_opening(alloc: Global, bytes: &[u8], step: u64) -> Result<Opening, ReadFault>
    requires { step ≤ LAST_STEP }
    // A whole file is read as the opening of a step exactly where its bytes spell one; else `Malformed` tells the
    // length of the longest front that some opening of the step begins with.
    ensures { ReadsAs (λ o. o) (opening_codec 0 step).format bytes.now result }
{
    let mut at = 0;
    let read = take_opening(alloc, bytes, &mut at, 0, step);
    whole_to(bytes, at, read)
}

/// The path between two steps (0 to 2^40 - 1) that the bytes spell, from first to last; from a step
/// to itself or to a later one it has no bytes. Malformed exactly where they spell none, with the
/// place of the first byte at which no path goes on.
#[tactic(auto)]
pub fn read_path(alloc: Global, bytes: &[u8], from: u64, to: u64) -> Result<Path, ReadFault>
    requires { from ≤ LAST_STEP }
    // A whole file is read as a path between two steps exactly where its bytes spell one, with its links; else
    // `Malformed` tells the length of the longest front that some such path begins with.
    ensures { ReadsAs (λ (p : Path). p.links) (path_codec from to).format bytes.now result }
{
    let mut at = 0;
    let read = take_path(alloc, bytes, &mut at, from, to);
    whole_to(bytes, at, read)
}
