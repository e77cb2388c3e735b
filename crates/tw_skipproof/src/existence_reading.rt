// Reading proofs that one event exists, and the parts of them that other kinds have, too; proofs of any kind are read in tw_chain.
#![tactic(auto, unfolding(crate::specs::Seen::existence_read))]

ghost use Rattle.std.specs.Prelude.{◌≡◌, ◌≤◌, length, IfOk};
ghost use Rattle.tw_base.specs.declared.kinds.limits.TheConstants.{LAST_STEP, MOST_EVENTS};
ghost use Rattle.tw_base.specs.format.Formats.{ReadsAs};
ghost use Rattle.tw_base.specs.format.Taking.{Takes};
ghost use Rattle.tw_skipproof.specs.Codecs.{event_part_codec, existence_body, existence_codec, part_codec};
ghost use Rattle.tw_skipproof.specs.Existence.{IsExistenceInRange, IsShaped, existence_layout};

use crate::existence::{ExistenceProof, Part};
use crate::reading::{take_opening, take_path};
use std::alloc::Global;
use tw_base::limits::{LAST_STEP, MOST_EVENT_BYTES};
use tw_base::{
    EventPart, ReadFault, path_length, take_labels, take_name, take_number, take_sized, take_text,
    whole_to,
};

/// How each proof begins: the four bytes `TWP1`.
pub const PROOF_MAGIC: [u8; 4] = *b"TWP1";

/// How an existence proof begins: those four and the kind 1.
pub(crate) const MAGIC: [u8; 5] = [
    PROOF_MAGIC[0],
    PROOF_MAGIC[1],
    PROOF_MAGIC[2],
    PROOF_MAGIC[3],
    1,
];

/// Takes the event under an opening with this count of events.
pub fn take_event(
    alloc: Global,
    bytes: &[u8],
    at: &mut u64,
    count: u32,
) -> Result<EventPart, ReadFault>
    requires within { at.old ≤ length bytes.now }
    requires some { 1 ≤ count }
    requires few { count ≤ MOST_EVENTS }
    // An event under an opening is taken at a place exactly as its codec reads it; else the place of the first bad byte is
    // told.
    ensures { Takes (event_part_codec count) (λ e. e) bytes.now at.old at.new result }
{
    let index = take_number(bytes, at, 4, 0, count as u64 - 1)? as u32;
    let event = take_sized(alloc, bytes, at, 4, 0, MOST_EVENT_BYTES)?;
    let path = take_labels(alloc, bytes, at, path_length(count, index) as u64)?;
    Ok(EventPart { index, event, path })
}

/// Takes a step under a top, with an opening that has this count of events or more.
pub fn take_part(alloc: Global, bytes: &[u8], at: &mut u64, least: u64) -> Result<Part, ReadFault>
    requires within { at.old ≤ length bytes.now }
    requires least { least ≤ MOST_EVENTS }
    // A step under a top is taken at a place exactly as its codec reads it; else the place of the first bad byte is told.
    ensures takes { Takes (part_codec least) (λ p. p) bytes.now at.old at.new result }
    ensures count { IfOk result (λ p. (least ≤ p.opening.count) × (p.opening.count ≤ MOST_EVENTS)) }
{
    let service = take_name(bytes, at)?;
    let step = take_number(bytes, at, 8, 1, LAST_STEP)?;
    let top = take_number(bytes, at, 8, 1, LAST_STEP)?;
    let path = take_path(alloc, bytes, at, top, step)?;
    let opening = take_opening(alloc, bytes, at, least, step)?;
    Ok(Part {
        service,
        step,
        top,
        path,
        opening,
    })
}

/// Takes an existence proof behind its kind.
pub fn take_existence_body(
    alloc: Global,
    bytes: &[u8],
    at: &mut u64,
) -> Result<ExistenceProof, ReadFault>
    requires { at.old ≤ length bytes.now }
    // What stands behind the kind of an existence proof is taken at a place exactly as its codec reads it; else the
    // place of the first bad byte is told.
    ensures { Takes existence_body (λ p. p) bytes.now at.old at.new result }
{
    let part = take_part(alloc, bytes, at, 1)?;
    let event = take_event(alloc, bytes, at, part.opening.count)?;
    Ok(ExistenceProof { at: part, event })
}

/// Takes an existence proof.
#[tactic(auto, unfolding(crate::specs::Codecs::existence_codec, tw_base::specs::format::Codecs::behind))]
fn take_existence(alloc: Global, bytes: &[u8], at: &mut u64) -> Result<ExistenceProof, ReadFault>
    requires { at.old ≤ length bytes.now }
    ensures { Takes existence_codec (λ p. p) bytes.now at.old at.new result }
{
    take_text(bytes, at, &MAGIC)?;
    take_existence_body(alloc, bytes, at)
}

/// The existence proof that the bytes spell, from first to last. Malformed exactly where they spell
/// none, with the place of the first byte at which no existence proof goes on. Takes no more memory
/// than the proof's labels and event. (Tests read a proof so; the program reads one of any kind, in tw_chain or tw_verifier.)
#[tactic(auto)]
pub fn read_existence(alloc: Global, bytes: &[u8]) -> Result<ExistenceProof, ReadFault>
    // A whole file is read as an existence proof exactly where its bytes spell one, with that proof; else `Malformed`
    // tells the length of the longest front that some existence proof begins with.
    ensures read { ReadsAs (λ p. p) existence_layout bytes.now result }
    ensures limits { IfOk result IsExistenceInRange }
    ensures shape { IfOk result IsShaped }
{
    let mut at = 0;
    let read = take_existence(alloc, bytes, &mut at);
    whole_to(bytes, at, read)
}
