// Writing openings and paths, which tests alone write by themselves, and existence proofs; the other kinds are written in tw_chain.
#![tactic(auto, unfolding(crate::specs::Seen::openings))]

ghost use Rattle.std.specs.Prelude.{◌≡◌, ℕ, ◌+◌, ◌^◌, ◌<◌, ◌≤◌, ◌++◌, length, IfOk, OnOk, if◌then◌else◌};
ghost use Rattle.tw_base.specs.declared.kinds.limits.TheConstants.{MOST_EVENTS};
ghost use Rattle.tw_base.specs.format.Fields.{number_bytes};
ghost use Rattle.tw_base.specs.format.Formats.{Spells};
ghost use Rattle.tw_base.specs.kinds.Levels.{top_level};
ghost use Rattle.tw_base.specs.history.Limits.{IsTimeWithinLimits};
ghost use Rattle.tw_base.specs.kinds.Lists.{Each};
ghost use Rattle.tw_skipproof.specs.Codecs.{count_bytes, event_part_codec, existence_body, existence_codec, link_bytes, opening_bytes, opening_codec, part_bytes, path_bytes, path_codec};
ghost use Rattle.tw_skipproof.specs.Existence.{IsExistenceInRange, IsShaped, existence_bytes, existence_layout};
ghost use Rattle.tw_skipproof.specs.Paths.{HasShape};
ghost use Rattle.tw_skipproof.specs.Spelling.{FitsAsEvent, FitsAsLink, FitsAsOpening, FitsAsPart, FitsAsPath};

use crate::existence::{ExistenceProof, Part};
use crate::existence_reading::MAGIC;
use crate::opening::Opening;
use crate::path::{Link, Path};
use std::alloc::Global;
use tw_base::{
    Bytes, EventPart, NoMemory, put_digest, put_labels, put_name, put_number, put_sized, put_text,
    put_time,
};

/// The count word, as a number of four bytes: the count of events, and 2^31 more with a time.
#[tactic(auto)]
fn count_word(count: u32, timed: bool) -> u32
    ensures { number_bytes 4 result ≡ number_bytes 4 (count + (if timed then 2 ^ 31 else 0)) }
{
    if timed {
        count.wrapping_add(0x8000_0000)
    } else {
        count
    }
}

/// Appends the count word, and the time where there is one.
#[tactic(auto)]
fn put_count(into: &mut Bytes, count: u32, time: Option<u64>) -> Result<(), NoMemory>
    ensures { OnOk result (into.new ≡ into.old ++ count_bytes count time) }
{
    put_number(into, count_word(count, time.is_some()) as u64, 4)?;
    put_time(into, time)
}

/// Appends the fields of the opening.
pub fn put_opening(into: &mut Bytes, opening: &Opening) -> Result<(), NoMemory>
    // What is put of an opening is its bytes in the format.
    ensures ok { OnOk result (into.new ≡ into.old ++ opening_bytes opening.now) }
    // They spell it as the opening of each step whose number of labels it has, where its count and its time are in the
    // format's ranges.
    ensures fits { OnOk result (FitsAsOpening opening.now) }
{
    put_digest(into, &opening.event_root)?;
    put_digest(into, &opening.archive_root)?;
    put_count(into, opening.count, opening.time)?;
    put_digest(into, &opening.prev)?;
    put_labels(into, &opening.others)
}

/// Appends the record of the link.
fn put_link(into: &mut Bytes, link: &Link) -> Result<(), NoMemory>
    ensures ok { OnOk result (into.new ≡ into.old ++ link_bytes link.now) }
    ensures fits { OnOk result (FitsAsLink link.now) }
{
    put_digest(into, &link.datum)?;
    put_labels(into, &link.others)
}

/// Appends the records of the links, from the first on.
#[tactic(auto)]
fn put_links(into: &mut Bytes, links: &[Link]) -> Result<(), NoMemory>
    ensures ok { OnOk result (into.new ≡ into.old ++ path_bytes links.now) }
    ensures fits { OnOk result (Each FitsAsLink links.now) }
{
    for link in links {
        put_link(into, link)?;
    }
    Ok(())
}

/// Appends the fields of the event.
pub fn put_event(into: &mut Bytes, event: &EventPart) -> Result<(), NoMemory>
    // What is put of an event is its bytes in the format.
    ensures ok { OnOk result (into.new ≡ into.old ++ (event_part_codec 1).write event.now) }
    // They spell it under each opening whose count of events is above its index, where it has at most 1,024 bytes and its
    // path has the labels that the count and the index give it.
    ensures fits { OnOk result (FitsAsEvent event.now) }
{
    put_number(into, event.index as u64, 4)?;
    put_sized(into, event.event.as_slice(), 4)?;
    put_labels(into, &event.path)
}

/// Appends the path, behind no number of its links.
#[tactic(auto)]
pub fn put_path(into: &mut Bytes, path: &Path) -> Result<(), NoMemory>
    // What is put of a path is its bytes in the format.
    ensures ok { OnOk result (into.new ≡ into.old ++ path_bytes path.now.links) }
    // They are a path's between any two steps whose greedy path has its links and numbers of labels.
    ensures fits { OnOk result (FitsAsPath path.now.links) }
{
    put_links(into, path.links.as_slice())?;
    Ok(())
}

/// Appends the step under its top: service, step, top, path and opening.
#[tactic(auto, unfolding(crate::specs::Seen::parts))]
pub fn put_part(into: &mut Bytes, part: &Part) -> Result<(), NoMemory>
    // What is put of a step under a top is its bytes in the format.
    ensures ok { OnOk result (into.new ≡ into.old ++ part_bytes part.now) }
    // They spell it where its numbers are in the format's ranges, and its path and its opening have the labels that
    // the steps give them.
    ensures fits { OnOk result (FitsAsPart part.now) }
{
    put_name(into, &part.service)?;
    put_number(into, part.step, 8)?;
    put_number(into, part.top, 8)?;
    put_links(into, part.path.links.as_slice())?;
    put_opening(into, &part.opening)?;
    Ok(())
}

/// Appends the proof behind its kind: the step under its top, and the event.
#[tactic(auto, unfolding(crate::specs::Seen::existence))]
pub fn put_existence_body(into: &mut Bytes, proof: &ExistenceProof) -> Result<(), NoMemory>
    // What is put of an existence proof behind its kind is its bytes in the format.
    ensures ok { OnOk result (into.new ≡ into.old ++ existence_body.write proof.now) }
    // They spell it where the proof is within the format's limits, and its path, its opening and its event's path have the
    // labels that the format gives them.
    ensures fits { OnOk result (IsExistenceInRange proof.now → IsShaped proof.now → existence_body.Fits proof.now) }
{
    put_part(into, &proof.at)?;
    put_event(into, &proof.event)?;
    Ok(())
}

/// Appends the proof.
#[tactic(auto, unfolding(crate::specs::Codecs::existence_codec, tw_base::specs::format::Seen::codecs))]
fn put_existence(into: &mut Bytes, proof: &ExistenceProof) -> Result<(), NoMemory>
    ensures ok { OnOk result (into.new ≡ into.old ++ existence_bytes proof.now) }
    ensures fits { OnOk result (IsExistenceInRange proof.now → IsShaped proof.now → existence_codec.Fits proof.now) }
{
    put_text(into, &MAGIC)?;
    put_existence_body(into, proof)
}

/// The bytes of the opening: the digests of its events and of its archive, the count word and its
/// time, the authenticator of the step before, and its labels. They spell it as the opening of each
/// step that has so many levels from 1 on, where its count is at most 1,024 and its time, if any, at
/// most 2^40 - 1.
#[tactic(auto)]
pub fn write_opening(alloc: Global, opening: &Opening) -> Result<Bytes, NoMemory>
    // What is written of an opening is its bytes in the format.
    ensures bytes { IfOk result (λ bytes. bytes ≡ opening_bytes opening.now) }
    // The bytes that are written spell the opening, where it has the step's number of labels, and a count and a time
    // within their limits.
    ensures spelled { IfOk result (λ bytes. (step : ℕ) → length opening.now.others ≡ top_level step → opening.now.count ≤ MOST_EVENTS →
        IsTimeWithinLimits opening.now.time → Spells (opening_codec 0 step).format bytes opening.now) }
{
    // Three digests, the count word and the time have at most 108 bytes.
    let size = opening.others.len().saturating_mul(32).saturating_add(108);
    let mut bytes = Bytes::with_capacity(alloc, size)?;
    put_opening(&mut bytes, opening)?;
    Ok(bytes)
}

/// The bytes of the path: for each link, from the upper step downwards, its datum and its labels.
/// They spell it as the path between any two steps whose greedy path has its links and numbers of
/// labels.
#[tactic(auto)]
pub fn write_path(alloc: Global, path: &Path) -> Result<Bytes, NoMemory>
    // What is written of a path is its bytes in the format.
    ensures bytes { IfOk result (λ bytes. bytes ≡ path_bytes path.now.links) }
    // The bytes that are written spell the path, where it has the links of the greedy path, each with its number of
    // labels.
    ensures spelled { IfOk result (λ bytes. (from to : ℕ) → HasShape path.now.links from to →
        Spells (path_codec from to).format bytes path.now.links) }
{
    let mut bytes = Bytes::new(alloc);
    put_links(&mut bytes, path.links.as_slice())?;
    Ok(bytes)
}

/// The bytes of the proof: the four bytes `TWP1` and the kind 1, the service, its step and the top,
/// the path from the top to the step, the opening of the step, and the event. They spell the proof
/// where its steps, its counts and the event are within the format's limits, and its path, its
/// opening and its event's path have the labels that the format gives them.
#[tactic(auto)]
pub fn write_existence(alloc: Global, proof: &ExistenceProof) -> Result<Bytes, NoMemory>
    // What is written of an existence proof is its bytes in the format.
    ensures bytes { IfOk result (λ bytes. bytes ≡ existence_bytes proof.now) }
    // The bytes that are written spell the proof, where it is within the format's limits.
    ensures spelled { IfOk result (λ bytes. IsExistenceInRange proof.now → IsShaped proof.now → Spells existence_layout bytes proof.now) }
{
    let mut bytes = Bytes::new(alloc);
    put_existence(&mut bytes, proof)?;
    Ok(bytes)
}
