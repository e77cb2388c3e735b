// Writing what a proof from event to event has behind its kind, for `writing.rt`.
#![tactic(auto, unfolding(crate::specs::Proofs::hop_bytes, tw_base::specs::format::Seen::codecs))]

ghost use Rattle.std.specs.Prelude.{◌≡◌, [], ◌++◌, flat_map, OnOk};
ghost use Rattle.std.specs.Option.{option_map_or};
ghost use Rattle.tw_skipproof.specs.Codecs.{opening_bytes, opening_codec};
ghost use Rattle.tw_base.specs.format.Codecs.{optional};
ghost use Rattle.tw_chain.specs.Proofs.{hop_bytes, precedence_body, tail_codec};

use crate::proof::{HopPart, PrecedenceProof, Tail};
use tw_base::{Bytes, NoMemory, put_entry, put_last_bytes, put_number};
use tw_skipproof::{Opening, put_event, put_opening, put_part, put_path};
use tw_treeproof::put_present;

/// Appends the opening that there is, or nothing.
fn put_optional(into: &mut Bytes, opening: &Option<Opening>) -> Result<(), NoMemory>
    ensures { OnOk result (into.new ≡ into.old ++ option_map_or opening_bytes opening.now []) }
{
    match opening {
        Some(opening) => put_opening(into, opening),
        None => Ok(()),
    }
}

/// Appends the opening of the step before the second event's, where there is to be one.
#[tactic(auto, unfolding(tw_skipproof::specs::Codecs::opening_bytes, tw_base::specs::format::Seen::codecs))]
fn put_before(into: &mut Bytes, there: bool, before: &Option<Opening>) -> Result<(), NoMemory>
    ensures { OnOk result (into.new ≡ into.old ++ (optional there (opening_codec 0 0)).write before.now) }
{
    if there {
        put_optional(into, before)
    } else {
        Ok(())
    }
}

/// Appends the hop.
fn put_hop(into: &mut Bytes, hop: &HopPart) -> Result<(), NoMemory>
    ensures { OnOk result (into.new ≡ into.old ++ hop_bytes hop.now) }
{
    put_entry(into, &hop.entry)?;
    put_present(into, &hop.shown)?;
    put_number(into, hop.bind, 8)?;
    put_path(into, &hop.link)?;
    put_optional(into, &hop.opening)
}

/// Appends the hops, one after another.
#[tactic(auto)]
fn put_hops(into: &mut Bytes, hops: &[HopPart]) -> Result<(), NoMemory>
    ensures { OnOk result (into.new ≡ into.old ++ flat_map hop_bytes hops.now) }
{
    for hop in hops {
        put_hop(into, hop)?;
    }
    Ok(())
}

/// Appends the first event, under its step.
#[tactic(auto, unfolding(crate::specs::Seen::tails))]
fn put_tail(into: &mut Bytes, tail: &Tail) -> Result<(), NoMemory>
    ensures { OnOk result (into.new ≡ into.old ++ (tail_codec 0).write tail.now) }
{
    put_number(into, tail.step, 8)?;
    put_path(into, &tail.path)?;
    put_opening(into, &tail.opening)?;
    put_event(into, &tail.event)
}

/// Appends the proof from event to event, behind its kind.
#[tactic(auto)]
pub(crate) fn put_precedence_body(into: &mut Bytes, proof: &PrecedenceProof) -> Result<(), NoMemory>
    ensures { OnOk result (into.new ≡ into.old ++ precedence_body.write proof.now) }
{
    let hops = proof.hops.as_slice();
    put_last_bytes(into, hops.len() as u64, 1)?;
    put_part(into, &proof.head)?;
    put_event(into, &proof.event)?;
    put_before(into, hops.len() > 0, &proof.before)?;
    put_hops(into, hops)?;
    put_tail(into, &proof.tail)?;
    Ok(())
}
