// Reading what a proof from event to event has behind its kind, for `reading.rt`.
#![tactic(auto, unfolding(crate::specs::Seen::hops))]

ghost use Rattle.std.specs.Prelude.{◌≡◌, ◌-◌, ◌≤◌, length, nat_lt};
ghost use Rattle.tw_base.specs.declared.kinds.limits.TheConstants.{LAST_STEP};
ghost use Rattle.tw_base.specs.format.Codecs.{each, optional};
ghost use Rattle.tw_base.specs.format.Taking.{Takes};
ghost use Rattle.tw_skipproof.specs.Codecs.{opening_codec};
ghost use Rattle.tw_chain.specs.Proofs.{behind_codec, following, hop_bytes, hop_codec, hops_codec, last_step, precedence_body, tail_codec};

use crate::proof::{HopPart, HopParts, PrecedenceProof, Tail};
use std::alloc::Global;
use tw_base::limits::{LAST_STEP, MOST_HOPS};
use tw_base::{ReadFault, take_entry, take_number};
use tw_skipproof::{Opening, take_event, take_opening, take_part, take_path};
use tw_treeproof::take_present;

/// Takes the opening of a step where there is to be one.
#[tactic(auto, unfolding(tw_base::specs::format::Codecs::nothing, tw_base::specs::format::Codecs::present))]
fn take_optional(
    alloc: Global,
    bytes: &[u8],
    at: &mut u64,
    there: bool,
    step: u64,
) -> Result<Option<Opening>, ReadFault>
    requires within { at.old ≤ length bytes.now }
    requires step { step ≤ LAST_STEP }
    ensures { Takes (optional there (opening_codec 0 step)) (λ o. o) bytes.now at.old at.new result }
{
    if there {
        Ok(Some(take_opening(alloc, bytes, at, 0, step)?))
    } else {
        Ok(None)
    }
}

/// Takes a hop behind which so many follow.
fn take_hop(alloc: Global, bytes: &[u8], at: &mut u64, more: u64) -> Result<HopPart, ReadFault>
    requires { at.old ≤ length bytes.now }
    ensures { Takes (hop_codec more) (λ hop. hop) bytes.now at.old at.new result }
{
    let entry = take_entry(bytes, at)?;
    let shown = take_present(alloc, bytes, at)?;
    let bind = take_number(bytes, at, 8, 0, LAST_STEP)?;
    let link = take_path(alloc, bytes, at, bind, entry.thread.step)?;
    let opening = take_optional(alloc, bytes, at, more > 0, entry.thread.step)?;
    Ok(HopPart {
        entry,
        shown,
        bind,
        link,
        opening,
    })
}

/// Takes so many hops, one after another.
#[tactic(auto)]
fn take_hops(alloc: Global, bytes: &[u8], at: &mut u64, count: u64) -> Result<HopParts, ReadFault>
    requires { at.old ≤ length bytes.now }
    ensures { Takes (each hop_bytes hop_codec (following count)) (λ hops. hops) bytes.now at.old at.new result }
{
    let mut hops = HopParts::new(alloc);
    let mut more = count;
    while more > 0 {
        more -= 1;
        hops.push(take_hop(alloc, bytes, at, more)?)?;
    }
    Ok(hops)
}

/// Takes the first event under this step.
fn take_tail(alloc: Global, bytes: &[u8], at: &mut u64, upper: u64) -> Result<Tail, ReadFault>
    requires within { at.old ≤ length bytes.now }
    requires upper { upper ≤ LAST_STEP }
    ensures { Takes (tail_codec upper) (λ tail. tail) bytes.now at.old at.new result }
{
    let step = take_number(bytes, at, 8, 1, LAST_STEP)?;
    let path = take_path(alloc, bytes, at, upper, step)?;
    let opening = take_opening(alloc, bytes, at, 1, step)?;
    let event = take_event(alloc, bytes, at, opening.count)?;
    Ok(Tail {
        step,
        path,
        opening,
        event,
    })
}

/// The step that the hops come to: that of the last one's thread, or this one where there is no hop.
#[tactic(auto)]
fn step_behind(step: u64, hops: &HopParts) -> u64
    ensures { result ≡ last_step step hops.now }
{
    match hops.as_slice().last() {
        Some(hop) => hop.entry.thread.step,
        None => step,
    }
}

/// Takes a proof from event to event with so many hops, behind the number of them.
fn take_with_hops(
    alloc: Global,
    bytes: &[u8],
    at: &mut u64,
    count: u64,
) -> Result<PrecedenceProof, ReadFault>
    requires { at.old ≤ length bytes.now }
    ensures { Takes (hops_codec count) (λ p. p) bytes.now at.old at.new result }
{
    let head = take_part(alloc, bytes, at, 1)?;
    let event = take_event(alloc, bytes, at, head.opening.count)?;
    let start = head.step - 1;
    let before = take_optional(alloc, bytes, at, count > 0, start)?;
    let hops = take_hops(alloc, bytes, at, count)?;
    let upper = step_behind(start, &hops);
    let tail = take_tail(alloc, bytes, at, upper)?;
    Ok(PrecedenceProof {
        head,
        event,
        before,
        hops,
        tail,
    })
}

/// Takes a proof from event to event, behind its kind.
#[tactic(auto)]
pub(crate) fn take_precedence_body(
    alloc: Global,
    bytes: &[u8],
    at: &mut u64,
) -> Result<PrecedenceProof, ReadFault>
    requires { at.old ≤ length bytes.now }
    ensures { Takes precedence_body (λ p. p) bytes.now at.old at.new result }
{
    let count = take_number(bytes, at, 1, 0, MOST_HOPS)?;
    take_with_hops(alloc, bytes, at, count)
}
