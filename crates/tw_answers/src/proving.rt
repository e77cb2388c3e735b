// The proofs of events and of links that a service makes of its pages; `showing.rt` makes those of threads, and
// tw_history/src/showing.rt that of `show`.

ghost use Rattle.std.specs.Prelude.{◌≡◌, ◌⊎◌, ℕ, ◌*◌, ◌<◌, ◌≤◌, ◌^◌, length, IfOk, IfErr};
ghost use Rattle.tw_base.specs.history.Limits.{MayRecord};
ghost use Rattle.tw_chain.specs.declared.proof.Proof.TheVariants.{Linked};
ghost use Rattle.tw_chain.specs.Proofs.{proof_bytes as bytes_of_proof};
ghost use Rattle.tw_disk.specs.Answers.{ReadsOr};
ghost use Rattle.tw_answers.specs.Refusals.{IsFault, IsNoEvent, service_refusals};
ghost use Rattle.tw_answers.specs.Finds.{event_proof, event_proof_bytes, link_proof as link_proof_of, link_to_step, part_to_step, path_down as path_down_of};

use crate::limits::event_refusal;
use std::alloc::Global;
use tw_base::limits::LAST_STEP;
use tw_base::{Bytes, EventList, Hasher, Name, NoMemory, Refusal};
use tw_chain::{LinkProof, Proof, write_proof};
use tw_disk::Pages;
use tw_events::event_part;
use tw_skiplist::{Head, StepLink, StepProof, events_of, link, path, prove};
use tw_skipproof::{ExistenceProof, Part, Path, write_existence};

/// The part of the step under the top.
pub fn part_under(name: &Name, top: u64, proof: StepProof) -> Part
    ensures { result ≡ part_to_step name.now top proof }
{
    let StepProof { path, info } = proof;
    Part {
        service: *name,
        step: info.step,
        top,
        path,
        opening: info.opening,
    }
}

/// The bytes of the proof of the event at that index among the events of the step, which are as many
/// as it has, and within the limits of a step.
fn write_event<H: Hasher>(
    alloc: Global,
    name: &Name,
    top: u64,
    index: u64,
    proof: StepProof,
    events: &EventList,
) -> Result<Bytes, NoMemory>
    requires index { index < proof.info.count }
    requires count { length events.now ≡ proof.info.count }
    requires limits { MayRecord events.now }
    ensures bytes { IfOk result (λ bytes. bytes ≡ event_proof_bytes H.dig name.now top index proof events.now) }
{
    let index = index_below(index, proof.info.count);
    let event = event_part::<H>(alloc, events.as_slice(), index)?;
    let at = part_under(name, top, proof);
    write_existence(alloc, &ExistenceProof { at, event })
}

/// An index below a count, in 32 bits.
fn index_below(index: u64, count: u32) -> u32
    requires { index < count }
    ensures { result ≡ index }
{
    index as u32
}

/// The proof of the event at that index of a step, under that top.
#[tactic(auto, unfolding(crate::specs::Finds::event_proof))]
pub fn make_proof<P: Pages, H: Hasher>(
    alloc: Global,
    pages: &mut P,
    name: &Name,
    head: &Head,
    step: u64,
    index: u64,
    top: u64,
) -> Result<Bytes, Refusal>
    requires short { head.now.step ≤ LAST_STEP }
    requires from { 1 ≤ step }
    requires order { step ≤ top }
    requires last { top ≤ head.now.step }
    ensures reads { ReadsOr service_refusals P.view P.same pages.old pages.new (λ bytes. bytes) result (IfErr result (λ refusal. IsFault refusal ⊎ IsNoEvent refusal))
        (λ ps. event_proof H.dig ps name.now head.now step index top) }
{
    let proof = prove::<P, H>(alloc, pages, head, top, step)?;
    if let Some(refusal) = event_refusal(proof.info.count, index) {
        return Err(refusal);
    }
    let events = events_of(alloc, pages, &proof.info)?;
    Ok(write_event::<H>(alloc, name, top, index, proof, &events)?)
}

/// The proof of the step's authenticator under the top.
fn link_proof(name: &Name, step: u64, top: u64, link: StepLink) -> LinkProof
    ensures { result ≡ link_to_step name.now step top link }
{
    let StepLink { path, auth } = link;
    LinkProof {
        service: *name,
        step,
        top,
        auth,
        path,
    }
}

/// The bytes of that proof.
fn write_link(
    alloc: Global,
    name: &Name,
    step: u64,
    top: u64,
    link: StepLink,
) -> Result<Bytes, NoMemory>
    ensures { IfOk result (λ bytes. bytes ≡ bytes_of_proof (Linked (link_to_step name.now step top link))) }
{
    let proof = Proof::Linked(link_proof(name, step, top, link));
    let bytes = write_proof(alloc, &proof);
    // Dropped by its name, so that the prover meets the drop in one place.
    drop(proof);
    bytes
}

/// The bytes of the proof of a step's authenticator under that top.
#[tactic(auto, unfolding(crate::specs::Finds::link_proof))]
pub fn make_link<P: Pages, H: Hasher>(
    alloc: Global,
    pages: &mut P,
    name: &Name,
    head: &Head,
    step: u64,
    top: u64,
) -> Result<Bytes, Refusal>
    requires short { head.now.step ≤ LAST_STEP }
    requires order { step ≤ top }
    requires last { top ≤ head.now.step }
    ensures reads { ReadsOr service_refusals P.view P.same pages.old pages.new (λ bytes. bytes) result (IfErr result IsFault)
        (λ ps. link_proof_of H.dig ps name.now head.now step top) }
{
    let found = link::<P, H>(alloc, pages, head, top, step)?;
    Ok(write_link(alloc, name, step, top, found)?)
}

/// The path from the last step down to an earlier one.
#[tactic(auto, unfolding(crate::specs::Finds::path_down))]
pub fn path_down<P: Pages, H: Hasher>(
    alloc: Global,
    pages: &mut P,
    head: &Head,
    since: u64,
) -> Result<Path, Refusal>
    requires short { head.now.step ≤ LAST_STEP }
    requires order { since ≤ head.now.step }
    ensures reads { ReadsOr service_refusals P.view P.same pages.old pages.new (λ path. path) result (IfErr result IsFault)
        (λ ps. path_down_of H.dig ps head.now since) }
    ensures bound { IfOk result (λ path. (digits : ℕ) → head.now.step < 2 ^ digits → length path.links ≤ 2 * digits) }
{
    Ok(path::<P, H>(alloc, pages, head, head.step, since)?)
}
