// Making the map files of a service of its pages; tw_tmap writes their bytes, reads them and checks them.

ghost use Rattle.std.specs.Prelude.{◌≡◌, ◌<◌, ◌≤◌, IfErr, IfOk};
ghost use Rattle.tw_disk.specs.Answers.{ReadsOr, ReadsWhere};
ghost use Rattle.tw_answers.specs.Refusals.{IsFault, service_refusals};
ghost use Rattle.tw_service.specs.Mapping.{high_file, low_before, low_file, mapped_low_part};

use std::alloc::Global;
use tw_answers::{Refusal, show};
use tw_base::limits::LAST_STEP;
use tw_base::{Bytes, Hasher, Name, TreeProof};
use tw_disk::Pages;
use tw_skiplist::{Head, StepProof, prove, step as read_step};
use tw_tmap::{HighFile, LowFile, LowPart, ask_first, ask_last, write_high, write_low};

/// What a low file shows of the step before.
fn part_of(proof: StepProof, tree: TreeProof) -> LowPart
    ensures { result ≡ mapped_low_part proof tree }
{
    let StepProof { path, info } = proof;
    LowPart {
        path,
        opening: info.opening,
        shown: tree,
    }
}

/// The step before, from step 2 on, with the peer's last thread there.
#[tactic(auto, unfolding(crate::specs::Mapping::low_before))]
fn show_before<P: Pages, H: Hasher>(
    alloc: Global,
    pages: &mut P,
    head: &Head,
    step: u64,
    peer: &Name,
    top: u64,
) -> Result<Option<LowPart>, Refusal>
    requires short { head.now.step ≤ LAST_STEP }
    requires order { step ≤ top }
    requires last { top ≤ head.now.step }
    ensures reads { ReadsWhere service_refusals P.view P.same pages.old pages.new (λ shown. shown) result (IfErr result IsFault)
        (λ ps. low_before H.dig ps head.now step peer.now top) }
{
    if step <= 1 {
        return Ok(None);
    }
    let proof = prove::<P, H>(alloc, pages, head, top, step - 1)?;
    let tree = show::<P, H>(alloc, pages, &proof.info.archive, &ask_last(peer))?;
    Ok(Some(part_of(proof, tree)))
}

/// The bytes of the low file of the step and this peer, under that top.
#[tactic(auto, unfolding(crate::specs::Mapping::low_file))]
pub(crate) fn make_low<P: Pages, H: Hasher>(
    alloc: Global,
    pages: &mut P,
    name: &Name,
    head: &Head,
    step: u64,
    peer: &Name,
    top: u64,
) -> Result<Bytes, Refusal>
    requires short { head.now.step ≤ LAST_STEP }
    requires order { step ≤ top }
    requires last { top ≤ head.now.step }
    ensures reads { ReadsOr service_refusals P.view P.same pages.old pages.new (λ bytes. bytes) result (IfErr result IsFault)
        (λ ps. low_file H.dig ps head.now step peer.now top name.now) }
{
    let shown = show_before::<P, H>(alloc, pages, head, step, peer, top)?;
    let file = LowFile {
        service: *name,
        step,
        peer: *peer,
        top,
        shown,
    };
    let bytes = write_low(alloc, &file);
    // Dropped by its name, so that the prover meets the drop in one place.
    drop(file);
    Ok(bytes?)
}

/// The bytes of the high file of that top, for the step of the peer.
#[tactic(auto, unfolding(crate::specs::Mapping::high_file))]
pub(crate) fn make_high<P: Pages, H: Hasher>(
    alloc: Global,
    pages: &mut P,
    name: &Name,
    head: &Head,
    step: u64,
    peer: &Name,
    top: u64,
) -> Result<Bytes, Refusal>
    requires short { head.now.step ≤ LAST_STEP }
    requires some { 0 < step }
    requires from { 1 ≤ top }
    requires last { top ≤ head.now.step }
    ensures reads { ReadsOr service_refusals P.view P.same pages.old pages.new (λ bytes. bytes) result (IfErr result IsFault)
        (λ ps. high_file H.dig ps head.now step peer.now top name.now) }
{
    let info = read_step::<P, H>(alloc, pages, head, top)?;
    let tree = show::<P, H>(alloc, pages, &info.archive, &ask_first(peer, step))?;
    let file = HighFile {
        service: *name,
        top,
        peer: *peer,
        step,
        opening: info.opening,
        shown: tree,
    };
    let bytes = write_high(alloc, &file);
    // Dropped by its name, so that the prover meets the drop in one place.
    drop(file);
    Ok(bytes?)
}
