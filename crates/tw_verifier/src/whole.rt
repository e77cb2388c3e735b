// The judgement of a proof that was read whole.
#![tactic(auto)]

ghost use Rattle.std.specs.Prelude.{◌≡◌, ◌+◌, ◌≤◌, [], IfOk};
ghost use Rattle.tw_base.specs.declared.kinds.limits.TheConstants.{LAST_STEP};
ghost use Rattle.tw_base.specs.format.Codecs.{EachFits};
ghost use Rattle.tw_chain.specs.declared.proof.Proof.TheVariants.{Precedes};
ghost use Rattle.tw_chain.specs.declared.proof.Tail.{Tail as AnyTail};
ghost use Rattle.tw_chain.specs.Proofs.{following, hop_bytes, hop_codec, proof_codec};
ghost use Rattle.tw_verifier.specs.Chaining.{closed};
ghost use Rattle.tw_verifier.specs.Judgements.{judgement_of};

use crate::chain::Chain;
use crate::judgement::Judgement;
use std::alloc::Global;
use tw_base::{Hasher, NoMemory, Thread};
use tw_chain::{HopParts, PrecedenceProof, Proof};

/// The chain with all hops that follow it, each of which is judged here.
fn with_hops<H: Hasher>(chain: Chain, hops: HopParts, anchors: &[Thread]) -> Result<Chain, NoMemory>
    requires parts { chain.part + chain.more ≤ 65 }
    requires known { chain.known.step ≤ LAST_STEP }
    requires fits { EachFits hop_bytes hop_codec (following chain.more) hops }
    ensures known { IfOk result (λ c. c.known.step ≤ LAST_STEP) }
    ensures closes { (tail : AnyTail) → IfOk result (λ c. closed H.dig anchors.now c [] tail ≡ closed H.dig anchors.now chain hops tail) }
{
    let mut chain = chain;
    let mut left = hops.into_vec();
    left.reverse();
    while let Some(hop) = left.pop() {
        chain = chain.with_hop::<H>(hop, anchors)?;
    }
    Ok(chain)
}

/// The judgement of a proof from event to event.
fn judge_precedence<H: Hasher>(
    alloc: Global,
    proof: PrecedenceProof,
    anchors: &[Thread],
) -> Result<Judgement, NoMemory>
    requires { proof_codec.Fits (Precedes proof) }
    ensures { IfOk result (λ j. j ≡ judgement_of H.dig anchors.now (Precedes proof)) }
{
    let PrecedenceProof {
        head,
        event,
        before,
        hops,
        tail,
    } = proof;
    let count = hops.len() as u8;
    let chain = Chain::begin::<H>(alloc, head, event, before, count, anchors);
    let chain = with_hops::<H>(chain, hops, anchors)?;
    Ok(chain.close::<H>(tail))
}

/// The judgement of a proof.
pub(crate) fn judge_proof<H: Hasher>(
    alloc: Global,
    proof: Proof,
    anchors: &[Thread],
) -> Result<Judgement, NoMemory>
    requires { proof_codec.Fits proof }
    ensures { IfOk result (λ j. j ≡ judgement_of H.dig anchors.now proof) }
{
    match proof {
        Proof::Exists(proof) => Ok(Judgement::of_event::<H>(alloc, proof, anchors)),
        Proof::Precedes(proof) => judge_precedence::<H>(alloc, proof, anchors),
        Proof::Archived(proof) => Ok(Judgement::of_thread::<H>(alloc, proof, anchors)),
        Proof::Absent(proof) => Ok(Judgement::of_absence::<H>(alloc, proof, anchors)),
        Proof::Linked(proof) => Ok(Judgement::of_link::<H>(alloc, proof, anchors)),
    }
}
