// Writing evidence of a fork, for whoever accuses; proofs by themselves are written in tw_chain.

ghost use Rattle.std.specs.Prelude.{◌≡◌, ◌++◌, IfOk, OnOk};
ghost use Rattle.tw_base.specs.format.Formats.{Spells};
ghost use Rattle.tw_evidence.specs.Evidence.{evidence_bytes, evidence_codec, evidence_layout, thread_proof_codec};

use crate::evidence::Evidence;
use crate::reading::{EVIDENCE_MAGIC, THREAD_MAGIC};
use std::alloc::Global;
use tw_base::{Bytes, NoMemory, put_digest, put_text};
use tw_chain::{ThreadProof, put_thread_body};
use tw_skipproof::put_path;

/// Appends the proof of a received thread.
#[tactic(auto, unfolding(crate::specs::Evidence::thread_proof_codec, tw_skipproof::specs::Seen::parts))]
fn put_thread_proof(into: &mut Bytes, proof: &ThreadProof) -> Result<(), NoMemory>
    ensures { OnOk result (into.new ≡ into.old ++ thread_proof_codec.write proof.now) }
{
    put_text(into, &THREAD_MAGIC)?;
    put_thread_body(into, proof)?;
    Ok(())
}

/// The bytes of the proof of a received thread, by itself.
pub fn write_thread_proof(alloc: Global, proof: &ThreadProof) -> Result<Bytes, NoMemory>
    // What is written of the proof is its bytes in the format.
    ensures { IfOk result (λ bytes. bytes ≡ thread_proof_codec.write proof.now) }
{
    let mut bytes = Bytes::new(alloc);
    put_thread_proof(&mut bytes, proof)?;
    Ok(bytes)
}

/// Appends the evidence.
#[tactic(auto, unfolding(crate::specs::Evidence::evidence_codec, tw_skipproof::specs::Seen::parts))]
fn put_evidence(into: &mut Bytes, evidence: &Evidence) -> Result<(), NoMemory>
    ensures { OnOk result (into.new ≡ into.old ++ evidence_bytes evidence.now) }
{
    put_text(into, &EVIDENCE_MAGIC)?;
    put_thread_proof(into, &evidence.first)?;
    put_thread_proof(into, &evidence.second)?;
    put_digest(into, &evidence.bottom)?;
    put_path(into, &evidence.link)?;
    Ok(())
}

/// The bytes of the evidence: the four bytes `TWV1`, both proofs, the bottom, and the path. They spell it
/// where both proofs have a spelling, and the path the links of the greedy path between their threads'
/// steps.
pub fn write_evidence(alloc: Global, evidence: &Evidence) -> Result<Bytes, NoMemory>
    // What is written of evidence is its bytes in the format.
    ensures bytes { IfOk result (λ bytes. bytes ≡ evidence_bytes evidence.now) }
    // The bytes that are written spell the evidence, where it has a spelling.
    ensures spelled { IfOk result (λ bytes. evidence_codec.Fits evidence.now → Spells evidence_layout bytes evidence.now) }
{
    let mut bytes = Bytes::new(alloc);
    put_evidence(&mut bytes, evidence)?;
    Ok(bytes)
}
