// Reading evidence of a fork, and the proofs alone of which it is made; other proofs are read in `tw_chain`.
#![tactic(auto, unfolding(crate::specs::Seen::evidence_reading))]

ghost use Rattle.std.specs.Prelude.{◌≡◌, ◌≤◌, ℕ, List, length};
ghost use Rattle.tw_base.specs.declared.kinds.limits.TheConstants.{LAST_STEP};
ghost use Rattle.tw_base.specs.format.Codecs.{digest_codec, pair};
ghost use Rattle.tw_base.specs.format.Formats.{ReadsAs};
ghost use Rattle.tw_base.specs.format.Taking.{Takes};
ghost use Rattle.tw_skipproof.specs.Codecs.{path_codec};
ghost use Rattle.tw_skipproof.specs.declared.path.Path.{Path as PathMeant};
ghost use Rattle.tw_evidence.specs.Evidence.{evidence_codec, evidence_layout, link_proof_codec, link_proof_layout, thread_proof_codec, thread_proof_layout};

use crate::evidence::Evidence;
use std::alloc::Global;
use tw_base::{Digest, ReadFault, take_digest, take_text, whole_to};
use tw_chain::{LinkProof, ThreadProof, take_link_body, take_thread_body};
use tw_skipproof::{PROOF_MAGIC, Path, take_path};

/// How evidence begins: the four bytes `TWV1`.
pub(crate) const EVIDENCE_MAGIC: [u8; 4] = *b"TWV1";

/// How a proof of a received thread begins: the four bytes of each proof, and the kind 3.
pub(crate) const THREAD_MAGIC: [u8; 5] = [
    PROOF_MAGIC[0],
    PROOF_MAGIC[1],
    PROOF_MAGIC[2],
    PROOF_MAGIC[3],
    3,
];

/// How a proof of a step's authenticator begins: the four bytes of each proof, and the kind 5.
const LINK_MAGIC: [u8; 5] = [
    PROOF_MAGIC[0],
    PROOF_MAGIC[1],
    PROOF_MAGIC[2],
    PROOF_MAGIC[3],
    5,
];

/// Takes a proof of a received thread.
fn take_thread_proof(alloc: Global, bytes: &[u8], at: &mut u64) -> Result<ThreadProof, ReadFault>
    requires { at.old ≤ length bytes.now }
    ensures { Takes thread_proof_codec (λ p. p) bytes.now at.old at.new result }
{
    take_text(bytes, at, &THREAD_MAGIC)?;
    take_thread_body(alloc, bytes, at)
}

/// Takes a proof of a step's authenticator.
fn take_link_proof(alloc: Global, bytes: &[u8], at: &mut u64) -> Result<LinkProof, ReadFault>
    requires { at.old ≤ length bytes.now }
    ensures { Takes link_proof_codec (λ p. p) bytes.now at.old at.new result }
{
    take_text(bytes, at, &LINK_MAGIC)?;
    take_link_body(alloc, bytes, at)
}

/// Takes the bottom, and the path from the upper step down to the lower one.
fn take_bottom_and_link(
    alloc: Global,
    bytes: &[u8],
    at: &mut u64,
    upper: u64,
    lower: u64,
) -> Result<(Digest, Path), ReadFault>
    requires within { at.old ≤ length bytes.now }
    requires upper { upper ≤ LAST_STEP }
    ensures { Takes (pair digest_codec (λ bottom. path_codec upper lower)) (λ (link : List ℕ × PathMeant). (link.0, link.1.links))
        bytes.now at.old at.new result }
{
    let bottom = take_digest(bytes, at)?;
    let path = take_path(alloc, bytes, at, upper, lower)?;
    Ok((bottom, path))
}

/// Takes evidence. Its proofs are given up by `drop`: those that go out of scope on many ways are proved slowly
/// (docs/proving.md).
fn take_evidence(alloc: Global, bytes: &[u8], at: &mut u64) -> Result<Evidence, ReadFault>
    requires { at.old ≤ length bytes.now }
    ensures { Takes evidence_codec (λ e. e) bytes.now at.old at.new result }
{
    take_text(bytes, at, &EVIDENCE_MAGIC)?;
    let first = take_thread_proof(alloc, bytes, at)?;
    let second = match take_thread_proof(alloc, bytes, at) {
        Ok(second) => second,
        Err(fault) => {
            drop(first);
            return Err(fault);
        }
    };
    let upper = second.entry.thread.step;
    let lower = first.entry.thread.step;
    match take_bottom_and_link(alloc, bytes, at, upper, lower) {
        Ok((bottom, link)) => Ok(Evidence {
            first,
            second,
            bottom,
            link,
        }),
        Err(fault) => {
            drop(second);
            drop(first);
            Err(fault)
        }
    }
}

/// The proof of a received thread that the bytes spell, from first to last. Malformed exactly where they
/// spell none, with the place of the first byte at which none goes on: a proof of another kind stops at its
/// kind.
#[tactic(auto)]
pub fn read_thread_proof(alloc: Global, bytes: &[u8]) -> Result<ThreadProof, ReadFault>
    // Bytes are read as a proof of a received thread exactly where they spell one, with that proof; else the length of the
    // longest front that some such proof begins with is told.
    ensures { ReadsAs (λ p. p) thread_proof_layout bytes.now result }
{
    let mut at = 0;
    let read = take_thread_proof(alloc, bytes, &mut at);
    whole_to(bytes, at, read)
}

/// The proof of a step's authenticator that the bytes spell, from first to last. Malformed exactly where
/// they spell none, with the place of the first byte at which none goes on: a proof of another kind stops
/// at its kind.
#[tactic(auto)]
pub fn read_link_proof(alloc: Global, bytes: &[u8]) -> Result<LinkProof, ReadFault>
    // Bytes are read as a proof of a step's authenticator exactly where they spell one, with that proof; else the length of
    // the longest front that some such proof begins with is told.
    ensures { ReadsAs (λ p. p) link_proof_layout bytes.now result }
{
    let mut at = 0;
    let read = take_link_proof(alloc, bytes, &mut at);
    whole_to(bytes, at, read)
}

/// The evidence that the bytes spell, from first to last. Malformed exactly where they spell none, with
/// the place of the first byte at which no evidence goes on. Takes no more memory than the labels and nodes
/// of both proofs and the path.
#[tactic(auto)]
pub fn read_evidence(alloc: Global, bytes: &[u8]) -> Result<Evidence, ReadFault>
    // Bytes are read as evidence exactly where they spell some, with that evidence; else the length of the longest front that
    // some evidence begins with is told.
    ensures { ReadsAs (λ e. e) evidence_layout bytes.now result }
{
    let mut at = 0;
    let read = take_evidence(alloc, bytes, &mut at);
    whole_to(bytes, at, read)
}
