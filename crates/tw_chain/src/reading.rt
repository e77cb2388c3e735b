// Reading whole proofs, for joins, audits and evidence; a verifier reads them piece by piece, in `tw_verifier`.
#![tactic(auto, unfolding(crate::specs::Seen::bodies))]

ghost use Rattle.std.specs.Prelude.{◌≡◌, ◌≤◌, length, IfOk};
ghost use Rattle.tw_base.specs.format.Formats.{ReadsAs, ReadsFrontAs};
ghost use Rattle.tw_base.specs.format.Taking.{Takes};
ghost use Rattle.tw_chain.specs.Proofs.{absence_body, body_of_kind, key_codec, kind_codec, kinds_codec, link_body, proof_codec, proof_layout, thread_body};

use crate::chain_reading::take_precedence_body;
use crate::proof::{AbsenceProof, LinkProof, Proof, ThreadProof};
use std::alloc::Global;
use tw_base::limits::LAST_STEP;
use tw_base::{
    Key, ReadFault, front_to, take_digest, take_entry, take_name, take_number, take_text, whole_to,
};
use tw_skipproof::{PROOF_MAGIC, take_existence_body, take_part, take_path};
use tw_treeproof::{take_gap, take_present};

/// Takes a proof that an archive has an entry, behind its kind, and sets the place behind it. Malformed at the first byte at
/// which no such proof goes on.
pub fn take_thread_body(alloc: Global, bytes: &[u8], at: &mut u64) -> Result<ThreadProof, ReadFault>
    requires { at.old ≤ length bytes.now }
    // A proof of a received thread is taken exactly where its codec's word stands at the place.
    ensures { Takes thread_body (λ p. p) bytes.now at.old at.new result }
{
    let part = take_part(alloc, bytes, at, 0)?;
    let entry = take_entry(bytes, at)?;
    let shown = take_present(alloc, bytes, at)?;
    Ok(ThreadProof {
        at: part,
        entry,
        shown,
    })
}

/// Takes a key, a service's name and a step from 1 on, at the place, and sets the place behind it. Malformed at the first
/// byte at which no key goes on. (A verifier takes keys and kinds alone.)
pub fn take_key(bytes: &[u8], at: &mut u64) -> Result<Key, ReadFault>
    requires { at.old ≤ length bytes.now }
    // A key is taken exactly where its codec's word stands at the place.
    ensures { Takes key_codec (λ k. k) bytes.now at.old at.new result }
{
    let from = take_name(bytes, at)?;
    let step = take_number(bytes, at, 8, 1, LAST_STEP)?;
    Ok(Key { from, step })
}

/// Takes a proof that an archive has no entry of a key, behind its kind.
fn take_absence_body(alloc: Global, bytes: &[u8], at: &mut u64) -> Result<AbsenceProof, ReadFault>
    requires { at.old ≤ length bytes.now }
    ensures { Takes absence_body (λ p. p) bytes.now at.old at.new result }
{
    let part = take_part(alloc, bytes, at, 0)?;
    let key = take_key(bytes, at)?;
    let shown = take_gap(alloc, bytes, at)?;
    Ok(AbsenceProof {
        at: part,
        key,
        shown,
    })
}

/// Takes a proof of the authenticator of a step, which may be 0, behind its kind, and sets the place behind it. Malformed at the
/// first byte at which no such proof goes on.
pub fn take_link_body(alloc: Global, bytes: &[u8], at: &mut u64) -> Result<LinkProof, ReadFault>
    requires { at.old ≤ length bytes.now }
    // A proof of a step's authenticator is taken exactly where its codec's word stands at the place.
    ensures { Takes link_body (λ p. p) bytes.now at.old at.new result }
{
    let service = take_name(bytes, at)?;
    let step = take_number(bytes, at, 8, 0, LAST_STEP)?;
    let top = take_number(bytes, at, 8, 1, LAST_STEP)?;
    let auth = take_digest(bytes, at)?;
    let path = take_path(alloc, bytes, at, top, step)?;
    Ok(LinkProof {
        service,
        step,
        top,
        auth,
        path,
    })
}

/// Takes what a proof of this kind has.
#[tactic(auto, unfolding(tw_base::specs::format::Codecs::variant))]
fn take_of_kind(alloc: Global, bytes: &[u8], at: &mut u64, kind: u64) -> Result<Proof, ReadFault>
    requires { at.old ≤ length bytes.now }
    ensures { Takes (body_of_kind kind) (λ p. p) bytes.now at.old at.new result }
{
    if kind == 1 {
        return Ok(Proof::Exists(take_existence_body(alloc, bytes, at)?));
    }
    if kind == 2 {
        return Ok(Proof::Precedes(take_precedence_body(alloc, bytes, at)?));
    }
    if kind == 3 {
        return Ok(Proof::Archived(take_thread_body(alloc, bytes, at)?));
    }
    if kind == 4 {
        return Ok(Proof::Absent(take_absence_body(alloc, bytes, at)?));
    }
    Ok(Proof::Linked(take_link_body(alloc, bytes, at)?))
}

/// Takes the kind of a proof, which is 1 to 5, in the one byte at the place, and sets the place behind it. Malformed
/// exactly where no proof goes on so.
#[tactic(auto)]
pub fn take_kind(bytes: &[u8], at: &mut u64) -> Result<u64, ReadFault>
    requires { at.old ≤ length bytes.now }
    // The kind is taken exactly where its byte stands at the place.
    ensures { Takes kind_codec (λ kind. kind) bytes.now at.old at.new result }
{
    take_number(bytes, at, 1, 1, 5)
}

/// Takes the kind and what a proof of it has.
#[tactic(auto)]
fn take_by_kind(alloc: Global, bytes: &[u8], at: &mut u64) -> Result<Proof, ReadFault>
    requires { at.old ≤ length bytes.now }
    ensures { Takes kinds_codec (λ p. p) bytes.now at.old at.new result }
{
    let kind = take_kind(bytes, at)?;
    take_of_kind(alloc, bytes, at, kind)
}

/// Takes a proof.
#[tactic(auto, unfolding(crate::specs::Proofs::proof_codec, tw_base::specs::format::Codecs::behind))]
fn take_proof(alloc: Global, bytes: &[u8], at: &mut u64) -> Result<Proof, ReadFault>
    requires { at.old ≤ length bytes.now }
    ensures { Takes proof_codec (λ p. p) bytes.now at.old at.new result }
{
    take_text(bytes, at, &PROOF_MAGIC)?;
    take_by_kind(alloc, bytes, at)
}

/// The proof that the bytes spell, from first to last. Malformed exactly where they spell none, with
/// the place of the first byte at which no proof goes on. Takes no more memory than the proof's labels,
/// event and nodes.
#[tactic(auto)]
pub fn read_proof(alloc: Global, bytes: &[u8]) -> Result<Proof, ReadFault>
    // Bytes are read as a proof exactly where they spell one, with that proof; else the length of the longest front
    // that some proof begins with is told.
    ensures { ReadsAs (λ p. p) proof_layout bytes.now result }
{
    let mut at = 0;
    let read = take_proof(alloc, bytes, &mut at);
    whole_to(bytes, at, read)
}

/// The proof that a front of the bytes spells, and the number of its bytes; no proof is the front of a
/// longer one. Malformed exactly where no front of them spells one, with the place of the first byte at
/// which no proof goes on. (Tests alone read a front so.)
#[tactic(auto)]
pub fn read_first(alloc: Global, bytes: &[u8]) -> Result<(Proof, u64), ReadFault>
    // A proof is read from the front of bytes exactly where a front of them spells one, with that proof and its number
    // of bytes; else the length of the longest front that some proof begins with is told.
    ensures { ReadsFrontAs (λ p. p) proof_layout bytes.now result }
{
    let mut at = 0;
    let read = take_proof(alloc, bytes, &mut at);
    front_to(at, read)
}
