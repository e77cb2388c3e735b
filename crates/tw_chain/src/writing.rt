// Writing proofs of all kinds, for services and joins; what one from event to event has is in `chain_writing.rt`.
#![tactic(auto, unfolding(crate::specs::Seen::bodies_written))]

ghost use Rattle.std.specs.Prelude.{◌≡◌, [], ◌∷◌, ◌++◌, IfOk, OnOk};
ghost use Rattle.tw_base.specs.format.Formats.{Spells};
ghost use Rattle.tw_chain.specs.Proofs.{absence_body, body_of_kind, key_codec, link_body, proof_bytes, proof_codec, proof_kind, proof_layout, thread_body};

use crate::chain_writing::put_precedence_body;
use crate::proof::{AbsenceProof, LinkProof, Proof, ThreadProof};
use std::alloc::Global;
use tw_base::{Bytes, Key, NoMemory, put_digest, put_entry, put_name, put_number, put_text};
use tw_skipproof::{PROOF_MAGIC, put_existence_body, put_part, put_path};
use tw_treeproof::{put_gap, put_present};

/// Appends the key.
fn put_key(into: &mut Bytes, key: &Key) -> Result<(), NoMemory>
    ensures { OnOk result (into.new ≡ into.old ++ key_codec.write key.now) }
{
    put_name(into, &key.from)?;
    put_number(into, key.step, 8)?;
    Ok(())
}

/// Appends the proof that a thread was received, behind its kind.
pub fn put_thread_body(into: &mut Bytes, proof: &ThreadProof) -> Result<(), NoMemory>
    // What is appended is the proof's word in its codec.
    ensures { OnOk result (into.new ≡ into.old ++ thread_body.write proof.now) }
{
    put_part(into, &proof.at)?;
    put_entry(into, &proof.entry)?;
    put_present(into, &proof.shown)?;
    Ok(())
}

/// Appends the proof that there is no entry, behind its kind.
fn put_absence_body(into: &mut Bytes, proof: &AbsenceProof) -> Result<(), NoMemory>
    ensures { OnOk result (into.new ≡ into.old ++ absence_body.write proof.now) }
{
    put_part(into, &proof.at)?;
    put_key(into, &proof.key)?;
    put_gap(into, &proof.shown)?;
    Ok(())
}

/// Appends the proof of a link, behind its kind.
fn put_link_body(into: &mut Bytes, proof: &LinkProof) -> Result<(), NoMemory>
    ensures { OnOk result (into.new ≡ into.old ++ link_body.write proof.now) }
{
    put_name(into, &proof.service)?;
    put_number(into, proof.step, 8)?;
    put_number(into, proof.top, 8)?;
    put_digest(into, &proof.auth)?;
    put_path(into, &proof.path)?;
    Ok(())
}

/// The kind of the proof.
#[tactic(auto)]
fn kind_of(proof: &Proof) -> u8
    ensures { result ≡ proof_kind proof.now }
{
    match proof {
        Proof::Exists(_) => 1,
        Proof::Precedes(_) => 2,
        Proof::Archived(_) => 3,
        Proof::Absent(_) => 4,
        Proof::Linked(_) => 5,
    }
}

/// Appends what the proof has behind its kind.
#[tactic(auto, unfolding(tw_base::specs::format::Codecs::variant))]
fn put_body(into: &mut Bytes, proof: &Proof) -> Result<(), NoMemory>
    ensures { OnOk result (into.new ≡ into.old ++ (body_of_kind (proof_kind proof.now)).write proof.now) }
{
    match proof {
        Proof::Exists(existence) => put_existence_body(into, existence),
        Proof::Precedes(precedence) => put_precedence_body(into, precedence),
        Proof::Archived(thread) => put_thread_body(into, thread),
        Proof::Absent(absence) => put_absence_body(into, absence),
        Proof::Linked(link) => put_link_body(into, link),
    }
}

/// Appends the proof: the magic, its kind, and what the kind has.
#[tactic(auto, unfolding(crate::specs::Proofs::kinds_codec, crate::specs::Proofs::proof_codec, tw_base::specs::format::Seen::codecs))]
fn put_proof(into: &mut Bytes, proof: &Proof) -> Result<(), NoMemory>
    ensures { OnOk result (into.new ≡ into.old ++ proof_bytes proof.now) }
{
    put_text(into, &PROOF_MAGIC)?;
    put_number(into, kind_of(proof) as u64, 1)?;
    put_body(into, proof)?;
    Ok(())
}

/// The bytes of the proof: the four bytes `TWP1`, its kind, and what the kind has. They spell it where
/// its numbers are in the ranges of the format, and its paths, openings and tree proofs are those of
/// its kind and steps.
#[tactic(auto)]
pub fn write_proof(alloc: Global, proof: &Proof) -> Result<Bytes, NoMemory>
    // What is written of a proof is its bytes in the format.
    ensures bytes { IfOk result (λ bytes. bytes ≡ proof_bytes proof.now) }
    // The bytes that are written spell the proof, where it has a spelling.
    ensures spelled { IfOk result (λ bytes. proof_codec.Fits proof.now → Spells proof_layout bytes proof.now) }
{
    let mut bytes = Bytes::new(alloc);
    put_proof(&mut bytes, proof)?;
    Ok(bytes)
}
