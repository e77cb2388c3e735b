// The command `accuse`, which makes the evidence of a fork of the proofs in files; tw_evidence/src/accusing.rt has the call.

ghost use Rattle.std.specs.Prelude.{◌≡◌, None, Some, IfOk};
ghost use Rattle.tw_evidence.specs.Accusing.{AreSpelled};
ghost use Rattle.tw_evidence.specs.Evidence.{evidence_bytes, link_proof_layout, thread_proof_layout};
ghost use Rattle.tw_outside.specs.Asked.{asked};
ghost use Rattle.tw_reachcmd.specs.Accusing.{AccuseComes, PartsMake};
ghost use Rattle.tw_text.specs.Faults.{IsReadAs};
ghost use Rattle.tw_reachcmd.specs.Parts.{ArePairOf, LinkedCome};
ghost use Rattle.tw_reachcmd.specs.declared.accusing.Accused.TheVariants as Accused;

use crate::reading::read_both;
use std::alloc::Global;
use tw_base::{Bytes, NoMemory, ReadFault};
use tw_chain::{LinkProof, ThreadProof};
use tw_evidence::{Evidence, accuse, read_link_proof, read_thread_proof, write_evidence};
use tw_filecmd::limits::FILE_READ;
use tw_join::JoinFault;
use tw_outside::{Inputs, read_all};
use tw_text::{CommandFault, bad_byte};

/// What accusing a service of a fork comes to.
#[derive(Drop, Debug)]
pub enum Accused {
    /// The bytes of the evidence.
    Whole(Bytes),
    /// The part of this number doesn't fit: the second of both threads, or the link, which is the third.
    Unfit { place: u64 },
}

/// Makes the evidence of a fork of the proofs in the named files, of two received threads of one service
/// and one step. Both files are read before one is judged.
pub fn accuse_pair<I: Inputs>(
    alloc: Global,
    inputs: &mut I,
    first: &str,
    second: &str,
) -> Result<Accused, CommandFault>
    requires first { I.may_ask inputs.old first.now }
    requires second { I.may_ask inputs.old second.now }
    // What `accuse` of two proofs comes to is what both files and the count of faults allow: bytes that spell the evidence that
    // the proofs make, the number of the part that doesn't fit, or a fault with its cause.
    ensures { AccuseComes (asked (I.told inputs.old) (I.faults inputs.old) (I.faults inputs.new)) first.now second.now None result }
{
    let (one, other) = read_both(alloc, inputs, first, second)?;
    match pair_of(alloc, first, one.as_slice(), second, other.as_slice()) {
        Ok(pair) => Ok(made(alloc, pair.0, pair.1, None)?),
        Err(fault) => Err(fault),
    }
}

/// Makes the evidence of a fork of the proofs in the named files, of two received threads of one service,
/// the first not of the later step, and of the link from the second one's step down to the first's. All
/// files are read before one is judged.
pub fn accuse_linked<I: Inputs>(
    alloc: Global,
    inputs: &mut I,
    first: &str,
    second: &str,
    link: &str,
) -> Result<Accused, CommandFault>
    requires first { I.may_ask inputs.old first.now }
    requires second { I.may_ask inputs.old second.now }
    requires link { I.may_ask inputs.old link.now }
    // What `accuse` with a link comes to is what its files and the count of faults allow: bytes that spell the evidence that
    // the proofs and the link make, the number of the part that doesn't fit, or a fault with its cause.
    ensures { AccuseComes (asked (I.told inputs.old) (I.faults inputs.old) (I.faults inputs.new)) first.now second.now (Some link.now) result }
{
    let (one, other) = read_both(alloc, inputs, first, second)?;
    let between = read_all(alloc, inputs, link, FILE_READ)?;
    match pair_of(alloc, first, one.as_slice(), second, other.as_slice()) {
        Ok(pair) => linked(alloc, pair, link, between.as_slice()),
        Err(fault) => Err(fault),
    }
}

/// What both proofs make with the link that the bytes of the named file spell.
fn linked(
    alloc: Global,
    pair: (ThreadProof, ThreadProof),
    link: &str,
    bytes: &[u8],
) -> Result<Accused, CommandFault>
    requires { AreSpelled pair.0 pair.1 None }
    ensures { LinkedCome pair.0 pair.1 link.now bytes.now result }
{
    match link_of(alloc, link, bytes) {
        Ok(between) => Ok(made(alloc, pair.0, pair.1, Some(between))?),
        Err(fault) => {
            drop(pair);
            Err(fault)
        }
    }
}

/// The proofs of received threads that the bytes of two files spell.
fn pair_of(
    alloc: Global,
    first: &str,
    one: &[u8],
    second: &str,
    other: &[u8],
) -> Result<(ThreadProof, ThreadProof), CommandFault>
    ensures { ArePairOf first.now one.now second.now other.now result }
{
    let one = thread_of(alloc, first, one)?;
    match thread_of(alloc, second, other) {
        Ok(other) => Ok((one, other)),
        Err(fault) => {
            drop(one);
            Err(fault)
        }
    }
}

/// The proof of a received thread that the bytes of the file spell.
fn thread_of(alloc: Global, file: &str, bytes: &[u8]) -> Result<ThreadProof, CommandFault>
    ensures { IsReadAs thread_proof_layout file.now bytes.now result }
{
    match read_thread_proof(alloc, bytes) {
        Ok(proof) => Ok(proof),
        Err(ReadFault::Malformed { place }) => Err(CommandFault::Unreadable(bad_byte(
            alloc, file, place,
        )?)),
        Err(ReadFault::NoMemory) => Err(CommandFault::NoMemory),
    }
}

/// The proof of a step's authenticator that the bytes of the file spell.
fn link_of(alloc: Global, file: &str, bytes: &[u8]) -> Result<LinkProof, CommandFault>
    ensures { IsReadAs link_proof_layout file.now bytes.now result }
{
    match read_link_proof(alloc, bytes) {
        Ok(proof) => Ok(proof),
        Err(ReadFault::Malformed { place }) => Err(CommandFault::Unreadable(bad_byte(
            alloc, file, place,
        )?)),
        Err(ReadFault::NoMemory) => Err(CommandFault::NoMemory),
    }
}

/// What the parts make.
fn made(
    alloc: Global,
    one: ThreadProof,
    other: ThreadProof,
    between: Option<LinkProof>,
) -> Result<Accused, NoMemory>
    requires { AreSpelled one other between }
    ensures { IfOk result (PartsMake one other between) }
{
    match accuse(alloc, one, other, between) {
        Ok(evidence) => written(alloc, evidence),
        Err(JoinFault::Gap { place }) => Ok(Accused::Unfit { place }),
        Err(JoinFault::NoMemory) => Err(NoMemory),
    }
}

/// The evidence, written, and given up before its bytes are looked at: what `?` gives up is proved slowly.
fn written(alloc: Global, evidence: Evidence) -> Result<Accused, NoMemory>
    ensures { IfOk result (λ accused. accused ≡ Accused.Whole (evidence_bytes evidence)) }
{
    let bytes = write_evidence(alloc, &evidence);
    drop(evidence);
    Ok(Accused::Whole(bytes?))
}
