// The command `adopt`, which takes over the history of a file by the proofs of others; tw_adopt/src/adopting.rt has the call.

ghost use Rattle.std.specs.Prelude.{◌≡◌, ◌≤◌, ◌<◌, ◌∷◌, ◌++◌, [], ℕ, List, Err, IfOk, OnOk, length};
ghost use Rattle.tw_base.specs.declared.kinds.limits.TheConstants.{MOST_HISTORY_BYTES as MOST};
ghost use Rattle.tw_base.specs.history.HistoryCodec.{history_bytes};
ghost use Rattle.tw_base.specs.kinds.Faults.{Rose};
ghost use Rattle.tw_base.specs.kinds.Lists.{Each};
ghost use Rattle.tw_outside.specs.Asked.{asked};
ghost use Rattle.tw_outside.specs.Files.{IsThere};
ghost use Rattle.tw_reachcmd.specs.AdoptReading.{AreReadTo, IsHistoryIn, TakenIs, TakenUnder};
ghost use Rattle.tw_reachcmd.specs.Adopting.{AdoptComes};

use crate::anchors::anchors_of;
use crate::histories::{HistoryRefusal, history_beside};
use std::alloc::Global;
use tw_adopt::{AdoptFault, Adopted, ProofList, adopt};
use tw_base::limits::MOST_HISTORY_BYTES;
use tw_base::{Bytes, InputFault, NoMemory, Sha, Thread};
use tw_filecmd::limits::FILE_READ;
use tw_history::{History, HistoryFault, write_history};
use tw_outside::{Inputs, read_all};
use tw_text::{CommandFault, FilePath};

/// What taking over a history comes to.
#[derive(Drop, Debug)]
pub enum Taken {
    /// It is taken over: the bytes of the file of the steps that are.
    File(Bytes),
    /// It isn't, for the first fault of the proofs.
    Fault(AdoptFault),
}

/// Takes over the history of the named file, under the anchors of another one, as far as a proof and more of them,
/// each of a file, hold it. The files are read in this order, that of the history to one byte more than it may
/// have, each other to its end or to `FILE_READ` bytes. Once all are read, the history is judged, then the lines of
/// the anchors, and then the proofs.
pub fn adopt_files<I: Inputs>(
    alloc: Global,
    inputs: &mut I,
    history: &str,
    anchors: &str,
    proof: &str,
    more: &[FilePath],
) -> Result<Taken, CommandFault>
    requires history { I.may_ask inputs.old history.now }
    requires anchors { I.may_ask inputs.old anchors.now }
    requires proof { I.may_ask inputs.old proof.now }
    requires more { Each (I.may_ask inputs.old) more.now }
    // What `adopt` comes to is what its files and the count of faults allow: the file of what is taken over, the first fault of
    // the proofs, or a fault with its cause.
    ensures { AdoptComes (asked (I.told inputs.old) (I.faults inputs.old) (I.faults inputs.new)) history.now anchors.now (proof.now ∷ more.now) result }
{
    let bytes = read_all(alloc, inputs, history, MOST_HISTORY_BYTES as usize + 1)?;
    let lines = read_all(alloc, inputs, anchors, FILE_READ)?;
    let proofs = read_proofs(alloc, inputs, proof, more)?;
    match history_in(alloc, history, bytes) {
        Ok(read) => take_under(alloc, read, anchors, lines.as_slice(), proofs),
        Err(fault) => {
            drop(proofs);
            Err(fault)
        }
    }
}

/// Reads the files of a proof and of more of them.
fn read_proofs<I: Inputs>(
    alloc: Global,
    inputs: &mut I,
    proof: &str,
    more: &[FilePath],
) -> Result<ProofList, InputFault>
    requires proof { I.may_ask inputs.old proof.now }
    requires more { Each (I.may_ask inputs.old) more.now }
    ensures later { I.faults inputs.old ≤ I.faults inputs.new }
    ensures failed { result ≡ Err InputFault.Failed → Rose (I.faults inputs.old) (I.faults inputs.new) }
    ensures there { OnOk result (Each (IsThere (I.told inputs.old)) (proof.now ∷ more.now)) }
    ensures read { IfOk result (AreReadTo (I.told inputs.old) FILE_READ (proof.now ∷ more.now)) }
{
    let bytes = read_all(alloc, inputs, proof, FILE_READ)?;
    let mut proofs = list_of(alloc, bytes)?;
    match put_files(alloc, inputs, more, &mut proofs) {
        Ok(()) => Ok(proofs),
        // Not by `?`: what goes out of scope there is looked at part by part, and proved slowly.
        Err(fault) => {
            drop(proofs);
            Err(fault)
        }
    }
}

/// The list of one proof.
fn list_of(alloc: Global, bytes: Vec<u8>) -> Result<ProofList, NoMemory>
    ensures { IfOk result (λ proofs. proofs ≡ bytes.items ∷ []) }
{
    let mut proofs = ProofList::new(alloc);
    proofs.push(Bytes::from_vec(bytes))?;
    Ok(proofs)
}

/// Reads the files, one after another, and puts their bytes behind those of the files before them.
fn put_files<I: Inputs>(
    alloc: Global,
    inputs: &mut I,
    files: &[FilePath],
    proofs: &mut ProofList,
) -> Result<(), InputFault>
    requires { Each (I.may_ask inputs.old) files.now }
    ensures later { I.faults inputs.old ≤ I.faults inputs.new }
    ensures failed { result ≡ Err InputFault.Failed → Rose (I.faults inputs.old) (I.faults inputs.new) }
    ensures there { OnOk result (Each (IsThere (I.told inputs.old)) files.now) }
    ensures read { OnOk result ((before : List (List ℕ)) → AreReadTo (I.told inputs.old) FILE_READ before proofs.old →
        AreReadTo (I.told inputs.old) FILE_READ (before ++ files.now) proofs.new) }
{
    for file in files {
        let bytes = read_all(alloc, inputs, file.as_str(), FILE_READ)?;
        proofs.push(Bytes::from_vec(bytes))?;
    }
    Ok(())
}

/// The sound history that the bytes of the named file spell, judged as the first one of an audit is: beside no other,
/// and with the whole limit left.
fn history_in(alloc: Global, file: &str, bytes: Vec<u8>) -> Result<History, CommandFault>
    ensures { IsHistoryIn file.now bytes.items result }
{
    match history_beside(
        alloc,
        file,
        bytes.as_slice(),
        MOST_HISTORY_BYTES as usize,
        &[],
    ) {
        Ok(history) => Ok(history),
        Err(HistoryRefusal::Bad(bad)) => Err(CommandFault::Unreadable(bad)),
        Err(HistoryRefusal::NoMemory) => Err(CommandFault::NoMemory),
    }
}

/// What comes of the history and the proofs, under the anchors of these lines of the named file.
fn take_under(
    alloc: Global,
    history: History,
    file: &str,
    lines: &[u8],
    proofs: ProofList,
) -> Result<Taken, CommandFault>
    requires short { length (history_bytes history) ≤ MOST }
    requires some { 0 < length proofs }
    ensures { TakenUnder file.now lines.now history proofs result }
{
    match anchors_of(alloc, file, lines) {
        Ok(held) => take(alloc, history, held.as_slice(), proofs),
        Err(fault) => {
            drop(history);
            drop(proofs);
            Err(fault)
        }
    }
}

/// What comes of the history and the proofs, under these anchors. Only what is taken over is kept while its file
/// is written.
fn take(
    alloc: Global,
    history: History,
    anchors: &[Thread],
    proofs: ProofList,
) -> Result<Taken, CommandFault>
    requires short { length (history_bytes history) ≤ MOST }
    requires some { 0 < length proofs }
    ensures { TakenIs anchors.now history proofs result }
{
    let answer = adopt::<Sha>(alloc, &history, anchors, &proofs);
    drop(proofs);
    drop(history);
    match answer {
        Ok(adopted) => match file_of(alloc, adopted) {
            Ok(bytes) => Ok(Taken::File(bytes)),
            Err(NoMemory) => Err(CommandFault::NoMemory),
        },
        Err(AdoptFault::NoMemory) => Err(CommandFault::NoMemory),
        Err(fault) => Ok(Taken::Fault(fault)),
    }
}

/// The bytes of the file of the steps that are taken over.
fn file_of(alloc: Global, adopted: Adopted) -> Result<Bytes, NoMemory>
    requires { length (history_bytes adopted.history) ≤ MOST }
    ensures { IfOk result (λ bytes. bytes ≡ history_bytes adopted.history) }
{
    match write_history(alloc, &adopted.history) {
        Ok(bytes) => Ok(bytes),
        Err(HistoryFault::NoMemory) => Err(NoMemory),
        Err(_) => unreachable!(),
    }
}
