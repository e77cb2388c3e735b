// Reading what files show of an archive, be they proofs or map files, for `judging.rt`.

ghost use Rattle.std.specs.Prelude.{◌≡◌, ◌<◌, [], IfOk, IfSome};
ghost use Rattle.tw_contradict.specs.ArchiveFiles.{IsArchiveRead, of_high as shown_by_high, of_low as shown_by_low, of_proof as shown_by_proof};
ghost use Rattle.tw_contradict.specs.Fitting.{IsSmall};

use crate::archive_proof::ArchiveProof;
use std::alloc::Global;
use tw_base::{Ask, NoMemory, ReadFault};
use tw_chain::{Proof, read_proof};
use tw_skipproof::{LinkList, Part, Path};
use tw_tmap::{HighFile, LowFile, ask_first, ask_last, read_high, read_low};

/// What a proof shows of an archive, where it is of kind 3 or 4.
fn of_proof(proof: Proof) -> Option<ArchiveProof>
    ensures { result ≡ shown_by_proof proof }
{
    match proof {
        Proof::Archived(thread) => Some(ArchiveProof {
            at: thread.at,
            ask: Ask::Present(thread.entry),
            shown: thread.shown,
        }),
        Proof::Absent(absence) => Some(ArchiveProof {
            at: absence.at,
            ask: Ask::Absent(absence.key),
            shown: absence.shown,
        }),
        other => {
            drop(other);
            None
        }
    }
}

/// What a low map file shows, where it is of a step from 2 on.
fn of_low(file: LowFile) -> Option<ArchiveProof>
    requires { 0 < file.step }
    ensures { result ≡ shown_by_low file }
{
    let LowFile {
        service,
        step,
        peer,
        top,
        shown,
    } = file;
    match shown {
        None => None,
        Some(part) => Some(ArchiveProof {
            at: Part {
                service,
                step: step - 1,
                top,
                path: part.path,
                opening: part.opening,
            },
            ask: ask_last(&peer),
            shown: part.shown,
        }),
    }
}

/// What a high map file shows; the path has no links.
fn of_high(file: HighFile, path: Path) -> ArchiveProof
    requires some { 0 < file.step }
    requires none { path.links ≡ [] }
    ensures { result ≡ shown_by_high file }
{
    let ask = ask_first(&file.peer, file.step);
    ArchiveProof {
        at: Part {
            service: file.service,
            step: file.top,
            top: file.top,
            path,
            opening: file.opening,
        },
        ask,
        shown: file.shown,
    }
}

/// What the bytes show of an archive: those of a proof of kind 3 or 4, of a low map file of a step from 2 on,
/// or of a high map file. None of other bytes.
pub(crate) fn read_file(alloc: Global, bytes: &[u8]) -> Result<Option<ArchiveProof>, NoMemory>
    ensures read { IfOk result (IsArchiveRead bytes.now) }
    ensures small { IfOk result (λ file. IfSome file IsSmall) }
{
    match read_proof(alloc, bytes) {
        Ok(proof) => Ok(of_proof(proof)),
        Err(ReadFault::Malformed { .. }) => match read_low(alloc, bytes) {
            Ok(file) => Ok(of_low(file)),
            Err(ReadFault::Malformed { .. }) => match read_high(alloc, bytes) {
                Ok(file) => {
                    let links = LinkList::new(alloc);
                    Ok(Some(of_high(file, Path { links })))
                }
                Err(ReadFault::Malformed { .. }) => Ok(None),
                Err(ReadFault::NoMemory) => Err(NoMemory),
            },
            Err(ReadFault::NoMemory) => Err(NoMemory),
        },
        Err(ReadFault::NoMemory) => Err(NoMemory),
    }
}
