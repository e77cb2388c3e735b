// A file in memory, which tells its bytes, for tests; `host_file.rt` has the system's.
ghost use Rattle.std.specs.Prelude.{◌≡◌, ◌<◌, ◌≤◌, ◌++◌, ◌∷◌, [], max, length, drop, vec_len, false, Some, None, Err, IfOk, OnOk, OnErr};
ghost use Rattle.tw_base.specs.kinds.Faults.{HasCause};
ghost use Rattle.tw_hostio.specs.FileBytes.{put_bytes};
ghost use Rattle.tw_hostio.specs.FileSteps.{written_after, IsWriteKept};
ghost use Rattle.tw_hostio.specs.FileStepsSteps.{left_as_read, file_since_now, only_since};
ghost use Rattle.tw_outside.specs.Files.{Came};

use crate::access::Access;
use crate::call_fault::{CallFault, counted};
use crate::file_stage::FileStage;
use crate::file_step::FileStep;
use crate::page_file::PageFile;
use std::alloc::Global;
use tw_base::{FailingCalls, NoMemory};

/// A file in memory, which tells its bytes and keeps all its writes and syncs, so that what each crash since it was made might have left
/// follows from what it keeps.
///
/// A call transfers a number of bytes at most. Calls fail or are interrupted where that is planned; a write that is to fail is done
/// all the same, and one that finds no memory isn't. `open` of a file that is open makes no call.
#[derive(Drop)]
pub struct MemFile {
    bytes: Vec<u8>,
    first: Vec<u8>,
    steps: Vec<FileStep>,
    access: Access,
    is_open: bool,
    most: usize,
    failing: FailingCalls,
    interrupted: FailingCalls,
    faults: u64,
    alloc: Global,
    ghost kept: { bytes.items ≡ written_after first.items steps.items },
    ghost transfers: { 0 < most },
}

impl MemFile {
    ghost use Rattle.tw_hostio.specs.MemoryFile.{file_bytes_of, failing_of, interrupted_of, most_of, mem_file_view};

    /// A closed file with these bytes, all of them stable, of which a call transfers so many at most, but at least one. No call is
    /// to fail.
    pub fn new(
        alloc: Global,
        access: Access,
        bytes: &[u8],
        most: usize,
    ) -> Result<MemFile, NoMemory>
        ensures bytes { IfOk result (λ file. file_bytes_of file ≡ bytes.now) }
        ensures most { IfOk result (λ file. most_of file ≡ max most 1) }
        ensures moment { IfOk result (λ file. (mem_file_view file).moment ≡ 0) }
        ensures faults { IfOk result (λ file. (mem_file_view file).faults ≡ 0) }
        ensures closed { IfOk result (λ file. (mem_file_view file).stage ≡ FileStage.Closed) }
        ensures failing { IfOk result (λ file. (failing_of file ≡ []) × (interrupted_of file ≡ [])) }
    {
        let first = Vec::from_slice(alloc, bytes)?;
        let bytes = Vec::from_slice(alloc, bytes)?;
        Ok(MemFile {
            bytes,
            first,
            steps: Vec::new(alloc),
            access,
            is_open: false,
            most: most.max(1),
            failing: FailingCalls::new(alloc),
            interrupted: FailingCalls::new(alloc),
            faults: 0,
            alloc,
        })
    }

    /// The bytes that it holds.
    pub fn bytes(&self) -> &[u8]
        ensures { result.now ≡ file_bytes_of self.now }
    {
        self.bytes.as_slice()
    }

    /// Makes the k-th call from now on fail, beside those that are to fail already. 1 is the next call, and 0 is none.
    pub fn fail(&mut self, k: u64) -> Result<(), NoMemory>
        ensures ok { OnOk result (failing_of self.new ≡ failing_of self.old ++ k ∷ []) }
        ensures err { OnErr result (failing_of self.new ≡ failing_of self.old) }
        ensures interrupted { interrupted_of self.new ≡ interrupted_of self.old }
        ensures bytes { file_bytes_of self.new ≡ file_bytes_of self.old }
    {
        self.failing.add(k)
    }

    /// Makes the k-th call from now on be interrupted, beside those that are to be already. 1 is the next call, and 0 is none.
    pub fn interrupt(&mut self, k: u64) -> Result<(), NoMemory>
        ensures ok { OnOk result (interrupted_of self.new ≡ interrupted_of self.old ++ k ∷ []) }
        ensures err { OnErr result (interrupted_of self.new ≡ interrupted_of self.old) }
        ensures failing { failing_of self.new ≡ failing_of self.old }
        ensures bytes { file_bytes_of self.new ≡ file_bytes_of self.old }
    {
        self.interrupted.add(k)
    }
}

// Counts a call, and tells the fault that is planned for it. Where both are planned it is interrupted.
fn planned(failing: &mut FailingCalls, interrupted: &mut FailingCalls) -> Option<CallFault> {
    let fails = failing.count_call();
    if interrupted.count_call() {
        return Some(CallFault::Interrupted);
    }
    if fails {
        Some(CallFault::Failure)
    } else {
        None
    }
}

// Copies bytes from a place on into a piece, as many as there are, as it has room for, and as may be at most, and tells how many.
fn give(bytes: &[u8], at: u64, most: usize, into: &mut [u8]) -> usize
    requires { 0 < most }
    ensures within { result ≤ length into.old }
    ensures came { Came bytes.now at into.new result }
{
    if at >= bytes.len() as u64 {
        return 0;
    }
    let rest = &bytes[at as usize..];
    let count = rest.len().min(into.len()).min(most);
    into[..count].copy_from_slice(&rest[..count]);
    count
}

// The bytes from a place on.
fn rest_of(bytes: &[u8], from: usize) -> &[u8]
    ensures { result.now ≡ drop from bytes.now }
{
    if from < bytes.len() {
        &bytes[from..]
    } else {
        &[]
    }
}

// The bytes with a piece put at a place, which is no further than their end.
#[tactic(auto, unfolding(crate::specs::FileBytes::put_bytes))]
fn with_put(alloc: Global, bytes: &[u8], at: usize, piece: &[u8]) -> Result<Vec<u8>, NoMemory>
    requires { at ≤ length bytes.now }
    ensures { IfOk result (λ put. put.items ≡ put_bytes at piece.now bytes.now) }
{
    let rest = rest_of(bytes, at.saturating_add(piece.len()));
    let mut put = Vec::from_slice(alloc, &bytes[..at])?;
    put.extend_from_slice(piece)?;
    put.extend_from_slice(rest)?;
    Ok(put)
}

// Writes a piece and keeps that, or does neither where there is no memory.
fn keep_write(
    alloc: Global,
    bytes: &mut Vec<u8>,
    steps: &mut Vec<FileStep>,
    at: u64,
    piece: &[u8],
) -> Result<(), NoMemory>
    requires { at ≤ vec_len bytes.old }
    ensures bytes { OnOk result (bytes.new.items ≡ put_bytes at piece.now bytes.old.items) }
    ensures steps { OnOk result (IsWriteKept at piece.now steps.old.items steps.new.items) }
    ensures bytes_err { OnErr result (bytes.new.items ≡ bytes.old.items) }
    ensures steps_err { OnErr result (steps.new.items ≡ steps.old.items) }
{
    let kept = Vec::from_slice(alloc, piece)?;
    let put = with_put(alloc, bytes, at as usize, piece)?;
    steps.push(FileStep::Wrote { at, bytes: kept })?;
    *bytes = put;
    Ok(())
}

// Keeps a sync, or nothing where there is no memory.
fn keep_sync(steps: &mut Vec<FileStep>) -> Result<(), NoMemory>
    ensures ok { OnOk result (steps.new.items ≡ steps.old.items ++ FileStep.Synced ∷ []) }
    ensures err { OnErr result (steps.new.items ≡ steps.old.items) }
{
    steps.push(FileStep::Synced)?;
    Ok(())
}

impl PageFile for MemFile {
    ghost use Rattle.tw_hostio.specs.MemoryFile.{mem_file_view};

    ghost view = { mem_file_view };

    ghost as_it_reads = { λ file bytes is. left_as_read file.first.items file.bytes.items file.steps.items bytes file.kept is };

    ghost counts_now = { λ file t bytes le left. file_since_now file.first.items file.steps.items t bytes le left };

    ghost only_now = { λ file bytes left. only_since file.first.items file.steps.items bytes left };

    fn open(&mut self) -> Result<FileStage, CallFault> {
        if !self.is_open {
            if let Some(fault) = planned(&mut self.failing, &mut self.interrupted) {
                return Err(counted(&mut self.faults, fault));
            }
            self.is_open = true;
        }
        match self.access {
            Access::Read => Ok(FileStage::Locked),
            Access::Write => Ok(FileStage::Named),
        }
    }

    fn len(&mut self) -> Result<u64, CallFault> {
        match planned(&mut self.failing, &mut self.interrupted) {
            None => Ok(self.bytes.len() as u64),
            Some(fault) => Err(counted(&mut self.faults, fault)),
        }
    }

    fn read_some(&mut self, at: u64, into: &mut [u8]) -> Result<usize, CallFault> {
        match planned(&mut self.failing, &mut self.interrupted) {
            None => Ok(give(&self.bytes, at, self.most, into)),
            Some(fault) => Err(counted(&mut self.faults, fault)),
        }
    }

    fn write_some(&mut self, at: u64, from: &[u8]) -> Result<usize, CallFault> {
        let fault = planned(&mut self.failing, &mut self.interrupted);
        if fault == Some(CallFault::Interrupted) {
            return Err(counted(&mut self.faults, CallFault::Interrupted));
        }
        let count = from.len().min(self.most);
        if let Err(_) = keep_write(
            self.alloc,
            &mut self.bytes,
            &mut self.steps,
            at,
            &from[..count],
        ) {
            return Err(counted(&mut self.faults, CallFault::Failure));
        }
        match fault {
            None => Ok(count),
            Some(fault) => Err(counted(&mut self.faults, fault)),
        }
    }

    fn sync(&mut self) -> Result<(), CallFault> {
        if let Some(fault) = planned(&mut self.failing, &mut self.interrupted) {
            return Err(counted(&mut self.faults, fault));
        }
        match keep_sync(&mut self.steps) {
            Ok(()) => Ok(()),
            Err(NoMemory) => Err(counted(&mut self.faults, CallFault::Failure)),
        }
    }
}
