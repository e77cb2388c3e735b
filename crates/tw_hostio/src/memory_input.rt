// Files in memory, which tell what they hold, for tests; `host_input.rt` has those of the computer.
ghost use Rattle.std.specs.Prelude.{◌≡◌, ◌<◌, ◌≤◌, ◌+◌, ◌++◌, ◌∷◌, [], ℕ, List, max, length, IfOk, IsOk, IsSome, OnOk, OnErr, Some};
ghost use Rattle.std.specs.FinMap.{get};
ghost use Rattle.tw_base.specs.kinds.Faults.{Rose};
ghost use Rattle.tw_outside.specs.Files.{Came};
ghost use Rattle.tw_outside.specs.Memory.{mem_files};

use crate::call_fault::{CallFault, counted};
use crate::input_file::InputFile;
use std::alloc::Global;
use tw_base::{Failed, FailingCalls, NoMemory};
use tw_outside::{Inputs as _, MemInputs};

/// Files in memory, of which a read gives a number of bytes at most. A call fails where a read of the inputs in memory does, and is
/// interrupted where that is planned.
#[derive(Drop)]
pub struct MemInput {
    inputs: MemInputs,
    name: Option<String>,
    at: u64,
    most: usize,
    interrupted: FailingCalls,
    faults: u64,
    alloc: Global,
    ghost gives: { 0 < most },
}

impl MemInput {
    ghost use Rattle.tw_hostio.specs.MemoryInput.{inputs_under, interrupted_reads, most_given};

    /// The files of these inputs, of which a read gives so many bytes at most, but at least one. No call is to be interrupted.
    pub fn new(alloc: Global, inputs: MemInputs, most: usize) -> MemInput
        ensures inputs { inputs_under result ≡ inputs }
        ensures most { most_given result ≡ max most 1 }
        ensures interrupted { interrupted_reads result ≡ [] }
    {
        MemInput {
            inputs,
            name: None,
            at: 0,
            most: most.max(1),
            interrupted: FailingCalls::new(alloc),
            faults: 0,
            alloc,
        }
    }

    /// Makes the k-th call from now on be interrupted, beside those that are to be already. 1 is the next call, and 0 is none.
    pub fn interrupt(&mut self, k: u64) -> Result<(), NoMemory>
        ensures ok { OnOk result (interrupted_reads self.new ≡ interrupted_reads self.old ++ k ∷ []) }
        ensures err { OnErr result (interrupted_reads self.new ≡ interrupted_reads self.old) }
        ensures inputs { inputs_under self.new ≡ inputs_under self.old }
    {
        self.interrupted.add(k)
    }
}

// Reads bytes of the named file from a place on into the front of a piece, so many at most.
fn read_part(
    inputs: &mut MemInputs,
    name: &str,
    at: u64,
    most: usize,
    into: &mut [u8],
) -> Result<usize, Failed>
    requires { 0 < most }
    ensures kept { mem_files inputs.new ≡ mem_files inputs.old }
    ensures there { OnOk result (IsSome (get (mem_files inputs.old) name.now)) }
    ensures within { IfOk result (λ n. n ≤ length into.old) }
    ensures came { IfOk result (λ n. (bytes : List ℕ) → get (mem_files inputs.old) name.now ≡ Some bytes → Came bytes at into.new n) }
{
    let count = into.len().min(most);
    let came = inputs.read(name, at, &mut into[..count])?;
    Ok(came)
}

impl InputFile for MemInput {
    ghost use Rattle.std.specs.Option.{option_map};
    ghost use Rattle.std.specs.String.{string_bytes};
    ghost use Rattle.tw_hostio.specs.MemoryInput.{stands_in};

    ghost told = { λ input. Some (mem_files input.inputs) };

    ghost stands = { λ input. stands_in (option_map string_bytes input.name) input.at };

    ghost faults = { λ input. input.faults };

    fn open(&mut self, name: &str) -> Result<(), CallFault> {
        if self.interrupted.count_call() {
            return Err(counted(&mut self.faults, CallFault::Interrupted));
        }
        if self.inputs.read(name, 0, &mut []).is_err() {
            return Err(counted(&mut self.faults, CallFault::Failure));
        }
        match String::from_str(self.alloc, name) {
            Ok(name) => {
                self.name = Some(name);
                self.at = 0;
                Ok(())
            }
            Err(_) => Err(counted(&mut self.faults, CallFault::Failure)),
        }
    }

    fn seek(&mut self, to: u64) -> Result<(), CallFault> {
        if self.interrupted.count_call() {
            return Err(counted(&mut self.faults, CallFault::Interrupted));
        }
        self.at = to;
        Ok(())
    }

    fn read_some(&mut self, into: &mut [u8]) -> Result<usize, CallFault> {
        if self.interrupted.count_call() {
            return Err(counted(&mut self.faults, CallFault::Interrupted));
        }
        let Some(name) = &self.name else {
            return Err(counted(&mut self.faults, CallFault::Failure));
        };
        match read_part(&mut self.inputs, name.as_str(), self.at, self.most, into) {
            Ok(came) => match self.at.checked_add(came as u64) {
                Some(at) => {
                    self.at = at;
                    Ok(came)
                }
                None => Err(counted(&mut self.faults, CallFault::Failure)),
            },
            Err(Failed) => Err(counted(&mut self.faults, CallFault::Failure)),
        }
    }

    fn close(&mut self) {
        self.name = None;
    }
}
