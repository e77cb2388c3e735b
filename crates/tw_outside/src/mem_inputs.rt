// Inputs in memory, which tell what they hold, for tests; those of the program are files, in `tw_hostio`.
ghost use Rattle.std.specs.Prelude.{◌≡◌, ◌≤◌, ◌++◌, ◌∷◌, [], ◌⊎◌, ◌↔◌, ℕ, List, length, OnOk, OnErr, IfOk, IsErr, IsNone, IsTrue};
ghost use Rattle.std.specs.FinMap as map_of;
ghost use Rattle.tw_base.specs.kinds.PlannedFailures.{fails_next, after_call};
ghost use Rattle.tw_base.specs.kinds.Faults.{HasCause};
ghost use Rattle.tw_outside.specs.Files.{Came};

use crate::inputs::Inputs;
use std::alloc::Global;
use std::collections::VecDeque;
use tw_base::{Failed, FailingCalls, NoMemory};

/// A file by its name, with its bytes.
#[derive(Drop)]
struct StoredFile {
    name: String,
    bytes: Vec<u8>,
}

/// Inputs in memory, which tell what they hold. Every name may be asked for.
/// A read fails where it is one of those that are to fail, or where the file isn't there.
#[derive(Drop)]
pub struct MemInputs {
    files: VecDeque<StoredFile>,
    failing: FailingCalls,
    faults: u64,
    alloc: Global,
}

impl MemInputs {
    ghost use Rattle.tw_outside.specs.Memory.{mem_files, failing_reads, input_faults};

    /// Inputs without a file, of which no read is to fail. Takes no memory.
    pub fn new(alloc: Global) -> MemInputs
        ensures files { mem_files result ≡ map_of.empty }
        ensures failing { failing_reads result ≡ [] }
        ensures faults { input_faults result ≡ 0 }
    {
        MemInputs {
            files: VecDeque::new(alloc),
            failing: FailingCalls::new(alloc),
            faults: 0,
            alloc,
        }
    }

    /// Gives a name its bytes, in place of those that it had: of two files of one name the one in front is found.
    pub fn put(&mut self, name: &str, bytes: &[u8]) -> Result<(), NoMemory>
        ensures ok { OnOk result (mem_files self.new ≡ map_of.insert (mem_files self.old) name.now bytes.now) }
        ensures err { OnErr result (mem_files self.new ≡ mem_files self.old) }
        ensures failing { failing_reads self.new ≡ failing_reads self.old }
        ensures faults { input_faults self.new ≡ input_faults self.old }
    {
        let name = String::from_str(self.alloc, name)?;
        let bytes = Vec::from_slice(self.alloc, bytes)?;
        self.files.push_front(StoredFile { name, bytes })?;
        Ok(())
    }

    /// Makes the k-th read from now on fail, beside those that are to fail already. 1 is the next read, and 0 is none.
    pub fn fail(&mut self, k: u64) -> Result<(), NoMemory>
        ensures ok { OnOk result (failing_reads self.new ≡ failing_reads self.old ++ k ∷ []) }
        ensures err { OnErr result (failing_reads self.new ≡ failing_reads self.old) }
        ensures files { mem_files self.new ≡ mem_files self.old }
        ensures faults { input_faults self.new ≡ input_faults self.old }
    {
        self.failing.add(k)
    }
}

impl MemInputs {
    ghost use Rattle.std.specs.Option.{option_map};
    ghost use Rattle.tw_outside.specs.Memory.{mem_files};

    // The bytes of the named file.
    fn find(&self, name: &str) -> Option<&[u8]>
        ensures { option_map (λ bytes. bytes.now) result ≡ map_of.get (mem_files self.now) name.now }
    {
        for file in &self.files {
            if name == file.name.as_str() {
                return Some(file.bytes.as_slice());
            }
        }
        None
    }
}

// Copies the bytes from a place on into a piece, as many as there are and as it has room for, and tells how many.
fn copy_from(bytes: &[u8], at: u64, into: &mut [u8]) -> usize
    ensures within { result ≤ length into.old }
    ensures came { Came bytes.now at into.new result }
{
    if at >= bytes.len() as u64 {
        return 0;
    }
    let rest = &bytes[at as usize..];
    let count = rest.len().min(into.len());
    into[..count].copy_from_slice(&rest[..count]);
    count
}

impl Inputs for MemInputs {
    ghost use Rattle.std.specs.Prelude.{Some, ⊤};
    ghost use Rattle.tw_outside.specs.Memory.{mem_files, failing_reads, input_faults};

    ghost told = { λ inputs. Some (mem_files inputs) };

    ghost faults = { input_faults };

    ghost may_ask = { λ _ _. ⊤ };

    fn read(&mut self, name: &str, at: u64, into: &mut [u8]) -> Result<usize, Failed>
        // It fails exactly where the call is to fail, or the file isn't there.
        ensures fails { IsErr result ↔ (IsTrue (fails_next (failing_reads self.old)) ⊎ IsNone (map_of.get (mem_files self.old) name.now)) }
        ensures counted { failing_reads self.new ≡ after_call (failing_reads self.old) }
        ensures kept { mem_files self.new ≡ mem_files self.old }
        ensures faults { OnOk result (input_faults self.new ≡ input_faults self.old) }
        ensures cause { HasCause (input_faults self.old) (input_faults self.new) result }
        ensures within { IfOk result (λ n. n ≤ length into.old) }
        ensures came { IfOk result (λ n. (bytes : List ℕ) → map_of.get (mem_files self.old) name.now ≡ Some bytes → Came bytes at into.new n) }
    {
        let fails = self.failing.count_call();
        match self.find(name) {
            Some(bytes) if !fails => Ok(copy_from(bytes, at, into)),
            _ => {
                self.faults = self.faults.saturating_add(1);
                Err(Failed)
            }
        }
    }
}
