// An output in memory, which tells what it has taken, for tests; `host_output.rt` has standard output.
ghost use Rattle.std.specs.Prelude.{◌≡◌, ◌<◌, ◌≤◌, ◌++◌, ◌∷◌, [], max, length, take, IfOk, OnOk, OnErr, Some};
ghost use Rattle.tw_base.specs.kinds.Faults.{Rose};
ghost use Rattle.tw_outside.specs.Memory.{bytes_taken};

use crate::call_fault::{CallFault, counted};
use crate::output_stream::OutputStream;
use std::alloc::Global;
use tw_base::{Failed, FailingCalls, NoMemory};
use tw_outside::{MemSink, Sink as _};

/// An output over a sink in memory, which takes a number of bytes at most at a time. A write fails where one of the sink does, and is
/// interrupted where that is planned.
#[derive(Drop)]
pub struct MemOutput {
    sink: MemSink,
    most: usize,
    interrupted: FailingCalls,
    faults: u64,
    ghost takes: { 0 < most },
}

impl MemOutput {
    ghost use Rattle.tw_hostio.specs.MemoryOutput.{sink_under, interrupted_writes, most_taken};

    /// The output over this sink, which takes so many bytes at most, but at least one. No write is to be interrupted.
    pub fn new(alloc: Global, sink: MemSink, most: usize) -> MemOutput
        ensures sink { sink_under result ≡ sink }
        ensures most { most_taken result ≡ max most 1 }
        ensures interrupted { interrupted_writes result ≡ [] }
    {
        MemOutput {
            sink,
            most: most.max(1),
            interrupted: FailingCalls::new(alloc),
            faults: 0,
        }
    }

    /// The sink that has taken what was written.
    pub fn sink(&self) -> &MemSink
        ensures { result.now ≡ sink_under self.now }
    {
        &self.sink
    }

    /// Makes the k-th write from now on be interrupted, beside those that are to be already. 1 is the next write, and 0 is none.
    pub fn interrupt(&mut self, k: u64) -> Result<(), NoMemory>
        ensures ok { OnOk result (interrupted_writes self.new ≡ interrupted_writes self.old ++ k ∷ []) }
        ensures err { OnErr result (interrupted_writes self.new ≡ interrupted_writes self.old) }
        ensures sink { sink_under self.new ≡ sink_under self.old }
    {
        self.interrupted.add(k)
    }
}

impl OutputStream for MemOutput {
    ghost taken = { λ output. Some (bytes_taken output.sink) };

    ghost faults = { λ output. output.faults };

    fn write_some(&mut self, piece: &[u8]) -> Result<usize, CallFault> {
        if self.interrupted.count_call() {
            return Err(counted(&mut self.faults, CallFault::Interrupted));
        }
        let count = piece.len().min(self.most);
        match self.sink.write(&piece[..count]) {
            Ok(taken) => Ok(taken),
            Err(Failed) => Err(counted(&mut self.faults, CallFault::Failure)),
        }
    }
}
