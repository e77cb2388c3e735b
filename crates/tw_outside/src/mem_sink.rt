// A sink in memory, which tells what it has taken, for tests; that of the program is standard output, in `tw_hostio`.
ghost use Rattle.std.specs.Prelude.{◌≡◌, ◌++◌, ◌∷◌, [], length, OnOk, OnErr, IfOk, IsErr, IsTrue};
ghost use Rattle.tw_base.specs.kinds.PlannedFailures.{fails_next, after_call};
ghost use Rattle.tw_base.specs.kinds.Faults.{HasCause};

use crate::sink::Sink;
use std::alloc::Global;
use tw_base::{Failed, FailingCalls, NoMemory};

/// A sink in memory, which tells what it has taken. It takes each piece whole, or nothing of it.
/// A write fails where it is one of those that are to fail, or where there is no memory for the piece.
#[derive(Drop)]
pub struct MemSink {
    taken: Vec<u8>,
    failing: FailingCalls,
    faults: u64,
}

impl MemSink {
    ghost use Rattle.tw_outside.specs.Memory.{bytes_taken, failing_writes, sink_faults};

    /// A sink that has taken nothing, of which no write is to fail. Takes no memory.
    pub fn new(alloc: Global) -> MemSink
        ensures taken { bytes_taken result ≡ [] }
        ensures failing { failing_writes result ≡ [] }
        ensures faults { sink_faults result ≡ 0 }
    {
        MemSink {
            taken: Vec::new(alloc),
            failing: FailingCalls::new(alloc),
            faults: 0,
        }
    }

    /// The bytes taken so far.
    pub fn taken(&self) -> &[u8]
        ensures { result.now ≡ bytes_taken self.now }
    {
        self.taken.as_slice()
    }

    /// Makes the k-th write from now on fail, beside those that are to fail already. 1 is the next write, and 0 is none.
    pub fn fail(&mut self, k: u64) -> Result<(), NoMemory>
        ensures ok { OnOk result (failing_writes self.new ≡ failing_writes self.old ++ k ∷ []) }
        ensures err { OnErr result (failing_writes self.new ≡ failing_writes self.old) }
        ensures taken { bytes_taken self.new ≡ bytes_taken self.old }
        ensures faults { sink_faults self.new ≡ sink_faults self.old }
    {
        self.failing.add(k)
    }
}

impl Sink for MemSink {
    ghost use Rattle.std.specs.Prelude.{Some};
    ghost use Rattle.tw_outside.specs.Memory.{bytes_taken, failing_writes, sink_faults};

    ghost taken = { λ sink. Some (bytes_taken sink) };

    ghost faults = { sink_faults };

    fn write(&mut self, piece: &[u8]) -> Result<usize, Failed>
        ensures fails { IsTrue (fails_next (failing_writes self.old)) → IsErr result }
        ensures counted { failing_writes self.new ≡ after_call (failing_writes self.old) }
        ensures whole { IfOk result (λ n. n ≡ length piece.now) }
        ensures appends { OnOk result (bytes_taken self.new ≡ bytes_taken self.old ++ piece.now) }
        ensures unchanged { OnErr result (bytes_taken self.new ≡ bytes_taken self.old) }
        ensures faults { OnOk result (sink_faults self.new ≡ sink_faults self.old) }
        ensures cause { HasCause (sink_faults self.old) (sink_faults self.new) result }
    {
        if self.failing.count_call() || self.taken.extend_from_slice(piece).is_err() {
            self.faults = self.faults.saturating_add(1);
            return Err(Failed);
        }
        Ok(piece.len())
    }
}
