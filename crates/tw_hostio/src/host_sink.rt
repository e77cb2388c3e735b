// An output as the sink of a run; `tw_outside` has a sink in memory.

ghost use Rattle.std.specs.Prelude.{◌<◌, ◌≤◌, length, take, IfOk, OnErr};
ghost use Rattle.tw_outside.specs.TakenBytes.{Appends, IsUnchanged};

use crate::call_fault::CallFault;
use crate::host_output::HostOutput;
use crate::output_stream::OutputStream;
use std::io::Print;
use tw_base::Failed;
use tw_outside::Sink;

/// An output as a sink. Each error counts as a fault. A write that a signal interrupted before anything was taken is made again.
#[derive(Drop)]
pub struct HostSink<O: OutputStream> {
    output: O,
    faults: u64,
}

impl<O: OutputStream> HostSink<O> {
    ghost use Rattle.std.specs.Prelude.{◌≡◌};
    ghost use Rattle.tw_hostio.specs.Under.{output_under};

    /// The sink over this output. Nothing is written yet.
    pub fn over(output: O) -> Self
        ensures output { output_under result ≡ output }
    {
        HostSink { output, faults: 0 }
    }

    /// The output under it.
    pub fn output(&self) -> &O
        ensures { result.now ≡ output_under self.now }
    {
        &self.output
    }
}

impl<'a, R: Print> HostSink<HostOutput<'a, R>> {
    /// Standard output. It doesn't tell what it has taken.
    pub fn new(rt: &'a R) -> Self {
        HostSink::over(HostOutput::new(rt))
    }
}

/// Writes the first bytes of a piece, once more as often as a signal interrupts it, and tells how many.
fn write_some<O: OutputStream>(output: &mut O, piece: &[u8]) -> Result<usize, Failed>
    ensures within { IfOk result (λ n. n ≤ length piece.now) }
    ensures some { IfOk result (λ n. 0 < length piece.now → 0 < n) }
    ensures appends { IfOk result (λ n. Appends (O.taken output.old) (O.taken output.new) (take n piece.now)) }
    ensures unchanged { OnErr result (IsUnchanged (O.taken output.old) (O.taken output.new)) }
{
    for _ in 0..u64::MAX {
        match output.write_some(piece) {
            Ok(taken) => return Ok(taken),
            Err(CallFault::Interrupted) => {}
            Err(CallFault::Failure) => return Err(Failed),
        }
    }
    Err(Failed)
}

impl<O: OutputStream> Sink for HostSink<O> {
    ghost taken = { λ sink. O.OutputStream.taken sink.output };

    ghost faults = { λ sink. sink.faults };

    fn write(&mut self, piece: &[u8]) -> Result<usize, Failed> {
        match write_some(&mut self.output, piece) {
            Ok(taken) => Ok(taken),
            Err(Failed) => {
                self.faults = self.faults.saturating_add(1);
                Err(Failed)
            }
        }
    }
}
