// What an output is, as a program asks the system of it; `host_output.rt` has standard output, `memory_output.rt` one in memory.
ghost use Rattle.std.specs.Prelude.{◌<◌, ◌≤◌, ℕ, List, Option, length, take, IfOk, OnErr};
ghost use Rattle.tw_base.specs.kinds.Faults.{HasCause};
ghost use Rattle.tw_outside.specs.TakenBytes.{Appends, IsUnchanged};

use crate::call_fault::CallFault;

/// An output, as a program asks the system of it. A write is one call, which may be interrupted, may take a part, and may fail.
pub trait OutputStream {
    /// The bytes taken so far, where they are told.
    ghost taken: { Self → Option (List ℕ) };

    /// How many calls gave no answer.
    ghost faults: { Self → ℕ };

    /// Takes the first bytes of a piece, and answers how many: at least one, unless the piece is empty. A call that gave no answer has
    /// taken nothing.
    fn write_some(&mut self, piece: &[u8]) -> Result<usize, CallFault>
        ensures within { IfOk result (λ n. n ≤ length piece.now) }
        ensures some { IfOk result (λ n. 0 < length piece.now → 0 < n) }
        // What it took is appended to what was taken.
        ensures appends { IfOk result (λ n. Appends (taken self.old) (taken self.new) (take n piece.now)) }
        ensures unchanged { OnErr result (IsUnchanged (taken self.old) (taken self.new)) }
        ensures cause { HasCause (faults self.old) (faults self.new) result };
}
