// What a sink is that takes what is written; `mem_sink.rt` has one in memory, tw_hostio standard output.
ghost use Rattle.std.specs.Prelude.{◌≤◌, ◌<◌, ℕ, List, Option, length, take, IfOk, OnErr};
ghost use Rattle.tw_base.specs.kinds.Faults.{HasCause};
ghost use Rattle.tw_outside.specs.TakenBytes.{Appends, IsUnchanged};

use tw_base::Failed;

/// A sink that takes what is written, as an output does.
pub trait Sink {
    /// The bytes taken so far, where the sink tells them.
    ghost taken: { Self → Option (List ℕ) };

    /// How often a call has failed.
    ghost faults: { Self → ℕ };

    /// Takes the first bytes of a piece, and answers how many: at least one, unless the piece is empty.
    /// A call that fails has taken nothing.
    fn write(&mut self, piece: &[u8]) -> Result<usize, Failed>
        ensures within { IfOk result (λ n. n ≤ length piece.now) }
        // A write that goes well takes at least one byte, where there is one.
        ensures some { IfOk result (λ n. 0 < length piece.now → 0 < n) }
        // What it took is appended to what was taken.
        ensures appends { IfOk result (λ n. Appends (taken self.old) (taken self.new) (take n piece.now)) }
        // A write that fails took nothing.
        ensures unchanged { OnErr result (IsUnchanged (taken self.old) (taken self.new)) }
        // A write fails only where the count of faults rose.
        ensures cause { HasCause (faults self.old) (faults self.new) result };
}
