// What the files of a computer are that are read by their names, as a program asks the system of them; `host_input.rt` has the system's,
// `memory_input.rt` some in memory.
ghost use Rattle.std.specs.Prelude.{◌≡◌, ◌≤◌, ℕ, List, Bool, Option, IsTrue, length, IfOk, OnOk, OnErr};
ghost use Rattle.tw_base.specs.kinds.Faults.{HasCause};
ghost use Rattle.tw_hostio.specs.InputFile.{IsFileOpen, IsOpenThere, CameOf, StandsFurther, StandsAt, StandsStill};
ghost use Rattle.tw_outside.specs.Files.{Files};

use crate::call_fault::CallFault;

/// The files of a computer by their names, of which one at a time is open, as a program asks the system of them. Each method is one
/// call, which may be interrupted, may give a part, and may fail.
pub trait InputFile {
    /// The bytes of each file by its name, where they are told.
    ghost told: { Self → Option Files };

    /// Whether the file of this name is open and stands at this place. Files that don't tell which of them is open say so of each.
    ghost stands: { Self → List ℕ → ℕ → Bool };

    /// How many calls gave no answer.
    ghost faults: { Self → ℕ };

    /// Opens the file of this name, in place of the one that is open; it stands at its beginning.
    fn open(&mut self, name: &str) -> Result<(), CallFault>
        ensures kept { told self.new ≡ told self.old }
        ensures stands { OnOk result (IsTrue (stands self.new name.now 0)) }
        ensures cause { HasCause (faults self.old) (faults self.new) result };

    /// Sets the open file to a place. Only where one is open.
    fn seek(&mut self, to: u64) -> Result<(), CallFault>
        requires { IsFileOpen (stands self.old) }
        ensures kept { told self.new ≡ told self.old }
        ensures stands { OnOk result (StandsAt (stands self.old) (stands self.new) to) }
        ensures still { OnErr result (StandsStill (stands self.old) (stands self.new)) }
        ensures cause { HasCause (faults self.old) (faults self.new) result };

    /// Reads what comes next of the open file into the front of a piece, and answers how many bytes came; none come at its end. Only
    /// where one is open.
    fn read_some(&mut self, into: &mut [u8]) -> Result<usize, CallFault>
        requires { IsFileOpen (stands self.old) }
        ensures kept { told self.new ≡ told self.old }
        ensures there { OnOk result (IsOpenThere (told self.old) (stands self.old)) }
        ensures within { IfOk result (λ n. n ≤ length into.old) }
        // What came are the bytes of the open file, from the place that it stands at.
        ensures came { IfOk result (λ n. CameOf (told self.old) (stands self.old) into.new n) }
        // It then stands behind them.
        ensures behind { IfOk result (λ n. StandsFurther (stands self.old) (stands self.new) n) }
        // A call that gave no answer leaves it where it stood.
        ensures still { OnErr result (StandsStill (stands self.old) (stands self.new)) }
        ensures cause { HasCause (faults self.old) (faults self.new) result };

    /// Closes the file that is open, if one is.
    fn close(&mut self)
        ensures kept { told self.new ≡ told self.old };
}
