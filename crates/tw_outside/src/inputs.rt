// What inputs are that are read by their names; `mem_inputs.rt` has some in memory, tw_hostio the files of the computer.
ghost use Rattle.std.specs.Prelude.{◌≡◌, ◌≤◌, ◌↔◌, ℕ, List, Option, length, IfOk, OnOk};
ghost use Rattle.tw_base.specs.kinds.Faults.{HasCause};
ghost use Rattle.tw_outside.specs.Files.{Files, TellsBytes, IsThere, Came};

use tw_base::Failed;

/// Inputs that are read by their names: files, as a rule.
pub trait Inputs {
    /// The bytes of each file by its name, where the inputs tell what they hold.
    ghost told: { Self → Option Files };

    /// How often a call has failed.
    ghost faults: { Self → ℕ };

    /// The names that may be asked for.
    ghost may_ask: { Self → List ℕ → Type 0 };

    /// Reads bytes of the named file, from the place `at` on, into the front of a piece, and answers how many came.
    /// None come at the end of the file. `Failed` comes where the file isn't there or can't be read.
    fn read(&mut self, name: &str, at: u64, into: &mut [u8]) -> Result<usize, Failed>
        requires { may_ask self.old name.now }
        // Reading changes nothing of what the inputs tell.
        ensures kept { told self.new ≡ told self.old }
        ensures same_names { (other : List ℕ) → may_ask self.new other ↔ may_ask self.old other }
        // A read fails only where the count of faults rose.
        ensures cause { HasCause (faults self.old) (faults self.new) result }

        // After `Ok` the file is there, where files are told.
        ensures there { OnOk result (IsThere (told self.old) name.now) }
        ensures within { IfOk result (λ n. n ≤ length into.old) }
        // What came are the told file's bytes from the place on; where there is room for some, none come exactly at its
        // end.
        ensures came { IfOk result (λ n. (bytes : List ℕ) → TellsBytes (told self.old) name.now bytes → Came bytes at into.new n) };
}
