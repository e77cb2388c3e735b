// Reading the files of a command one after another, before one is judged.

ghost use Rattle.std.specs.Prelude.{◌≡◌, ◌≢◌, ◌≤◌, ◌∷◌, [], ◌++◌, ℕ, List, Err, OnOk, Option};
ghost use Rattle.tw_base.specs.kinds.Faults.{Rose};
ghost use Rattle.tw_base.specs.kinds.Lists.{Each};
ghost use Rattle.tw_outside.specs.Files.{Files, IsReadTo, IsThere};

use std::alloc::Global;
use tw_base::{InputFault, NoMemory};
use tw_outside::{Inputs, read_all};
use tw_text::FilePath;

/// What is gathered of files, one after another.
pub(crate) trait Gathers {
    /// What holds of it before each file and behind it.
    ghost holds: { Self → Type 0 };

    /// How many bytes are read of the next file at most.
    ghost room_of: { Self → ℕ };

    /// It is what is read of these files.
    ghost reads: { Option Files → List (List ℕ) → Self → Type 0 };

    /// How many bytes are read of the next file at most.
    fn room(&self) -> usize
        requires { holds self.now }
        ensures { result ≡ room_of self.now };

    /// Adds what these bytes of the named file hold.
    fn add(&mut self, alloc: Global, file: &str, bytes: &[u8]) -> Result<(), NoMemory>
        requires { holds self.old }
        ensures holds { holds self.new }
        ensures read { OnOk result ((told : Option Files) (files : List (List ℕ)) → IsReadTo told file.now (room_of self.old) bytes.now →
            reads told files self.old → reads told (files ++ file.now ∷ []) self.new) };
}

/// Reads the files, each to its end or to its room, and gathers what they hold.
pub(crate) fn read_files<I: Inputs, G: Gathers>(
    alloc: Global,
    inputs: &mut I,
    files: &[FilePath],
    into: &mut G,
) -> Result<(), InputFault>
    requires ask { Each (I.may_ask inputs.old) files.now }
    requires holds { G.holds into.old }
    ensures later { I.faults inputs.old ≤ I.faults inputs.new }
    ensures failed { result ≡ Err InputFault.Failed → Rose (I.faults inputs.old) (I.faults inputs.new) }
    ensures there { OnOk result (Each (IsThere (I.told inputs.old)) files.now) }
    ensures some { result ≡ Err InputFault.Failed → files.now ≢ [] }
    ensures holds { G.holds into.new }
    ensures read { OnOk result (G.reads (I.told inputs.old) [] into.old → G.reads (I.told inputs.old) files.now into.new) }
{
    for file in files {
        let bytes = read_all(alloc, inputs, file.as_str(), into.room())?;
        into.add(alloc, file.as_str(), bytes.as_slice())?;
    }
    Ok(())
}
