// The command `replay`, which reads a script's file and plays it; tw_world/src/replaying.rt has the call.

ghost use Rattle.std.specs.Prelude.{◌≡◌, IfOk};
ghost use Rattle.tw_outside.specs.Asked.{asked};
ghost use Rattle.tw_app.specs.Replaying.{ReplayComes, fault_of_script};

use std::alloc::Global;
use tw_base::{Bytes, NoMemory};
use tw_outside::{Inputs, read_all};
use tw_script::ScriptFault;
use tw_script::limits::MOST_SCRIPT_BYTES;
use tw_text::{CommandFault, bad_line};
use tw_world::{Played, replay};

/// Of a script so many bytes are read: one more than it may have.
const SCRIPT_READ: usize = MOST_SCRIPT_BYTES + 1;

/// Plays the script of the named file on disks in memory, and answers what is written of its lines.
pub(crate) fn play_file<I: Inputs>(
    alloc: Global,
    inputs: &mut I,
    file: &str,
) -> Result<Bytes, CommandFault>
    requires { I.may_ask inputs.old file.now }
    ensures { ReplayComes (asked (I.told inputs.old) (I.faults inputs.old) (I.faults inputs.new)) file.now result }
{
    let bytes = read_all(alloc, inputs, file, SCRIPT_READ)?;
    match replay(alloc, bytes.as_slice()) {
        Ok(played) => Ok(text_of(played)),
        Err(fault) => Err(bad_script(alloc, file, fault)?),
    }
}

/// The text of what was played; its disks are given up.
fn text_of(played: Played) -> Bytes
    ensures { result ≡ played.text }
{
    let Played { text, disks, .. } = played;
    drop(disks);
    text
}

/// The fault of a file that isn't played.
fn bad_script(alloc: Global, file: &str, fault: ScriptFault) -> Result<CommandFault, NoMemory>
    ensures { IfOk result (λ told. told ≡ fault_of_script file.now fault) }
{
    match fault {
        ScriptFault::BadLine { line } | ScriptFault::TooLong { line } => {
            Ok(CommandFault::Unreadable(bad_line(alloc, file, line)?))
        }
        ScriptFault::NoMemory => Ok(CommandFault::NoMemory),
    }
}
