// The command `checkfork`, which judges the evidence of a fork in a file; tw_judge/src/forks.rt judges bytes for the library.

ghost use Rattle.tw_outside.specs.Asked.{asked};
ghost use Rattle.tw_reachcmd.specs.CheckFork.{CheckForkComes};

use crate::anchors::anchors_of;
use crate::reading::read_both;
use std::alloc::Global;
use tw_base::Sha;
use tw_evidence::{ForkVerdict, check_evidence};
use tw_outside::Inputs;
use tw_text::CommandFault;

/// Judges the evidence of a fork in the named file under the anchors of another one. The anchors are
/// read before the evidence, and their lines are judged once both are read.
pub fn check_fork_files<I: Inputs>(
    alloc: Global,
    inputs: &mut I,
    file: &str,
    anchors: &str,
) -> Result<ForkVerdict, CommandFault>
    requires file { I.may_ask inputs.old file.now }
    requires anchors { I.may_ask inputs.old anchors.now }
    // What `checkfork` comes to is what both files and the count of faults allow: the verdict on the file's bytes under the
    // anchors, or a fault with its cause.
    ensures { CheckForkComes (asked (I.told inputs.old) (I.faults inputs.old) (I.faults inputs.new)) file.now anchors.now result }
{
    let (lines, bytes) = read_both(alloc, inputs, anchors, file)?;
    match anchors_of(alloc, anchors, lines.as_slice()) {
        Ok(held) => Ok(check_evidence::<Sha>(alloc, bytes.as_slice(), held.as_slice())?),
        Err(fault) => Err(fault),
    }
}
