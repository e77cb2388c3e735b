// The command `show`, which proves an event of a history file; tw_history/src/showing.rt makes the proof.

ghost use Rattle.std.specs.Prelude.{IfErr, IfOk};
ghost use Rattle.tw_base.specs.history.Sound.{IsSound};
ghost use Rattle.tw_history.specs.Refusals.{RefusesEvent};
ghost use Rattle.tw_outside.specs.Asked.{asked};
ghost use Rattle.tw_filecmd.specs.Showing.{ProvesEvent, ShowComes};

use crate::faults::{bad_history, fault_of_show};
use crate::limits::HISTORY_READ;
use std::alloc::Global;
use tw_base::{Bytes, Sha};
use tw_history::{History, ShowFault, read_history, show_event};
use tw_outside::{Inputs, read_all};
use tw_text::CommandFault;

/// Shows the event of this index in this step of the named history.
// It stays a call, so that other commands don't have its frame on the stack.
#[inline(never)]
pub fn show<I: Inputs>(
    alloc: Global,
    inputs: &mut I,
    file: &str,
    step: u64,
    index: u64,
) -> Result<Bytes, CommandFault>
    requires { I.may_ask inputs.old file.now }
    // What `show` comes to is what its file and the count of faults allow: the proof, or a fault with its cause.
    ensures { ShowComes (asked (I.told inputs.old) (I.faults inputs.old) (I.faults inputs.new)) file.now step index result }
{
    let bytes = read_all(alloc, inputs, file, HISTORY_READ)?;
    let history = match read_history(alloc, bytes.as_slice()) {
        Ok(history) => history,
        Err(fault) => {
            return Err(CommandFault::Unreadable(bad_history(alloc, file, fault)?));
        }
    };
    match show_at(alloc, &history, step, index) {
        Ok(proof) => Ok(proof),
        Err(fault) => Err(fault_of_show(fault)),
    }
}

/// The proof of the event of this index in this step of a sound history. No step has an event of an
/// index above 2^32 - 1, so such an index is refused as that one is.
fn show_at(alloc: Global, history: &History, step: u64, index: u64) -> Result<Bytes, ShowFault>
    requires { IsSound history.now }
    ensures shown { IfOk result (λ proof. ProvesEvent step index proof history.now) }
    ensures refused { IfErr result (RefusesEvent history.now step index) }
{
    show_event::<Sha>(alloc, history, step, index.min(u32::MAX as u64) as u32)
}
