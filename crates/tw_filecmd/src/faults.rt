// The faults of what a command calls, as the command's; a file that isn't what it reads is told by the command's word for it.

ghost use Rattle.std.specs.Prelude.{◌≡◌, IfOk};
ghost use Rattle.tw_filecmd.specs.Faults.{fault_of_history, fault_of_show as fault_of_showing};
ghost use Rattle.tw_text.specs.declared.fault.CommandFault.TheVariants.{Unreadable};

use std::alloc::Global;
use tw_base::limits::MOST_HISTORY_BYTES;
use tw_base::{Bytes, NoMemory, Refusal};
use tw_history::{HistoryFault, ShowFault};
use tw_text::{BadInput, CommandFault};

/// What is told of a file that was read as no sound history. One that is too long is refused at the byte of the limit.
pub fn bad_history(alloc: Global, file: &str, fault: HistoryFault) -> Result<BadInput, NoMemory>
    // Each fault of a history file is told as the definitions say.
    ensures { IfOk result (λ bad. Unreadable bad ≡ fault_of_history file.now fault) }
{
    let file = Bytes::from_slice(alloc, file.as_bytes())?;
    match fault {
        HistoryFault::TooLong { .. } => Ok(BadInput::BadByte {
            file,
            place: MOST_HISTORY_BYTES,
        }),
        HistoryFault::Malformed { place } => Ok(BadInput::BadByte { file, place }),
        HistoryFault::Unsound { step, rule } => Ok(BadInput::Unsound { file, step, rule }),
        HistoryFault::NoMemory => Err(NoMemory),
    }
}

/// The fault of showing as the command's.
pub(crate) fn fault_of_show(fault: ShowFault) -> CommandFault
    ensures { result ≡ fault_of_showing fault }
{
    match fault {
        ShowFault::NoStep { last } => CommandFault::Refused(Refusal::NoStep { last }),
        ShowFault::NoEvent { count } => CommandFault::Refused(Refusal::NoEvent { count }),
        ShowFault::NoMemory => CommandFault::NoMemory,
    }
}
