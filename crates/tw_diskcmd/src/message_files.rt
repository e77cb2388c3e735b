// Reading the file of a message, for `receive` and `offer`.

ghost use Rattle.std.specs.Prelude.{IfErr, IfOk};
ghost use Rattle.tw_base.specs.history.Limits.{IsThread};
ghost use Rattle.tw_msg.specs.Messages.{IsLinked};
ghost use Rattle.tw_outside.specs.Asked.{asked};
ghost use Rattle.tw_diskcmd.specs.Files.{IsBadMessageByte, IsMessageIn, StopsAt};

use std::alloc::Global;
use tw_base::ReadFault;
use tw_filecmd::limits::FILE_READ;
use tw_msg::{Message, message_laws, read_message};
use tw_outside::{Inputs, read_all};
use tw_text::{CommandFault, bad_byte};

/// The message of the named file, or what comes of a file that isn't read or is none.
pub(crate) fn read_message_file<I: Inputs>(
    alloc: Global,
    inputs: &mut I,
    file: &str,
) -> Result<Message, CommandFault>
    requires { I.may_ask inputs.old file.now }
    ensures read { IfOk result (IsMessageIn (I.told inputs.old) file.now) }
    ensures linked { IfOk result IsLinked }
    ensures thread { IfOk result (λ message. IsThread message.thread) }
    ensures stopped { IfErr result (StopsAt (asked (I.told inputs.old) (I.faults inputs.old) (I.faults inputs.new)) file.now IsBadMessageByte) }
{
    let bytes = read_all(alloc, inputs, file, FILE_READ)?;
    // By the laws of messages, one that is read is linked, and its thread is within the limits.
    message_laws();
    match read_message(alloc, bytes.as_slice()) {
        Ok(message) => Ok(message),
        Err(ReadFault::Malformed { place }) => {
            Err(CommandFault::Unreadable(bad_byte(alloc, file, place)?))
        }
        Err(ReadFault::NoMemory) => Err(CommandFault::NoMemory),
    }
}
