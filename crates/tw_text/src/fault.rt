// Why a command isn't done, with its status and its line.

ghost use Rattle.std.specs.Prelude.{◌≡◌, IfOk};
ghost use Rattle.tw_text.specs.Faults.{fault_of_input, fault_status as fault_status_of, fault_text};
ghost use Rattle.tw_text.specs.declared.fault.CommandFault.TheVariants.{NoMemory as WantedMemory};

use crate::fixed::{fault_disk, fault_input, no_memory};
use crate::refusal::{
    BadInput, StoreCause, print_bad_input, print_not_followed, print_refused, print_store,
    print_taken,
};
use std::alloc::Global;
use tw_base::{Bytes, FollowRefusal, InputFault, NoMemory, Refusal};

/// Why a command isn't done.
#[derive(Drop, Debug)]
pub enum CommandFault {
    /// An input failed.
    InputFault,
    /// The disk failed.
    DiskFault,
    /// There was no memory.
    NoMemory,
    /// There is a store already.
    Taken,
    /// What was asked for isn't there, or may not be made.
    Refused(Refusal),
    /// A follower refuses what it is offered.
    NotFollowed(FollowRefusal),
    /// The disk has no service that can serve the command.
    Unserved(StoreCause),
    /// A file isn't what the command reads.
    Unreadable(BadInput),
}

impl From<InputFault> for CommandFault {
    ghost from_gives = { λ fault made. made ≡ fault_of_input fault };

    fn from(fault: InputFault) -> Self {
        match fault {
            InputFault::Failed => CommandFault::InputFault,
            InputFault::NoMemory => CommandFault::NoMemory,
        }
    }
}

impl From<NoMemory> for CommandFault {
    ghost from_gives = { λ _ made. made ≡ WantedMemory };

    fn from(_none: NoMemory) -> Self {
        CommandFault::NoMemory
    }
}

/// The status of a run whose command isn't done for this reason.
pub fn fault_status(fault: &CommandFault) -> u8
    // The status of each fault is the one of the definitions.
    ensures { result ≡ fault_status_of fault.now }
{
    match fault {
        CommandFault::InputFault => 3,
        CommandFault::DiskFault => 5,
        CommandFault::NoMemory => 6,
        CommandFault::Taken | CommandFault::Refused(_) | CommandFault::NotFollowed(_) => 7,
        CommandFault::Unserved(_) => 8,
        CommandFault::Unreadable(_) => 9,
    }
}

/// The line of the fault.
pub fn print_fault(alloc: Global, fault: &CommandFault) -> Result<Bytes, NoMemory>
    // The line of a fault is exactly the text of the definitions.
    ensures { IfOk result (λ text. text ≡ fault_text fault.now) }
{
    match fault {
        CommandFault::InputFault => Bytes::from_slice(alloc, fault_input()),
        CommandFault::DiskFault => Bytes::from_slice(alloc, fault_disk()),
        CommandFault::NoMemory => Bytes::from_slice(alloc, no_memory()),
        CommandFault::Taken => print_taken(alloc),
        CommandFault::Refused(refusal) => print_refused(alloc, refusal),
        CommandFault::NotFollowed(refusal) => print_not_followed(alloc, refusal),
        CommandFault::Unserved(cause) => print_store(alloc, cause),
        CommandFault::Unreadable(bad) => print_bad_input(alloc, bad),
    }
}
