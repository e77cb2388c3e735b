// Faults of stores, as the command's; refusals are in `faults.rt` and `follower_faults.rt`.

ghost use Rattle.std.specs.Prelude.{◌≡◌};
ghost use Rattle.tw_diskcmd.specs.StoreFaults.{fault_of_store as fault_of_store_fault};

use tw_pages::StoreFault;
use tw_text::{CommandFault, StoreCause};

/// The fault of a store that isn't made or opened.
pub fn fault_of_store(fault: StoreFault) -> CommandFault
    // Each fault of a store is told as the definitions say.
    ensures { result ≡ fault_of_store_fault fault }
{
    match fault {
        StoreFault::Taken => CommandFault::Taken,
        StoreFault::Blank => CommandFault::Unserved(StoreCause::Blank),
        StoreFault::NotAStore { slot } => CommandFault::Unserved(StoreCause::NotAStore { slot }),
        StoreFault::DiskFault => CommandFault::DiskFault,
        StoreFault::NoMemory => CommandFault::NoMemory,
    }
}
