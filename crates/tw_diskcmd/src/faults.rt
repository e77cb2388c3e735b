// Refusals of services, as the command's.

ghost use Rattle.std.specs.Prelude.{◌≡◌};
ghost use Rattle.tw_diskcmd.specs.Faults.{fault_of_service as fault_of_refusal};

use tw_base::Refusal;
use tw_text::{CommandFault, StoreCause};

/// A service's refusal. The value is given up after each call, so `Reopen`, which says that an earlier
/// call met a disk fault, never comes; and its messages are read before, so neither does `Malformed`.
pub(crate) fn fault_of_service(refusal: Refusal) -> CommandFault
    ensures { result ≡ fault_of_refusal refusal }
{
    match refusal {
        Refusal::BadPage { page } => CommandFault::Unserved(StoreCause::BadPage { page }),
        Refusal::DiskFault | Refusal::Reopen | Refusal::Malformed { .. } => CommandFault::DiskFault,
        Refusal::NoMemory => CommandFault::NoMemory,
        refused => CommandFault::Refused(refused),
    }
}
