// Why a call on a list of steps has no answer.

ghost use Rattle.std.specs.Prelude.{◌≡◌};
ghost use Rattle.tw_skiplist.specs.declared.fault.ListFault.TheVariants.{NoMemory as WantedMemory};

use tw_base::{NoMemory, Refusal};
use tw_disk::WalkFault;

/// Why a call on a list of steps has no answer.
#[derive(Clone, Copy, Debug, PartialEq, Eq, Drop)]
pub enum ListFault {
    /// The steps asked for aren't there, or not in their order; the last step is told.
    NoStep { last: u64 },
    /// The page of this number isn't what it is named as: it is none of the pages, or not of its kind,
    /// or of another step. Or the event pages of a step are, but spell no such events, and it is the
    /// page that was read last. It never comes over pages that keep a history under the head.
    BadPage { page: u64 },
    /// A read failed; the count of faults of the pages rose in this call.
    DiskFault,
    /// There was no memory for what the call needed.
    NoMemory,
}

impl From<NoMemory> for ListFault {
    ghost from_gives = { λ _ fault. fault ≡ WantedMemory };

    fn from(_none: NoMemory) -> Self {
        ListFault::NoMemory
    }
}

impl From<WalkFault> for ListFault {
    ghost use Rattle.tw_skiplist.specs.ListFaults.{list_fault};

    ghost from_gives = { λ walk fault. fault ≡ list_fault walk };

    fn from(fault: WalkFault) -> Self {
        match fault {
            WalkFault::BadPage { page } => ListFault::BadPage { page },
            WalkFault::DiskFault => ListFault::DiskFault,
        }
    }
}

impl From<ListFault> for Refusal {
    ghost use Rattle.tw_skiplist.specs.ListFaults.{list_refusal};

    ghost from_gives = { λ fault refusal. refusal ≡ list_refusal fault };

    fn from(fault: ListFault) -> Self {
        match fault {
            ListFault::NoStep { last } => Refusal::NoStep { last },
            ListFault::BadPage { page } => Refusal::BadPage { page },
            ListFault::DiskFault => Refusal::DiskFault,
            ListFault::NoMemory => Refusal::NoMemory,
        }
    }
}
