// Why a walk over pages has no answer.

ghost use Rattle.std.specs.Prelude.{◌≡◌};

use tw_base::{FollowRefusal, Refusal};

/// Why a walk over pages has no answer.
#[derive(Clone, Copy, Debug, PartialEq, Eq, Drop)]
pub enum WalkFault {
    /// The page of this number doesn't fit the walk: it is none of the pages, or not of the kind that the walk asks for there.
    BadPage { page: u64 },
    /// A read failed; the count of faults of the pages rose in this call.
    DiskFault,
}

impl From<WalkFault> for Refusal {
    ghost use Rattle.tw_disk.specs.WalkFaults.{refusal_of_walk};

    ghost from_gives = { λ fault refusal. refusal ≡ refusal_of_walk fault };

    fn from(fault: WalkFault) -> Self {
        match fault {
            WalkFault::BadPage { page } => Refusal::BadPage { page },
            WalkFault::DiskFault => Refusal::DiskFault,
        }
    }
}

impl From<WalkFault> for FollowRefusal {
    ghost use Rattle.tw_disk.specs.WalkFaults.{walk_refusal};

    ghost from_gives = { λ fault refusal. refusal ≡ walk_refusal fault };

    fn from(fault: WalkFault) -> Self {
        match fault {
            WalkFault::BadPage { page } => FollowRefusal::BadPage { page },
            WalkFault::DiskFault => FollowRefusal::DiskFault,
        }
    }
}
