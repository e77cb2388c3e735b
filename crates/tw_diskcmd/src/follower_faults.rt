// Refusals of followers, as the command's.

ghost use Rattle.std.specs.Prelude.{◌≡◌};
ghost use Rattle.tw_diskcmd.specs.FollowerFaults.{fault_of_follower as fault_of_refusal};

use tw_base::FollowRefusal;
use tw_text::{CommandFault, StoreCause};

/// A follower's refusal. The value is given up after each call, so `Reopen`, which says that an earlier call met a
/// disk fault, never comes; and the message was read before, so `Malformed` doesn't either.
pub(crate) fn fault_of_follower(refusal: FollowRefusal) -> CommandFault
    ensures { result ≡ fault_of_refusal refusal }
{
    match refusal {
        FollowRefusal::BadPage { page } => CommandFault::Unserved(StoreCause::BadPage { page }),
        FollowRefusal::DiskFault | FollowRefusal::Reopen | FollowRefusal::Malformed { .. } => {
            CommandFault::DiskFault
        }
        FollowRefusal::NoMemory => CommandFault::NoMemory,
        refused => CommandFault::NotFollowed(refused),
    }
}
