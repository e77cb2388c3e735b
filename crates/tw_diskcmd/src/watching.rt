// The command `watch`, which makes a follower.

ghost use Rattle.tw_diskcmd.specs.FollowerDisks.{found_disk};
ghost use Rattle.tw_diskcmd.specs.Watching.{WatchComes, WatchLeaves};

use crate::store_faults::fault_of_store;
use crate::worked::Worked;
use std::alloc::Global;
use tw_base::{Name, Sha, Thread};
use tw_disk::Disk;
use tw_follow::Follower;

/// Makes a follower of the service of this name on the disk, and answers the thread of the name's step 0.
pub fn watch<D: Disk>(alloc: Global, disk: D, name: Name) -> Worked<D, Thread>
    // What `watch` comes to is what the disk and its count of faults allow: the thread of step 0, or a fault with its
    // cause.
    ensures comes { WatchComes (found_disk (D.view disk).content (D.view disk).faults (D.view result.disk).faults) name result.outcome }
    // It leaves the disk as is right for what it came to.
    ensures leaves { WatchLeaves D.view disk result.disk name result.outcome }
{
    match Follower::<D, Sha>::init(alloc, disk, name) {
        Ok(follower) => {
            let first = follower.head();
            Worked {
                outcome: Ok(first),
                disk: follower.close(),
            }
        }
        Err((disk, fault)) => Worked {
            outcome: Err(fault_of_store(fault)),
            disk,
        },
    }
}
