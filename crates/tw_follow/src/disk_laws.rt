// The law of runs of followers on one disk.

ghost use Rattle.tw_pages.specs.Runs.{HoldsOnly, IsRunFrom, disk_at, end_of};
ghost use Rattle.tw_pages.specs.Runs.State.{Closed};
ghost use Rattle.tw_follow.specs.DiskRuns.{IsFollowerRunOf, IsToldByFollowers, KeepsAll, followers};
ghost use Rattle.tw_follow.specs.HeadLists.{Kept};
ghost use Rattle.tw_follow.specs.Stands.{StandsFor};

use crate::follower::Follower;
use tw_base::Hasher;
use tw_disk::Disk;

/// Over every run of openings, offers, tellings of the heads, refusals, disk faults, kills and crashes at any moment on one
/// disk, a head that was told stays. The follower handed in only names the types.
pub fn disk_run_laws<D: Disk, H: Hasher>(follower: &Follower<D, H>)
    // A run begins on a disk that stands for a list for good. At its end the disk tells what it reads as; that, and each image that a
    // crash may then leave, stands for a list to which some moves lead from the first one, whose steps rise, and which has every head that
    // an offer answered in the run, or that was among the heads that were told.
    ensures runs { (disk : D) (first : Kept) (run : _) → IsFollowerRunOf follower.now run → HoldsOnly D.view (λ i. StandsFor H.dig i first) disk
        → IsRunFrom D.view (followers H.dig D.view) (Closed disk) run
        → HoldsOnly D.view (KeepsAll H.dig first (IsToldByFollowers H.dig D.view disk run)) (disk_at D.view (followers H.dig D.view) (end_of (Closed disk) run)) }
{}
