// The law of runs of the program on one disk that stands for a list of heads.

ghost use Rattle.sha2.specs.Sha256.{sha256};
ghost use Rattle.tw_follow.specs.DiskRuns.{KeepsAll};
ghost use Rattle.tw_follow.specs.HeadLists.{Kept};
ghost use Rattle.tw_follow.specs.Stands.{StandsFor};
ghost use Rattle.tw_pages.specs.Runs.{HoldsOnly};
ghost use Rattle.tw_laws.specs.FollowerTurns.{AreRunsFrom, IsToldInRuns, KeepsLists, KeepsOffered, NeverFalls, disk_behind_runs};

use tw_disk::Disk;

/// No head that `offer` told is lost, and no list that `heads` told falls: over every list of runs of the program on one disk that
/// stands for a list of heads for good, with crashes at any moment. Each run of `run` is such a run, as `run_once` says.
pub fn followed_laws<D: Disk>()
    // Over every list of runs of the program, of whatever commands, on one disk that stands for a list of heads for good, and of
    // crashes at any moment: at the end the disk tells what it reads as; that, and each image that a crash may then leave, stands for a
    // list to which some moves lead from the first one, whose steps rise, and which has the head of each line that `offer` wrote,
    // be it written whole or in part.
    ensures runs { (disk : D) (first : Kept) (runs : _) → HoldsOnly D.view (λ i. StandsFor sha256 i first) disk → AreRunsFrom D.view disk runs
        → HoldsOnly D.view (KeepsAll sha256 first (IsToldInRuns runs)) (disk_behind_runs disk runs) }
    // Over every such list of runs: each list of lines that `heads` writes, be it written whole or in part, begins with each one that it wrote
    // before.
    ensures rises { (disk : D) (first : Kept) (runs : _) → HoldsOnly D.view (λ i. StandsFor sha256 i first) disk → AreRunsFrom D.view disk runs
        → NeverFalls runs }
    // And what the disk reads as at the end, and each image that a crash may then leave, stands for a list whose lines begin with each of these.
    ensures lists { (disk : D) (first : Kept) (runs : _) → HoldsOnly D.view (λ i. StandsFor sha256 i first) disk → AreRunsFrom D.view disk runs
        → HoldsOnly D.view (KeepsLists runs) (disk_behind_runs disk runs) }
    // Over every such list: that stands for a list to which moves lead from the first one by the messages of files alone that runs of `offer`
    // read, be these done or stopped.
    ensures offered { (disk : D) (first : Kept) (runs : _) → HoldsOnly D.view (λ i. StandsFor sha256 i first) disk → AreRunsFrom D.view disk runs
        → HoldsOnly D.view (KeepsOffered first runs) (disk_behind_runs disk runs) }
{}
