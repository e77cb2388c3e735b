// The law of runs on one disk, of whatever values; tw_laws and tw_follow have those of services, of the program and of followers.

ghost use Rattle.std.specs.Prelude.{ℕ, List};
ghost use Rattle.tw_disk.specs.Image.{Image};
ghost use Rattle.tw_pages.specs.Runs.{IsPublished, IsRunFrom, Laws, Values, Wavers, disk_at, end_of};
ghost use Rattle.tw_pages.specs.Runs.State.{Closed};

use tw_disk::Disk;

/// Values over disks, whose calls lead from one state to the next. An `Act` is a call with its answer, a `State` what an image may stand
/// for (`is_of`), and a `Thing` what is told and may hold of a state. A value that `serves` a state `shows` things at any time, an answer
/// `tells` some, and a state `goes_on` to those that may come of it. The trait stands for the law alone.
pub trait Running {
    type Over: Disk;

    ghost Value: { Type 0 };

    ghost Act: { Type 0 };

    ghost State: { Type 0 };

    ghost Thing: { Type 0 };

    ghost values: { Values Self.Over Value Act };

    ghost is_of: { State → Image → Type 0 };

    ghost goes_on: { State → State → Type 0 };

    ghost serves: { Value → State → Type 0 };

    ghost holds: { State → Thing → Type 0 };

    ghost shows: { Value → Thing → Type 0 };

    ghost tells: { Act → Thing → Type 0 };

    ghost laws: { Laws Self.Over.view values is_of goes_on serves holds shows tells };
}

/// Over every run on one disk, of openings, calls, disk faults, kills and crashes at any moment, what is told stays.
pub fn run_laws<W: Running>()
    // Each image that is left at the end, of which what the disk reads as is one, stands for a state that goes on from the first one, and of
    // which all holds that was told.
    ensures runs { (disk : W.Over) (run : _) (s : W.State) → Wavers W.is_of W.goes_on W.Over.view disk s → IsRunFrom W.Over.view W.values (Closed disk) run
        → (now : W.State) × W.goes_on s now × Wavers W.is_of W.goes_on W.Over.view (disk_at W.Over.view W.values (end_of (Closed disk) run)) now
        × ((t : W.Thing) → IsPublished W.shows W.tells (Closed disk) run t → W.holds now t) }
{}
