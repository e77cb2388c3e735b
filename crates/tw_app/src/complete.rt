// The law that a run which has all that its command needs ends with an answer.

ghost use Rattle.std.specs.Prelude.{ℕ};
ghost use Rattle.tw_app.specs.Around.{Around};
ghost use Rattle.tw_app.specs.Complete.{HasAllNeeded, IsStatusAnswered};
ghost use Rattle.tw_app.specs.Running.{EndsAllowed};

use tw_disk::Disk;

/// Completeness of commands. The function itself does nothing.
pub fn answered_laws<D: Disk>()
    // A run of a command whose files are there and each of its kind, over a disk that read as a history where the
    // command asks one of a service, or as a list of heads where it asks a follower, and during which neither the inputs nor the
    // sink nor the disk counted a fault, ends with an answer that was written whole: done, with status 0; with status 1, a rejection;
    // with status 7, a refusal; with status 10, a clash; or with status 6, without memory. Each is one that status 0, 1, 7 or 10
    // says of such a run.
    ensures whole { (a : Around D) (status : ℕ) → HasAllNeeded D.view a → EndsAllowed D.view a status → IsStatusAnswered D.view a status }
{}
