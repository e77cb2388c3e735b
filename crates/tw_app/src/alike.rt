// The law that runs by the same words over the same files end alike.

ghost use Rattle.std.specs.Prelude.{◌≡◌, ℕ, List};
ghost use Rattle.tw_app.specs.Alike.{AreRunsAlike};
ghost use Rattle.tw_app.specs.Around.{Around, Writes};
ghost use Rattle.tw_app.specs.Running.{EndsAllowed, IsHindered};

use tw_disk::Disk;

/// What the commands over files that reach beyond one proof come to is determined by their files.
pub fn one_answer_laws<D: Disk>()
    // Two runs of `checkmap`, `audit`, `adopt`, `atlas`, `accuse` or `checkfork` by the same words, over inputs that tell the same and of
    // each file that is named its bytes, end with one status and one text, written whole by both, unless the inputs or the sink
    // failed or there was no memory. So each of their answers comes exactly where it stands.
    ensures { (one other : Around D) (status again : ℕ) → AreRunsAlike one other → (IsHindered one status → ⊥) → (IsHindered other again → ⊥)
        → EndsAllowed D.view one status → EndsAllowed D.view other again → (again ≡ status) × ((text : List ℕ) × Writes one text × Writes other text) }
{}
