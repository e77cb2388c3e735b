// The law of what a run of `checkmap` tells, where the inputs tell the bytes of its files; tw_service/src/mapping.rt makes
// map files.

ghost use Rattle.std.specs.Prelude.{ℕ, List};
ghost use Rattle.sha2.specs.Sha256.{sha256};
ghost use Rattle.tw_base.specs.declared.history.thread.Thread.{Thread};
ghost use Rattle.tw_base.specs.history.History.{History};
ghost use Rattle.tw_text.specs.Faults.{fault_text};
ghost use Rattle.tw_text.specs.declared.fault.CommandFault.TheVariants.{Unreadable};
ghost use Rattle.tw_text.specs.declared.refusal.BadInput.{BadInput};
ghost use Rattle.tw_tmap.specs.declared.map_file.HighFile.{HighFile};
ghost use Rattle.tw_tmap.specs.declared.map_file.LowFile.{LowFile};
ghost use Rattle.tw_tmap.specs.Checking.{map_verdict};
ghost use Rattle.tw_app.specs.Around.{Around};
ghost use Rattle.tw_app.specs.MapRuns.{AreAsked, AreOwnMaps, EndsUnhindered, JudgesMaps, RefusesMaps, TellsMapVerdict, bounds_of};
ghost use Rattle.tw_app.specs.Running.{EndsAllowed};

use tw_disk::Disk;

/// What is told of map files whose bytes the inputs tell, and of those of two services.
pub fn map_run_laws<D: Disk>()
    // A run of `checkmap` over files whose bytes are told, and are those of a low and a high map file and of anchors without a
    // bad line, ends with the status and the text, written whole, of the verdict on these files under these anchors, unless
    // the inputs or the sink failed or there was no memory. So `Gap`, the lowest reason and the bounds are told exactly where
    // each stands.
    ensures told { (a : Around D) (low : LowFile) (high : HighFile) (anchors : List Thread) (status : ℕ) →
        JudgesMaps a.outside.inputs.told a.words low high anchors → EndsAllowed D.view a status → TellsMapVerdict a status (map_verdict sha256 anchors low high) }
    // Where the bytes of all three files are told, and one of them isn't what it has to be, it ends with status 9 and the line of
    // the first that isn't, with the same exceptions: the low file, then the high one, each with its first byte at which none
    // goes on, then the anchors file with its first bad line.
    ensures refused { (a : Around D) (bad : BadInput) (status : ℕ) → RefusesMaps a.outside.inputs.told a.words bad → EndsAllowed D.view a status →
        EndsUnhindered a status 9 (fault_text (Unreadable bad)) }
    // Where they are the low file that a sound history has of a step of its own, and the high file that another one has of that
    // step, and the anchors have the histories' authenticators of both tops, they are accepted, and the lines of the bounds
    // of both histories are written, with the same exceptions.
    ensures own { (a : Around D) (own other : History) (step top upto status : ℕ) (low : LowFile) (high : HighFile) (anchors : List Thread) →
        AreAsked own other step top upto → AreOwnMaps own other step top upto low high anchors → JudgesMaps a.outside.inputs.told a.words low high anchors
        → EndsAllowed D.view a status → TellsMapVerdict a status (bounds_of own other step upto) }
{}
