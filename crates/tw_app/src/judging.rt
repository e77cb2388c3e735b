// The laws that a run which judges a proof, map files or evidence tells what tw_judge tells of the bytes of its files.

ghost use Rattle.std.specs.Prelude.{ℕ, List, Bool};
ghost use Rattle.tw_judge.specs.Forks.{IsForkTold};
ghost use Rattle.tw_judge.specs.Maps.{AreMapsTold, ThreeFiles};
ghost use Rattle.tw_judge.specs.Told.{IsTold};
ghost use Rattle.tw_app.specs.Around.{Around, Writes};
ghost use Rattle.tw_app.specs.Judging.{JudgesEvidence, JudgesFiles, JudgesMapFiles, NoneFailed};
ghost use Rattle.tw_app.specs.Running.{EndsAllowed, IsDiskUntouched};

use tw_disk::Disk;

/// What is told of a proof by the bytes of its file and of the anchors file is what a run tells that judges it.
pub fn judging_laws<D: Disk>()
    // A run of `verify` or `strict` over files whose bytes are told, whose inputs and sink didn't fail, ends with a status
    // and a text, written whole, that are told of these bytes under the anchors file's name.
    ensures told { (a : Around D) (strict : Bool) (file proof anchors : List ℕ) (status : ℕ) → JudgesFiles a strict file proof anchors → NoneFailed a
        → EndsAllowed D.view a status → (text : List ℕ) × IsTold file strict proof anchors status text × Writes a text }
    // And each status and text that are told of these bytes are those with which such a run may end.
    ensures ends { (a : Around D) (strict : Bool) (file proof anchors : List ℕ) (status : ℕ) (text : List ℕ) → JudgesFiles a strict file proof anchors
        → IsDiskUntouched D.view a.outside → IsTold file strict proof anchors status text → Writes a text → EndsAllowed D.view a status }
{}

/// What is told of map files and of evidence by the bytes of their files is what a run tells that judges them.
pub fn reach_judging_laws<D: Disk>()
    // A run of `checkmap` over files whose bytes are told, whose inputs and sink didn't fail, ends with a status and a text, written
    // whole, that are told of these bytes under the files' names.
    ensures map_told { (a : Around D) (bytes names : ThreeFiles) (status : ℕ) → JudgesMapFiles a bytes names → NoneFailed a → EndsAllowed D.view a status
        → (text : List ℕ) × AreMapsTold bytes names status text × Writes a text }
    // And each status and text that are told of these bytes are those with which such a run may end.
    ensures map_ends { (a : Around D) (bytes names : ThreeFiles) (status : ℕ) (text : List ℕ) → JudgesMapFiles a bytes names
        → IsDiskUntouched D.view a.outside → AreMapsTold bytes names status text → Writes a text → EndsAllowed D.view a status }
    // The same of `checkfork` and of the evidence of a fork.
    ensures fork_told { (a : Around D) (file evidence anchors : List ℕ) (status : ℕ) → JudgesEvidence a file evidence anchors → NoneFailed a
        → EndsAllowed D.view a status → (text : List ℕ) × IsForkTold file evidence anchors status text × Writes a text }
    ensures fork_ends { (a : Around D) (file evidence anchors : List ℕ) (status : ℕ) (text : List ℕ) → JudgesEvidence a file evidence anchors
        → IsDiskUntouched D.view a.outside → IsForkTold file evidence anchors status text → Writes a text → EndsAllowed D.view a status }
{}
