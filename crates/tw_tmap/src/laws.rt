// The laws of map files: their spelling, when they are accepted, and that services' own are.

ghost use Rattle.std.specs.Prelude.{◌≡◌, ◌↔◌, ℕ, ◌≤◌, List, length, Option, false, true};
ghost use Rattle.tw_base.specs.declared.history.report.Reason.{Reason};
ghost use Rattle.tw_base.specs.declared.history.thread.Thread.{Thread};
ghost use Rattle.tw_base.specs.format.Codecs.{IsUnambiguous};
ghost use Rattle.tw_base.specs.format.Formats.{IsFront};
ghost use Rattle.tw_tmap.specs.declared.map_file.HighFile.{HighFile};
ghost use Rattle.tw_tmap.specs.declared.map_file.LowFile.{LowFile};
ghost use Rattle.tw_tmap.specs.declared.map_verdict.MapVerdict.TheVariants.{Gap, No, Yes};
ghost use Rattle.tw_tmap.specs.Checking.{AreMapFilesAccepted, IsLowestReason, fit, high_told, low_told, map_checks, map_verdict};
ghost use Rattle.tw_tmap.specs.MapFiles.{high_codec, high_layout, low_codec, low_layout};
ghost use Rattle.tw_tmap.specs.OwnFiles.{OwnAreAccepted};

use tw_base::Hasher;

/// The words of map files: each has one value, a value has one spelling, and no word is the front of a
/// longer one.
pub fn map_file_laws()
    // A low file has one spelling, and so has a high file.
    ensures low_once { IsUnambiguous low_codec }
    ensures high_once { IsUnambiguous high_codec }
    // No front of a low file has more than 67,458 bytes, nor one of a high file more than 13,698, so that what so many bytes of a
    // file decide, all of them decide.
    ensures low_size { (bytes : List ℕ) → IsFront low_layout bytes → length bytes ≤ 67458 }
    ensures high_size { (bytes : List ℕ) → IsFront high_layout bytes → length bytes ≤ 13698 }
{}

/// When map files are accepted, and that those of two services are.
pub fn map_laws<H: Hasher>()
    // Two files are told `Yes` exactly where they fit and each of their checks passes, with the bounds that they show and the
    // top of the high file.
    ensures yes { (anchors : List Thread) (low : LowFile) (high : HighFile) (l : ℕ) (h : Option ℕ) (upto : ℕ) →
        map_verdict H.dig anchors low high ≡ Yes l h upto
        ↔ (AreMapFilesAccepted H.dig anchors low high × (l ≡ low_told low) × (h ≡ high_told high) × (upto ≡ high.top)) }
    // They are told `Gap` exactly where they don't fit.
    ensures gap { (anchors : List Thread) (low : LowFile) (high : HighFile) → map_verdict H.dig anchors low high ≡ Gap ↔ (fit low high ≡ false) }
    // Where they are told `No`, they fit, and the reason is the lowest of those for which a check of theirs doesn't pass; of the
    // anchors that aren't held it is the first, that of the low file's top before that of the high file's.
    ensures no { (anchors : List Thread) (low : LowFile) (high : HighFile) (reason : Reason) →
        map_verdict H.dig anchors low high ≡ No reason → (fit low high ≡ true) × IsLowestReason H.dig anchors (map_checks low high) reason }
    // A service's low file and its peer's high file for one step are accepted together wherever the anchors of their tops are
    // held, and tell the bounds of their histories.
    ensures own { OwnAreAccepted H.dig }
{}
