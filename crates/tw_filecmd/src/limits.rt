// How much of each file is read, of events files and scripts excepted: their limits are in tw_diskcmd and tw_script.

ghost use Rattle.std.specs.Prelude.{◌≡◌};
ghost use Rattle.tw_base.specs.declared.kinds.limits.TheConstants.{MOST_ANCHORS, MOST_HISTORY_BYTES};

/// Of a history file so many bytes are read: one more than it may have.
pub(crate) const HISTORY_READ: usize = 67_108_865;

/// Of each other file that is read as a whole, but events files and scripts, so many bytes are read: more than any has.
pub const FILE_READ: usize = 5_242_880;

/// The limits of files, by number.
pub fn limit_laws()
    // `MOST_HISTORY_BYTES`, the most bytes of a history file, is 67,108,864.
    ensures history { MOST_HISTORY_BYTES ≡ 67108864 }
    // `MOST_ANCHORS`, the most anchors that a verifier holds, is 64.
    ensures anchors { MOST_ANCHORS ≡ 64 }
    // `FILE_READ`, how many bytes are read of a file that is read as a whole and is no history, events file or script, is 5,242,880.
    ensures read { FILE_READ ≡ 5242880 }
{}
