// The laws of history files, on which the layers above build.

ghost use Rattle.tw_base.specs.format.Codecs.{IsUnambiguous};
ghost use Rattle.tw_base.specs.format.Formats.{Spells};
ghost use Rattle.tw_base.specs.history.History.{History};
ghost use Rattle.tw_base.specs.history.Sound.{IsSound};
ghost use Rattle.tw_history.specs.FileRanges.{IsInFileRange};
ghost use Rattle.tw_base.specs.history.HistoryCodec.{history_bytes, history_codec, history_layout};

/// What the format of history files spells: a history's one spelling is what `write_history` writes, and
/// of bytes that are no history the place that is told is that of the first bad byte; and a sound
/// history of which each number of a node fits its field has that spelling.
pub fn history_laws()
    // A history has one file, which is what is written of it, and a file one history; where reading it stops, the place is that
    // of the first bad byte.
    ensures format { IsUnambiguous history_codec }
    // A sound history whose numbers of nodes fit their fields has a file that spells it.
    ensures spelled { (h : History) → IsSound h → IsInFileRange h → Spells history_layout (history_bytes h) h }
{}
