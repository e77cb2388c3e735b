// Entries in fixed arrays, whose unused places have one, too.

ghost use Rattle.std.specs.Prelude.{◌≡◌, ◌<◌, length, slice_get, Some};

use std::marker::Model;
use tw_base::{Digest, Entry, Name, Thread};

/// An entry in a fixed list, which needs one for its unused places. Contracts see the entry.
#[derive(Clone, Copy, Drop)]
pub(crate) struct Kept {
    pub entry: Entry,
}

impl Model for Kept {
    ghost use Rattle.tw_base.specs.declared.history.thread.Entry.{Entry as EntryOf};

    ghost Value = { EntryOf };

    ghost view = { λ k. k.entry };

    ghost inverse = { λ e. record { entry = e } };
}

impl Default for Kept {
    /// The entry of a place that isn't used: one within the limits, of the name of 16 times `a`.
    fn default() -> Self {
        let thread = Thread {
            from: Name::from_bytes([97; 16]),
            step: 1,
            auth: Digest::default(),
        };
        Kept {
            entry: Entry {
                thread,
                archived: 1,
            },
        }
    }
}

/// The entry at an index, counted from 0.
pub(crate) fn entry_of(entries: &[Kept], index: usize) -> Entry
    requires { index < length entries.now }
    ensures { slice_get entries.now index ≡ Some result }
{
    let kept = &entries[index];
    kept.entry
}
