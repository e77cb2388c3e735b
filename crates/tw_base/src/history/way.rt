// The way down to an asked place: whether it goes left at an entry, or ends there. Checks and trees go by it (tw_rbtree, tw_tree).

ghost use Rattle.std.specs.Prelude.{◌≡◌};
ghost use Rattle.std.specs.Ordering.{is_eq};
ghost use Rattle.tw_base.specs.history.Entries.{key_cmp};
ghost use Rattle.tw_base.specs.history.Ways.{has_asked_key, is_left};

use crate::history::thread::{Entry, Key, compare_keys, entry_key, is_below};
use crate::history::tree_proof::Ask;
use std::cmp::Ordering;

/// Whether the keys are one.
fn is_same_key(a: &Key, b: &Key) -> bool
    ensures { result ≡ is_eq (key_cmp a.now b.now) }
{
    compare_keys(a, b) == Ordering::Equal
}

/// Whether the way down goes left at the entry.
pub fn goes_left(ask: &Ask, entry: &Entry) -> bool
    // The way goes left at an entry as the definition of ways says.
    ensures { result ≡ is_left ask.now entry.now }
{
    let here = entry_key(entry);
    match ask {
        Ask::Present(asked) => is_below(&entry_key(asked), &here),
        Ask::Absent(key) | Ask::Above(key) => is_below(key, &here),
        Ask::Below(key) => !is_below(&here, key),
    }
}

/// Whether the entry has the asked key, in a question for one key.
pub fn meets(ask: &Ask, entry: &Entry) -> bool
    // An entry has the asked key as the definition of ways says: in a question for one key, where its key is that one.
    ensures { result ≡ has_asked_key ask.now entry.now }
{
    let here = entry_key(entry);
    match ask {
        Ask::Present(asked) => is_same_key(&entry_key(asked), &here),
        Ask::Absent(key) => is_same_key(key, &here),
        Ask::Below(_) | Ask::Above(_) => false,
    }
}
