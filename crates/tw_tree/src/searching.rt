// What a tree in memory has of a key, and next to it; tw_rbtree/src/asking.rt answers it of a tree in pages.

ghost use Rattle.std.specs.Prelude.{◌≡◌};
ghost use Rattle.tw_base.specs.history.Asking.{entry_with, first_above, last_below};
ghost use Rattle.tw_base.specs.history.Tree.{IsRising, entries};
ghost use Rattle.tw_tree.specs.TreeMeaning.{meant_tree};

use crate::tree::Tree;
use std::cmp::Ordering;
use tw_base::{Entry, Key, compare_keys, entry_key, is_below};

/// The entry of the key, or none where the tree has no entry of it. The tree's keys rise. Goes down
/// one way, and takes no memory.
pub fn get(tree: &Tree, key: &Key) -> Option<Entry>
    requires { IsRising (entries (meant_tree tree.now)) }
    // Asked for a key, a tree whose keys rise answers what the sorted list of its entries has of it.
    ensures { result ≡ entry_with (entries (meant_tree tree.now)) key.now }
{
    let mut here = tree;
    while let Tree::Branch { left, entry, right } = here {
        match compare_keys(key, &entry_key(entry)) {
            Ordering::Less => here = left,
            Ordering::Equal => return Some(*entry),
            Ordering::Greater => here = right,
        }
    }
    None
}

/// The entry with the greatest key below this one, or none where no key is below it. The tree's keys
/// rise. Goes down one way, and takes no memory.
pub fn before(tree: &Tree, key: &Key) -> Option<Entry>
    requires { IsRising (entries (meant_tree tree.now)) }
    // Asked for the entry before a key, a tree whose keys rise answers the last one below it of the sorted list of its
    // entries.
    ensures { result ≡ last_below (entries (meant_tree tree.now)) key.now }
{
    let mut here = tree;
    let mut nearest = None;
    while let Tree::Branch { left, entry, right } = here {
        if is_below(&entry_key(entry), key) {
            nearest = Some(*entry);
            here = right;
        } else {
            here = left;
        }
    }
    nearest
}

/// The entry with the least key above this one, or none where no key is above it. The tree's keys
/// rise. Goes down one way, and takes no memory.
pub fn after(tree: &Tree, key: &Key) -> Option<Entry>
    requires { IsRising (entries (meant_tree tree.now)) }
    // Asked for the entry after a key, a tree whose keys rise answers the first one above it of the sorted list of its
    // entries.
    ensures { result ≡ first_above (entries (meant_tree tree.now)) key.now }
{
    let mut here = tree;
    let mut nearest = None;
    while let Tree::Branch { left, entry, right } = here {
        if is_below(key, &entry_key(entry)) {
            nearest = Some(*entry);
            here = left;
        } else {
            here = right;
        }
    }
    nearest
}
