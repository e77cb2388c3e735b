// What is asked of an archive's tree, and the way through it that shows the answer; what a service is asked is in `question.rt`.

use crate::history::thread::{Entry, Key};
use crate::kinds::digest::Digest;
use crate::kinds::sequence::Sequence;

/// What is asked of an archive. An asked key may have any step; files ask for steps up to 2^40.
#[derive(Clone, Copy, PartialEq, Eq, Debug, Drop)]
pub enum Ask {
    /// That it has this entry.
    Present(Entry),
    /// That it has no entry of this key.
    Absent(Key),
    /// Its entry with the greatest key below this one, or that it has none.
    Below(Key),
    /// Its entry with the least key above this one, or that it has none.
    Above(Key),
}

/// A node of a tree on the way down to an asked place: its entry, and the label of the side that
/// the way doesn't take.
#[derive(Clone, Copy, PartialEq, Eq, Debug, Drop)]
pub struct Ancestor {
    pub entry: Entry,
    pub other: Digest,
}

/// The nodes above an asked place, nearest first.
pub type AncestorList = Sequence<Ancestor>;

/// What shows the answer to a question about a tree whose label is known.
#[derive(Debug, Drop)]
pub enum TreeProof {
    /// Of an entry: the labels of its node's two sides, and the nodes above it, in a file at
    /// most 127.
    Present {
        left: Digest,
        right: Digest,
        ancestors: AncestorList,
    },
    /// Of the empty place where the asked key would stand: the nodes above it, in a file at most
    /// 128.
    Gap {
        ancestors: AncestorList,
    },
}
