// The nodes of a tree that `listing.rt` lists for a history's file.

use tw_base::{Entry, Sequence};

/// What stands on a side of a listed node. (`Side` of tw_base is of an audit path.)
#[derive(Clone, Copy, PartialEq, Eq, Debug, Drop)]
pub enum Side {
    /// The empty tree.
    Empty,
    /// A node of the same list, counted from 1.
    New(u64),
    /// The tree of an older page, of this number.
    Old(u64),
}

/// A node of a tree, between its sides.
#[derive(Clone, Copy, PartialEq, Eq, Debug, Drop)]
pub struct NewNode {
    pub left: Side,
    pub entry: Entry,
    pub right: Side,
    /// The page whose root node this is; 0 where it is no page's.
    pub page: u64,
}

/// Nodes, each behind those of its sides.
pub type NewNodes = Sequence<NewNode>;
