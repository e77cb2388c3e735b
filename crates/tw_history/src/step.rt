// The steps of a history and the nodes of its archive, as a history file has them.

use tw_base::{Content, Sequence};

/// A step of a history.
#[derive(Drop, Debug)]
pub struct Step {
    pub content: Content,
    /// The time in seconds that the step's maker claims, at most 2^40 - 1; None where it claims none.
    pub time: Option<u64>,
    /// How many nodes the step adds to the archive: the next of the history's nodes.
    pub fresh: u16,
    /// The number of the archive's root after the step: 0 for the empty tree, else that of a node,
    /// counted from 1 over the whole history.
    pub root: u32,
}

/// A node of the archive's trees.
#[derive(Clone, Copy, PartialEq, Eq, Drop, Debug)]
pub struct Node {
    /// The number of the root of the left side: 0 for the empty tree, else that of a node.
    pub left: u32,
    /// The step that received the node's thread. Any number of 64 bits can be told here; one that is
    /// no such step makes the history unsound.
    pub entry: u64,
    /// The number of the root of the right side.
    pub right: u32,
}

/// The steps of a history, from step 1 on.
pub type Steps = Sequence<Step>;

/// The nodes of a history, from node 1 on.
pub type Nodes = Sequence<Node>;
