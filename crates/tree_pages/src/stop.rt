// Why this program ends before its input does.

use std::alloc::AllocError;
use std::io;
use tw_base::NoMemory;
use tw_rbtree::{TreeFault, WalkFault};

/// Why the program `tree_pages` ends before its input does.
#[derive(Debug, Drop)]
pub enum Stop {
    /// A line says nothing that can be done.
    BadLine,
    /// Reading or writing failed.
    Io(io::Error),
    /// A call on the tree has no answer.
    Tree(TreeFault),
}

impl From<io::Error> for Stop {
    fn from(error: io::Error) -> Self {
        Stop::Io(error)
    }
}

impl From<TreeFault> for Stop {
    fn from(fault: TreeFault) -> Self {
        Stop::Tree(fault)
    }
}

impl From<WalkFault> for Stop {
    fn from(fault: WalkFault) -> Self {
        Stop::Tree(TreeFault::from(fault))
    }
}

impl From<NoMemory> for Stop {
    fn from(_none: NoMemory) -> Self {
        Stop::Tree(TreeFault::NoMemory)
    }
}

impl From<AllocError> for Stop {
    fn from(_none: AllocError) -> Self {
        Stop::Tree(TreeFault::NoMemory)
    }
}
