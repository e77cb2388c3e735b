//! One page of the archive's tree in pages: a red-black tree of 1 to 24 entries, whose empty places are child pages or, in a leaf
//! page, the empty tree. No call takes memory.
#![tactic(auto)]

mod adding;
mod child;
mod kept;
mod labels;
mod laws;
pub mod limits;
mod links;
mod node;
mod reading;
mod slot;
mod ways;
mod writing;

pub use adding::{add, put_child, single};
pub use child::Child;
pub use labels::{label, sides};
pub use laws::{page_spelling_laws, page_tree_laws};
pub use node::{Added, Found, RbNode, below, child_at, entry_at, find, keys, level, top};
pub use reading::read_node;
pub use tw_base::{Ancestor, Digest, Entry, Hasher, Key};
pub use ways::{WayDown, way};
pub use writing::write_node;
