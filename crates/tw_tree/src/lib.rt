// The archive's tree in memory: its label, its entries in order, what it has of a key, one more entry, and its own
// proofs. It is for tests; services have theirs in pages, in `tw_rbtree`.
#![tactic(auto)]

mod inserting;
mod proving;
mod searching;
mod tree;

pub use inserting::{InsertFault, insert_plain};
pub use proving::{ProveFault, prove};
pub use searching::{after, before, get};
pub use tree::{Tree, label, list};
