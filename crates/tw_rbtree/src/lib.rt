//! The archive's tree over pages: red-black trees in pages that are trees of pages. One more entry copies the pages on one way
//! down, so that every earlier root keeps its tree. The calls work over any pages, honest or not. Trees in memory, for tests, are in
//! `tw_tree`.
#![tactic(auto)]

mod asking;
mod descending;
mod fault;
mod inserting;
mod laws;
pub mod limits;
mod listing;
mod new_node;
mod proving;
mod reading;
mod seeking;

pub use asking::{after, before, get};
pub use fault::TreeFault;
pub use inserting::insert;
pub use laws::{keeping_laws, listing_laws, size_laws, standing_laws};
pub use limits::limit_laws;
pub use listing::fresh;
pub use new_node::{NewNode, NewNodes, Side};
pub use proving::path;
pub use tw_base::{Ask, Entry, Hasher, Key, NoMemory, Root, TreeProof};
pub use tw_disk::WalkFault;
