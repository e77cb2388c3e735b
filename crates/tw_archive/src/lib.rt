//! What a service's archive says of messages, and what its tree pages keep of a history.
#![tactic(auto)]

mod judgement;
mod judging;
mod laws;
mod near;

pub use judgement::Judgement;
pub use judging::{judge, judge_in, last_of};
pub use laws::{judgement_laws, kept_tree_laws};
pub use near::{insert_near, judge_near};
pub use tw_base::{Digest, Entry, Hasher, Name, Root};
pub use tw_disk::{Pages, WalkFault};
pub use tw_msg::Message;
