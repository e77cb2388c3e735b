//! Evidence of a fork: two received threads of one service that no history of it has both.
#![tactic(auto)]

mod accusing;
mod checking;
mod evidence;
mod fork;
mod laws;
mod reading;
mod report;
mod writing;

pub use accusing::accuse;
pub use checking::check_evidence;
pub use evidence::Evidence;
pub use fork::{Fork, ForkReason, ForkVerdict};
pub use laws::{evidence_laws, fork_laws};
pub use reading::{read_evidence, read_link_proof, read_thread_proof};
pub use report::print_fork;
pub use writing::{write_evidence, write_thread_proof};
