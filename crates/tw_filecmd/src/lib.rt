// The commands over files alone: judging a proof, showing an event of a history, and joining proofs.
#![tactic(auto)]

mod faults;
mod feeding;
mod joining;
pub mod limits;
mod parts;
mod showing;
mod verifying;

pub use faults::bad_history;
pub use joining::{Joined, join_files};
pub use limits::limit_laws;
pub use showing::show;
pub use verifying::{verify_file, verify_one};
