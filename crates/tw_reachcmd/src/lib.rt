// The commands over files that reach beyond one proof: audits, atlases, maps, histories taken over, and the evidence of a fork.
#![tactic(auto)]

mod accusing;
mod adopt_text;
mod adopting;
mod anchors;
mod answer;
mod atlas;
mod audit_text;
mod auditing;
mod check_fork;
mod check_map;
mod fronts;
mod gathering;
mod histories;
mod reading;

pub use accusing::{Accused, accuse_linked, accuse_pair};
pub use adopting::{Taken, adopt_files};
pub use answer::{Answer, answer_status, print_answer};
pub use atlas::{Planned, atlas_files};
pub use auditing::{Audited, audit_files};
pub use check_fork::check_fork_files;
pub use check_map::check_map_files;
