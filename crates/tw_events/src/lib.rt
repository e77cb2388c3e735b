// The Merkle tree of a step's events: roots, audit paths and their checks.
#![tactic(auto)]

mod check;
mod path;
mod root;
mod showing;
mod told_root;

pub use check::{check_event, root_above_leaf};
pub use path::event_path;
pub use root::event_root;
pub use showing::{event_part, root_over, root_over_told};
pub use told_root::event_root_told;
