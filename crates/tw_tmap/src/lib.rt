// Temporal maps: between which steps of a peer a step of a service lies.
#![tactic(auto)]

mod checking;
mod finding;
mod laws;
mod map_file;
mod map_verdict;
mod reading;
mod report;
mod showing;
mod writing;

pub use checking::check_map;
pub use laws::{map_file_laws, map_laws};
pub use map_file::{HighFile, LowFile, LowPart};
pub use map_verdict::MapVerdict;
pub use reading::{read_high, read_low};
pub use report::print_map;
pub use showing::{ask_first, ask_last};
pub use writing::{write_high, write_low};
