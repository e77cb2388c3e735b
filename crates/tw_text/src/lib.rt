// What single words can say, why a command isn't done, and the lines and reports that the program writes.
#![tactic(auto)]

mod anchor;
mod bad_input;
mod claimed_time;
mod fault;
mod field;
mod fixed;
mod line;
mod number;
mod path;
mod refusal;
mod report;
mod summary;

pub use anchor::{AnchorLine, anchor_line};
pub use bad_input::{bad_byte, bad_line};
pub use claimed_time::ClaimedTime;
pub use fault::{CommandFault, fault_status, print_fault};
pub use field::{Field, FieldList, push_numbered, push_word};
pub use fixed::{fault_disk, fault_input, no_memory};
pub use line::{print_line, print_usage};
pub use number::{read_digest, read_number};
pub use path::FilePath;
pub use refusal::{BadInput, StoreCause, refusal_name};
pub use report::{print_gap, print_rejected, print_report, print_stands};
pub use summary::{print_generated, print_replayed};
pub use tw_base::{Claim, Hop, HopList, KeyList, Report, Seen};
