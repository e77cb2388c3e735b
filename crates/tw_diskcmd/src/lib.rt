//! The commands over a store's disk, that of a service or of a follower.
//!
//! Over a service's: making it, adding a step, receiving a message, proving an event, a link, a thread and that there is none, making map
//! files, writing the history's file, and telling the last step. Over a follower's: making it, offering it a message, and telling its heads.
//! How a store's faults are told, what commands come to by their file and their disk, and what they leave of the disk, is said once, of
//! whatever states and records.
#![tactic(auto)]

mod appending;
mod asking;
mod faults;
mod follower_faults;
mod follower_laws;
mod heads;
mod init;
mod laws;
mod limits;
mod message_files;
mod offering;
mod receiving;
mod store_faults;
mod watching;
mod worked;

pub use appending::append;
pub use asking::ask;
pub use follower_laws::{idle_follower_laws, told_follower_laws};
pub use heads::list_heads;
pub use init::init_service;
pub use laws::{idle_laws, told_laws};
pub use limits::limit_laws;
pub use offering::offer;
pub use receiving::receive;
pub use store_faults::fault_of_store;
pub use watching::watch;
pub use worked::Worked;
