//! A store of pages on a disk, crash safe at every device call, with the root record of whoever keeps it.
//!
//! Page 0 is gate 0, page 1 gate 1, page 2 body 0 and page 3 body 1; committed pages start at 4. A commit writes the staged pages and the body of
//! the slot that doesn't count, and then opens its gate; so each image that a crash may leave opens as the store before or after it.
//!
//! A [`Recorded`] store is made, opened, and committed with the next [`Record`]. Its crash clauses speak of the record and the pages alone;
//! what those stand for, a history or a list of heads, is said by the crates above.
#![tactic(auto)]

mod body;
mod commit;
mod durable;
mod gate;
mod init;
mod laws;
mod layout;
pub mod limits;
mod open;
mod paged;
mod phases;
mod recorded;
mod recorded_laws;
mod running;
mod staged;
mod store;

pub use laws::image_laws;
pub use limits::limit_laws;
pub use open::StoreFault;
pub use recorded::Recorded;
pub use recorded_laws::record_laws;
pub use running::{Running, run_laws};
pub use store::{CommitFault, Store};
pub use tw_disk::Record;
