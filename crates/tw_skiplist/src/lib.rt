// A history's steps as a skip list in pages.
#![tactic(auto)]

mod adding;
mod collecting;
mod event_pages;
mod fault;
mod head;
mod info;
mod laws;
mod pieces;
mod reading;
mod records;
mod step_page;
mod step_records;
mod walking;

pub use adding::{append, append_thread};
pub use fault::ListFault;
pub use head::Head;
pub use info::{StepInfo, StepLink, StepProof};
pub use laws::{keeping_laws, reading_laws};
pub use reading::{events, events_of, link, path, prove, step};
pub use step_records::{StepRecord, copy_events, read_records};
pub use tw_base::{Content, Root};
