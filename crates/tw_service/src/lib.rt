//! A service: one history on a disk, which it keeps through every crash.
#![tactic(auto)]

mod archiving;
mod asking;
mod exporting;
mod mapping;
mod receiving;
mod recorded;
mod service;

pub use service::Service;
pub use tw_answers::{Refusal, record_laws};
