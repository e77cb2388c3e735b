//! The bytes of the pages of a step and of its events.
#![tactic(auto)]

mod fields;
mod laws;
pub mod limits;
mod link;
mod page;

pub use fields::{StepFields, StreamRef};
pub use laws::page_laws;
pub use limits::limit_laws;
pub use link::StepRef;
pub use page::{
    StepPage, event_page, event_piece, is_event_page, keeps_rules, step_page, take_step,
};
