//! Histories of three services that a number makes: services on disks in memory that append events and tell one another their steps,
//! and then a proof, a map and an audit of what they hold.
#![tactic(auto)]

mod claiming;
mod draws;
mod generating;
mod judging;
mod laws;
mod received;
mod services;
mod summary;
mod telling;

pub use generating::{GenerateFault, Generated, generate};
pub use laws::generate_laws;
