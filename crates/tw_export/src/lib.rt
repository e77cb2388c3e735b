//! The file of the history that pages tell. (That of a history in memory is written in tw_history/src/writing.rt.)
#![tactic(auto)]

mod archive;
mod events;
mod exporting;
mod file;
mod nodes;
mod numbers;
mod received;
mod so_far;
mod steps;

pub use exporting::export_file;
