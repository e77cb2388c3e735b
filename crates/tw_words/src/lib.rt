// The forms of the command line: words, each form part by part, and the command that they make.
#![tactic(auto)]

mod command;
mod cursor;
mod file_forms;
pub mod limits;
mod paths;
mod reach_forms;
mod store_forms;
mod words;

pub use command::Command;
pub use cursor::number_within;
pub use limits::limit_laws;
pub use words::{WordFault, read_words};
