// What is printed of an accepted proof, and of accepted map files, says by the reader's own lines: the theorem of docs/theorem.md. And it
// has one reading.
#![tactic(auto)]

mod laws;

pub use laws::{plain_laws, plain_map_laws, reading_laws};
