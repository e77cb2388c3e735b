//! The outside world as a program sees it: inputs that are read by their names, and a sink that takes what is written.
//! A call that fails has made a count of faults rise, so that a failure is never an answer of the caller's own making.
#![tactic(auto)]

mod inputs;
mod mem_inputs;
mod mem_sink;
mod reading;
mod sink;
mod writing;

pub use inputs::Inputs;
pub use mem_inputs::MemInputs;
pub use mem_sink::MemSink;
pub use reading::{PIECE, read_all, read_piece};
pub use sink::Sink;
pub use tw_base::InputFault;
pub use writing::write_all;
