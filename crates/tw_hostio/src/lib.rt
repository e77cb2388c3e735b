//! The real outside: a disk over one file, files as inputs, and an output as a sink, by calls that may transfer a part, be interrupted or fail.
//!
//! [`PageFile`], [`InputFile`] and [`OutputStream`] say what a program asks of the system, and what it may suppose of each call.
//! [`FileDisk`], [`HostInputs`] and [`HostSink`] stand over whatever keeps that: they tell what it tells, and what they promise of
//! content is proved of them. [`MemFile`], [`MemInput`] and [`MemOutput`] are such things in memory, which tell all.
//!
//! [`HostFile`], [`HostInput`] and [`HostOutput`] are the system's. No contract can say what a file or a terminal holds, so they tell
//! nothing. That they are as the traits say is trusted; so each of their methods makes one call.
#![tactic(auto)]

mod access;
mod again;
mod call_fault;
mod file_disk;
mod file_stage;
mod file_step;
mod host_file;
mod host_input;
mod host_inputs;
mod host_output;
mod host_sink;
mod input_file;
mod memory_file;
mod memory_input;
mod memory_output;
mod opening;
mod output_stream;
mod page_file;
mod transfers;

pub use access::Access;
pub use call_fault::CallFault;
pub use file_disk::FileDisk;
pub use file_stage::FileStage;
pub use host_file::HostFile;
pub use host_input::HostInput;
pub use host_inputs::HostInputs;
pub use host_output::HostOutput;
pub use host_sink::HostSink;
pub use input_file::InputFile;
pub use memory_file::MemFile;
pub use memory_input::MemInput;
pub use memory_output::MemOutput;
pub use output_stream::OutputStream;
pub use page_file::PageFile;
