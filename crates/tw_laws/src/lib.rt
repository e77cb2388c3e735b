//! What holds of whole runs: the laws of a service, no second authenticator of a step of whatever comes to it in any order or of what
//! runs of the program publish on one disk, no head lost that `offer` told, and the generator's schedules as lines of scripts.
#![tactic(auto)]

mod apart;
mod asking;
mod calls;
mod followed;
mod published;
mod running;
mod runs;
mod scheduled;
mod services;
mod telling;

pub use apart::apart_laws;
pub use asking::ask;
pub use calls::{append, append_at, close, init, open, receive, receive_at};
pub use followed::followed_laws;
pub use published::published_laws;
pub use running::run_once;
pub use runs::run_laws;
pub use scheduled::scheduled_laws;
pub use services::{event_laws, finding_laws, receiving_laws, standing_laws};
pub use telling::{head, name, steps, thread_out};
