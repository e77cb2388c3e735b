//! Worlds of several services, and schedules of messages, losses, repeats and crashes over them.
#![tactic(auto)]

mod counts;
mod host;
mod laws;
mod player;
mod replaying;
mod serving;
mod summary;
mod telling;
mod told;

pub use counts::Counts;
pub use laws::world_laws;
pub use replaying::{Played, ReplayFault, Replayed, WorldDisk, WorldDiskList, replay};
pub use told::{Answer, Told};
