//! The commands: `run` judges the words, reads the files that they name, does the command over the disk, writes its text to the sink, and
//! answers the status. It is over any disk, inputs and sink.
#![tactic(auto)]

mod alike;
mod complete;
mod ending;
mod following;
mod generating;
mod judging;
mod laws;
mod mapping;
mod outcome;
mod printing;
mod replaying;
mod store;

pub use alike::one_answer_laws;
pub use complete::answered_laws;
pub use ending::{Ran, end_without_memory, run, tell};
pub use following::{Followed, work};
pub use judging::{judging_laws, reach_judging_laws};
pub use laws::status_laws;
pub use mapping::map_run_laws;
pub use outcome::Outcome;
pub use store::{Store, StoreAccess, store_laws, store_of};
