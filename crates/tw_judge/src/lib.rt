// What the library tells of the bytes of a proof, of map files, of a fork's evidence and of two files that may
// contradict each other, under those of anchors files: a status and a text. For proofs, map files and a fork's evidence
// they are those with which the program ends for such files, as `tw_app/src/judging.rt` proves.
#![tactic(auto)]

mod contradictions;
mod forks;
mod maps;
mod receiver;
mod receivers;
mod rule_lines;
mod told;

pub use contradictions::judge_contradiction;
pub use forks::judge_fork;
pub use maps::judge_maps;
pub use receiver::{contradict_received, receiver_laws};
pub use receivers::judge_receiver;
pub use told::{Told, judge};
