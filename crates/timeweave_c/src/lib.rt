// The verifier for C: what is told of the bytes of proofs, of map files and of evidence under those of anchors files.
#![tactic(auto)]

mod buffer;
mod exports;

pub use exports::{
    timeweave_checkfork, timeweave_checkmap, timeweave_contradict, timeweave_receiver,
    timeweave_strict, timeweave_verify, timeweave_version,
};
