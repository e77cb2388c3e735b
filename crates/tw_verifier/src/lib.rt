//! Verifying proofs, whole or in pieces that are cut anywhere: whether each check passes, the lowest reason, and what was
//! taken of a proof.
#![tactic(auto)]

mod attempts;
mod chain;
mod following;
mod heads;
mod judgement;
mod judging;
mod stage;
mod tree_attempts;
mod verifier;
mod whole;

pub use verifier::{Verifier, verify};
