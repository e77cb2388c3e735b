//! Broken rules: that a service broke a rule of histories, or showed two, which two accepted files show that contradict each other.
#![tactic(auto)]

mod archive_proof;
mod archive_reading;
mod contradicting;
mod facts;
mod judging;
mod linking;
mod rule_laws;
mod rules;
mod verdict;

pub use archive_proof::ArchiveProof;
pub use contradicting::contradict;
pub use facts::{Conflict, Facts, Lack, Rule};
pub use rule_laws::{conflict_laws, contradiction_laws};
pub use verdict::{ContradictReason, ContradictVerdict};
