// Proofs and their verdicts, and the lowest reason of the checks that don't pass.
#![tactic(auto)]

mod chain_reading;
mod chain_writing;
mod finding;
mod laws;
mod passing;
mod proof;
mod reading;
mod verdict;
mod writing;

pub use finding::{
    found_of_thread, lower, under_anchor, unless, with_answer, with_event, with_link, with_opening,
    with_order, with_path, without_answer,
};
pub use laws::{chain_laws, completeness_laws, proof_laws};
pub use passing::{answers, climbs, opens, reaches, shows};
pub use proof::{
    AbsenceProof, HopPart, HopParts, LinkProof, PrecedenceProof, Proof, Tail, ThreadProof,
};
pub use reading::{read_first, read_proof, take_key, take_kind, take_link_body, take_thread_body};
pub use tw_base::{Claim, EventPart, Hop, HopList, Report, Seen};
pub use tw_skipproof::Part;
pub use verdict::Verdict;
pub use writing::{put_thread_body, write_proof};
