// Proofs from event to event, joined of proofs of the other kinds.
#![tactic(auto)]

mod copying;
mod joining;
mod laws;
mod limits;

pub use joining::{JoinFault, join};
pub use laws::joining_laws;
pub use limits::{MOST_PARTS, limit_laws};
