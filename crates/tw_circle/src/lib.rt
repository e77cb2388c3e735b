//! No circle of hops without a ring of texts: hops that lead from a step back to itself, or to an earlier one, give a ring of the
//! histories' own texts, each of which holds the digest of the next one.
#![tactic(auto)]

mod laws;

pub use laws::circle_laws;
