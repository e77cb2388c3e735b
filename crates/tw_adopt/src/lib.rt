//! Taking over a lost service's history, as far as other services hold it by the threads that they received.
#![tactic(auto)]

mod adopted;
mod adopting;
mod front;
mod hearing;
mod laws;
mod receiving;
mod stops;
mod weighing;

pub use adopted::{AdoptFault, Adopted, ProofList};
pub use adopting::adopt;
pub use laws::{adopt_laws, first_steps_laws, same_laws};
pub use receiving::Receiving;
