//! Audits: a proof held against histories, which shows that what it claims is so of them, or two different texts with one digest, or
//! why it can't be held against them.
#![tactic(auto)]

mod finder;
mod finding;
mod held;
mod holding;
mod key_transcript;
mod keys;
mod laws;
mod passing;
mod proofs;
mod table;

pub use finding::{AuditFault, Finding};
pub use holding::{audit, audit_judged};
pub use laws::audit_laws;
pub use tw_base::{Claim, Hop, HopList, Report, Seen};
