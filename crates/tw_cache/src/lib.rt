//! A cache of pages: those read last are kept in memory, over any `Pages`, and what is answered is what the inner pages answer.
//!
//! [`Cached`] owns its pages and what it keeps of them, for a value over a store; where pages are lent for one call, `Shelved` of tw_disk
//! keeps them for that call.
#![tactic(auto)]

mod cached;
mod paged;

pub use cached::Cached;
