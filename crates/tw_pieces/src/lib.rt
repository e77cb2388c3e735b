// Readers of words that come in pieces: what was fed so far, and how many bytes of a part of a proof are waited for.
#![tactic(auto)]

mod feeding;
mod resumed;
mod segments;
mod waiting;

pub use feeding::Fed;
pub use resumed::Resumed;
pub use segments::{Attempt, Segments, missed};
pub use waiting::{event_until, link_until, opening_until};
