// Proofs that one event exists (kind 1), and the step under a top that other kinds of proofs have, too.

use crate::opening::Opening;
use crate::path::Path;
use tw_base::{EventPart, Name};

/// A step of a service under a later one: the path from the top down to the step, and the step's
/// opening.
#[derive(Drop, Debug)]
pub struct Part {
    pub service: Name,
    pub step: u64,
    pub top: u64,
    pub path: Path,
    pub opening: Opening,
}

/// A proof that an event stands at its place in the history of a service.
#[derive(Drop, Debug)]
pub struct ExistenceProof {
    pub at: Part,
    pub event: EventPart,
}
