// What one file shows of an archive, as a value, before it is judged; `facts.rt` has what an accepted one says.

use tw_base::{Ask, TreeProof};
use tw_skipproof::Part;

/// What a file shows of the archive of a service at one step: the step under a top, what is asked of the
/// archive, and the tree proof of the answer.
#[derive(Drop, Debug)]
pub struct ArchiveProof {
    pub at: Part,
    pub ask: Ask,
    pub shown: TreeProof,
}
