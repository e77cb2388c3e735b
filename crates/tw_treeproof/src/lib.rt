// Proofs over the tree of an archive: that it has an entry, that it lacks one, and which entry is
// next to a key.
#![tactic(auto)]

mod checking;
mod laws;
mod limits;
mod reading;
mod shown;
mod writing;

pub use checking::{check, tree_label_told};
pub use laws::{tree_proof_laws, tree_proof_spelling_laws};
pub use limits::{MOST_ABOVE_ENTRY, MOST_ABOVE_PLACE};
pub use reading::{take_ancestor, take_gap, take_present};
pub use shown::Shown;
pub use tw_base::{Ancestor, AncestorList, Ask, TreeProof};
pub use writing::{put_gap, put_present, put_tree_proof};
