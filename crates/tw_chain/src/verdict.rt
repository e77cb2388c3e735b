// The verdict on the bytes of a proof, as a verifier answers it; those on map files and on evidence are in tw_tmap and tw_evidence.

use tw_base::{Reason, Report};

/// What a verifier answers.
#[derive(Drop, Debug)]
pub enum Verdict {
    /// The proof is accepted.
    Yes(Report),
    /// It isn't, for the lowest reason that stands.
    No(Reason),
}
