// What an audit answers. (In tw_chain and tw_tmap a file of this name finds the lowest reason.)

use tw_base::{Bytes, Digest, Reason, Report, Thread};

/// What is found when a proof is held against histories.
#[derive(Drop, Debug)]
pub enum Finding {
    /// The proof is accepted, the histories have the threads held, and no two different texts of theirs and
    /// of the proof have one digest: where they are sound, what the report claims is so of them.
    Stands(Report),
    /// Two different texts of the histories and of the proof have this digest. Of all texts, those of the
    /// histories in their order and then those of the proof, `other` is the first one whose digest an
    /// earlier different one has, and `one` the earliest such text.
    Clash {
        one: Bytes,
        other: Bytes,
        digest: Digest,
    },
    /// The proof isn't accepted under the anchors, for the lowest reason that stands.
    NotAccepted(Reason),
}

/// Why nothing is found.
#[derive(Drop, Debug)]
pub enum AuditFault {
    /// The first of the threads held, in the order of the proof, that the histories don't have: `found` is
    /// the authenticator that the history of its service has at its step, None where there is no such
    /// history, or one that is too short.
    NotHeld { held: Thread, found: Option<Digest> },
    /// There was no memory for what the audit needed.
    NoMemory,
}
