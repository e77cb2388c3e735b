// Proofs as values, by their kinds; one of kind 1 is in tw_skipproof/src/existence.rt, and map files (6 and 7) are in tw_tmap.

use tw_base::{Digest, Entry, EventPart, Key, Name, Sequence, TreeProof};
use tw_skipproof::{ExistenceProof, Opening, Part, Path};

/// A proof that the archive of a step has an entry: the step under a top, the entry, and the tree
/// proof of it.
#[derive(Drop, Debug)]
pub struct ThreadProof {
    pub at: Part,
    pub entry: Entry,
    pub shown: TreeProof,
}

/// A proof that the archive of a step has no entry of a key: the step under a top, the key, and the
/// tree proof of the empty place where it would stand.
#[derive(Drop, Debug)]
pub struct AbsenceProof {
    pub at: Part,
    pub key: Key,
    pub shown: TreeProof,
}

/// A proof that a step, which may be 0, has this authenticator: the path from the top down to it.
#[derive(Drop, Debug)]
pub struct LinkProof {
    pub service: Name,
    pub step: u64,
    pub top: u64,
    pub auth: Digest,
    pub path: Path,
}

/// A hop of a proof from event to event: the entry of the thread that an archive received and its tree
/// proof; the step of the thread's service that binds it to an anchor, with the path from there down to
/// the thread's step, or 0 where the thread is carried; and, where another hop follows, the opening of
/// the thread's step, whose archive shows that hop.
#[derive(Drop, Debug)]
pub struct HopPart {
    pub entry: Entry,
    pub shown: TreeProof,
    pub bind: u64,
    pub link: Path,
    pub opening: Option<Opening>,
}

/// The hops of a proof, from the second event backwards; in a file at most 64.
pub type HopParts = Sequence<HopPart>;

/// The first event of a proof from event to event, under the step of the last hop's thread, or under
/// the step before the second event's where there is no hop.
#[derive(Drop, Debug)]
pub struct Tail {
    pub step: u64,
    pub path: Path,
    pub opening: Opening,
    pub event: EventPart,
}

/// A proof that one event precedes another: the step of the second event under a top, and that event;
/// where there is a hop, the opening of the step before, whose archive shows it; the hops; and the
/// first event.
#[derive(Drop, Debug)]
pub struct PrecedenceProof {
    pub head: Part,
    pub event: EventPart,
    pub before: Option<Opening>,
    pub hops: HopParts,
    pub tail: Tail,
}

/// A proof, by its kind.
#[derive(Drop, Debug)]
pub enum Proof {
    /// Kind 1: an event stands at its place.
    Exists(ExistenceProof),
    /// Kind 2: an event precedes another one.
    Precedes(PrecedenceProof),
    /// Kind 3: a thread was received.
    Archived(ThreadProof),
    /// Kind 4: no thread of a key was received.
    Absent(AbsenceProof),
    /// Kind 5: a step has an authenticator.
    Linked(LinkProof),
}
