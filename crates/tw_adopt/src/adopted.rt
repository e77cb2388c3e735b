// How far a history is taken over, or why it isn't.

ghost use Rattle.std.specs.Prelude.{◌≡◌};
ghost use Rattle.tw_adopt.specs.declared.adopted.AdoptFault.TheVariants.{NoMemory as WantedMemory};

use tw_base::{Bytes, Digest, Name, NoMemory, Reason, Sequence};
use tw_history::History;

/// Proofs, each as its bytes.
pub type ProofList = Sequence<Bytes>;

/// How far a history is taken over.
#[derive(Drop, Debug)]
pub struct Adopted {
    /// The last step that is taken over: the greatest of the threads that the proofs show as received.
    pub upto: u64,
    /// The service that received the thread of this step, by the first of the proofs that show one.
    pub by: Name,
    /// The step of that service that received it.
    pub archived: u64,
    /// The steps of the history up to this one.
    pub history: History,
}

/// Why a history isn't taken over: the fault of the first proof that has one, with the proof's number, counted
/// from 1.
#[derive(Clone, Copy, PartialEq, Eq, Debug, Drop)]
pub enum AdoptFault {
    /// The proof isn't accepted under the anchors, for this reason, the lowest that stands against it.
    Part {
        number: u64,
        reason: Reason,
    },
    /// The proof is of another kind than that a thread was received, or the thread is of another service.
    Stranger {
        number: u64,
    },
    /// The history has another authenticator at the thread's step than `held`, the thread's: it has `found`, or
    /// no such step.
    Differs {
        number: u64,
        step: u64,
        held: Digest,
        found: Option<Digest>,
    },
    /// There was no memory for what the call needed.
    NoMemory,
}

impl From<NoMemory> for AdoptFault {
    ghost from_gives = { λ _ fault. fault ≡ WantedMemory };

    fn from(_refused: NoMemory) -> Self {
        AdoptFault::NoMemory
    }
}
