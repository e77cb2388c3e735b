// What a service is asked that only reads; what is asked of an archive's tree is in `tree_proof.rt`.

use super::thread::Key;
use crate::kinds::name::Name;

/// What a service is asked that only reads: one variant for each such call. Steps are counted from 1, and step 0 is what a
/// history begins with. Where `top` is None the last step is meant.
#[derive(Clone, Copy, PartialEq, Eq, Debug, Drop)]
pub enum Question {
    /// The proof of the event at that index (from 0) of a step, under a top.
    Event {
        step: u64,
        index: u64,
        top: Option<u64>,
    },
    /// The proof that a step received a thread of the key, of the steps up to this one, under a top.
    Thread {
        step: u64,
        key: Key,
        top: Option<u64>,
    },
    /// The proof that no step up to this one received a thread of the key, under a top.
    Absent {
        step: u64,
        key: Key,
        top: Option<u64>,
    },
    /// The proof of the authenticator of a step, which may be 0, under a top.
    Link {
        step: u64,
        top: Option<u64>,
    },
    /// The low map file of a step and a peer, under a top.
    Low {
        step: u64,
        peer: Name,
        top: Option<u64>,
    },
    /// The high map file of a top, for a step of the peer.
    High {
        step: u64,
        peer: Name,
        top: Option<u64>,
    },
    /// The message of the last step, linked down to an earlier one, which may be 0.
    ThreadOut {
        since: u64,
    },
    /// The file of the whole history.
    Export,
}
