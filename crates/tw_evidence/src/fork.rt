// The verdict on evidence of a fork; that on two files that may contradict each other is in `verdict.rt`.

use tw_base::{Entry, Name, Reason};

/// What accepted evidence shows: two entries of threads of one service, with the services whose archives
/// have them.
#[derive(Clone, Copy, PartialEq, Eq, Debug, Drop)]
pub struct Fork {
    pub first: Entry,
    pub first_by: Name,
    pub second: Entry,
    pub second_by: Name,
}

/// Why evidence isn't accepted. Of several reasons that stand the first one in this order is answered.
#[derive(Clone, Copy, PartialEq, Eq, Debug, Drop)]
pub enum ForkReason {
    /// 1: the bytes are no evidence. The place is that of the first byte, counted from 0, at which no
    /// evidence goes on, and the number of bytes where they end too early.
    Malformed { place: u64 },
    /// 10: the proof of this number, 1 or 2, isn't accepted under the anchors, for this reason, the lowest
    /// that stands against it.
    Part { number: u64, reason: Reason },
    /// 11: the threads are of different services, the first one is of the later step, or it has the
    /// bottom for its authenticator.
    NoConflict,
    /// 12: the path doesn't climb from the bottom at the first thread's step to the second thread.
    BadLink,
}

/// What is answered of evidence.
#[derive(Clone, Copy, PartialEq, Eq, Debug, Drop)]
pub enum ForkVerdict {
    /// It is accepted: no one history of the service has both threads.
    Yes(Fork),
    /// It isn't, for the first reason that stands.
    No(ForkReason),
}
