// The fields of a step page as a value; their bytes are in `page.rt`.

use tw_base::{Digest, Root, Thread};

/// Where the events of a step stand: the first of its event pages, which follow one another, and
/// the length in bytes of what they hold. A step of no events has page 0 and length 0.
#[derive(Clone, Copy, Default, Debug, PartialEq, Eq, Drop)]
pub struct StreamRef {
    pub page: u64,
    pub size: u32,
}

/// What a step's page tells besides the step's number and its links: the number of its events, which
/// is 0 where it received a thread, their stream and their root; the archive after it; the thread that
/// it received, if any; its authenticator; and the time that its maker claims, if any.
#[derive(Clone, Copy, Debug, PartialEq, Eq, Drop)]
pub struct StepFields {
    pub count: u32,
    pub stream: StreamRef,
    pub event_root: Digest,
    pub archive: Root,
    pub received: Option<Thread>,
    pub auth: Digest,
    pub time: Option<u64>,
}
