// What is told of a step whose page was read, and what a proof of it needs.

use tw_base::{Digest, Root, Thread};
use tw_skipproof::{Opening, Path};
use tw_steppage::{StepRef, StreamRef};

/// A step: its number, its page, the link to the step before it, the root and the number of its events
/// (0 where it received a thread), the time that its maker claims, if any, the archive after it, the
/// thread that it received, if any, its authenticator, its opening, and where its events stand.
#[derive(Drop, Debug)]
pub struct StepInfo {
    pub step: u64,
    pub page: u64,
    pub before: StepRef,
    pub event_root: Digest,
    pub count: u32,
    pub time: Option<u64>,
    pub archive: Root,
    pub received: Option<Thread>,
    pub auth: Digest,
    pub opening: Opening,
    pub stream: StreamRef,
}

/// A step under a top: the path from the top down to the step, and the step.
#[derive(Drop, Debug)]
pub struct StepProof {
    pub path: Path,
    pub info: StepInfo,
}

/// A step's authenticator under a top: the path from the top down to the step, and the authenticator
/// that its last link leads to.
#[derive(Drop, Debug)]
pub struct StepLink {
    pub path: Path,
    pub auth: Digest,
}

/// Where the events of a step stand: the step and its page, their number, and their stream in event
/// pages.
#[derive(Clone, Copy, Drop)]
pub(crate) struct EventsAt {
    pub step: u64,
    pub page: u64,
    pub count: u32,
    pub stream: StreamRef,
}
