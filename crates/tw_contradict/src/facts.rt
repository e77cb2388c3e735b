// What accepted files say of an archive, and which rule two of them show to be broken.

use tw_base::{Digest, Entry, Name, Thread};

/// Threads that no step of a service received up to one step: those of another service above a step of it,
/// up to a last one.
#[derive(Clone, Copy, Debug, Drop)]
pub struct Lack {
    /// The other service.
    pub peer: Name,
    /// The step of it above which the threads are.
    pub above: u64,
    /// The last step of it whose thread is meant.
    pub last: u64,
    /// The service's own step up to which it received none of them.
    pub upto: u64,
}

/// What an accepted file says.
#[derive(Clone, Copy, Debug, Drop)]
pub struct Facts {
    /// The line under which it is accepted.
    pub line: Thread,
    /// The service whose archive is meant, and the step.
    pub service: Name,
    pub step: u64,
    /// The authenticator of the step, and that of the step before it.
    pub auth: Digest,
    pub before: Digest,
    /// The root of the step's events, their count, and the time that its maker claims, if any.
    pub event_root: Digest,
    pub count: u32,
    pub time: Option<u64>,
    /// An entry that the archive has.
    pub entry: Option<Entry>,
    /// Threads that were not received.
    pub lack: Option<Lack>,
}

/// The rules of sound histories that two files can show to be broken, in the order in which they are looked
/// at. One and the other are what both files say.
#[derive(Clone, Copy, PartialEq, Eq, Debug, Drop)]
pub enum Rule {
    /// 1: the one shows an entry which the other lacks, up to the step that received it or a later one.
    Denied,
    /// 2: the one's archive has a thread of its own service.
    OwnThread,
    /// 3: the one's archive has a thread that a later step received.
    ReceivedLater,
    /// 4: both show a thread of one service and step, with two authenticators or received by two steps.
    TwoEntries,
    /// 5: both show a thread that one step received, of two services or steps.
    TwoAtOneStep,
    /// 6: both show a thread of one service, of which the one's is of the lower step and was received later.
    StepsFall,
    /// 7: the one shows a thread that the other's step received, which has events.
    EventsToo,
    /// 8: the one's step is before the other's, and has a later time.
    ClockBack,
    /// 9: both show one step, with two authenticators.
    TwoAuthenticators,
    /// 10: the other shows the step of the one's line, with another authenticator.
    OtherThanLine,
    /// 11: both lines are of one step, and differ.
    TwoLines,
    /// 12: the other shows the step before the one's, with another authenticator than the one has of it.
    OtherBefore,
    /// 13: the step before the one's is that of the other's line, with another authenticator.
    OtherBeforeLine,
    /// 14: the one shows the first step, before which isn't the service's step 0.
    OtherGenesis,
    /// 15: the one's step has no events, and another root than that of none; or it has some, and that root.
    OtherEmptyRoot,
}

/// A rule that is broken by what two files say of one service, which is the one whose rule it is: the files
/// in the order in which the rule speaks of them.
#[derive(Clone, Copy, Debug, Drop)]
pub struct Conflict {
    pub rule: Rule,
    pub one: Facts,
    pub other: Facts,
}
