// What a verifier answers, as a value: the claim of an accepted proof, or the reason against it; tw_text/src/report.rt writes it.

ghost use Rattle.std.specs.Prelude.{◌≡◌};
ghost use Rattle.tw_base.specs.history.Reasons.{reason_number, reason_place};

use crate::history::thread::{Entry, Key, Place, Threads};
use crate::kinds::digest::Digest;
use crate::kinds::name::Name;
use crate::kinds::sequence::{Bytes, Sequence};

/// A hop of a chain from service to service: step `archived` of service `by` received the
/// thread of service `from` at step `step`.
#[derive(Clone, Copy, PartialEq, Eq, Debug, Drop)]
pub struct Hop {
    pub from: Name,
    pub step: u64,
    pub by: Name,
    pub archived: u64,
}

/// The hops of a chain.
pub type HopList = Sequence<Hop>;

/// An event that a proof shows at its place, and the time in seconds that the step's maker claims
/// for it, where it claims one. Nothing shows that a claimed time is true.
#[derive(Drop, Debug)]
pub struct Seen {
    pub place: Place,
    pub event: Bytes,
    pub time: Option<u64>,
}

/// What an accepted proof claims.
#[derive(Drop, Debug)]
pub enum Claim {
    /// The event stands at its place in the history of its service.
    Exists(Seen),
    /// Both events stand at their places, and the report's hops lead from the first one's step to the
    /// step before the second one's; without hops, both are of one service, and the first one's step
    /// is the lower one.
    Precedes {
        first: Seen,
        second: Seen,
    },
    /// The entry's thread was received at its archived step of the service's history, which is at
    /// most this step.
    Archived {
        service: Name,
        step: u64,
        entry: Entry,
    },
    /// No step of the service's history up to this one received a thread of this key.
    Absent {
        service: Name,
        step: u64,
        key: Key,
    },
    /// The service's history has this authenticator at this step, of 0 to the top.
    Linked {
        service: Name,
        step: u64,
        top: u64,
        auth: Digest,
    },
}

/// What is reported of an accepted proof: its claim, the hops between the events that it claims, and
/// the threads of these hops that the proof binds to no anchor, which are carried. Both lists stand in
/// the order from the first event to the second, and are empty where the claim is of another kind.
#[derive(Drop, Debug)]
pub struct Report {
    pub claim: Claim,
    pub hops: HopList,
    pub carried: Threads,
}

/// Why a proof isn't accepted. Of several reasons that stand the one with the lowest number is
/// answered, and of its parts or places the lowest.
///
/// A proof from event to event over h hops has the parts 0 to h + 1, in the order of its bytes. Part 0
/// is the head: the second event with its path and opening, and the opening of the step before it.
/// Part t, from 1 to h, is the t-th hop, which is the t-th from the second event backwards: its tree
/// proof, the path of its bind, and the opening behind it. Part h + 1 is the first event with its path
/// and opening. A proof of another kind is part 0 as a whole.
#[derive(Clone, Copy, PartialEq, Eq, Debug, Drop)]
pub enum Reason {
    /// 1: the bytes are no proof. The place is that of the first byte, counted from 0, at which no
    /// proof goes on, and the number of bytes where they end too early.
    Malformed { place: u64 },
    /// 2: a step above the one that it is proved under, an archived step above the step whose archive
    /// shows it, or an opening of step 0.
    BadOrder,
    /// 3: no anchor of this service and step is held. Of several that aren't held it is the first in
    /// the order of the bytes.
    NotHeld { service: Name, step: u64 },
    /// 4: a path doesn't climb from its bottom to its known upper end. Where the bottom is what an
    /// opening computes, since the proof doesn't hold the authenticator of its step before, a false
    /// opening counts here.
    BadPath { part: u8 },
    /// 5: an opening computes another authenticator than the proof already holds for its step.
    BadOpening { part: u8 },
    /// 6: an event doesn't compute the event root of its opening.
    BadEvent { part: u8 },
    /// 7: a tree proof doesn't give the answer that is claimed.
    BadTree { part: u8 },
    /// 8: so many threads are carried, and none may be.
    Carried { count: u8 },
}

impl Reason {
    /// The number of the reason, by which reasons are ordered.
    pub fn number(&self) -> u64
        ensures { result ≡ reason_number self.now }
    {
        match self {
            Reason::Malformed { .. } => 1,
            Reason::BadOrder => 2,
            Reason::NotHeld { .. } => 3,
            Reason::BadPath { .. } => 4,
            Reason::BadOpening { .. } => 5,
            Reason::BadEvent { .. } => 6,
            Reason::BadTree { .. } => 7,
            Reason::Carried { .. } => 8,
        }
    }

    /// The place, the part or the count that the reason tells, by which reasons of one number are
    /// ordered; 0 where it tells none.
    pub fn place(&self) -> u64
        ensures { result ≡ reason_place self.now }
    {
        match self {
            Reason::Malformed { place } => *place,
            Reason::BadPath { part }
            | Reason::BadOpening { part }
            | Reason::BadEvent { part }
            | Reason::BadTree { part } => *part as u64,
            Reason::Carried { count } => *count as u64,
            Reason::BadOrder | Reason::NotHeld { .. } => 0,
        }
    }
}
