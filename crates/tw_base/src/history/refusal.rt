// Why a service or a follower refuses a call.

ghost use Rattle.std.specs.Prelude.{◌≡◌, ◌↔◌, IsTrue};

use crate::kinds::digest::Digest;
use crate::kinds::failure::NoMemory;
use crate::kinds::name::Name;

/// Why a service refuses a call.
#[derive(Clone, Copy, Debug, PartialEq, Eq, Drop)]
pub enum Refusal {
    /// The bytes are no message: at this byte, counted from 0, none goes on.
    Malformed {
        place: u64,
    },
    /// The message is of the service itself.
    Own,
    /// The archive hasn't the message's step, which is below the last one of its service there. That one is told.
    Stale {
        last: u64,
    },
    /// The archive has another authenticator of the message's step. Both are told.
    Forked {
        step: u64,
        kept: Digest,
        offered: Digest,
    },
    /// The message's link doesn't lead down to the last step of its service in the archive (0 where there is none), or doesn't
    /// climb from the authenticator kept of it, for step 0 the genesis digest. Both are told.
    BadLink {
        last: u64,
        kept: Digest,
    },
    /// The steps asked for aren't there, or not in the order of the call. The last step is told.
    NoStep {
        last: u64,
    },
    /// The step has no event of that index. The number of its events is told.
    NoEvent {
        count: u32,
    },
    /// The archive of the step asked for has no thread of the key: where pages keep a history, no step up to that one received one.
    NoThread,
    /// The archive of the step asked for has a thread of the key, as received by this step: where pages keep a history, it did, and
    /// isn't above the one asked for.
    HasThread {
        archived: u64,
    },
    /// There are more than 1,024 events. Their number is told.
    TooMany {
        count: u64,
    },
    /// An event is longer than 1,024 bytes, and the length of the first such one is told; or there
    /// is none, and together they are longer than 65,536 bytes, and that length is told.
    TooLong {
        bytes: u64,
    },
    /// The service has 2^40 - 1 steps.
    Full,
    /// The given time is below the greatest time of the steps so far. Both are told.
    ClockBack {
        last: u64,
        given: u64,
    },
    /// The page of this number, the first one met that isn't of its kind; or the one read last, where
    /// the event pages of a step don't spell its events, or where the step that is told to have received
    /// a thread is above the last one; or the root's page of an archive, of which one reading contradicts
    /// another. It never comes over a disk that stands for a history.
    BadPage {
        page: u64,
    },
    /// A device call failed; the disk's count of faults rose in this call.
    DiskFault,
    /// An earlier call on this value answered DiskFault: open the disk again.
    Reopen,
    /// There was no memory for what the call needed.
    NoMemory,
}

impl Refusal {
    /// Whether the refusal is a disk fault, after which the disk has to be opened again.
    pub fn is_disk_fault(&self) -> bool
        ensures { IsTrue result ↔ (self.now ≡ Refusal.DiskFault) }
    {
        *self == Refusal::DiskFault
    }
}

impl From<NoMemory> for Refusal {
    ghost use Rattle.tw_base.specs.declared.history.refusal.Refusal.TheVariants.{NoMemory as WantedMemory};

    ghost from_gives = { λ _ refusal. refusal ≡ WantedMemory };

    fn from(_none: NoMemory) -> Self {
        Refusal::NoMemory
    }
}

/// Why a follower refuses a call.
#[derive(Clone, Copy, Debug, PartialEq, Eq, Drop)]
pub enum FollowRefusal {
    /// The bytes are no message. The place of the first one at which no message goes on is told, counted from 0; where
    /// they end too early, that is their length.
    Malformed {
        place: u64,
    },
    /// The message is of this service, which isn't the followed one.
    Other {
        name: Name,
    },
    /// The message's step is below that of the head, which is told.
    Stale {
        last: u64,
    },
    /// The message is of the head's step, and has another authenticator there than the one that is kept.
    Forked {
        step: u64,
        kept: Digest,
        offered: Digest,
    },
    /// The message's link doesn't begin at the head's step, which is told, or doesn't climb from the head's
    /// authenticator, which is kept.
    BadLink {
        last: u64,
        kept: Digest,
    },
    /// The page of this number, the first one met that isn't the page of a head that may stand there. It never comes
    /// over a disk that stands for a list of heads.
    BadPage {
        page: u64,
    },
    /// A device call failed; the disk's count of faults rose in this call.
    DiskFault,
    /// An earlier call on this value answered DiskFault: open the disk again.
    Reopen,
    /// There was no memory for what the call needed.
    NoMemory,
}

impl FollowRefusal {
    /// Whether the refusal is a disk fault, after which the disk has to be opened again.
    pub fn is_disk_fault(&self) -> bool
        ensures { IsTrue result ↔ (self.now ≡ FollowRefusal.DiskFault) }
    {
        *self == FollowRefusal::DiskFault
    }
}

impl From<NoMemory> for FollowRefusal {
    ghost use Rattle.tw_base.specs.declared.history.refusal.FollowRefusal.TheVariants.{NoMemory as WantedMemory};

    ghost from_gives = { λ _ refusal. refusal ≡ WantedMemory };

    fn from(_none: NoMemory) -> Self {
        FollowRefusal::NoMemory
    }
}
