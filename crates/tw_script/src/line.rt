// The lines of scripts as values, one variant for each form.

use tw_base::{Bytes, EventList, Name, Question, Sequence};

/// A line of a script, with the values of its words in their order. A number of a message or of a file counts those that
/// the script's lines make, from 1.
#[derive(Drop, Debug)]
pub enum Line {
    /// `service NAME`: makes a service.
    Service {
        name: Name,
    },
    /// `hostile NAME`: declares a hostile name, which is no service's.
    Hostile {
        name: Name,
    },
    /// `append NAME BYTES ..`: appends a step with these events to the service's history.
    Append {
        service: Name,
        events: EventList,
    },
    /// `send NAME SINCE`: makes the next message, of the service's last step, since a step.
    Send {
        service: Name,
        since: u64,
    },
    /// `inject NAME BYTES`: makes the next message of these bytes, in a hostile name.
    Inject {
        name: Name,
        bytes: Bytes,
    },
    /// `deliver N NAME`: gives a message to the service.
    Deliver {
        message: u64,
        service: Name,
    },
    /// `drop N`: a message is lost.
    Lose {
        message: u64,
    },
    /// `crash NAME CALL CHOICE`: the service's next append or delivery is stopped at this device call, counted from 1.
    Crash {
        service: Name,
        call: u64,
        choice: CrashChoice,
    },
    /// `prove NAME ..`: makes the next file, a proof of the service's history, of an event, a thread, an absence or a link.
    Prove {
        service: Name,
        asked: Question,
    },
    /// `join N N ..`: joins files, at least two, into the next one.
    Join {
        files: Sequence<u64>,
    },
    /// `anchor NAME STEP`: holds the service's authenticator at a step, from 1 to 2^40 - 1.
    Anchor {
        service: Name,
        step: u64,
    },
    /// `verify N`: judges a file under the anchors held.
    Verify {
        file: u64,
    },
}

/// What a crash leaves of each page that was written since the last good barrier.
#[derive(Clone, Copy, PartialEq, Eq, Drop, Debug)]
pub enum CrashChoice {
    /// `0`: its old bytes, with the old page count.
    Old,
    /// `1`: its new bytes.
    New,
    /// `2`: zeros.
    Zeros,
    /// `3`: bytes of the value 1.
    Ones,
}
