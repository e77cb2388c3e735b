// What a step of a history records.

use crate::history::received_thread::ReceivedThread;
use crate::history::step_events::StepEvents;

/// What a step records.
#[derive(Drop, Debug)]
pub enum Content {
    /// Events, at most 1,024, each of at most 1,024 bytes.
    Events(StepEvents),
    /// The thread of another service, at a step of 1 to 2^40 - 1.
    Received(ReceivedThread),
}
