// The limits of steps, times, events, histories, anchors and hops, and the size of a page; one crate's own are in its `limits.rt`.

/// The greatest number of a step: 2^40 - 1. Steps are numbered from 1; where a step field may be 0, it speaks of the
/// time before the first step.
pub const LAST_STEP: u64 = 0xff_ffff_ffff;

/// The greatest time that a step may claim, in seconds: 2^40 - 1.
pub const LAST_TIME: u64 = 0xff_ffff_ffff;

/// The most events of a step.
pub const MOST_EVENTS: u64 = 1024;

/// The most bytes of an event.
pub const MOST_EVENT_BYTES: u64 = 1024;

/// The most bytes that the events of a step have together.
pub const MOST_STEP_BYTES: u64 = 65_536;

/// The most bytes of a history file: 64 MiB.
pub const MOST_HISTORY_BYTES: u64 = 67_108_864;

/// The most anchors that a verifier holds.
pub const MOST_ANCHORS: u64 = 64;

/// The most hops of a proof from event to event.
pub const MOST_HOPS: u64 = 64;

/// The size of a page in bytes.
pub const PAGE_SIZE: usize = 4096;
