// The sizes of event pages and of what stands in them.

ghost use Rattle.std.specs.Prelude.{◌≡◌};

/// The most bytes of a stream that an event page has: the page's 4,096, but for its kind, the step and
/// its number.
pub const MOST_PIECE_BYTES: u64 = 4085;

/// The most bytes of the stream of a step's events: those of 1,024 lengths of 4 bytes each, and the
/// 65,536 of the events themselves.
pub const MOST_STREAM_BYTES: u64 = 69_632;

/// The most links of a step: one for each level from 0 on, of steps below 2^40.
pub const MOST_LINKS: u64 = 40;

/// The sizes of pages of steps and events, by number.
pub fn limit_laws()
    // `MOST_PIECE_BYTES`, the most bytes of a stream that an event page has, is 4,085.
    ensures piece { MOST_PIECE_BYTES ≡ 4085 }
    // `MOST_STREAM_BYTES`, the most bytes of the stream of a step, is 69,632.
    ensures stream { MOST_STREAM_BYTES ≡ 69632 }
    // `MOST_LINKS`, the most links of a step, is 40.
    ensures links { MOST_LINKS ≡ 40 }
{}
