// How much of an events file is read.

ghost use Rattle.std.specs.Prelude.{◌≡◌};

/// The most bytes that an events file may have: 1 MiB, which is more than a step can take. What a step can't take is refused
/// by the service, with its number.
pub const EVENTS_LIMIT: usize = 1_048_576;

/// Of an events file so many bytes are read: one more than it may have.
pub(crate) const EVENTS_READ: usize = EVENTS_LIMIT + 1;

/// The limit of an events file, by number.
pub fn limit_laws()
    // `EVENTS_LIMIT`, the most bytes of an events file, is 1,048,576.
    ensures events { EVENTS_LIMIT ≡ 1048576 }
{}
