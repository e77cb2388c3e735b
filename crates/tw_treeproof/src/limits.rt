// How many nodes a tree proof may have above the asked place.

/// The most nodes above the node of an entry that a proof is of: a way down to it has one more.
pub const MOST_ABOVE_ENTRY: u64 = 127;

/// The most nodes above an empty place that a proof is of.
pub const MOST_ABOVE_PLACE: u64 = 128;
