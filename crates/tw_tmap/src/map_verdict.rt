// The verdict on two map files, which `check_map` answers; `report.rt` makes its text, and other crates its status.

use tw_base::Reason;

/// What is told of a low and a high file.
#[derive(Clone, Copy, PartialEq, Eq, Debug, Drop)]
pub enum MapVerdict {
    /// Both are accepted. `low` is the greatest step of the peer in threads that the service received
    /// before its step, 0 where there is none; `high` the least step of the peer, up to its step `upto`,
    /// that received a thread of the service of the step or of a later one, if any did.
    Yes {
        low: u64,
        high: Option<u64>,
        upto: u64,
    },
    /// They aren't, for the lowest reason that stands; the low file is part 0, and the high file part 1.
    No(Reason),
    /// They don't speak of one step of one service and of one peer.
    Gap,
}
