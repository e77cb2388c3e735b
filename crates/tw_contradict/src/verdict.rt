// The verdict on two files that may contradict each other; that on evidence of a fork is in `fork.rt`.

use crate::facts::Conflict;
use tw_base::Reason;

/// Whether two lines of a service are of one history.
#[derive(Clone, Copy, PartialEq, Eq, Debug, Drop)]
pub enum Joining {
    /// They are one line, or a link leads from the later one down to the earlier one.
    Joined,
    /// They are two, and there is no link.
    Apart,
    /// The link isn't one of these lines.
    BadLink,
}

/// Why two files are no evidence of a contradiction.
#[derive(Clone, Copy, Debug, Drop)]
pub enum ContradictReason {
    /// The first file, 1, or the second, 2, isn't accepted: the lowest reason against it. It is `Malformed`
    /// at the place 0 where the bytes are no file that shows an archive, whatever they are.
    Part { number: u64, reason: Reason },
    /// Both are accepted, and are of two services, or break none of the rules that `Rule` lists.
    NoConflict,
    /// They break one, and the link isn't one of their lines.
    BadLink,
}

/// What is told of two files.
#[derive(Clone, Copy, Debug, Drop)]
pub enum ContradictVerdict {
    /// They break a rule: no sound history has both lines, or, where the lines are joined, the later one.
    Yes { conflict: Conflict, is_joined: bool },
    /// They break none, or one isn't accepted, or the link is none of their lines.
    No(ContradictReason),
}
