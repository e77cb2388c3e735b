// Paths as values: the links that lead from a step down to an earlier one. (The audit paths of events are in tw_events.)

use tw_base::{Digest, Labels, Sequence};

/// One link of a path, as the step that it leaves holds it: the step's datum, and the labels of
/// its links at the other levels, from level 0 on.
#[derive(Drop, Debug)]
pub struct Link {
    pub datum: Digest,
    pub others: Labels,
}

/// The links of a path.
pub type LinkList = Sequence<Link>;

/// A path from a step down to an earlier one of the same history: the links of the greedy path,
/// from the upper step downwards. From a step to itself, or to a later one, it has no links.
#[derive(Drop, Debug)]
pub struct Path {
    pub links: LinkList,
}
