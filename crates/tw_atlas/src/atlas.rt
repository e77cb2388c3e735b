// An atlas as a value: which hops are taken, one after another, and where they arrive; the command is in
// tw_reachcmd/src/atlas.rt.

use tw_base::{Hop, Name, Sequence};

/// A hop that is taken, and the number of the leg that it goes on from; 0 where it goes on from the
/// start. Legs are numbered from 1, and each goes on from the start or an earlier one; in a plan it is
/// the one with the least number.
#[derive(Clone, Copy, PartialEq, Eq, Debug, Drop)]
pub struct Leg {
    pub after: u32,
    pub hop: Hop,
}

/// The legs of an atlas. A plan lists them in rounds: the first has the hops that go on from the start,
/// each other one those that go on from a leg of an earlier round, and were in no round yet. Within a
/// round they stand by service, step, recorder and archived step.
pub type LegList = Sequence<Leg>;

/// The least step of the service that is reached, and the first leg that leads to it; 0 where it is
/// the start's own step.
#[derive(Clone, Copy, PartialEq, Eq, Debug, Drop)]
pub struct Arrival {
    pub service: Name,
    pub step: u64,
    pub leg: u32,
}

/// The arrivals of an atlas, by name, one for each service that is reached.
pub type ArrivalList = Sequence<Arrival>;

/// Where hops lead from a start.
#[derive(Drop, Debug)]
pub struct Atlas {
    pub legs: LegList,
    pub arrivals: ArrivalList,
}
