// The two steps that a hop joins, and the different hops of a list, in order.

ghost use Rattle.std.specs.Prelude.{◌≡◌, List, IfOk};
ghost use Rattle.tw_base.specs.declared.history.report.Hop.{Hop};
ghost use Rattle.tw_atlas.specs.Reaching.{source as source_of, target as target_of};
ghost use Rattle.tw_atlas.specs.HopEnds.{hop_between as hop_between_of, hop_entries};
ghost use Rattle.tw_atlas.specs.Rounds.{ordered};

use std::alloc::Global;
use std::collections::BTreeMap;
use tw_base::{Hop, HopList, Key, NoMemory};

/// The step of the service that a hop leaves.
pub(crate) fn source(hop: &Hop) -> Key
    ensures { result ≡ source_of hop.now }
{
    Key {
        from: hop.from,
        step: hop.step,
    }
}

/// The step of the service to which a hop leads.
pub(crate) fn target(hop: &Hop) -> Key
    ensures { result ≡ target_of hop.now }
{
    Key {
        from: hop.by,
        step: hop.archived,
    }
}

/// The hop that leaves the one step and leads to the other.
fn hop_between(from: &Key, to: &Key) -> Hop
    ensures { result ≡ hop_between_of from.now to.now }
{
    Hop {
        from: from.from,
        step: from.step,
        by: to.from,
        archived: to.step,
    }
}

/// The different hops, by service, step, recorder and archived step.
pub(crate) fn different_hops(alloc: Global, hops: &HopList) -> Result<Vec<Hop>, NoMemory>
    ensures { IfOk result (λ different. different.items ≡ ordered hops.now) }
{
    let all = ordered_ends(alloc, hops.as_slice())?;
    hops_between(alloc, &all)
}

/// The hops between the steps that are kept, in their order.
fn hops_between(alloc: Global, all: &BTreeMap<(Key, Key), ()>) -> Result<Vec<Hop>, NoMemory>
    ensures { (given : List Hop) → all.now.entries ≡ hop_entries given → IfOk result (λ hops. hops.items ≡ given) }
{
    let mut hops = Vec::new(alloc);
    for ends in all.keys() {
        hops.push(hop_between(&ends.0, &ends.1))?;
    }
    Ok(hops)
}

/// The steps that the different hops leave, and those to which they lead, in order.
fn ordered_ends(alloc: Global, hops: &[Hop]) -> Result<BTreeMap<(Key, Key), ()>, NoMemory>
    ensures { IfOk result (λ all. all.entries ≡ hop_entries (ordered hops.now)) }
{
    let mut all = BTreeMap::new(alloc);
    for hop in hops {
        all.insert((source(hop), target(hop)), ())?;
    }
    Ok(all)
}
