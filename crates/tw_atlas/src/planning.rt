// The call that plans an atlas: different hops (`ordering.rt`), their legs (`rounds.rt`), the arrivals (`arriving.rt`).

ghost use Rattle.std.specs.Prelude.{◌≤◌, length, IfOk};
ghost use Rattle.tw_atlas.specs.Earliest.{IsAtlasPlanned};
ghost use Rattle.tw_atlas.specs.Rounds.{ordered};
ghost use Rattle.tw_atlas.specs.declared.limits.TheConstants.{MOST_RECEIPTS};

use crate::arriving::arrivals_of;
use crate::atlas::Atlas;
use crate::ordering::different_hops;
use crate::rounds::legs_in_rounds;
use std::alloc::Global;
use tw_base::{HopList, Key, Name, NoMemory};

/// The atlas of the hops from a step of a service: the least step of every service to which chains of
/// hops lead from there, with the legs. Equal hops count once; there are at most 4,096 different ones.
/// Hops are what receipts claim: nothing here shows that a service archived what they say. Want of
/// memory is the only refusal.
pub fn plan(alloc: Global, hops: &HopList, from: &Name, step: u64) -> Result<Atlas, NoMemory>
    requires { length (ordered hops.now) ≤ MOST_RECEIPTS }
    // The legs stand in rounds: first the hops that go on from the start, and then those that go on from a leg of an earlier
    // round and aren't listed yet, within a round by service, step, recorder and archived step; each with the least number of
    // a leg, or of the start, that it goes on from. All that is checked of an atlas holds. Each arrival is at the least step
    // of its service to which a chain leads, with the legs as the way there; to a service without an arrival no chain leads.
    ensures { IfOk result (IsAtlasPlanned hops.now (record { from = from.now; step = step })) }
{
    let start = Key { from: *from, step };
    let different = different_hops(alloc, hops)?;
    let planned = legs_in_rounds(alloc, start, &different)?;
    let arrivals = arrivals_of(alloc, &planned.stops)?;
    Ok(Atlas {
        legs: planned.legs,
        arrivals,
    })
}
