// The arrivals of an atlas: the least step of each service at which its hops arrive.

ghost use Rattle.std.specs.Prelude.{◌≡◌, ◌<◌, ◌^◌, ◌++◌, ◌∷◌, ◌≢◌, [], List, ℕ, length, IfOk, OnOk, Some};
ghost use Rattle.std.specs.BTreeMap.{IsOrdered, values};
ghost use Rattle.std.specs.Cmp.Lexicographic.{slice_cmp};
ghost use Rattle.std.specs.Ordering.{nat_cmp};
ghost use Rattle.tw_base.specs.declared.history.thread.Key.{Key};
ghost use Rattle.tw_atlas.specs.Atlases.{AreArrivals};
ghost use Rattle.tw_atlas.specs.BestSoFar.{AreBest, is_arrival_lower, kept_for};

use crate::atlas::{Arrival, ArrivalList};
use std::alloc::Global;
use std::collections::BTreeMap;
use tw_base::{Key, Name, NoMemory};

/// The least step of each service that has a stop, with the first stop that has it, by name.
pub(crate) fn arrivals_of(alloc: Global, stops: &[Key]) -> Result<ArrivalList, NoMemory>
    requires { length stops.now < 2 ^ 32 }
    ensures { IfOk result (AreArrivals stops.now) }
{
    let best = best_arrivals(alloc, stops)?;
    by_name(alloc, &best)
}

/// The arrivals that are kept, in the order of their names.
fn by_name(alloc: Global, best: &BTreeMap<Name, Arrival>) -> Result<ArrivalList, NoMemory>
    ensures all { IfOk result (λ arrivals. arrivals ≡ values best.now) }
    ensures ordered { IsOrdered (slice_cmp nat_cmp) best.now }
{
    let mut arrivals = ArrivalList::new(alloc);
    for arrival in best.values() {
        arrivals.push(*arrival)?;
    }
    Ok(arrivals)
}

/// The least step of each service that has a stop, with the first stop that has it.
fn best_arrivals(alloc: Global, stops: &[Key]) -> Result<BTreeMap<Name, Arrival>, NoMemory>
    requires { length stops.now < 2 ^ 32 }
    ensures { IfOk result (λ best. AreBest stops.now (kept_for best)) }
{
    let mut best = BTreeMap::new(alloc);
    for number in 0..stops.len() {
        offer(&mut best, &stops[number], number as u32)?;
    }
    Ok(best)
}

/// Keeps the stop with the number as the arrival of its service, where it is the first or at a lower step.
fn offer(best: &mut BTreeMap<Name, Arrival>, stop: &Key, number: u32) -> Result<(), NoMemory>
    ensures { OnOk result ((before : List Key) → length before ≡ number → AreBest before (kept_for best.old) → AreBest (before ++ stop.now ∷ []) (kept_for best.new)) }
{
    if !is_lower(kept_of(best, &stop.from), stop.step) {
        return Ok(());
    }
    keep(
        best,
        Arrival {
            service: stop.from,
            step: stop.step,
            leg: number,
        },
    )
}

/// The arrival that is kept for the service; None where there is none.
fn kept_of(best: &BTreeMap<Name, Arrival>, service: &Name) -> Option<Arrival>
    ensures { result ≡ kept_for best.now service.now }
{
    best.get(service).copied()
}

/// Whether the step is below that of the arrival, where there is one.
fn is_lower(kept: Option<Arrival>, step: u64) -> bool
    ensures { result ≡ is_arrival_lower step kept }
{
    match kept {
        Some(arrival) => step < arrival.step,
        None => true,
    }
}

/// Keeps the arrival as that of its service.
fn keep(best: &mut BTreeMap<Name, Arrival>, arrival: Arrival) -> Result<(), NoMemory>
    ensures here { OnOk result (kept_for best.new arrival.service ≡ Some arrival) }
    ensures others { OnOk result ((service : List ℕ) → service ≢ arrival.service → kept_for best.new service ≡ kept_for best.old service) }
{
    best.insert(arrival.service, arrival)?;
    Ok(())
}
