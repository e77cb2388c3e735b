// Checking an atlas, line by line, for whoever is handed one; no command does.

ghost use Rattle.std.specs.Prelude.{◌≡◌, ◌↔◌, IsTrue, map, slice_get};
ghost use Rattle.std.specs.List.{list_all, list_any};
ghost use Rattle.tw_atlas.specs.Reaching.{goes_on_from, target as target_of};
ghost use Rattle.tw_atlas.specs.Atlases.{IsAtlas, stops as stops_of};
ghost use Rattle.tw_atlas.specs.Checks.{atlas_passes, are_closed as are_closed_of, are_grounded as are_grounded_of, are_once as are_once_of, all_arrive as all_arrive_of, arrives as arrives_of, follows as follows_of, is_among_hops, is_below_first as is_below_first_of, is_best as is_best_of, is_better as is_better_of, is_grounded as is_grounded_of, is_listed, is_reached as is_reached_of, is_same as is_same_of, names_rise as names_rise_of, none_better as none_better_of, stands as stands_of};
ghost use Rattle.tw_atlas.specs.Earliest.{IsEarliest};

use crate::atlas::{Arrival, Atlas, Leg};
use crate::ordering::target;
use crate::rounds::goes_on;
use std::cmp::Ordering;
use tw_base::{Hop, HopList, Key, Name};

/// Whether what is told is an atlas of the hops from a step of a service: no hop is a leg twice; each
/// leg is one of the hops, and goes on from the start or an earlier leg as its `after` says; each hop
/// that goes on from the start or a leg is a leg; and the arrivals stand by name, one for each service
/// on which a leg ends and for the start's own, each with the least step and the first leg that has it.
/// The legs need not stand in rounds. Takes no memory.
pub fn check_atlas(hops: &HopList, from: &Name, step: u64, atlas: &Atlas) -> bool
    // It is true exactly where what is told is an atlas of the hops from that step: no hop is a leg twice; each leg is one of the hops, and
    // goes on from the start or an earlier leg as it says; each hop that goes on from the start or a leg is a leg; and the arrivals stand
    // by name, one for each service on which a leg ends and for the start's own, each with the least step and the first leg that has it.
    ensures exact { IsTrue result ↔ IsAtlas hops.now (record { from = from.now; step = step }) atlas.now }
    // Where it is true, each arrival is at the least step of its service to which a chain leads, with the legs as the way
    // there, and to a service without an arrival no chain leads.
    ensures earliest { IsTrue result → IsEarliest hops.now (record { from = from.now; step = step }) atlas.now }
{
    let start = Key { from: *from, step };
    all_pass(hops.as_slice(), &start, atlas)
}

/// Whether all checks pass.
fn all_pass(given: &[Hop], start: &Key, atlas: &Atlas) -> bool
    ensures { result ≡ atlas_passes given.now start.now atlas.now }
{
    let legs = atlas.legs.as_slice();
    let arrivals = atlas.arrivals.as_slice();
    are_once(legs)
        && are_grounded(given, start, legs)
        && are_closed(given, start, legs)
        && names_rise(arrivals)
        && are_best(start, legs, arrivals)
        && all_arrive(start, legs, arrivals)
}

/// Whether the hops are the same.
fn is_same(a: &Hop, b: &Hop) -> bool
    ensures { result ≡ is_same_of a.now b.now }
{
    a.from == b.from && a.step == b.step && a.by == b.by && a.archived == b.archived
}

/// Whether no hop is a leg twice.
fn are_once(legs: &[Leg]) -> bool
    ensures { result ≡ are_once_of legs.now }
{
    for i in 0..legs.len() {
        if is_leg(&legs[i + 1..], &legs[i].hop) {
            return false;
        }
    }
    true
}

/// Whether the hop is one of the legs.
fn is_leg(legs: &[Leg], hop: &Hop) -> bool
    ensures { result ≡ is_listed legs.now hop.now }
{
    legs.iter().any(|leg| is_same(&leg.hop, hop))
}

/// Whether the hop is one of these.
fn is_one_of(hops: &[Hop], hop: &Hop) -> bool
    ensures { result ≡ is_among_hops hops.now hop.now }
{
    hops.iter().any(|other| is_same(other, hop))
}

/// The stop with the number: the start, or where the leg with the number leads.
fn stop_at(start: &Key, legs: &[Leg], number: usize) -> Option<Key>
    ensures { result ≡ slice_get (stops_of start.now legs.now) number }
{
    if number == 0 {
        Some(*start)
    } else {
        stop_behind(legs, number - 1)
    }
}

/// Where the leg with the number `k` + 1 leads.
fn stop_behind(legs: &[Leg], k: usize) -> Option<Key>
    ensures { result ≡ slice_get (map (λ leg. target_of leg.hop) legs.now) k }
{
    if k < legs.len() {
        Some(target(&legs[k].hop))
    } else {
        None
    }
}

/// Whether each leg is one of the hops, and goes on from the start or an earlier leg as it says.
fn are_grounded(given: &[Hop], start: &Key, legs: &[Leg]) -> bool
    ensures { result ≡ are_grounded_of given.now start.now legs.now 0 legs.now }
{
    for k in 0..legs.len() {
        if !is_grounded(given, start, legs, k, &legs[k]) {
            return false;
        }
    }
    true
}

/// Whether the leg with the number `k` + 1 is one of the hops, and goes on from the start or an earlier leg
/// as it says.
fn is_grounded(given: &[Hop], start: &Key, legs: &[Leg], k: usize, leg: &Leg) -> bool
    ensures { result ≡ is_grounded_of given.now start.now legs.now k leg.now }
{
    leg.after as usize <= k
        && follows(stop_at(start, legs, leg.after as usize), &leg.hop)
        && is_one_of(given, &leg.hop)
}

/// Whether there is such a stop, and the hop goes on from it.
fn follows(stop: Option<Key>, hop: &Hop) -> bool
    ensures { result ≡ follows_of stop hop.now }
{
    match stop {
        Some(at) => goes_on(&at, hop),
        None => false,
    }
}

/// Whether each hop that goes on from the start or a leg is a leg.
fn are_closed(given: &[Hop], start: &Key, legs: &[Leg]) -> bool
    ensures { result ≡ are_closed_of start.now legs.now given.now }
{
    given
        .iter()
        .all(|hop| !is_reached(start, legs, hop) || is_leg(legs, hop))
}

/// Whether the hop goes on from the start or a leg.
fn is_reached(start: &Key, legs: &[Leg], hop: &Hop) -> bool
    ensures { result ≡ is_reached_of start.now legs.now hop.now }
{
    goes_on(start, hop) || is_reached_by_leg(legs, hop)
}

/// Whether the hop goes on from a leg.
fn is_reached_by_leg(legs: &[Leg], hop: &Hop) -> bool
    ensures { result ≡ list_any (λ leg. goes_on_from (target_of leg.hop) hop.now) legs.now }
{
    legs.iter().any(|leg| goes_on(&target(&leg.hop), hop))
}

/// Whether each name is above the one before.
fn names_rise(arrivals: &[Arrival]) -> bool
    ensures { result ≡ names_rise_of arrivals.now }
{
    for i in 0..arrivals.len() {
        if !is_below_first(&arrivals[i], &arrivals[i + 1..]) {
            return false;
        }
    }
    true
}

/// Whether the name is below that of the first of these, if there are any.
fn is_below_first(arrival: &Arrival, rest: &[Arrival]) -> bool
    ensures { result ≡ is_below_first_of arrival.now rest.now }
{
    match rest.first() {
        Some(next) => arrival.service.cmp(&next.service) == Ordering::Less,
        None => true,
    }
}

/// Whether each arrival has the least step among the stops of its service, and the first stop that has it.
fn are_best(start: &Key, legs: &[Leg], arrivals: &[Arrival]) -> bool
    ensures { result ≡ list_all (is_best_of (stops_of start.now legs.now)) arrivals.now }
{
    arrivals.iter().all(|arrival| is_best(start, legs, arrival))
}

/// Whether the arrival has the least step among the stops of its service, and the first stop that has it.
fn is_best(start: &Key, legs: &[Leg], arrival: &Arrival) -> bool
    ensures { result ≡ is_best_of (stops_of start.now legs.now) arrival.now }
{
    stands(stop_at(start, legs, arrival.leg as usize), arrival) && none_better(start, legs, arrival)
}

/// Whether the stop is where the arrival is.
fn stands(stop: Option<Key>, arrival: &Arrival) -> bool
    ensures { result ≡ stands_of stop arrival.now }
{
    match stop {
        Some(at) => at.from == arrival.service && at.step == arrival.step,
        None => false,
    }
}

/// Whether no stop of the arrival's service is at a lower step, and none before its own at the same.
fn none_better(start: &Key, legs: &[Leg], arrival: &Arrival) -> bool
    ensures { result ≡ none_better_of 0 (stops_of start.now legs.now) arrival.now }
{
    if is_better(0, start, arrival) {
        return false;
    }
    for k in 0..legs.len() {
        if is_better(k as u64 + 1, &target(&legs[k].hop), arrival) {
            return false;
        }
    }
    true
}

/// Whether the stop with the number is of the arrival's service, and at a lower step, or at the same one and
/// before its own.
fn is_better(number: u64, at: &Key, arrival: &Arrival) -> bool
    ensures { result ≡ is_better_of number at.now arrival.now }
{
    at.from == arrival.service
        && (at.step < arrival.step || (at.step == arrival.step && number < arrival.leg as u64))
}

/// Whether each service that has a stop has an arrival.
fn all_arrive(start: &Key, legs: &[Leg], arrivals: &[Arrival]) -> bool
    ensures { result ≡ all_arrive_of start.now legs.now arrivals.now }
{
    arrives(arrivals, &start.from) && legs_arrive(legs, arrivals)
}

/// Whether each service on which a leg ends has an arrival.
fn legs_arrive(legs: &[Leg], arrivals: &[Arrival]) -> bool
    ensures { result ≡ list_all (λ leg. arrives_of arrivals.now leg.hop.by) legs.now }
{
    legs.iter().all(|leg| arrives(arrivals, &leg.hop.by))
}

/// Whether the service has an arrival.
fn arrives(arrivals: &[Arrival], service: &Name) -> bool
    ensures { result ≡ arrives_of arrivals.now service.now }
{
    arrivals.iter().any(|arrival| arrival.service == *service)
}
