// Listing hops as legs, round by round.

ghost use Rattle.std.specs.Prelude.{◌≡◌, ◌∷◌, ◌++◌, ◌+◌, ◌<◌, ◌≤◌, ◌^◌, [], false, length, map, take, IfOk, OnOk, true};
ghost use Rattle.std.specs.List.Sorted.{IsPartitionPoint, IsStrictlySortedBy};
ghost use Rattle.std.specs.Ordering.{is_lt};
ghost use Rattle.tw_base.specs.history.Entries.{key_cmp};
ghost use Rattle.tw_atlas.specs.Atlases.{stops as stops_of};
ghost use Rattle.tw_atlas.specs.Marking.{AreMarked, marked_leg};
ghost use Rattle.tw_atlas.specs.Reaching.{goes_on_from, source as source_of, target as target_of};
ghost use Rattle.tw_atlas.specs.Rounds.{hop_cmp, left_over, round_of_hops, rounds};

use crate::atlas::{Leg, LegList};
use crate::ordering::{source, target};
use std::alloc::Global;
use tw_base::{Hop, Key, NoMemory, is_below};

/// The legs that are listed, and the stops: the start, and then where each leg leads.
#[derive(Drop)]
pub(crate) struct Listed {
    pub(crate) legs: LegList,
    pub(crate) stops: Vec<Key>,
}

impl Listed {
    /// No legs, and the start as the only stop.
    fn new(alloc: Global, start: Key) -> Result<Self, NoMemory>
        ensures legs { IfOk result (λ listed. listed.legs ≡ []) }
        ensures stops { IfOk result (λ listed. listed.stops.items ≡ start ∷ []) }
    {
        let mut stops = Vec::new(alloc);
        stops.push(start)?;
        Ok(Listed {
            legs: LegList::new(alloc),
            stops,
        })
    }

    /// Lists the hop as a leg where its mark is this number or a later one: that of the stop that it goes
    /// on from.
    fn list(&mut self, hop: &Hop, mark: Option<u32>, first: usize) -> Result<(), NoMemory>
        ensures legs { OnOk result (self.new.legs ≡ self.old.legs ++ marked_leg first mark hop.now) }
        ensures stops { OnOk result (self.new.stops.items ≡ self.old.stops.items ++ map (λ leg. target_of leg.hop) (marked_leg first mark hop.now)) }
    {
        match mark {
            Some(after) if first <= after as usize => self.push(after, hop),
            _ => Ok(()),
        }
    }

    /// Lists the hop as a leg that goes on from the stop with the number.
    fn push(&mut self, after: u32, hop: &Hop) -> Result<(), NoMemory>
        ensures legs { OnOk result (self.new.legs ≡ self.old.legs ++ record { after = after; hop = hop.now } ∷ []) }
        ensures stops { OnOk result (self.new.stops.items ≡ self.old.stops.items ++ target_of hop.now ∷ []) }
    {
        self.legs.push(Leg { after, hop: *hop })?;
        self.stops.push(target(hop))?;
        Ok(())
    }
}

/// Whether the hop leaves the service of the stop, at its step or later.
pub(crate) fn goes_on(at: &Key, hop: &Hop) -> bool
    ensures { result ≡ goes_on_from at.now hop.now }
{
    hop.from == at.from && at.step <= hop.step
}

/// Lists the hops, which are different and in order, as legs from the start on.
pub(crate) fn legs_in_rounds(alloc: Global, start: Key, hops: &[Hop]) -> Result<Listed, NoMemory>
    requires few { length hops.now + 1 < 2 ^ 32 }
    requires ordered { IsStrictlySortedBy hop_cmp hops.now }
    ensures legs { IfOk result (λ listed. listed.legs ≡ rounds (length hops.now) start [] hops.now) }
    ensures stops { IfOk result (λ listed. listed.stops.items ≡ stops_of start listed.legs) }
    ensures few { IfOk result (λ listed. length listed.stops.items ≤ length hops.now + 1) }
{
    let mut listed = Listed::new(alloc, start)?;
    let mut marks = no_marks(alloc, hops)?;
    let mut first = 0;
    for _i in 0..hops.len() {
        let count = listed.stops.len();
        if first == count {
            return Ok(listed);
        }
        mark_from_all(&mut marks, hops, &listed.stops, first);
        list_marked(&mut listed, hops, &marks, first)?;
        first = count;
    }
    Ok(listed)
}

/// No mark for any of the hops.
fn no_marks(alloc: Global, hops: &[Hop]) -> Result<Vec<Option<u32>>, NoMemory>
    ensures { IfOk result (λ marks. AreMarked [] hops.now marks.items) }
{
    Ok(hops.iter().map(|_| None).collect(alloc)?)
}

/// Marks each hop without a mark with the number of the first stop, from this number on, that it goes on
/// from.
fn mark_from_all(marks: &mut [Option<u32>], hops: &[Hop], stops: &[Key], first: usize)
    requires first { first ≤ length stops.now }
    requires few { length stops.now < 2 ^ 32 }
    requires ordered { IsStrictlySortedBy hop_cmp hops.now }
    requires marked { AreMarked (take first stops.now) hops.now marks.old }
    ensures { AreMarked stops.now hops.now marks.new }
{
    for number in first..stops.len() {
        mark_from(marks, hops, stops, number);
    }
}

/// Marks each hop without a mark that goes on from the stop with the number with it.
fn mark_from(marks: &mut [Option<u32>], hops: &[Hop], stops: &[Key], number: usize)
    requires within { number < length stops.now }
    requires few { length stops.now < 2 ^ 32 }
    requires ordered { IsStrictlySortedBy hop_cmp hops.now }
    requires marked { AreMarked (take number stops.now) hops.now marks.old }
    ensures { AreMarked (take (number + 1) stops.now) hops.now marks.new }
{
    let stop = stops[number];
    for i in first_from(hops, &stop)..hops.len() {
        if marks[i].is_some() || !goes_on(&stop, &hops[i]) {
            return;
        }
        marks[i] = Some(number as u32);
    }
}

/// The place of the first hop that doesn't leave a step below the stop, by service and step; their number
/// where there is none.
fn first_from(hops: &[Hop], stop: &Key) -> usize
    requires { IsStrictlySortedBy hop_cmp hops.now }
    ensures within { result ≤ length hops.now }
    ensures split { IsPartitionPoint (λ hop. is_lt (key_cmp (source_of hop) stop.now) ≡ true) (λ hop. is_lt (key_cmp (source_of hop) stop.now) ≡ false) hops.now result }
{
    hops.partition_point(|hop| is_below(&source(hop), stop))
}

/// Lists the hops that are marked with this number or a later one.
fn list_marked(
    listed: &mut Listed,
    hops: &[Hop],
    marks: &[Option<u32>],
    first: usize,
) -> Result<(), NoMemory>
    requires first { first ≤ length listed.old.stops.items }
    requires marked { AreMarked listed.old.stops.items hops.now marks.now }
    ensures legs { OnOk result (listed.new.legs ≡ listed.old.legs ++ round_of_hops listed.old.stops.items (left_over (take first listed.old.stops.items) hops.now)) }
    ensures stops { OnOk result (listed.new.stops.items ≡ listed.old.stops.items
        ++ map (λ leg. target_of leg.hop) (round_of_hops listed.old.stops.items (left_over (take first listed.old.stops.items) hops.now))) }
{
    for i in 0..hops.len() {
        listed.list(&hops[i], marks[i], first)?;
    }
    Ok(())
}
