// How a list of events is split.

ghost use Rattle.std.specs.Prelude.{◌≡◌, ◌^◌, ◌<◌, ◌≤◌};
ghost use Rattle.tw_base.specs.declared.kinds.limits.TheConstants.{MOST_EVENTS};
ghost use Rattle.tw_base.specs.events.EventTree.{largest_power_below};

use crate::kinds::link_level::power_of_two;

/// How many of 2 to 1,024 events are in the left half: the largest power of two smaller than their
/// number.
pub fn left_count(count: usize) -> usize
    requires more { 1 < count }
    requires few { count ≤ MOST_EVENTS }
    ensures value { result ≡ largest_power_below count }
    ensures less { result < count }
    ensures some { 0 < result }
{
    power_of_two((count - 1).ilog2() as u8) as usize
}
