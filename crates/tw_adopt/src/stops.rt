// A history's authenticators at the steps that proofs show, by one pass over it.

ghost use Rattle.std.specs.Prelude.{◌≡◌, ◌≤◌, map, IfOk};
ghost use Rattle.tw_base.specs.kinds.Lists.{Each};
ghost use Rattle.tw_adopt.specs.Stops.{AnswersForShown};

use crate::receiving::Receiving;
use std::alloc::Global;
use tw_base::{Hasher, NoMemory, Unwritten};
use tw_history::{History, Stop, count_of_steps, stops_to};

/// The steps that were shown.
fn steps_shown(alloc: Global, shown: &[Receiving]) -> Result<Vec<u64>, NoMemory>
    ensures { IfOk result (λ steps. steps.items ≡ map (λ t. t.entry.thread.step) shown.now) }
{
    let mut steps = Vec::new(alloc);
    for one in shown {
        steps.push(one.entry.thread.step)?;
    }
    Ok(steps)
}

/// The step, or the one that was shown where that is later and at most the count.
fn later(step: u64, shown: u64, count: u64) -> u64
    requires { step ≤ count }
    ensures beyond { step ≤ result }
    ensures within { result ≤ count }
    ensures reached { shown ≤ count → shown ≤ result }
{
    if step < shown && shown <= count {
        shown
    } else {
        step
    }
}

/// The greatest of the steps shown that are at most the count, 0 where none is.
fn last_shown(steps: &[u64], count: u64) -> u64
    ensures within { result ≤ count }
    ensures all { Each (λ step. step ≤ count → step ≤ result) steps.now }
{
    let mut last = 0;
    for step in steps {
        last = later(last, *step, count);
    }
    last
}

/// The authenticators of the history at the steps shown, among others, by one pass over it to the last of
/// these steps that it has.
pub(crate) fn stops_of<H: Hasher>(
    alloc: Global,
    history: &History,
    shown: &[Receiving],
) -> Result<Vec<Stop>, NoMemory>
    ensures { IfOk result (λ stops. AnswersForShown H.dig history.now shown.now stops.items) }
{
    let steps = steps_shown(alloc, shown)?;
    let last = last_shown(steps.as_slice(), count_of_steps(history));
    let mut texts = Unwritten::<H>::new();
    let stops = stops_to(alloc, history, steps.as_slice(), last, &mut texts)?;
    Ok(stops)
}
