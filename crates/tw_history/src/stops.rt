// Passing a history and keeping its authenticators at steps asked for; `pass.rt` goes on from step to step.

ghost use Rattle.std.specs.Prelude.{◌≡◌, ◌<◌, ◌≤◌, length, IfOk, OnOk};
ghost use Rattle.tw_base.specs.history.HistoryTexts.{texts_to};
ghost use Rattle.tw_base.specs.kinds.Handing.{Hands};
ghost use Rattle.tw_base.specs.kinds.Lists.{Each};
ghost use Rattle.tw_history.specs.PassSteps.{HandsOn, HasPassed};
ghost use Rattle.tw_history.specs.Stops.{HasStops, auth_to, stopped_at};

use crate::history::History;
use crate::pass::{Digests, auth_passed, begin_pass, pass_steps};
use std::alloc::Global;
use tw_base::{Digest, NoMemory, Transcript};

/// A stop of a pass over a history: the step, and the history's authenticator there.
#[derive(Clone, Copy, Drop)]
pub struct Stop {
    pub step: u64,
    pub auth: Digest,
}

/// The step, or the one asked for where that is between.
fn nearer(step: u64, asked: u64, after: u64) -> u64
    requires { after < step }
    ensures beyond { after < result }
    ensures within { result ≤ step }
    ensures between { asked < result → asked ≤ after }
{
    if after < asked && asked < step {
        asked
    } else {
        step
    }
}

/// The least of the steps asked for behind this one, and at most the last.
fn next_stop(asked: &[u64], after: u64, last: u64) -> u64
    requires { after < last }
    ensures beyond { after < result }
    ensures within { result ≤ last }
    ensures between { Each (λ step. step < result → step ≤ after) asked.now }
{
    let mut next = last;
    for step in asked {
        next = nearer(next, *step, after);
    }
    next
}

/// Passes the history from its beginning to the last step, and stops at each step asked for.
fn pass_to<T: Transcript>(
    history: &History,
    asked: &[u64],
    last: u64,
    digests: &mut Digests,
    stops: &mut Vec<Stop>,
    texts: &mut T,
) -> Result<(), NoMemory>
    requires inside { last ≤ length history.now.steps }
    requires passed { HasPassed T.dig history.now 0 digests.old }
    requires stops { HasStops T.dig history.now asked.now stops.old.items 0 }
    ensures stops { OnOk result (HasStops T.dig history.now asked.now stops.new.items last) }
    ensures took { OnOk result (HandsOn T.dig history.now T.took texts.old texts.new 0 last) }
{
    let mut at = 0;
    while at < last {
        let next = next_stop(asked, at, last);
        pass_steps(history, at, next, digests, texts)?;
        stops.push(Stop {
            step: next,
            auth: auth_passed(digests),
        })?;
        at = next;
    }
    Ok(())
}

/// The history's authenticators at the steps asked for up to the last, among others, by one pass from its
/// beginning to there; the transcript takes what these hash, each text once. Takes no more memory than the
/// pass and a stop for each step asked for.
pub fn stops_to<T: Transcript>(
    alloc: Global,
    history: &History,
    asked: &[u64],
    last: u64,
    texts: &mut T,
) -> Result<Vec<Stop>, NoMemory>
    requires { last ≤ length history.now.steps }
    // What was kept tells the history's authenticator at each step asked for, and none behind the last.
    ensures stops { IfOk result (λ stops. Each (λ step. stopped_at stops.items step ≡ auth_to T.dig history.now last step) asked.now) }
    // The texts up to the last step are handed on.
    ensures took { OnOk result (Hands T.took texts.old texts.new (texts_to T.dig history.now last)) }
{
    let mut digests = begin_pass(alloc, history, texts)?;
    let mut stops = Vec::new(alloc);
    stops.push(Stop {
        step: 0,
        auth: auth_passed(&digests),
    })?;
    pass_to(history, asked, last, &mut digests, &mut stops, texts)?;
    Ok(stops)
}

/// The authenticator that was kept at the step.
pub fn stop_at(stops: &[Stop], step: u64) -> Option<Digest>
    // It is that of the first stop at the step, and none where there is no stop.
    ensures { result ≡ stopped_at stops.now step }
{
    for stop in stops {
        if stop.step == step {
            return Some(stop.auth);
        }
    }
    None
}
