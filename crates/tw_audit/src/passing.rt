// Passing histories, with the authenticators at the steps of the threads held, and the first of these threads that the
// histories don't have; tw_adopt passes a history (stops.rt) and compares it with what proofs show (weighing.rt) so.

ghost use Rattle.std.specs.Prelude.{◌≡◌, ℕ, List, IfOk, OnOk};
ghost use Rattle.tw_base.specs.history.Family.{family_texts};
ghost use Rattle.tw_base.specs.history.History.{History as HistoryMeant};
ghost use Rattle.tw_base.specs.history.HistoryTexts.{history_texts};
ghost use Rattle.tw_base.specs.kinds.Lists.{Each, In};
ghost use Rattle.tw_audit.specs.Auditing.{is_found};
ghost use Rattle.tw_audit.specs.Stops.{AnswersAll, AnswersForHeld, found_by_stops, missing_in};
ghost use Rattle.tw_base.specs.kinds.Handing.{Hands};

use std::alloc::Global;
use tw_base::{Digest, Name, NoMemory, Thread, Transcript};
use tw_history::{History, Stop, count_of_steps, stop_at, stops_to};

/// What is kept of a history that was passed: its service, and its authenticators at the steps of the
/// threads held of that service, among others.
#[derive(Drop)]
pub(crate) struct Passed {
    pub(crate) service: Name,
    pub(crate) stops: Vec<Stop>,
}

/// The steps of the threads held of the service.
fn steps_held(alloc: Global, held: &[Thread], service: &Name) -> Result<Vec<u64>, NoMemory>
    ensures { IfOk result (λ steps. Each (λ t. t.from ≡ service.now → In t.step steps.items) held.now) }
{
    let mut steps = Vec::new(alloc);
    for thread in held {
        if thread.from == *service {
            steps.push(thread.step)?;
        }
    }
    Ok(steps)
}

/// Passes a history, whose texts are handed on, each hashed once.
fn pass_history<T: Transcript>(
    alloc: Global,
    history: &History,
    held: &[Thread],
    texts: &mut T,
) -> Result<Passed, NoMemory>
    ensures answers { IfOk result (AnswersForHeld T.dig held.now history.now) }
    ensures took { OnOk result (Hands T.took texts.old texts.new (history_texts T.dig history.now)) }
{
    let steps = steps_held(alloc, held, history.service())?;
    let last = count_of_steps(history);
    let stops = stops_to(alloc, history, steps.as_slice(), last, texts)?;
    Ok(Passed {
        service: *history.service(),
        stops,
    })
}

/// Passes the histories, one after another.
pub(crate) fn pass_histories<T: Transcript>(
    alloc: Global,
    histories: &[History],
    held: &[Thread],
    texts: &mut T,
) -> Result<Vec<Passed>, NoMemory>
    ensures answers { IfOk result (λ passed. AnswersAll T.dig histories.now held.now passed.items) }
    ensures took { OnOk result (Hands T.took texts.old texts.new (family_texts T.dig histories.now)) }
{
    let mut passed = Vec::new(alloc);
    for history in histories {
        let one = pass_history(alloc, history, held, texts)?;
        passed.push(one)?;
    }
    Ok(passed)
}

/// What the first history of the thread's service has at its step.
fn found_in(passed: &[Passed], thread: &Thread) -> Option<Digest>
    ensures { result ≡ found_by_stops passed.now thread.now }
{
    for one in passed {
        if one.service == thread.from {
            return stop_at(one.stops.as_slice(), thread.step);
        }
    }
    None
}

/// Whether this is the thread's authenticator.
fn agrees(found: &Option<Digest>, thread: &Thread) -> bool
    ensures { result ≡ is_found found.now thread.now }
{
    match found {
        None => false,
        Some(auth) => *auth == thread.auth,
    }
}

/// A thread held that the histories don't have, and what they have at its step.
#[derive(Clone, Copy, Drop)]
pub(crate) struct Missing {
    pub(crate) held: Thread,
    pub(crate) found: Option<Digest>,
}

/// The first of the threads held that the histories don't have.
pub(crate) fn first_missing(held: &[Thread], passed: &[Passed]) -> Option<Missing>
    ensures { (dig : List ℕ → List ℕ) (family : List HistoryMeant) → AnswersAll dig family held.now passed.now →
        result ≡ missing_in dig family held.now }
{
    for thread in held {
        let found = found_in(passed, thread);
        if !agrees(&found, thread) {
            return Some(Missing {
                held: *thread,
                found,
            });
        }
    }
    None
}
