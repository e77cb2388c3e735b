// Weighing what was heard against the history; tw_audit/src/passing.rt compares histories so with the threads held of a proof.

ghost use Rattle.std.specs.Prelude.{◌≡◌, ◌<◌, ◌≤◌, ℕ, List, ◌∷◌, None, Some, Ok, Err, length, IfOk};
ghost use Rattle.tw_base.specs.declared.history.thread.Thread.{Thread};
ghost use Rattle.tw_base.specs.history.History.{History as HistoryMeant};
ghost use Rattle.tw_adopt.specs.Adopting.{further as further_of, furthest as furthest_of};
ghost use Rattle.tw_adopt.specs.Hearing.{AreHeard, IsWeighed};
ghost use Rattle.tw_adopt.specs.Stops.{AnswersForShown, differing, is_auth_found};
ghost use Rattle.tw_adopt.specs.declared.adopted.AdoptFault.{AdoptFault as FaultMeant};
ghost use Rattle.tw_adopt.specs.declared.receiving.Receiving.{Receiving as ReceivingMeant};

use crate::adopted::AdoptFault;
use crate::hearing::Heard;
use crate::receiving::Receiving;
use crate::stops::stops_of;
use std::alloc::Global;
use tw_base::{Digest, Hasher, NoMemory};
use tw_history::{History, Stop, stop_at};

/// Whether this is the authenticator that was found.
fn is_found(found: &Option<Digest>, held: &Digest) -> bool
    ensures { result ≡ is_auth_found found.now held.now }
{
    match found {
        None => false,
        Some(auth) => *auth == *held,
    }
}

/// The fault of the first proof from which the history differs, by what was kept of it at each step shown.
fn first_differing(shown: &[Receiving], stops: &[Stop]) -> Option<AdoptFault>
    ensures { (dig : List ℕ → List ℕ) (h : HistoryMeant) → AnswersForShown dig h shown.now stops.now → result ≡ differing dig h 1 shown.now }
{
    for (index, one) in shown.iter().enumerate() {
        let thread = &one.entry.thread;
        let found = stop_at(stops, thread.step);
        if !is_found(&found, &thread.auth) {
            return Some(AdoptFault::Differs {
                number: index as u64 + 1,
                step: thread.step,
                held: thread.auth,
                found,
            });
        }
    }
    None
}

/// Of both the one of the later step, and of one step the first.
fn further<'a>(first: &'a Receiving, next: &'a Receiving) -> &'a Receiving
    ensures { result.now ≡ further_of first.now next.now }
{
    if first.entry.thread.step < next.entry.thread.step {
        next
    } else {
        first
    }
}

/// Of what was shown the first that has the greatest step.
fn furthest<'a>(first: &'a Receiving, rest: &'a [Receiving]) -> &'a Receiving
    ensures { result.now ≡ furthest_of first.now rest.now }
{
    let mut best = first;
    for one in rest {
        best = further(best, one);
    }
    best
}

/// Of what was shown, which is something, the first that has the greatest step.
fn furthest_shown(shown: &[Receiving]) -> Receiving
    requires { 0 < length shown.now }
    ensures { (first : ReceivingMeant) (rest : List ReceivingMeant) → shown.now ≡ first ∷ rest → result ≡ furthest_of first rest }
{
    match shown.split_first() {
        Some((first, rest)) => *furthest(first, rest),
        None => unreachable!(),
    }
}

/// What is found of the proofs where the history agrees with all that was shown.
fn agreed(heard: &Heard) -> Result<Receiving, AdoptFault>
    requires { heard.now.fault ≡ None → 0 < length heard.now.shown.items }
    ensures fault { (fault : FaultMeant) → heard.now.fault ≡ Some fault → result ≡ Err fault }
    ensures good { (first : ReceivingMeant) (rest : List ReceivingMeant) → heard.now.fault ≡ None → heard.now.shown.items ≡ first ∷ rest →
        result ≡ Ok (furthest_of first rest) }
{
    match &heard.fault {
        Some(fault) => Err(*fault),
        None => Ok(furthest_shown(heard.shown.as_slice())),
    }
}

/// What is found of the proofs, by what was kept of the history at each step shown. The proof with the fault is behind
/// those that show something, so one of these that differs comes first.
fn decide(heard: &Heard, stops: &[Stop]) -> Result<Receiving, AdoptFault>
    requires { heard.now.fault ≡ None → 0 < length heard.now.shown.items }
    ensures weighed { (dig : List ℕ → List ℕ) (anchors : List Thread) (h : HistoryMeant) (proofs : List (List ℕ)) →
        AreHeard dig anchors h 1 proofs heard.now.shown.items heard.now.fault → AnswersForShown dig h heard.now.shown.items stops.now →
        IsWeighed dig anchors h proofs result }
    ensures inside { (dig : List ℕ → List ℕ) (h : HistoryMeant) → AnswersForShown dig h heard.now.shown.items stops.now →
        IfOk result (λ r. r.entry.thread.step ≤ length h.steps) }
{
    match first_differing(heard.shown.as_slice(), stops) {
        Some(fault) => Err(fault),
        None => agreed(heard),
    }
}

/// What is found of the proofs of which this was heard: what holds the history furthest, or the first fault.
pub(crate) fn weigh<H: Hasher>(
    alloc: Global,
    history: &History,
    heard: &Heard,
) -> Result<Receiving, AdoptFault>
    requires { heard.now.fault ≡ None → 0 < length heard.now.shown.items }
    ensures weighed { (anchors : List Thread) (proofs : List (List ℕ)) →
        AreHeard H.dig anchors history.now 1 proofs heard.now.shown.items heard.now.fault → IsWeighed H.dig anchors history.now proofs result }
    ensures inside { IfOk result (λ r. r.entry.thread.step ≤ length history.now.steps) }
{
    match stops_of::<H>(alloc, history, heard.shown.as_slice()) {
        Ok(stops) => decide(heard, stops.as_slice()),
        Err(NoMemory) => Err(AdoptFault::NoMemory),
    }
}
