// Taking over a history by proofs: what they show is heard (`hearing.rt`), and weighed against it (`weighing.rt`).

ghost use Rattle.std.specs.Prelude.{◌≡◌, ◌<◌, ◌≤◌, ℕ, List, None, length};
ghost use Rattle.tw_base.specs.declared.history.thread.Thread.{Thread as ThreadMeant};
ghost use Rattle.tw_base.specs.history.Sound.{IsSound};
ghost use Rattle.tw_adopt.specs.Adopting.{IsAdoption};
ghost use Rattle.tw_adopt.specs.Binding.{BindsAdoption};
ghost use Rattle.tw_adopt.specs.Hearing.{AreHeard};
ghost use Rattle.tw_adopt.specs.Stops.{IsHistoryTaken};

use crate::adopted::{AdoptFault, Adopted, ProofList};
use crate::front::first_steps;
use crate::hearing::{Heard, hear_all};
use crate::receiving::Receiving;
use crate::weighing::weigh;
use std::alloc::Global;
use tw_base::{Hasher, NoMemory, Thread};
use tw_history::History;

/// The history, taken over up to the thread that was received.
fn taken_by(alloc: Global, history: &History, receiving: &Receiving) -> Result<Adopted, AdoptFault>
    requires { receiving.now.entry.thread.step ≤ length history.now.steps }
    ensures { IsHistoryTaken history.now receiving.now result }
{
    let upto = receiving.entry.thread.step;
    match first_steps(alloc, history, upto) {
        Ok(front) => Ok(Adopted {
            upto,
            by: receiving.by,
            archived: receiving.entry.archived,
            history: front,
        }),
        Err(NoMemory) => Err(AdoptFault::NoMemory),
    }
}

/// How far the history is taken over by proofs of which this was heard.
fn adopt_heard<H: Hasher>(
    alloc: Global,
    history: &History,
    heard: &Heard,
) -> Result<Adopted, AdoptFault>
    requires { heard.now.fault ≡ None → 0 < length heard.now.shown.items }
    ensures { (anchors : List ThreadMeant) (proofs : List (List ℕ)) → AreHeard H.dig anchors history.now 1 proofs heard.now.shown.items heard.now.fault →
        IsAdoption H.dig anchors history.now proofs result }
{
    match weigh::<H>(alloc, history, heard) {
        Ok(last) => taken_by(alloc, history, &last),
        Err(fault) => Err(fault),
    }
}

/// How far the history is taken over by the proofs, of which there is one at least (the command takes 64). Each
/// has to be accepted under the anchors, not in the strict form, as one that a service received a thread of the
/// history's service, of a step at which the history has the thread's authenticator. Then the answer is the
/// history's steps up to the greatest of these steps, with the service that received the thread of that step
/// and the step at which it did, by the first proof of such a thread. Else the first proof that isn't so is told:
/// `Part` where it isn't accepted, with the lowest reason; `Stranger` where it is of another kind, or of a thread
/// of another service; `Differs` where the history has another authenticator, or no such step.
///
/// Where the history is sound, so is what is taken over, and every sound history that has the history's
/// authenticator at its last step is of the same service and has the same contents, times and trees up to there, or
/// two different texts, both of bytes, have one digest.
///
/// The history is passed once, to the last of these steps, and the steps that are taken over are copied.
pub fn adopt<H: Hasher>(
    alloc: Global,
    history: &History,
    anchors: &[Thread],
    proofs: &ProofList,
) -> Result<Adopted, AdoptFault>
    requires { 0 < length proofs.now }
    // A history is taken over exactly where each of the proofs is accepted under the anchors as one that a thread of the
    // history's service was received, and the history has the thread's authenticator at the thread's step: then up to the
    // greatest of these steps, with who received the thread of that step, and when, by the first such proof. Else the fault of
    // the first proof that isn't so is told, with its number.
    ensures answer { IsAdoption H.dig anchors.now history.now proofs.now result }
    // Where a sound history is taken over, what is taken over is sound, and the same as the history up to its last step. Every
    // sound history that has the history's authenticator there is of the same service and has the same contents, times and
    // trees up to there, or two different texts of both, both of bytes, have one digest. One of the proofs shows that the
    // service that is told received the thread of this authenticator, at the step that is told. What any of the proofs shows
    // is so in every list of sound histories that has the threads held of this proof, or two different texts of these
    // histories and of the proof, both of bytes, have one digest.
    ensures binds { IsSound history.now → BindsAdoption H.dig history.now anchors.now proofs.now result }
{
    match hear_all::<H>(alloc, proofs.as_slice(), anchors, history) {
        Ok(heard) => {
            let answer = adopt_heard::<H>(alloc, history, &heard);
            drop(heard);
            answer
        }
        Err(NoMemory) => Err(AdoptFault::NoMemory),
    }
}
