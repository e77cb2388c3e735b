// Checking evidence of a fork under anchors; `contradicting.rt` judges two files that may contradict each other.

ghost use Rattle.std.specs.Prelude.{◌≡◌, ◌≤◌, IfOk, IsTrue};
ghost use Rattle.tw_base.specs.declared.kinds.limits.TheConstants.{LAST_STEP};
ghost use Rattle.tw_evidence.specs.declared.fork.Fork.{Fork as AnyFork};
ghost use Rattle.tw_evidence.specs.declared.fork.ForkVerdict.TheVariants.{Yes};
ghost use Rattle.tw_evidence.specs.Binding.{BindsFork, IsForked};
ghost use Rattle.tw_evidence.specs.Evidence.{evidence_codec};
ghost use Rattle.tw_evidence.specs.Forks.{IsForkVerdict, are_in_order, conflict_verdict as conflict_verdict_of, conflicts as conflicts_of, fork_of as fork_shown, fork_verdict, link_climbs as link_climbs_of};

use crate::evidence::Evidence;
use crate::fork::{Fork, ForkReason, ForkVerdict};
use crate::reading::read_evidence;
use std::alloc::Global;
use tw_base::{Hasher, NoMemory, ReadFault, Thread, is_same_digest};
use tw_chain::found_of_thread;
use tw_skipproof::climb;

/// Whether both threads are of one service, and the first isn't of the later step.
pub(crate) fn in_order(lower: &Thread, upper: &Thread) -> bool
    ensures { result ≡ are_in_order lower.now upper.now }
{
    lower.from == upper.from && lower.step <= upper.step
}

/// Whether both threads are in order, and the first has another authenticator than the bottom.
fn conflicts(evidence: &Evidence) -> bool
    ensures { result ≡ conflicts_of evidence.now }
{
    let lower = &evidence.first.entry.thread;
    in_order(lower, &evidence.second.entry.thread) && !is_same_digest(&evidence.bottom, &lower.auth)
}

/// Whether the path climbs from the bottom to the second thread.
fn link_climbs<H: Hasher>(evidence: &Evidence) -> bool
    requires { evidence.now.second.entry.thread.step ≤ LAST_STEP }
    ensures climbs { result ≡ link_climbs_of H.dig evidence.now }
    ensures forked { IsTrue result → IsTrue (conflicts_of evidence.now) → IsForked H.dig evidence.now (fork_shown evidence.now) }
{
    let lower = &evidence.first.entry.thread;
    let upper = &evidence.second.entry.thread;
    match climb::<H>(&evidence.link, upper.step, lower.step, &evidence.bottom) {
        None => false,
        Some(top) => is_same_digest(&top, &upper.auth),
    }
}

/// What the evidence shows where it is accepted.
fn fork_of(evidence: &Evidence) -> Fork
    ensures { result ≡ fork_shown evidence.now }
{
    Fork {
        first: evidence.first.entry,
        first_by: evidence.first.at.service,
        second: evidence.second.entry,
        second_by: evidence.second.at.service,
    }
}

/// The verdict on evidence both of whose proofs are accepted.
fn conflict_verdict<H: Hasher>(evidence: &Evidence) -> ForkVerdict
    requires { evidence.now.second.entry.thread.step ≤ LAST_STEP }
    ensures verdict { result ≡ conflict_verdict_of H.dig evidence.now }
    ensures forked { (f : AnyFork) → result ≡ Yes f → IsForked H.dig evidence.now f }
{
    if !conflicts(evidence) {
        return ForkVerdict::No(ForkReason::NoConflict);
    }
    if !link_climbs::<H>(evidence) {
        return ForkVerdict::No(ForkReason::BadLink);
    }
    ForkVerdict::Yes(fork_of(evidence))
}

/// The verdict on the evidence under the anchors.
fn verdict_on<H: Hasher>(evidence: &Evidence, anchors: &[Thread]) -> ForkVerdict
    requires { evidence_codec.Fits evidence.now }
    ensures verdict { result ≡ fork_verdict H.dig anchors.now evidence.now }
    ensures forked { (f : AnyFork) → result ≡ Yes f → IsForked H.dig evidence.now f }
{
    if let Some(reason) = found_of_thread::<H>(&evidence.first, anchors) {
        return ForkVerdict::No(ForkReason::Part { number: 1, reason });
    }
    if let Some(reason) = found_of_thread::<H>(&evidence.second, anchors) {
        return ForkVerdict::No(ForkReason::Part { number: 2, reason });
    }
    conflict_verdict::<H>(evidence)
}

/// The verdict on the bytes of evidence under the anchors: Yes exactly where they spell evidence both of
/// whose proofs are accepted, of threads of one service, the first not of the later step, where the bottom
/// isn't the first thread's authenticator and the path climbs from it to the second thread's; else No with
/// the first reason that stands: `Malformed`; the lowest reason against the first proof, else against the
/// second; `NoConflict`; `BadLink`.
///
/// Where it is Yes, in every family of sound histories that has the anchors of both proofs both entries
/// were received as it tells, and no sound history has both threads; or two different texts of the
/// histories and of the evidence, both of bytes, have one digest.
pub fn check_evidence<H: Hasher>(
    alloc: Global,
    bytes: &[u8],
    anchors: &[Thread],
) -> Result<ForkVerdict, NoMemory>
    // The verdict on bytes under a list of anchors is that on the evidence that they spell, the first reason that stands
    // against it, or `Yes` with both entries where none does; else `Malformed` with the length of the longest front that some
    // evidence begins with.
    ensures verdict { IfOk result (IsForkVerdict H.dig anchors.now bytes.now) }
    // Where the verdict is `Yes`, both threads are of one service, the first not of the later step; both entries were received,
    // by the services and at the steps that it tells, in every list of sound histories that has the anchors held of both proofs;
    // and no sound history has both threads; or two different texts of these histories and of the evidence, both of bytes, have
    // one digest.
    ensures binds { IfOk result (BindsFork H.dig anchors.now bytes.now) }
{
    match read_evidence(alloc, bytes) {
        Ok(evidence) => {
            let verdict = verdict_on::<H>(&evidence, anchors);
            drop(evidence);
            Ok(verdict)
        }
        Err(ReadFault::Malformed { place }) => Ok(ForkVerdict::No(ForkReason::Malformed { place })),
        Err(ReadFault::NoMemory) => Err(NoMemory),
    }
}
