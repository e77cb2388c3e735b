// Hearing what proofs show of a history's service.

ghost use Rattle.std.specs.Prelude.{◌≡◌, IfOk};
ghost use Rattle.tw_adopt.specs.Adopting.{receiving_of as receiving_of_claim};
ghost use Rattle.tw_adopt.specs.Hearing.{AreHeard, IsHeard, heard_of as heard_of_verdict};
ghost use Rattle.tw_chain.specs.declared.verdict.Verdict.TheVariants.{Yes};

use crate::adopted::AdoptFault;
use crate::receiving::Receiving;
use std::alloc::Global;
use tw_base::{Bytes, Claim, Hasher, Name, NoMemory, Report, Thread};
use tw_chain::Verdict;
use tw_history::History;
use tw_verifier::verify;

/// What was heard of proofs: what the first of them show, one after another, and the fault of the one behind
/// these; None where each shows something.
#[derive(Drop)]
pub(crate) struct Heard {
    pub(crate) shown: Vec<Receiving>,
    pub(crate) fault: Option<AdoptFault>,
}

/// What the claim says of the service.
fn receiving_of(claim: &Claim, service: &Name) -> Option<Receiving>
    ensures { result ≡ receiving_of_claim service.now claim.now }
{
    match claim {
        Claim::Archived {
            service: by,
            entry,
            ..
        } => {
            if entry.thread.from == *service {
                Some(Receiving {
                    by: *by,
                    entry: *entry,
                })
            } else {
                None
            }
        }
        Claim::Exists(_) | Claim::Precedes { .. } | Claim::Absent { .. } | Claim::Linked { .. } => {
            None
        }
    }
}

/// What the report on the proof with this number shows of the service.
fn heard_in(report: Report, number: u64, service: &Name) -> Result<Receiving, AdoptFault>
    ensures { result ≡ heard_of_verdict number service.now (Yes report) }
{
    match receiving_of(&report.claim, service) {
        Some(shown) => Ok(shown),
        None => Err(AdoptFault::Stranger { number }),
    }
}

/// What the verdict on the proof with this number shows of the service.
fn heard_of(verdict: Verdict, number: u64, service: &Name) -> Result<Receiving, AdoptFault>
    ensures { result ≡ heard_of_verdict number service.now verdict }
{
    match verdict {
        Verdict::Yes(report) => heard_in(report, number, service),
        Verdict::No(reason) => Err(AdoptFault::Part { number, reason }),
    }
}

/// What the proof with this number shows of the history's service, or its fault.
fn hear<H: Hasher>(
    alloc: Global,
    bytes: &[u8],
    number: u64,
    anchors: &[Thread],
    history: &History,
) -> Result<Result<Receiving, AdoptFault>, NoMemory>
    ensures { IfOk result (IsHeard H.dig anchors.now history.now number bytes.now) }
{
    let verdict = verify::<H>(alloc, bytes, anchors, false)?;
    Ok(heard_of(verdict, number, history.service()))
}

/// What the proofs show of the history's service, up to the first that has a fault.
pub(crate) fn hear_all<H: Hasher>(
    alloc: Global,
    proofs: &[Bytes],
    anchors: &[Thread],
    history: &History,
) -> Result<Heard, NoMemory>
    ensures { IfOk result (λ heard. AreHeard H.dig anchors.now history.now 1 proofs.now heard.shown.items heard.fault) }
{
    let mut shown = Vec::with_capacity(alloc, proofs.len())?;
    for (index, proof) in proofs.iter().enumerate() {
        match hear::<H>(alloc, proof.as_slice(), index as u64 + 1, anchors, history)? {
            Ok(one) => shown.push(one)?,
            Err(fault) => {
                return Ok(Heard {
                    shown,
                    fault: Some(fault),
                });
            }
        }
    }
    Ok(Heard { shown, fault: None })
}
