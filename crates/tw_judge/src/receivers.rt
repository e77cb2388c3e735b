// What the library tells of the evidence of a fork as of two files of whoever received both threads. The program has no command for it.

ghost use Rattle.std.specs.Prelude.{◌≡◌, Ok, IfOk};
// (The check has to know the type of a reason within a verdict.)
ghost use Rattle.tw_base.specs.declared.history.report.Reason.{Reason as AnyReason};
ghost use Rattle.tw_evidence.specs.declared.fork.ForkReason.TheVariants.{Malformed as NoEvidence};
ghost use Rattle.tw_evidence.specs.Texts.{reason_text};
ghost use Rattle.tw_judge.specs.Receivers.{IsReceiverTold, IsSidesVerdict, sides_status, sides_text};
ghost use Rattle.tw_judge.specs.Telling.{TellsJudged};

use crate::contradictions::tell_verdict;
use crate::receiver::contradict_received;
use crate::told::{Told, tell_line};
use std::alloc::Global;
use tw_base::{NoMemory, ReadFault, Sha, Thread};
use tw_evidence::{ForkReason, ForkVerdict, print_fork};
use tw_msg::{AnchorFault, read_anchors};

/// Tells whether the service that received both threads of the evidence of a fork broke a rule, by both proofs
/// and the bytes of a link between their lines, which are none where there is no link, under the bytes of an
/// anchors file of this name: the status and the text are those of both proofs as two files that may contradict
/// each other; 1 with the first byte at which no evidence goes on; 9 with the first bad line of the anchors.
/// `NoMemory` where no memory was left.
pub fn judge_receiver(
    alloc: Global,
    file: &str,
    evidence: &[u8],
    anchors: &[u8],
    link: &[u8],
) -> Result<Told, NoMemory>
    // What is told of evidence put to its receiver is the status and the text of the verdict on both of its proofs under the anchors of
    // the lines, with the verdict's theorem, where each line is good; else those of the first bad line.
    ensures { IfOk result (λ told. IsReceiverTold file.now evidence.now anchors.now link.now told.status told.text) }
{
    match read_anchors(alloc, anchors) {
        Ok(held) => judge_sides(alloc, evidence, held.as_slice(), link),
        Err(AnchorFault::BadLine { line }) => Ok(tell_line(alloc, file, line)?),
        Err(AnchorFault::NoMemory) => Err(NoMemory),
    }
}

/// What is told of the evidence under these anchors.
fn judge_sides(
    alloc: Global,
    evidence: &[u8],
    anchors: &[Thread],
    link: &[u8],
) -> Result<Told, NoMemory>
    ensures { IfOk result (λ told. TellsJudged (IsSidesVerdict anchors.now evidence.now link.now) sides_status sides_text told.status told.text) }
{
    match contradict_received::<Sha>(alloc, evidence, anchors, link) {
        Ok(verdict) => Ok(tell_verdict(alloc, &verdict)?),
        Err(ReadFault::Malformed { place }) => Ok(tell_malformed(alloc, place)?),
        Err(ReadFault::NoMemory) => Err(NoMemory),
    }
}

/// What is told of bytes that are no evidence from this one on.
fn tell_malformed(alloc: Global, place: u64) -> Result<Told, NoMemory>
    ensures status { IfOk result (λ told. told.status ≡ 1) }
    ensures text { IfOk result (λ told. told.text ≡ reason_text (NoEvidence place)) }
{
    Ok(Told {
        status: 1,
        text: print_fork(alloc, &ForkVerdict::No(ForkReason::Malformed { place }))?,
    })
}
