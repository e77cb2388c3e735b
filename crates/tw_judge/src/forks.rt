// What the library tells of the evidence of a fork: the status and the text of the command `checkfork`, which is in
// tw_reachcmd/src/check_fork.rt.

ghost use Rattle.std.specs.Prelude.{◌≡◌, IfOk};
// (The check has to know the type of a reason within a verdict.)
ghost use Rattle.tw_base.specs.declared.history.report.Reason.{Reason as AnyReason};
ghost use Rattle.tw_judge.specs.Forks.{IsForkTold, IsForkVerdictUnder, fork_status};
ghost use Rattle.tw_judge.specs.Telling.{TellsJudged};
ghost use Rattle.tw_evidence.specs.Texts.{fork_text};

use crate::told::{Told, tell_line};
use std::alloc::Global;
use tw_base::{NoMemory, Sha, Thread};
use tw_evidence::{ForkVerdict, check_evidence, print_fork};
use tw_msg::{AnchorFault, read_anchors};

/// Judges the bytes of the evidence of a fork under those of an anchors file of this name. The status and
/// the text are those of the program's `checkfork`: 0 with both threads, 1 with the first reason that
/// stands, 9 with the first bad line of the anchors. `NoMemory` where no memory was left.
pub fn judge_fork(
    alloc: Global,
    file: &str,
    evidence: &[u8],
    anchors: &[u8],
) -> Result<Told, NoMemory>
    // What is told of evidence is the status and the text of the verdict on its bytes under the anchors of the lines, with the
    // verdict's theorem, where each line is good; else those of the first bad line.
    ensures { IfOk result (λ told. IsForkTold file.now evidence.now anchors.now told.status told.text) }
{
    match read_anchors(alloc, anchors) {
        Ok(held) => judge_under(alloc, evidence, held.as_slice()),
        Err(AnchorFault::BadLine { line }) => Ok(tell_line(alloc, file, line)?),
        Err(AnchorFault::NoMemory) => Err(NoMemory),
    }
}

/// What is told of the evidence under these anchors.
fn judge_under(alloc: Global, evidence: &[u8], anchors: &[Thread]) -> Result<Told, NoMemory>
    ensures { IfOk result (λ told. TellsJudged (IsForkVerdictUnder anchors.now evidence.now) fork_status fork_text told.status told.text) }
{
    match check_evidence::<Sha>(alloc, evidence, anchors) {
        Ok(verdict) => {
            let text = print_fork(alloc, &verdict)?;
            Ok(Told {
                status: status_of(&verdict),
                text,
            })
        }
        Err(NoMemory) => Err(NoMemory),
    }
}

/// The status of a verdict, as `answer_status` of tw_reachcmd has it.
fn status_of(verdict: &ForkVerdict) -> u8
    ensures { result ≡ fork_status verdict.now }
{
    match verdict {
        ForkVerdict::Yes(_) => 0,
        ForkVerdict::No(_) => 1,
    }
}
