// What the library tells of two files that may contradict each other. The program has no command for it.

ghost use Rattle.std.specs.Prelude.{◌≡◌, ◌++◌, IfOk, codes};
// (The check has to know the type of a reason within a verdict.)
ghost use Rattle.tw_base.specs.declared.history.report.Reason.{Reason as AnyReason};
ghost use Rattle.tw_judge.specs.Contradictions.{AreFilesTold, broken_line as broken_line_of, contradict_status, contradict_text, refusal_text};
ghost use Rattle.tw_judge.specs.RuleLines.{conflict_lines};
ghost use Rattle.tw_judge.specs.Telling.{TellsJudged};
ghost use Rattle.sha2.specs.Sha256.{sha256};
ghost use Rattle.tw_contradict.specs.Verdicts.{IsContradictVerdict};

use crate::rule_lines::put_conflict;
use crate::told::{Told, tell_line};
use std::alloc::Global;
use tw_base::{Bytes, NoMemory, Sha, Thread};
use tw_contradict::{Conflict, ContradictReason, ContradictVerdict, contradict};
use tw_evidence::{ForkReason, ForkVerdict, print_fork};
use tw_msg::{AnchorFault, read_anchors};

/// The words by which bad lines of the two anchors files are told.
const FIRST_ANCHORS: &str = "first_anchors";

const SECOND_ANCHORS: &str = "second_anchors";

/// Tells whether two files contradict each other, each judged under the anchors beside it, and the bytes of
/// a link between their lines, which are none where there is no link: 0 where they do, with the rule that is broken
/// and what both say that breaks it; 1 with the first reason that stands; 9 with the first bad line of the first
/// anchors, else of the second. `NoMemory` where no memory was left.
pub fn judge_contradiction(
    alloc: Global,
    first: &[u8],
    first_anchors: &[u8],
    second: &[u8],
    second_anchors: &[u8],
    link: &[u8],
) -> Result<Told, NoMemory>
    // What is told of two files is the status and the text of the verdict on them under the anchors of the lines, with the verdict's
    // theorem, where each line is good; else those of the first bad line of the first anchors file, or else of the second, which the
    // texts name `first_anchors` and `second_anchors`.
    ensures { IfOk result (λ told. AreFilesTold
        (record { first = first.now; first_anchors = first_anchors.now; second = second.now; second_anchors = second_anchors.now; link = link.now })
        (record { first = codes "first_anchors"; second = codes "second_anchors" }) told.status told.text) }
{
    let held = match read_anchors(alloc, first_anchors) {
        Ok(held) => held,
        Err(AnchorFault::BadLine { line }) => return Ok(tell_line(alloc, FIRST_ANCHORS, line)?),
        Err(AnchorFault::NoMemory) => return Err(NoMemory),
    };
    match read_anchors(alloc, second_anchors) {
        Ok(others) => judge_both(
            alloc,
            first,
            held.as_slice(),
            second,
            others.as_slice(),
            link,
        ),
        Err(AnchorFault::BadLine { line }) => Ok(tell_line(alloc, SECOND_ANCHORS, line)?),
        Err(AnchorFault::NoMemory) => Err(NoMemory),
    }
}

/// What is told of both files under these anchors.
fn judge_both(
    alloc: Global,
    first: &[u8],
    anchors: &[Thread],
    second: &[u8],
    others: &[Thread],
    link: &[u8],
) -> Result<Told, NoMemory>
    ensures { IfOk result (λ told. TellsJudged (λ verdict. IsContradictVerdict sha256 anchors.now others.now first.now second.now link.now verdict)
        contradict_status contradict_text told.status told.text) }
{
    match contradict::<Sha>(alloc, first, anchors, second, others, link) {
        Ok(verdict) => Ok(tell_verdict(alloc, &verdict)?),
        Err(NoMemory) => Err(NoMemory),
    }
}

/// What is told of a verdict; `receivers.rt` tells it, too.
pub(crate) fn tell_verdict(alloc: Global, verdict: &ContradictVerdict) -> Result<Told, NoMemory>
    ensures status { IfOk result (λ told. told.status ≡ contradict_status verdict.now) }
    ensures text { IfOk result (λ told. told.text ≡ contradict_text verdict.now) }
{
    match verdict {
        ContradictVerdict::Yes {
            conflict,
            is_joined,
        } => Ok(Told {
            status: 0,
            text: print_broken(alloc, conflict, *is_joined)?,
        }),
        ContradictVerdict::No(reason) => Ok(Told {
            status: 1,
            text: print_refusal(alloc, reason)?,
        }),
    }
}

/// The line of a reason.
fn print_refusal(alloc: Global, reason: &ContradictReason) -> Result<Bytes, NoMemory>
    ensures { IfOk result (λ text. text ≡ refusal_text reason.now) }
{
    let reason = match reason {
        ContradictReason::Part { number, reason } => ForkReason::Part {
            number: *number,
            reason: *reason,
        },
        ContradictReason::NoConflict => ForkReason::NoConflict,
        ContradictReason::BadLink => ForkReason::BadLink,
    };
    print_fork(alloc, &ForkVerdict::No(reason))
}

/// The first line of files that contradict each other.
fn broken_line(is_joined: bool) -> &'static [u8]
    ensures { result.now ≡ broken_line_of is_joined }
{
    if is_joined {
        b"accepted broken-rule\n"
    } else {
        b"accepted broken-rule-or-fork\n"
    }
}

/// The lines of files that contradict each other.
fn print_broken(alloc: Global, conflict: &Conflict, is_joined: bool) -> Result<Bytes, NoMemory>
    ensures { IfOk result (λ text. text ≡ broken_line_of is_joined ++ conflict_lines conflict.now) }
{
    let mut text = Bytes::from_slice(alloc, broken_line(is_joined))?;
    put_conflict(alloc, &mut text, conflict)?;
    Ok(text)
}
