// Whether two files contradict each other, by what each says (`judging.rt`), the rules that they break by it (`rules.rt`) and whether
// their lines are of one history (`linking.rt`); `checking.rt` judges evidence of a fork.

ghost use Rattle.std.specs.Prelude.{IfOk};
ghost use Rattle.tw_contradict.specs.Linking.{IsVerdictOn};
ghost use Rattle.tw_contradict.specs.Verdicts.{IsContradictVerdict};

use crate::facts::Facts;
use crate::judging::{Judged, judge_file};
use crate::linking::joining_of;
use crate::rules::conflict_of;
use crate::verdict::{ContradictReason, ContradictVerdict, Joining};
use std::alloc::Global;
use tw_base::{Hasher, NoMemory, Thread};

/// The verdict on two files that say this.
fn verdict_on<H: Hasher>(
    alloc: Global,
    one: &Facts,
    other: &Facts,
    link: &[u8],
) -> Result<ContradictVerdict, NoMemory>
    ensures { IfOk result (IsVerdictOn H.dig one.now other.now link.now) }
{
    let Some(conflict) = conflict_of::<H>(one, other) else {
        return Ok(ContradictVerdict::No(ContradictReason::NoConflict));
    };
    match joining_of::<H>(alloc, &one.line, &other.line, link)? {
        Joining::Joined => Ok(ContradictVerdict::Yes {
            conflict,
            is_joined: true,
        }),
        Joining::Apart => Ok(ContradictVerdict::Yes {
            conflict,
            is_joined: false,
        }),
        Joining::BadLink => Ok(ContradictVerdict::No(ContradictReason::BadLink)),
    }
}

/// The verdict on the bytes of two files, each under anchors of its own, and of the link between their
/// lines, which may have no bytes: `Yes` exactly where both are accepted, what they say of one service
/// breaks one of the rules (`Rule`), and a link with bytes leads from the later of the two lines to the
/// earlier one. It tells then the first of the rules that is broken, and whether the lines are joined:
/// whether they are one, or there is such a link.
///
/// Else it tells the first reason that stands: the lowest against the first file, or against the second;
/// that they break none of the rules; that the link isn't one of their lines.
///
/// Where it is `Yes`, no sound history has the later line, where they are joined, and else none has both; or two
/// different texts of the histories, of the files and of the link, all of bytes, have one digest.
pub fn contradict<H: Hasher>(
    alloc: Global,
    first: &[u8],
    anchors: &[Thread],
    second: &[u8],
    others: &[Thread],
    link: &[u8],
) -> Result<ContradictVerdict, NoMemory>
    // The verdict on two files is `Yes` exactly where both are accepted, each under its own anchors, what they say of one service breaks
    // one of the rules, in one order or the other, and a link, where there is one, joins their lines; it tells the first rule that they
    // break, what both say, and whether the lines are joined. In every list of sound histories that has the later line, where they are
    // joined, and else both, two different texts of the histories, of the files and of the link, all of bytes, have one digest: so no
    // sound history has these lines, or texts clash. Else it tells the first reason that stands: `NoConflict` exactly where both are
    // accepted, and are of two services or break none of the rules.
    ensures { IfOk result (IsContradictVerdict H.dig anchors.now others.now first.now second.now link.now) }
{
    let one = match judge_file::<H>(alloc, first, anchors)? {
        Judged::Accepted(facts) => facts,
        Judged::Rejected(reason) => {
            return Ok(ContradictVerdict::No(ContradictReason::Part { number: 1, reason }));
        }
    };
    match judge_file::<H>(alloc, second, others)? {
        Judged::Accepted(other) => Ok(verdict_on::<H>(alloc, &one, &other, link)?),
        Judged::Rejected(reason) => Ok(ContradictVerdict::No(ContradictReason::Part {
            number: 2,
            reason,
        })),
    }
}
