// The texts of outcomes, by which `run` ends.

ghost use Rattle.std.specs.Prelude.{◌≡◌, IfOk};
ghost use Rattle.tw_app.specs.Outcomes.{TakesMemory, text_of};

use crate::outcome::Outcome;
use std::alloc::Global;
use tw_base::{Bytes, NoMemory};
use tw_chain::Verdict;
use tw_filecmd::Joined;
use tw_reachcmd::print_answer;
use tw_text::{print_fault, print_gap, print_rejected, print_report, print_usage};

/// The text of an outcome that takes memory. Others are written as they are.
pub(crate) fn print(alloc: Global, outcome: &Outcome) -> Result<Bytes, NoMemory>
    requires { TakesMemory outcome.now }
    ensures { IfOk result (λ text. text ≡ text_of outcome.now) }
{
    match outcome {
        Outcome::Judged(Verdict::Yes(report)) => print_report(alloc, report),
        Outcome::Judged(Verdict::No(reason)) => print_rejected(alloc, reason),
        Outcome::Joined(Joined::Unfit { place }) => print_gap(alloc, *place),
        Outcome::Answered(answer) => print_answer(alloc, answer),
        Outcome::BadWords { number } => print_usage(alloc, *number),
        Outcome::Undone(fault) => print_fault(alloc, fault),
        Outcome::Written(_)
        | Outcome::Joined(Joined::Whole(_))
        | Outcome::Made(_)
        | Outcome::Received(_) => unreachable!(),
    }
}
