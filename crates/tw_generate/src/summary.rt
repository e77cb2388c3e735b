// The summary of a schedule; tw_text prints its line.

ghost use Rattle.std.specs.Prelude.{◌≡◌, IfOk};
ghost use Rattle.tw_generate.specs.Line.{summary_line};

use std::alloc::Global;
use tw_base::{Bytes, NoMemory};
use tw_text::print_generated;

/// What is told of a schedule's histories.
#[derive(Clone, Copy, Drop)]
pub(crate) struct Summary {
    /// The audit stands; else texts clash.
    pub stands: bool,
    /// The first of gamma's steps that received alpha's last step or a later one.
    pub high: Option<u64>,
    /// The number of the proof's hops.
    pub hops: u64,
    /// The last of gamma's steps that alpha received before its last step.
    pub low: u64,
    /// The number of steps of alpha.
    pub alpha: u64,
    /// The number of steps of beta.
    pub beta: u64,
    /// The number of steps of gamma.
    pub gamma: u64,
    /// How many threads all three received.
    pub threads: u64,
}

/// The line of the summary.
pub(crate) fn print_summary(alloc: Global, summary: &Summary) -> Result<Bytes, NoMemory>
    ensures { IfOk result (λ text. text ≡ summary_line summary.now) }
{
    let steps = [summary.alpha, summary.beta, summary.gamma];
    print_generated(
        alloc,
        summary.stands,
        summary.high,
        summary.hops,
        summary.low,
        steps,
        summary.threads,
    )
}
