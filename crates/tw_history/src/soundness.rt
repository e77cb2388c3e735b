// Whether a history is sound, step by step; what each rule looks at is in the files of `soundness/`.

ghost use Rattle.std.specs.Prelude.{◌≡◌, ℕ, suc, ◌<◌, ◌≤◌, length, Some, Err, IfOk, MatchResult};
ghost use Rattle.tw_base.specs.history.History.{History as HistoryMeant, Step as StepMeant, step_at};
ghost use Rattle.tw_base.specs.history.Limits.{IsTimeWithinLimits};
ghost use Rattle.tw_base.specs.history.Sound.{IsSound, IsSoundStep};
ghost use Rattle.tw_history.specs.JudgingSteps.{HasJudged, TellsFirst, TellsUnkept, first_of};
ghost use Rattle.tw_history.specs.Tables.{IsInRange, IsTable, step_of, steps_of_table};
ghost use Rattle.tw_history.specs.Refusals.{TellsRule};
ghost use Rattle.tw_base.specs.declared.kinds.limits.TheConstants.{LAST_STEP};

mod greatest;
mod keys;
mod nodes;
mod summary;
mod threads;
mod times;

use crate::fault::HistoryFault;
use crate::history::History;
use crate::step::{Node, Step};
use greatest::GreatestSteps;
use nodes::{names_known, plant};
use std::alloc::Global;
use summary::Summary;
use threads::{count, events_fit, is_later, is_of_another, limits_law, received_thread};
use times::{doesnt_fall, greatest_with};
use tw_base::{NoMemory, see_name};

/// What is kept of the steps of a history that were judged, by which the next one is.
#[derive(Drop)]
pub(crate) struct Judged {
    /// Of each tree by its number: 0 is the empty tree.
    summaries: Vec<Summary>,
    /// How many threads were received.
    threads: u64,
    /// Of each service the greatest step that was received.
    greatest: GreatestSteps,
    /// The greatest time, 0 where there is none.
    time: u64,
}

/// Whether the history keeps the seven rules; Ok exactly where it is sound. Unsound tells the least step
/// that breaks a rule, and then the least rule that it breaks:
///
/// 1. Each new node names nodes before it and a step, up to this one, that received a thread; the root
///    is 0 or a node so far.
/// 2. The keys of each new node's tree rise strictly.
/// 3. The root's tree has as many entries as threads were received so far.
/// 4. A received thread is of another service.
/// 5. Its step is above every earlier one of that service.
/// 6. The events of the step have together at most 65,536 bytes.
/// 7. Its time isn't below that of an earlier step.
///
/// The time is near linear in the history: no tree is walked, each node is judged by what its sides
/// hold.
pub fn is_sound(alloc: Global, history: &History) -> Result<(), HistoryFault>
    // A history is judged sound exactly where it is; else the least step that breaks a rule is told, and the least rule
    // that it breaks. The rules are those of the definitions, over whole trees.
    ensures sound { MatchResult result (λ _. IsSound history.now) (TellsRule history.now) }
{
    let judged = Judged::of_none(alloc)?;
    // The 16 bytes of a name are letters and then zeros, as the limits of a sound history ask.
    see_name(&history.name);
    judge_steps(
        history,
        history.steps.as_slice(),
        history.nodes.as_slice(),
        judged,
    )
}

impl Judged {
    /// What is kept before the first step.
    fn of_none(alloc: Global) -> Result<Self, NoMemory>
        ensures { IfOk result (λ judged. (h : HistoryMeant) → HasJudged h 0 judged) }
    {
        let mut summaries = Vec::new(alloc);
        summaries.push(Summary::of_none())?;
        Ok(Judged {
            summaries,
            threads: 0,
            greatest: GreatestSteps::new(alloc),
            time: 0,
        })
    }
}

/// Judges the steps of the history, each with the next of the nodes.
fn judge_steps(
    history: &History,
    steps: &[Step],
    nodes: &[Node],
    judged: Judged,
) -> Result<(), HistoryFault>
    requires table { history.now.steps ≡ steps_of_table steps.now nodes.now }
    requires ranges { IsTable steps.now nodes.now }
    requires judged { HasJudged history.now 0 judged }
    ensures { MatchResult result
        (λ _. (i : ℕ) (s : StepMeant) → step_at history.now (suc i) ≡ Some s → IsSoundStep history.now i s)
        (TellsRule history.now) }
{
    let mut judged = judged;
    let mut rest = nodes;
    for (earlier, step) in steps.iter().enumerate() {
        let (fresh, more) = rest.split_at(step.fresh as usize);
        judge_step(history, earlier as u64, step, fresh, &mut judged)?;
        rest = more;
    }
    Ok(())
}

/// Judges the step after the earlier ones, with its new nodes, and keeps what the next one needs.
fn judge_step(
    history: &History,
    earlier: u64,
    step: &Step,
    fresh: &[Node],
    judged: &mut Judged,
) -> Result<(), HistoryFault>
    requires there { step_at history.now (suc earlier) ≡ Some (step_of step.now fresh.now) }
    requires counted { length fresh.now ≡ step.now.fresh }
    requires content { IsInRange step.now.content }
    requires time { IsTimeWithinLimits step.now.time }
    requires few { suc earlier ≤ LAST_STEP }
    requires judged { HasJudged history.now earlier judged.old }
    ensures { MatchResult result
        (λ _. IsSoundStep history.now earlier (step_of step.now fresh.now) × HasJudged history.now (suc earlier) judged.new)
        (TellsFirst history.now earlier (step_of step.now fresh.now)) }
{
    let number = earlier + 1;
    let first = judged.summaries.len();
    if !names_known(history, number, first, fresh, step.root) {
        return unsound(number, 1);
    }
    if !plant(history, earlier, fresh, &mut judged.summaries)? {
        return unsound(number, 2);
    }
    if let Some(rule) = first_unkept(history, judged, step) {
        return unsound(number, rule);
    }
    limits_law(&step.content);
    let thread = received_thread(step);
    judged.threads += count(&thread);
    judged.time = greatest_with(judged.time, step.time);
    judged.greatest.add(&thread)?;
    Ok(())
}

/// The number of the first of the rules 3 to 7 that the step doesn't keep, once its nodes are planted.
fn first_unkept(history: &History, judged: &Judged, step: &Step) -> Option<u8>
    requires few { judged.now.threads < LAST_STEP }
    requires root { step.now.root < length judged.now.summaries.items }
    requires content { IsInRange step.now.content }
    ensures { TellsUnkept history.now judged.now step.now result }
{
    let thread = received_thread(step);
    let threads = judged.threads + count(&thread);
    let holds_all = judged.summaries[step.root as usize].count == threads;
    let another = is_of_another(&history.name, &thread);
    let later = is_later(&judged.greatest, &thread);
    let fit = events_fit(step);
    let rise = doesnt_fall(judged.time, step.time);
    first_broken(holds_all, another, later, fit, rise)
}

/// The number of the first of the rules 3 to 7 that isn't kept, by whether each of them is.
fn first_broken(holds_all: bool, another: bool, later: bool, fit: bool, rise: bool) -> Option<u8>
    ensures { result ≡ first_of holds_all another later fit rise }
{
    if !holds_all {
        Some(3)
    } else if !another {
        Some(4)
    } else if !later {
        Some(5)
    } else if !fit {
        Some(6)
    } else if !rise {
        Some(7)
    } else {
        None
    }
}

/// The refusal of the step by the rule.
fn unsound(step: u64, rule: u8) -> Result<(), HistoryFault>
    ensures { result ≡ Err (HistoryFault.Unsound step rule) }
{
    Err(HistoryFault::Unsound { step, rule })
}
