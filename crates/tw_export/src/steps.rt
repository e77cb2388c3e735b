// One step more of a history that pages tell: one of events (`events.rt`), or one that received a thread (`received.rt`).

ghost use Rattle.std.specs.Prelude.{◌≡◌, IfErr};
ghost use Rattle.tw_base.specs.kinds.Lists.{Each};
ghost use Rattle.tw_disk.specs.Answers.{ReadsPages};
ghost use Rattle.tw_steppage.specs.StepPages.{HasRanges};
ghost use Rattle.tw_skiplist.specs.ListFaults.{list_faults};
ghost use Rattle.tw_export.specs.Exporting.{step_on, steps_on};
ghost use Rattle.tw_export.specs.Told.{so_far_of};

use crate::events::{add_events, lacks_events};
use crate::received::{add_received, tell_bad};
use crate::so_far::StepsSoFar;
use std::alloc::Global;
use tw_base::Hasher;
use tw_disk::Pages;
use tw_skiplist::{ListFault, StepRecord};

/// Takes in the step of the record. Its event pages are read, each once, or its new tree pages.
fn add_step<P: Pages, H: Hasher>(
    alloc: Global,
    pages: &mut P,
    so_far: &mut StepsSoFar,
    recorded: &StepRecord,
) -> Result<(), ListFault>
    requires { HasRanges recorded.now.fields }
    ensures reads { ReadsPages list_faults P.view P.same pages.old pages.new (λ _. so_far_of so_far.new) result
        (λ ps. step_on H.dig ps (so_far_of so_far.old) recorded.now) }
{
    if let Some(thread) = recorded.fields.received {
        return add_received::<P, H>(alloc, pages, so_far, recorded, thread);
    }
    if lacks_events(recorded) {
        return tell_bad(pages, recorded.page);
    }
    add_events::<P, H>(alloc, pages, so_far, recorded)
}

/// Takes in the steps of the records, one after another.
#[tactic(auto, using(crate::proofs::StepLaws::steps_go_on))]
pub(crate) fn add_steps<P: Pages, H: Hasher>(
    alloc: Global,
    pages: &mut P,
    so_far: &mut StepsSoFar,
    records: &[StepRecord],
) -> Result<(), ListFault>
    requires { Each (λ r. HasRanges r.fields) records.now }
    ensures reads { ReadsPages list_faults P.view P.same pages.old pages.new (λ _. so_far_of so_far.new) result
        (λ ps. steps_on H.dig ps (so_far_of so_far.old) records.now) }
{
    for recorded in records {
        add_step::<P, H>(alloc, pages, so_far, recorded)?;
    }
    Ok(())
}
