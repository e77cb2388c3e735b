// A step of events more of a history that pages tell: its events are copied from its pages into the file.

ghost use Rattle.std.specs.Prelude.{◌≡◌, ℕ, ◌++◌, IsTrue, List, None, OnOk};
ghost use Rattle.tw_base.specs.history.Limits.{IsTimeWithinLimits};
ghost use Rattle.tw_disk.specs.Answers.{ReadsPages};
ghost use Rattle.tw_disk.specs.Found.Found.{Bad};
ghost use Rattle.tw_disk.specs.Image.{Image};
ghost use Rattle.tw_skiplist.specs.ListFaults.{list_faults};
ghost use Rattle.tw_export.specs.Copied.{copied_step, events_end, events_front, events_kind};
ghost use Rattle.tw_export.specs.Exporting.{SoFar, step_on};
ghost use Rattle.tw_export.specs.Told.{so_far_of};

use crate::file::take_text;
use crate::so_far::StepsSoFar;
use std::alloc::Global;
use tw_base::{Bytes, Hasher, NoMemory, put_last_bytes, put_time};
use tw_disk::Pages;
use tw_skiplist::{ListFault, StepRecord, copy_events};

/// Whether the record counts events and has no event page, so that there are none to be read.
pub(crate) fn lacks_events(recorded: &StepRecord) -> bool
    ensures { IsTrue result → (dig : List ℕ → List ℕ) (ps : Image) (so_far : SoFar) → step_on dig ps so_far recorded.now ≡ Bad recorded.now.page }
{
    let fields = &recorded.fields;
    if fields.received.is_some() || fields.stream.size > 0 || fields.count == 0 {
        return false;
    }
    true
}

/// The kind of a step of events: 1, or 3 where it has a time. (Those of steps that received a thread are 2 and 4.)
fn kind_of(time: Option<u64>) -> u64
    ensures { result ≡ events_kind time }
{
    match time {
        None => 1,
        Some(_) => 3,
    }
}

/// Appends what stands before the events of a step: its kind, and its time, if any.
fn put_events_front(into: &mut Bytes, time: Option<u64>) -> Result<(), NoMemory>
    ensures { OnOk result (into.new ≡ into.old ++ events_front time) }
{
    put_last_bytes(into, kind_of(time), 1)?;
    put_time(into, time)?;
    Ok(())
}

/// Appends what stands behind them: that there are no new nodes, and the number of the archive's root.
fn put_events_end(into: &mut Bytes, root: u64) -> Result<(), NoMemory>
    ensures { OnOk result (into.new ≡ into.old ++ events_end root) }
{
    put_last_bytes(into, 0, 2)?;
    put_last_bytes(into, root, 4)?;
    Ok(())
}

/// Appends the step of a record that received no thread; its event pages are read, each once.
#[tactic(auto, unfolding(crate::specs::Copied::copied_step))]
fn copy_step<P: Pages>(
    pages: &mut P,
    recorded: &StepRecord,
    root: u64,
    into: &mut Bytes,
) -> Result<(), ListFault>
    requires { recorded.now.fields.received ≡ None }
    ensures reads { ReadsPages list_faults P.view P.same pages.old pages.new (λ _. into.new) result (λ ps. copied_step ps recorded.now root into.old) }
{
    put_events_front(into, recorded.fields.time)?;
    copy_events(pages, recorded, into)?;
    put_events_end(into, root)?;
    Ok(())
}

/// Takes in the step of a record that received no thread. Its event pages are read, each once.
pub(crate) fn add_events<P: Pages, H: Hasher>(
    alloc: Global,
    pages: &mut P,
    so_far: &mut StepsSoFar,
    recorded: &StepRecord,
) -> Result<(), ListFault>
    requires { recorded.now.fields.received ≡ None }
    ensures reads { ReadsPages list_faults P.view P.same pages.old pages.new (λ _. so_far_of so_far.new) result
        (λ ps. step_on H.dig ps (so_far_of so_far.old) recorded.now) }
{
    // The page behind it would have no number.
    if recorded.page == u64::MAX {
        return Err(ListFault::NoMemory);
    }
    let start = so_far.file.bytes.len();
    let root = so_far.archive.root;
    copy_step(pages, recorded, root, &mut so_far.file.bytes)?;
    take_text(alloc, &mut so_far.file, start);
    so_far.archive.since = recorded.page + 1;
    Ok(())
}
