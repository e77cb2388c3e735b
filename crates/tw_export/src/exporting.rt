// The call that makes the file of the history that pages tell: all steps' records are read, then each step is added.

ghost use Rattle.std.specs.Prelude.{◌≡◌, ◌≤◌, IfOk};
ghost use Rattle.tw_disk.specs.Answers.{ReadsPages};
ghost use Rattle.tw_skiplist.specs.ListFaults.{list_faults};
ghost use Rattle.tw_export.specs.Exporting.{at_start, found_file};
ghost use Rattle.tw_export.specs.Told.{so_far_of};

use crate::archive::empty_archive;
use crate::file::{begin_file, end_file};
use crate::so_far::StepsSoFar;
use crate::steps::add_steps;
use std::alloc::Global;
use tw_base::limits::{LAST_STEP, PAGE_SIZE};
use tw_base::{Bytes, Hasher, Name, NoMemory};
use tw_disk::Pages;
use tw_skiplist::{Head, ListFault, read_records};

/// Before the first of so many steps, in room for so many bytes of a file.
fn begin(alloc: Global, name: &Name, count: u64, room: u64) -> Result<StepsSoFar, NoMemory>
    ensures { IfOk result (λ so_far. so_far_of so_far ≡ at_start name.now count) }
{
    let file = begin_file(alloc, name, count, room)?;
    let archive = empty_archive(alloc);
    Ok(StepsSoFar { file, archive })
}

/// Room for the bytes of so many pages, which the file of the steps in them hardly has more of.
fn room_of(pages: u64) -> u64 {
    pages.saturating_mul(PAGE_SIZE as u64)
}

/// The file of the history of this name that the pages tell under the head (a step below 2^40); or, where it
/// would have more than 67,108,864 bytes or a step more than 65,535 new nodes, how many bytes it would have, at
/// most 2^64 - 1, and then all pages are read too. Each step
/// page is read once, from the last one down by the links of level 0; then, from the first step on, its event
/// pages or its new tree pages, each once. No step and no event is hashed; of a tree page only the empty tree's
/// text is, by which its leaves are judged.
///
/// Where the pages are told, BadPage tells the first page met that isn't of its kind, one of 1 to 3 by its own
/// number; or the one read last where event pages don't spell a step's events; or the page of a step, which is
/// then read once more, that counts events and has no event page, that received a thread of step 0, or whose
/// archive names an older page that no archive before it has. It never comes where they keep a history under
/// the head, and NoStep never comes.
#[tactic(auto, unfolding(crate::specs::Exporting::found_file))]
pub fn export_file<P: Pages, H: Hasher>(
    alloc: Global,
    pages: &mut P,
    name: &Name,
    head: &Head,
) -> Result<Result<Bytes, u64>, ListFault>
    requires { head.now.step ≤ LAST_STEP }
    // Over told pages the answer is what is found in them, whatever they keep, a disk fault and want of memory
    // excepted: the file, or how many bytes it would have where it isn't within its limits; or `BadPage` with the
    // first page met that isn't of its kind, with the last event page of a step whose pages don't spell its events, or
    // with the page of a step that no history file has. Over any pages, told or not, `NoStep` is never answered; reading
    // changes nothing of what the pages tell; and `DiskFault` comes only where the count of faults rose.
    ensures reads { ReadsPages list_faults P.view P.same pages.old pages.new (λ told. told) result
        (λ ps. found_file H.dig ps name.now head.now) }
{
    let mut records = read_records(alloc, pages, head)?;
    records.reverse();
    let mut so_far = begin(alloc, name, head.step, room_of(pages.used()))?;
    add_steps::<P, H>(alloc, pages, &mut so_far, records.as_slice())?;
    let StepsSoFar { file, archive } = so_far;
    drop(archive);
    Ok(end_file(file))
}
