// A step more of a history that pages tell, which received a thread: from the thread and its new nodes.

ghost use Rattle.std.specs.Prelude.{◌≡◌, ◌+◌, ◌<◌, ◌^◌, ◌++◌, IfOk, IsTrue, MatchOption, OnOk, Some, false, length, true};
ghost use Rattle.tw_base.specs.declared.history.content.Content.TheVariants.{Received};
ghost use Rattle.tw_base.specs.history.HistoryCodec.{step_codec};
ghost use Rattle.tw_base.specs.history.Limits.{IsTimeWithinLimits};
ghost use Rattle.tw_disk.specs.Answers.{IsShared, ReadsPages};
ghost use Rattle.tw_disk.specs.Found.Found.{Bad};
ghost use Rattle.tw_history.specs.Tables.{IsInRange};
ghost use Rattle.tw_rbtree.specs.FaultWords.{tree_faults};
ghost use Rattle.tw_rbtree.specs.Listing.{listed};
ghost use Rattle.tw_steppage.specs.StepPages.{HasRanges};
ghost use Rattle.tw_skiplist.specs.ListFaults.{list_faults};
ghost use Rattle.tw_export.specs.Exporting.{archive_after, exported_with_step, may_be_told, step_with};
ghost use Rattle.tw_export.specs.Faults.{list_fault_of};
ghost use Rattle.tw_export.specs.Received.{received_on};
ghost use Rattle.tw_export.specs.Told.{archive_so_far, so_far_of};

use crate::archive::{ArchiveSoFar, add_nodes, root_number};
use crate::file::add_text;
use crate::nodes::put_nodes;
use crate::so_far::StepsSoFar;
use std::alloc::Global;
use tw_base::limits::PAGE_SIZE;
use tw_base::{Bytes, Content, Hasher, NoMemory, ReceivedThread, Root, Thread, put_last_bytes};
use tw_disk::{Pages, Shelf, Shelved, WalkFault, read_page};
use tw_history::put_recorded;
use tw_rbtree::{NewNode, NewNodes, TreeFault, fresh};
use tw_skiplist::{ListFault, StepRecord};

/// The most new nodes of a step that a history file counts, in two bytes.
const MOST_NEW_NODES: usize = 65535;

/// What a refused listing is to a list of steps.
fn list_fault(fault: TreeFault) -> ListFault
    requires { IsShared (tree_faults fault) }
    ensures { result ≡ list_fault_of fault }
{
    match fault {
        TreeFault::Present | TreeFault::Untrue => unreachable!(),
        TreeFault::BadPage { page } => ListFault::BadPage { page },
        TreeFault::DiskFault => ListFault::DiskFault,
        TreeFault::NoMemory => ListFault::NoMemory,
    }
}

/// The nodes of the tree under the root that are new since this page. Where reads agree, each new page is read once: its keys lie
/// between those on either side of the way down to it. Where they contradict each other, a page that is met again is answered by the
/// shelf, as long as it is among the 64 read last.
fn list_once<P: Pages, H: Hasher>(
    alloc: Global,
    pages: &mut P,
    root: &Root,
    since: u64,
) -> Result<NewNodes, ListFault>
    ensures reads { ReadsPages list_faults P.view P.same pages.old pages.new (λ nodes. nodes) result (λ ps. listed H.dig ps since root.now) }
{
    let mut shelf = Shelf::new(alloc);
    let mut near = Shelved::over(pages, &mut shelf);
    match fresh::<Shelved<P>, H>(alloc, &mut near, root, since) {
        Ok(nodes) => Ok(nodes),
        Err(fault) => Err(list_fault(fault)),
    }
}

/// The number of the archive's root after the step; None where no history file has such a step.
fn told_root(
    archive: &ArchiveSoFar,
    recorded: &StepRecord,
    thread: &Thread,
    nodes: &[NewNode],
) -> Option<u64>
    requires { archive.now.count + length nodes.now < 2 ^ 64 }
    ensures { MatchOption result (may_be_told (archive_so_far archive.now) recorded.now (Received thread.now) nodes.now ≡ false)
        (λ root. (may_be_told (archive_so_far archive.now) recorded.now (Received thread.now) nodes.now ≡ true)
        × (root ≡ (archive_after (archive_so_far archive.now) recorded.now (Received thread.now) nodes.now).root)) }
{
    if thread.step == 0 {
        return None;
    }
    root_number(archive, nodes, recorded.fields.archive.page)
}

/// Appends the step: what it recorded, its new nodes, and the number of the archive's root after it.
fn put_step(
    text: &mut Bytes,
    archive: &ArchiveSoFar,
    recorded: &StepRecord,
    content: &Content,
    nodes: &[NewNode],
    root: u64,
) -> Result<(), NoMemory>
    requires content { IsInRange content.now }
    requires time { IsTimeWithinLimits recorded.now.fields.time }
    ensures { OnOk result (text.new ≡ text.old ++ step_codec.write (step_with (archive_so_far archive.now) recorded.now content.now nodes.now root)) }
{
    put_recorded(text, recorded.fields.time, content)?;
    put_last_bytes(text, nodes.len() as u64, 2)?;
    put_nodes(text, &archive.pages, archive.count, nodes)?;
    put_last_bytes(text, root, 4)?;
    Ok(())
}

/// Whether the numbers behind the step have at most 64 bits.
fn are_small(archive: &ArchiveSoFar, recorded: &StepRecord, nodes: &[NewNode]) -> bool
    ensures { IsTrue result → (archive.now.count + length nodes.now < 2 ^ 64) × (recorded.now.page + 1 < 2 ^ 64) }
{
    archive.count.checked_add(nodes.len() as u64).is_some() && recorded.page < u64::MAX
}

/// Takes in the step with its thread and its new nodes; answers no, and takes nothing in, where no history file has such a step.
fn take_in(
    alloc: Global,
    so_far: &mut StepsSoFar,
    recorded: &StepRecord,
    thread: Thread,
    nodes: &[NewNode],
) -> Result<bool, NoMemory>
    requires received { recorded.now.fields.received ≡ Some thread }
    requires ranges { HasRanges recorded.now.fields }
    ensures { IfOk result (λ is_told. (is_told ≡ may_be_told (archive_so_far so_far.old.archive) recorded.now (Received thread) nodes.now)
        × (IsTrue is_told → so_far_of so_far.new ≡ exported_with_step (so_far_of so_far.old) recorded.now (Received thread) nodes.now)) }
{
    if !are_small(&so_far.archive, recorded, nodes) {
        return Err(NoMemory);
    }
    let Some(root) = told_root(&so_far.archive, recorded, &thread, nodes) else {
        return Ok(false);
    };
    let content = Content::Received(ReceivedThread::new(alloc, thread)?);
    let mut text = Bytes::new(alloc);
    put_step(&mut text, &so_far.archive, recorded, &content, nodes, root)?;
    let is_few = nodes.len() <= MOST_NEW_NODES;
    add_text(&mut so_far.file, text.as_slice(), is_few)?;
    let page = recorded.fields.archive.page;
    add_nodes(&mut so_far.archive, nodes, page, root, recorded.page)?;
    Ok(true)
}

/// Reads the page once more, and tells that it is bad, or that the disk failed.
pub(crate) fn tell_bad<P: Pages>(pages: &mut P, page: u64) -> Result<(), ListFault>
    ensures reads { ReadsPages list_faults P.view P.same pages.old pages.new (λ done. done) result (λ ps. Bad page) }
{
    let mut bytes = [0; PAGE_SIZE];
    match read_page(pages, page, &mut bytes) {
        Err(WalkFault::DiskFault) => Err(ListFault::DiskFault),
        Ok(()) | Err(WalkFault::BadPage { .. }) => Err(ListFault::BadPage { page }),
    }
}

/// Takes in the step of a record that received this thread. Its new tree pages are read, as [`list_once`] says.
#[tactic(auto, unfolding(crate::specs::Received::received_on))]
pub(crate) fn add_received<P: Pages, H: Hasher>(
    alloc: Global,
    pages: &mut P,
    so_far: &mut StepsSoFar,
    recorded: &StepRecord,
    thread: Thread,
) -> Result<(), ListFault>
    requires received { recorded.now.fields.received ≡ Some thread }
    requires ranges { HasRanges recorded.now.fields }
    ensures reads { ReadsPages list_faults P.view P.same pages.old pages.new (λ _. so_far_of so_far.new) result
        (λ ps. received_on H.dig ps (so_far_of so_far.old) recorded.now thread) }
{
    let since = so_far.archive.since;
    let nodes = list_once::<P, H>(alloc, pages, &recorded.fields.archive, since)?;
    if take_in(alloc, so_far, recorded, thread, nodes.as_slice())? {
        return Ok(());
    }
    tell_bad(pages, recorded.page)
}
