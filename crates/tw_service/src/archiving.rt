// A step that archives a thread: the pages of its archive's tree, and then its own.

ghost use Rattle.std.specs.Prelude.{◌≡◌, ◌⊎◌, ℕ, ◌+◌, ◌++◌, ◌<◌, ◌≤◌, ◌^◌, IfErr, IfOk, Some, false};
ghost use Rattle.tw_base.specs.history.Asking.{with_entry};
ghost use Rattle.tw_base.specs.history.Limits.{IsStep, IsThread, IsTimeWithinLimits};
ghost use Rattle.tw_base.specs.history.Tree.{Tree, entries};
ghost use Rattle.tw_disk.specs.Keeping.{ArePagesOf};
ghost use Rattle.tw_disk.specs.Shelves.{kept_on};
ghost use Rattle.tw_disk.specs.Answers.{AddsBy, AnswersAs, FaultsRise, is_failed};
ghost use Rattle.tw_disk.specs.Image.{Image};
ghost use Rattle.tw_disk.specs.Pages.{OnlyAdds};
ghost use Rattle.tw_rbtree.specs.Standing.{HasNamed, Named, StandsWith};
ghost use Rattle.tw_service.specs.Archiving.{ArchivesAs, IsStagedBehind, PutsThreadIn, archived_entry};
ghost use Rattle.tw_service.specs.Finds.{found_room};
ghost use Rattle.tw_answers.specs.Refusals.{IsFault, service_refusals};

use crate::receiving::receipt_by;
use crate::recorded::{Unstaged, next_root};
use std::alloc::Global;
use tw_answers::{Refusal, RootRecord, refusal_of_tree};
use tw_archive::insert_near;
use tw_base::limits::LAST_STEP;
use tw_base::{Entry, Hasher, Root, Thread};
use tw_disk::{Disk, Pages, Shelf};
use tw_msg::Receipt;
use tw_pages::Store;
use tw_skiplist::{Head, append_thread};

/// A step that was staged: its head, and its archive.
#[derive(Clone, Copy, Drop)]
pub(crate) struct Staged {
    pub head: Head,
    pub archive: Root,
}

/// The thread as the next step receives it.
fn next_entry(root: &RootRecord, thread: &Thread) -> Entry
    requires { root.now.head.step < LAST_STEP }
    ensures { result ≡ archived_entry root.now.head.step thread.now }
{
    Entry {
        thread: *thread,
        archived: root.head.step + 1,
    }
}

/// Stages the pages of the archive's tree with the thread, as the next step receives it, and answers its root. Those of its pages that
/// are on the shelf aren't read.
fn stage_tree<P: Pages, H: Hasher>(
    alloc: Global,
    pages: &mut P,
    shelf: &mut Shelf,
    root: &RootRecord,
    thread: &Thread,
) -> Result<Root, Refusal>
    requires used { (P.view pages.old).used < 2 ^ 47 }
    requires short { root.now.head.step < LAST_STEP }
    requires range { IsStep thread.now.step }
    requires shelf { ArePagesOf (P.view pages.old).list (kept_on shelf.old) }
    ensures adds { AddsBy service_refusals P.view P.same pages.old pages.new result (IfErr result IsFault) (AnswersAs service_refusals (λ (_ : Root). tt))
        (λ ps. found_room H.dig ps root.now.archive thread.now) }
    ensures inserted { (ps : Image) → (P.view pages.old).list ≡ Some ps → (named : Named) → named.below ≤ (P.view pages.old).used →
        (t : Tree) → StandsWith H.dig (HasNamed named) ps root.now.archive t →
        IfOk result (λ new. (now : Image) × (grown : Tree) × ((P.view pages.new).list ≡ Some now)
        × StandsWith H.dig (HasNamed named) now new grown × (entries grown ≡ with_entry (entries t) (archived_entry root.now.head.step thread.now))) }
    ensures put { (ps : Image) → (P.view pages.old).list ≡ Some ps → IfOk result (λ new. (more : Image) × ((P.view pages.new).list ≡ Some (ps ++ more))
        × PutsThreadIn H.dig ps root.now thread.now more new) }
    ensures behind { IfOk result (λ new. (P.view pages.old).used ≤ new.page) }
    ensures page { IfOk result (λ new. new.page < (P.view pages.new).used) }
    ensures few { (P.view pages.new).used ≤ (P.view pages.old).used + 23 }
{
    let entry = next_entry(root, thread);
    match insert_near::<P, H>(alloc, pages, shelf, &root.archive, entry) {
        Ok(new) => Ok(new),
        Err(fault) => Err(refusal_of_tree(&root.archive, fault)),
    }
}

/// Stages the pages of the step that archives the thread, at this time or none: those of its archive's tree, and then its own.
pub(crate) fn stage_thread<P: Pages, H: Hasher>(
    alloc: Global,
    pages: &mut P,
    shelf: &mut Shelf,
    root: &RootRecord,
    thread: &Thread,
    time: Option<u64>,
) -> Result<Staged, Refusal>
    requires used { (P.view pages.old).used < 2 ^ 46 }
    requires short { root.now.head.step < LAST_STEP }
    requires range { IsStep thread.now.step }
    requires time { IsTimeWithinLimits time }
    requires shelf { ArePagesOf (P.view pages.old).list (kept_on shelf.old) }
    ensures staged { (ps : Image) → (P.view pages.old).list ≡ Some ps → IfOk result (λ new. IsStagedBehind H.dig ps root.now thread.now time (P.view pages.new).list new.head new.archive) }
    ensures page { (ps : Image) → (P.view pages.old).list ≡ Some ps → IfErr result (ArchivesAs H.dig ps root.now thread.now time) }
    ensures own { IfErr result IsFault }
    ensures behind { IfOk result (λ new. (P.view pages.old).used ≤ new.archive.page) }
    ensures below { IfOk result (λ new. new.archive.page < (P.view pages.new).used) }
    ensures last { IfOk result (λ new. new.head.page < (P.view pages.new).used) }
    ensures step { IfOk result (λ new. new.head.step ≡ root.now.head.step + 1) }
    ensures few { (P.view pages.new).used ≤ (P.view pages.old).used + 42 }
    ensures kept { OnlyAdds P.view P.same pages.old pages.new (is_failed service_refusals result ≡ false) }
    ensures faults { FaultsRise service_refusals P.view P.same pages.old pages.new result }
{
    let archive = stage_tree::<P, H>(alloc, pages, shelf, root, thread)?;
    let head = append_thread::<P, H>(alloc, pages, &root.head, thread, &archive, time)?;
    Ok(Staged { head, archive })
}

impl<D: Disk> Unstaged<D> {
    ghost use Rattle.std.specs.Prelude.{OnErr, Err};
    ghost use Rattle.tw_base.specs.history.History.{History};
    ghost use Rattle.tw_base.specs.kinds.Faults.{Rose};
    ghost use Rattle.tw_archive.specs.Archives.{MayArchive};
    ghost use Rattle.tw_pages.specs.Records.{written_record};
    ghost use Rattle.tw_pages.specs.Rests.{RestsWith};
    ghost use Rattle.tw_pages.specs.StoreValue.{is_broken, store_disk};
    ghost use Rattle.tw_pages.specs.Same.{IsSameStore, store_list};
    ghost use Rattle.tw_service.specs.Archiving.{AnswersArchived};
    ghost use Rattle.tw_service.specs.Finds.{receipt_at};
    ghost use Rattle.tw_service.specs.Keeps.{StoreServes};
    ghost use Rattle.tw_service.specs.NextRecords.{next_record};
    ghost use Rattle.tw_service.specs.Writing.{AddsThread, CommitsRoot, IsReceiptOfNext};
    ghost use Rattle.tw_answers.specs.Refusals.{IsBadPageRefusal};
    ghost use Rattle.tw_answers.specs.Roots.{root_kind};

    /// Adds the step that archives the thread, at this time or none, and commits it with the next record; answers the step's receipt. All
    /// memory is taken before the first write. Where it refuses, nothing is staged, and the record is as before.
    pub(crate) fn archive<H: Hasher>(
        &mut self,
        alloc: Global,
        shelf: &mut Shelf,
        thread: &Thread,
        time: Option<u64>,
    ) -> Result<Receipt, Refusal>
        requires step { self.old.kept.root.head.step < LAST_STEP }
        requires thread { IsThread thread.now }
        requires time { IsTimeWithinLimits time }
        requires whole { is_broken self.old.kept.store ≡ false }
        requires shelf { ArePagesOf (store_list D.view self.old.kept.store) (kept_on shelf.old) }
        ensures root { IfOk result (λ receipt. (self.new.kept.root ≡ next_record self.old.kept.root self.new.kept.root.head self.new.kept.root.archive (self.old.kept.root.threads + 1) time)
            × (self.new.kept.root.head.step ≡ self.old.kept.root.head.step + 1) × (receipt ≡ receipt_at self.old.kept.root.name self.new.kept.root.head thread.now)) }
        ensures kept { OnErr result (self.new.kept.root ≡ self.old.kept.root) }
        ensures whole { (result ≡ Err Refusal.DiskFault) ⊎ (is_broken self.new.kept.store ≡ false) }
        ensures answers { IfErr result IsFault }
        ensures written { (ps : Image) → RestsWith D.view root_kind self.old.kept.store (written_record self.old.kept.root ps)
            → CommitsRoot D.view (AddsThread H.dig thread.now time) (IsReceiptOfNext H.dig thread.now time) self.old.kept.store self.new.kept.store self.old.kept.root self.new.kept.root result ps }
        ensures same { IfErr result (λ refusal. (refusal ≡ Refusal.DiskFault) ⊎ IsSameStore D.view self.old.kept.store self.new.kept.store) }
        ensures answer { (ps : Image) → store_list D.view self.old.kept.store ≡ Some ps → AnswersArchived H.dig ps self.old.kept.root thread.now time self.new.kept.root.head self.new.kept.root.archive result }
        ensures good { IfErr result (λ refusal. IsBadPageRefusal refusal → (h : History) → StoreServes H.dig D.view self.old.kept.store self.old.kept.root h
            → MayArchive h thread.now time → ⊥) }
        ensures fault { result ≡ Err Refusal.DiskFault → Rose ((D.view (store_disk self.old.kept.store)).faults) ((D.view (store_disk self.new.kept.store)).faults) }
        ensures later { (D.view (store_disk self.old.kept.store)).faults ≤ (D.view (store_disk self.new.kept.store)).faults }
    {
        let added = stage_thread::<Store<D>, H>(
            alloc,
            &mut self.kept.store,
            shelf,
            &self.kept.root,
            thread,
            time,
        );
        match added {
            Err(refusal) => {
                self.kept.store.discard();
                Err(refusal)
            }
            Ok(staged) => {
                let root = &self.kept.root;
                let next = next_root(root, staged.head, staged.archive, root.threads + 1, time);
                let receipt = receipt_by(&next, next.head.step, &next.head.auth, thread);
                match self.kept.commit::<H>(next) {
                    Ok(()) => Ok(receipt),
                    Err(_) => Err(Refusal::DiskFault),
                }
            }
        }
    }
}
