// A store with the root record of its service, and one more step of the history that it keeps; `Recorded` of tw_pages is of any record.

ghost use Rattle.std.specs.Prelude.{◌≡◌, ◌⊎◌, ℕ, ◌+◌, ◌*◌, ◌<◌, ◌≤◌, [], IfOk, IfErr, OnErr, false, Some, None, Err};
ghost use Rattle.tw_base.specs.format.Codecs.{HasBytes};
ghost use Rattle.tw_base.specs.declared.kinds.limits.TheConstants.{LAST_STEP};
ghost use Rattle.tw_base.specs.history.Limits.{IsThread, IsTimeWithinLimits, MayRecord};
ghost use Rattle.tw_disk.specs.declared.limits.TheConstants.{FIRST_PAGE};
ghost use Rattle.tw_pages.specs.StoreValue.{generation_of, is_broken, staged_of};
ghost use Rattle.tw_pages.specs.Same.{store_count};
ghost use Rattle.tw_answers.specs.Limits.{append_refusal};
ghost use Rattle.tw_service.specs.NextRecords.{AddsAs, event_record, next_record};
ghost use Rattle.tw_service.specs.Stands.{greater};
ghost use Rattle.tw_answers.specs.declared.limits.TheConstants.{MOST_PAGES_OF_A_STEP};

use crate::receiving::{Reception, receipt_of_step, receive_by};
use std::alloc::Global;
use tw_answers::{Refusal, RootRecord};
use tw_base::{EventList, Hasher, Root, see_digest};
use tw_disk::{Disk, Shelf};
use tw_msg::{Message, Receipt};
use tw_pages::{Recorded, Store};
use tw_skiplist::{Head, append};

/// A store in which nothing is staged, with its root record, which is that of a service.
#[derive(Drop)]
pub(crate) struct Unstaged<D: Disk> {
    pub(crate) kept: Recorded<D, RootRecord>,
    ghost short: { kept.root.head.step ≤ LAST_STEP },
    ghost few_threads: { kept.root.threads ≤ kept.root.head.step },
    ghost few_pages: { store_count kept.store ≤ FIRST_PAGE + MOST_PAGES_OF_A_STEP * kept.root.head.step },
    ghost few_commits: { generation_of kept.store ≤ kept.root.head.step + 1 },
    ghost clean: { staged_of kept.store ≡ [] },
}

/// The greater one of two times, where there is one.
fn later_time(clock: Option<u64>, time: Option<u64>) -> Option<u64>
    ensures { result ≡ greater clock time }
{
    match time {
        None => clock,
        Some(given) => match clock {
            None => Some(given),
            Some(last) => Some(last.max(given)),
        },
    }
}

/// The root record after one more step, with this head, this archive with so many threads, and the greater time.
pub(crate) fn next_root(
    root: &RootRecord,
    head: Head,
    archive: Root,
    threads: u64,
    time: Option<u64>,
) -> RootRecord
    ensures next { result ≡ next_record root.now head archive threads time }
    ensures auth { HasBytes 32 head.auth }
    ensures label { HasBytes 32 archive.label }
{
    see_digest(&head.auth);
    see_digest(&archive.label);
    RootRecord {
        name: root.name,
        head,
        archive,
        threads,
        time: later_time(root.time, time),
    }
}

impl<D: Disk> Unstaged<D> {
    ghost use Rattle.tw_base.specs.history.History.{History};
    ghost use Rattle.tw_base.specs.kinds.Faults.{Rose};
    ghost use Rattle.tw_base.specs.declared.history.content.Content.TheVariants.{Events};
    ghost use Rattle.tw_disk.specs.Image.{Image};
    ghost use Rattle.tw_pages.specs.Records.{written_record};
    ghost use Rattle.tw_pages.specs.Rests.{RestsWith};
    ghost use Rattle.tw_pages.specs.StoreValue.{store_disk};
    ghost use Rattle.tw_pages.specs.Same.{IsSameStore, store_list};
    ghost use Rattle.tw_answers.specs.Refusals.{IsBadPageRefusal, IsFault};
    ghost use Rattle.tw_answers.specs.Roots.{root_kind};
    ghost use Rattle.tw_msg.specs.Messages.{IsLinked};
    ghost use Rattle.tw_skiplist.specs.Appended.{appended};
    ghost use Rattle.tw_service.specs.TakingIn.{TakesIn};
    ghost use Rattle.tw_service.specs.Keeps.{StoreServes};
    ghost use Rattle.tw_service.specs.Writing.{AppendsTo, CommitsRoot};

    /// Adds a step of these events, with this time or none, and commits it with the next record. All memory is taken before the first
    /// write. Where it refuses, nothing is staged, and the record is as before.
    pub(crate) fn add_step<H: Hasher>(
        &mut self,
        alloc: Global,
        events: &EventList,
        time: Option<u64>,
    ) -> Result<(), Refusal>
        requires allowed { append_refusal false self.old.kept.root.head.step self.old.kept.root.time events.now time ≡ None }
        requires step { self.old.kept.root.head.step < LAST_STEP }
        requires limits { MayRecord events.now }
        requires time { IsTimeWithinLimits time }
        requires whole { is_broken self.old.kept.store ≡ false }
        ensures root { IfOk result (λ _. (self.new.kept.root ≡ event_record self.old.kept.root self.new.kept.root.head time) × (self.new.kept.root.head.step ≡ self.old.kept.root.head.step + 1)) }
        ensures kept { OnErr result (self.new.kept.root ≡ self.old.kept.root) }
        ensures whole { (result ≡ Err Refusal.DiskFault) ⊎ (is_broken self.new.kept.store ≡ false) }
        ensures answers { IfErr result IsFault }
        ensures written { (ps : Image) → RestsWith D.view root_kind self.old.kept.store (written_record self.old.kept.root ps)
            → CommitsRoot D.view (AppendsTo H.dig events.now time) (λ _ w next. AppendsTo H.dig events.now time w next) self.old.kept.store self.new.kept.store self.old.kept.root self.new.kept.root result ps }
        ensures same { IfErr result (λ refusal. (refusal ≡ Refusal.DiskFault) ⊎ IsSameStore D.view self.old.kept.store self.new.kept.store) }
        ensures answer { (ps : Image) → store_list D.view self.old.kept.store ≡ Some ps
            → AddsAs result self.new.kept.root.head (appended H.dig ps self.old.kept.root.head (Events events.now) self.old.kept.root.archive time) }
        ensures good { IfErr result (λ refusal. IsBadPageRefusal refusal → (h : History) → StoreServes H.dig D.view self.old.kept.store self.old.kept.root h → ⊥) }
        ensures fault { result ≡ Err Refusal.DiskFault → Rose ((D.view (store_disk self.old.kept.store)).faults) ((D.view (store_disk self.new.kept.store)).faults) }
        ensures later { (D.view (store_disk self.old.kept.store)).faults ≤ (D.view (store_disk self.new.kept.store)).faults }
    {
        let added = append::<Store<D>, H>(
            alloc,
            &mut self.kept.store,
            &self.kept.root.head,
            events,
            &self.kept.root.archive,
            time,
        );
        match added {
            Err(fault) => {
                self.kept.store.discard();
                Err(Refusal::from(fault))
            }
            Ok(head) => {
                let root = &self.kept.root;
                let next = next_root(root, head, root.archive, root.threads, time);
                match self.kept.commit::<H>(next) {
                    Ok(()) => Ok(()),
                    Err(_) => Err(Refusal::DiskFault),
                }
            }
        }
    }

    /// Answers a message by what the archive has of it, and archives its thread where that is to be.
    pub(crate) fn receive<H: Hasher>(
        &mut self,
        alloc: Global,
        message: &Message,
        time: Option<u64>,
    ) -> Result<Receipt, Refusal>
        requires linked { IsLinked message.now }
        requires thread { IsThread message.now.thread }
        requires time { IsTimeWithinLimits time }
        requires whole { is_broken self.old.kept.store ≡ false }
        ensures receives { TakesIn H.dig D.view message.now time self.old.kept.store self.new.kept.store self.old.kept.root self.new.kept.root result }
    {
        let mut shelf = Shelf::new(alloc);
        let root = &self.kept.root;
        match receive_by::<Store<D>, H>(&mut self.kept.store, &mut shelf, root, message, time)? {
            Reception::Refuse(refusal) => Err(refusal),
            Reception::Known { archived } => receipt_of_step::<Store<D>, H>(
                alloc,
                &mut self.kept.store,
                &self.kept.root,
                archived,
                &message.thread,
            ),
            Reception::Archive => self.archive::<H>(alloc, &mut shelf, &message.thread, time),
        }
    }
}
