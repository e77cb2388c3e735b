// The follower itself: how it is made, opened and closed, tells its heads, and moves to a head that it is offered.
ghost use Rattle.std.specs.Prelude.{◌≡◌, ◌⊎◌, ◌≤◌, ◌<◌, ◌+◌, [], true, false};
ghost use Rattle.tw_base.specs.declared.kinds.limits.TheConstants.{LAST_STEP};
ghost use Rattle.tw_disk.specs.declared.limits.TheConstants.{FIRST_PAGE};
ghost use Rattle.tw_pages.specs.Same.{store_count};
ghost use Rattle.tw_pages.specs.StoreValue.{generation_of, staged_of, is_broken as store_is_broken};

use crate::head_page::{HeadPage, head_page};
use crate::judging::{Offered, judge};
use crate::reading::read_heads;
use crate::root::RootRecord;
use std::alloc::Global;
use std::marker::PhantomData;
use tw_base::{FollowRefusal, Hasher, Name, ReadFault, Thread, Threads, genesis, see_name};
use tw_disk::{Disk, Pages};
use tw_msg::{Message, message_laws, read_message};
use tw_pages::{Recorded, Store, StoreFault};

/// A follower: the heads of one service, oldest first, on a disk, where its pages keep such a list.
#[derive(Drop)]
pub struct Follower<D: Disk, H: Hasher> {
    alloc: Global,
    recorded: Recorded<D, RootRecord>,
    is_broken: bool,
    hasher: PhantomData<H>,
    ghost tells_faults: { is_broken ≡ false → store_is_broken recorded.store ≡ false },
    ghost short: { recorded.root.head.step ≤ LAST_STEP },
    ghost few_pages: { store_count recorded.store ≤ FIRST_PAGE + recorded.root.head.step },
    ghost few_commits: { generation_of recorded.store ≤ recorded.root.head.step + 1 },
    ghost clean: { staged_of recorded.store ≡ [] },
}

impl<D: Disk, H: Hasher> Follower<D, H> {
    ghost use Rattle.std.specs.Prelude.{◌↔◌, ◌≢◌, ℕ, List, length, Some, Err, IfOk, IfErr, IsErrAnd, IsTrue, MatchResult, OnOk};
    ghost use Rattle.tw_base.specs.history.Auth.{auth};
    ghost use Rattle.tw_base.specs.history.History.{History};
    ghost use Rattle.tw_base.specs.history.Limits.{IsThread};
    ghost use Rattle.tw_base.specs.history.Sound.{IsSound};
    ghost use Rattle.tw_base.specs.kinds.Faults.{Rose};
    ghost use Rattle.tw_disk.specs.Disk.{IsAtRest, LeavesOnly, Reads};
    ghost use Rattle.tw_disk.specs.Image.{Image};
    ghost use Rattle.tw_pages.specs.Slots.{IsTaken};
    ghost use Rattle.tw_pages.specs.declared.open.StoreFault.{StoreFault as Fault};
    ghost use Rattle.tw_base.specs.format.Formats.{Spells};
    ghost use Rattle.tw_msg.specs.HistoryMessages.{MakesMessage};
    ghost use Rattle.tw_msg.specs.Messages.{IsLinked, message_layout};
    ghost use Rattle.tw_follow.specs.Calls.{OfferSteps, Offers, TellsHeads};
    ghost use Rattle.tw_follow.specs.Follows.{Follows, HasSameDisk, IsOver, disk_of, has_failed, head_of, pages_of, record_of};
    ghost use Rattle.tw_follow.specs.HeadLists.{HasHead, Kept, first_thread, last_head, no_heads};
    ghost use Rattle.tw_follow.specs.Stands.{IsBlankOrNew, IsNotOpenedFor, OpensWith, StandsFor, root_kind};
    ghost use Rattle.tw_follow.specs.Writing.{moved_to};
    ghost use Rattle.tw_pages.specs.Records.{IsOneOf, IsWritten, written_record};
    ghost use Rattle.tw_pages.specs.Rests.{RestsWith};

    /// Makes a follower of the service of this name, without a head, on a disk that has no store.
    ///
    /// A disk fault excepted, it answers `Taken` exactly where the disk has at least four pages and a gate
    /// reads open, and then changes nothing; else only `DiskFault`, never `NoMemory`. A disk with four
    /// pages and an open gate reads as before, and a crash leaves nothing else than before, whatever the
    /// answer. Where a crash stops it, the disk is blank or stands for the empty list of the name, or is
    /// what a crash might have left before; and so reads a disk that told its content and is given back.
    ///
    /// The clauses from `taken` on are those of `Recorded::init` in `tw_pages`, of the disk of this follower and its new images.
    pub fn init(alloc: Global, disk: D, name: Name) -> Result<Follower<D, H>, (D, StoreFault)>
        // A new follower keeps the empty list of its name, at rest.
        ensures follows { IfOk result (λ f. (c : Image) → (D.view disk).content ≡ Some c
            → Follows H.dig D.view f (no_heads name)) }
        // Its head is step 0 of the name, with the name's authenticator; it has met no disk fault.
        ensures head { IfOk result (λ f. (head_of f ≡ first_thread H.dig name) × (has_failed f ≡ false)) }

        // `Taken` only where a store is there.
        ensures taken { IfErr result (λ e. e.1 ≡ StoreFault.Taken → (c : Image) → (D.view disk).content ≡ Some c
            → IsTaken c) }
        // Where a store is there, the answer is `Taken`, a disk fault excepted.
        ensures exact { (c : Image) → (D.view disk).content ≡ Some c → IsTaken c
            → IsErrAnd result (λ e. (e.1 ≡ StoreFault.Taken) ⊎ (e.1 ≡ StoreFault.DiskFault)) }
        // After `Taken` nothing was written.
        ensures unchanged { IfErr result (λ e. e.1 ≡ StoreFault.Taken → ((D.view e.0).content ≡ (D.view disk).content)
            × LeavesOnly (D.view disk) (D.view e.0) ((D.view disk).may_leave)) }
        // Making never answers anything but a follower, `Taken` or `DiskFault`.
        ensures answers { IfErr result (λ e. (e.1 ≡ StoreFault.Taken) ⊎ (e.1 ≡ StoreFault.DiskFault)) }
        // `DiskFault` comes only where the disk's count of faults rose.
        ensures fault { IfErr result (λ e. e.1 ≡ StoreFault.DiskFault
            → Rose ((D.view disk).faults) ((D.view e.0).faults)) }
        // The count of faults hasn't fallen.
        ensures later { MatchResult result (λ f. (D.view disk).faults ≤ (D.view (disk_of f)).faults)
            (λ e. (D.view disk).faults ≤ (D.view e.0).faults) }

        // Where a store is there, nothing is written, whatever the answer.
        ensures held { (c : Image) → (D.view disk).content ≡ Some c → IsTaken c
            → IfErr result (λ e. ((D.view e.0).content ≡ Some c)
            × LeavesOnly (D.view disk) (D.view e.0) ((D.view disk).may_leave)) }

        // A crash while a follower is made leaves what it might have left before, a blank disk, or the empty list.
        ensures any_moment { IfOk result (λ f. (c : Image) → (D.view disk).content ≡ Some c
            → LeavesOnly (D.view disk) (D.view (disk_of f)) (λ i. (D.view disk).may_leave i
            ⊎ IsBlankOrNew H.dig name i)) }
        // Where making fails, a crash leaves such images alone too.
        ensures any_moment_err { IfErr result (λ e. (c : Image) → (D.view disk).content ≡ Some c
            → LeavesOnly (D.view disk) (D.view e.0) (λ i. (D.view disk).may_leave i
            ⊎ IsBlankOrNew H.dig name i)) }

        // A disk that is given back tells its content still, which is such an image.
        ensures told { IfErr result (λ e. (c : Image) → (D.view disk).content ≡ Some c
            → Reads (D.view e.0) (λ i. (D.view disk).may_leave i ⊎ IsBlankOrNew H.dig name i)) }
    {
        see_name(&name);
        let auth = genesis::<H>(&name);
        let root = RootRecord {
            head: Thread {
                from: name,
                step: 0,
                auth,
            },
            page: 0,
        };
        match Recorded::init::<H>(alloc, disk, root) {
            Err((disk, fault)) => Err((disk, fault)),
            Ok(recorded) => Ok(Follower {
                alloc,
                recorded,
                is_broken: false,
                hasher: PhantomData,
            }),
        }
    }

    /// Opens the follower that a disk holds, after a barrier that makes it stable.
    ///
    /// `Blank` and `NotAStore` exactly where the store answers them; `NotAStore` with the slot that
    /// counts, too, exactly where the root record is none of a follower. Else only `DiskFault`, never
    /// `NoMemory`. No page of a head is read. A disk that stands for a list of heads is never refused.
    /// Whatever it answers, the disk reads as before.
    pub fn open(alloc: Global, disk: D) -> Result<Follower<D, H>, (D, StoreFault)>
        // A disk that reads as a list of heads is opened as it, at rest, or met a disk fault.
        ensures follows { (c : Image) (k : Kept) → (D.view disk).content ≡ Some c
            → StandsFor H.dig c k
            → MatchResult result (λ f. Follows H.dig D.view f k) (λ e. e.1 ≡ StoreFault.DiskFault) }
        // Whatever is opened, its disk is at rest over what it read as.
        ensures stable { IfOk result (λ f. (c : Image) → (D.view disk).content ≡ Some c
            → IsAtRest (D.view (disk_of f)) (λ i. i ≡ c)) }
        // A value that was opened has met no disk fault.
        ensures whole { IfOk result (λ f. has_failed f ≡ false) }

        // Whatever is opened has the value's root record, which is one of a follower, and the value's pages.
        ensures opened { IfOk result (λ f. (c : Image) → (D.view disk).content ≡ Some c
            → OpensWith H.dig c (record_of f) (λ ps. pages_of D.view f ≡ Some ps)) }

        // Over a disk that told what it reads as the value's disk is at rest with its record and pages, whatever they keep.
        ensures over { IfOk result (λ f. (c : Image) → (D.view disk).content ≡ Some c
            → (ps : Image) × (pages_of D.view f ≡ Some ps) × IsWritten (root_kind H.dig) (written_record (record_of f) ps) c × IsOver H.dig D.view f ps) }

        // `Blank` and `NotAStore` come only where their reasons stand.
        ensures refused { IfErr result (λ e. (c : Image) → (D.view disk).content ≡ Some c
            → (e.1 ≡ StoreFault.DiskFault) ⊎ IsNotOpenedFor H.dig c e.1) }
        // `Blank` and `NotAStore` come wherever their reasons stand, a disk fault excepted.
        ensures exact { (c : Image) (fault : Fault) → (D.view disk).content ≡ Some c → IsNotOpenedFor H.dig c fault
            → IsErrAnd result (λ e. (e.1 ≡ fault) ⊎ (e.1 ≡ StoreFault.DiskFault)) }
        // Whatever it answers, the disk reads as before.
        ensures unchanged { MatchResult result (λ f. (D.view (disk_of f)).content ≡ (D.view disk).content)
            (λ e. (D.view e.0).content ≡ (D.view disk).content) }
        // Opening never answers `Taken` or `NoMemory`.
        ensures answers { IfErr result (λ e. (e.1 ≢ StoreFault.Taken) × (e.1 ≢ StoreFault.NoMemory)) }
        // `DiskFault` comes only where the disk's count of faults rose.
        ensures fault { IfErr result (λ e. e.1 ≡ StoreFault.DiskFault
            → Rose ((D.view disk).faults) ((D.view e.0).faults)) }
        // The count of faults hasn't fallen.
        ensures later { MatchResult result (λ f. (D.view disk).faults ≤ (D.view (disk_of f)).faults)
            (λ e. (D.view disk).faults ≤ (D.view e.0).faults) }

        // A crash since the start leaves nothing else than before: opening writes nothing.
        ensures any_moment { IfOk result (λ f. LeavesOnly (D.view disk) (D.view (disk_of f))
            ((D.view disk).may_leave)) }
        // Where opening fails, it wrote nothing either.
        ensures any_moment_err { IfErr result (λ e. LeavesOnly (D.view disk) (D.view e.0) ((D.view disk).may_leave)) }
    {
        match Recorded::<D, RootRecord>::open::<H>(alloc, disk) {
            Err((disk, fault)) => Err((disk, fault)),
            Ok(recorded) => Ok(Follower {
                alloc,
                recorded,
                is_broken: false,
                hasher: PhantomData,
            }),
        }
    }

    /// The head: the last thread of the service that it moved to; before the first one step 0, with the
    /// authenticator of the name.
    pub fn head(&self) -> Thread
        // Over every disk the head is the value's own.
        ensures value { result ≡ head_of self.now }
        // Where a list is kept, its last head is told.
        ensures follows { (k : Kept) → Follows H.dig D.view self.now k → result ≡ last_head H.dig k }
    {
        self.recorded.root.head
    }

    /// All heads, oldest first. Reads the page of each once.
    ///
    /// `Reopen` exactly where an earlier call on this value answered `DiskFault`. `BadPage` tells the
    /// first page met, from the last head's down, with a number below 4 or not below the used count, or
    /// that isn't the page of a head that may stand there: the last one is the record's, and steps fall
    /// on the way down. It never comes where a list is kept. It writes nothing.
    pub fn heads(&mut self) -> Result<Threads, FollowRefusal>
        // Telling the heads. `Reopen` comes exactly where an earlier call on the value answered `DiskFault`; else only
        // `DiskFault`, `BadPage` and `NoMemory` come. Over told pages, whatever they keep, the answer is what is found
        // in them, a disk fault and want of memory excepted. Over whatever disk, also one whose reads contradict each
        // other, the heads that are told are threads of the value's service with steps that rise to its head. Where a
        // list is kept, the answer is it. Whatever the answer, the list is kept as before, at rest, nothing is written,
        // and the root record is as before. The value remembers that a call answered `DiskFault`, which comes only
        // where the disk's count of faults rose.
        ensures { TellsHeads H.dig D.view self.old self.new result }
    {
        if self.is_broken {
            return Err(FollowRefusal::Reopen);
        }
        match read_heads::<Store<D>>(self.alloc, &mut self.recorded.store, &self.recorded.root) {
            Ok(heads) => Ok(heads),
            Err(refusal) => {
                self.is_broken = refusal.is_disk_fault();
                Err(refusal)
            }
        }
    }

    /// Offers the bytes of a message, and answers the head, which is the message's thread.
    ///
    /// Refusals, the first that stands, each where [`FollowRefusal`] says: `Reopen`, `Malformed`, and those of
    /// the message, from `Other` to `BadLink` in their order there. A message of the head itself is
    /// answered, and nothing is written. All memory is taken before the first write, so after `NoMemory`
    /// the disk is as before. After `DiskFault` this value has to be given up; where a list was kept, the
    /// disk tells its content still, which stands for the list before the call or with the new head;
    /// `open` then opens that one, or meets a disk fault.
    pub fn offer(&mut self, bytes: &[u8]) -> Result<Thread, FollowRefusal>
        // Offering a message. Each refusal of the table comes exactly where its line is the first that stands; else only
        // `DiskFault` and `NoMemory` are left. Where a list is kept, there is a next one: the same, or with the head
        // that the bytes move to. Every image that a crash since the start may leave stands for one of the two, and so
        // does the content, which is told still, after `DiskFault` too; after `Ok` the next one is kept, at rest; after
        // a refusal but `DiskFault` nothing was written, and the list is kept as before. Whatever the pages keep, the same holds
        // of the record and pages: those of the moved head, its page behind the others, are next. The answer is the head, which
        // is the old one or a later one of the same service; where it is the old one, nothing was written. After each
        // refusal the root record is as before. The value remembers that a call answered `DiskFault`, which comes only
        // where the disk's count of faults rose.
        ensures offers { Offers H.dig D.view bytes.now self.old self.new result }
        // The message that a sound history of the name has of its last step since the head's step, where the history has
        // the head, is answered with its last thread; `Reopen`, a disk fault and want of memory are excepted.
        ensures own { (h : History) → IsSound h → h.name ≡ (head_of self.old).from → HasHead H.dig h (head_of self.old)
            → MakesMessage H.dig h (head_of self.old).step bytes.now
            → MatchResult result (λ thread. (thread.step ≡ length h.steps) × (thread.auth ≡ auth H.dig h (length h.steps)))
            (λ refusal. (refusal ≡ FollowRefusal.Reopen) ⊎ (refusal ≡ FollowRefusal.DiskFault) ⊎ (refusal ≡ FollowRefusal.NoMemory)) }
    {
        if self.is_broken {
            return Err(FollowRefusal::Reopen);
        }
        message_laws();
        match read_message(self.alloc, bytes) {
            Ok(message) => self.take(&message),
            Err(ReadFault::Malformed { place }) => Err(FollowRefusal::Malformed { place }),
            Err(ReadFault::NoMemory) => Err(FollowRefusal::NoMemory),
        }
    }

    /// Does with a message what `offer` does with the bytes that spell it.
    pub fn take(&mut self, message: &Message) -> Result<Thread, FollowRefusal>
        requires linked { IsLinked message.now }
        requires thread { IsThread message.now.thread }
        // Taking a message does what offering any bytes does that spell it.
        ensures { (bytes : List ℕ) → Spells message_layout bytes message.now → Offers H.dig D.view bytes self.old self.new result }
    {
        if self.is_broken {
            return Err(FollowRefusal::Reopen);
        }
        match judge::<H>(&self.recorded.root.head, message) {
            Err(refusal) => Err(refusal),
            Ok(Offered::Known) => Ok(self.recorded.root.head),
            Ok(Offered::Moves { head }) => self.move_to(&head),
        }
    }

    /// Moves to a later head of the service, and answers it.
    fn move_to(&mut self, head: &Thread) -> Result<Thread, FollowRefusal>
        requires from { head.now.from ≡ (head_of self.old).from }
        requires above { (head_of self.old).step < head.now.step }
        requires thread { IsThread head.now }
        requires whole { has_failed self.old ≡ false }
        ensures head { IfOk result (λ thread. (thread ≡ head.now) × (head_of self.new ≡ head.now)) }
        ensures answers { IfErr result (λ refusal. (refusal ≡ FollowRefusal.DiskFault) ⊎ (refusal ≡ FollowRefusal.NoMemory)) }
        ensures written { (ps : Image) → IsOver H.dig D.view self.old ps
            → LeavesOnly (D.view (disk_of self.old)) (D.view (disk_of self.new)) (IsOneOf (root_kind H.dig) (written_record (record_of self.old) ps)
            (moved_to (written_record (record_of self.old) ps) head.now))
            × Reads (D.view (disk_of self.new)) (IsOneOf (root_kind H.dig) (written_record (record_of self.old) ps) (moved_to (written_record (record_of self.old) ps) head.now))
            × OnOk result ((record_of self.new ≡ (moved_to (written_record (record_of self.old) ps) head.now).root)
            × RestsWith D.view (root_kind H.dig) self.new.recorded.store (moved_to (written_record (record_of self.old) ps) head.now)) }
        ensures kept { IfErr result (λ refusal. (record_of self.new ≡ record_of self.old)
            × ((refusal ≡ FollowRefusal.DiskFault) ⊎ HasSameDisk D.view self.old self.new)) }
        ensures broken { IsTrue (has_failed self.new) ↔ (result ≡ Err FollowRefusal.DiskFault) }
        ensures fault { result ≡ Err FollowRefusal.DiskFault
            → Rose ((D.view (disk_of self.old)).faults) ((D.view (disk_of self.new)).faults) }
        ensures later { (D.view (disk_of self.old)).faults ≤ (D.view (disk_of self.new)).faults }
    {
        let page = head_page(&HeadPage {
            step: head.step,
            auth: head.auth,
            before: self.recorded.root.page,
        });
        match self.recorded.store.stage(&page) {
            Err(_) => Err(FollowRefusal::NoMemory),
            Ok(number) => {
                let next = RootRecord {
                    head: *head,
                    page: number,
                };
                match self.recorded.commit::<H>(next) {
                    Ok(()) => Ok(*head),
                    Err(_) => {
                        self.is_broken = true;
                        Err(FollowRefusal::DiskFault)
                    }
                }
            }
        }
    }

    /// Gives the disk back. Where a list was kept, the disk stands for it, at rest.
    pub fn close(self) -> D
        // The disk is given back.
        ensures disk { result ≡ disk_of self }
        // The disk that is given back stands for the list that was kept, at rest.
        ensures stands { (k : Kept) → Follows H.dig D.view self k
            → IsAtRest (D.view result) (λ i. StandsFor H.dig i k) }
        // So it opens with the record and pages that there were, whatever these keep.
        ensures over { (ps : Image) → IsOver H.dig D.view self ps
            → IsAtRest (D.view result) (IsWritten (root_kind H.dig) (written_record (record_of self) ps)) }
    {
        let Follower {
            alloc: _,
            recorded,
            is_broken: _,
            hasher: _,
        } = self;
        recorded.close()
    }
}
