// The service itself: how it is made, opened and closed, and how it adds steps; `asking.rt` has what it is asked.
ghost use Rattle.std.specs.Prelude.{◌≡◌, ◌⊎◌, ◌≤◌, ◌*◌, ◌<◌, ◌^◌, ◌+◌, true, false};
ghost use Rattle.tw_pages.specs.StoreValue.{is_broken as store_is_broken};

use crate::recorded::Unstaged;
use std::alloc::Global;
use std::marker::PhantomData;
use tw_answers::{Refusal, RootRecord, append_refusal, own_refusal};
use tw_base::{EventList, Hasher, Name, ReadFault, Root, Thread, empty_tree, genesis, see_name};
use tw_disk::Disk;
use tw_msg::{Message as MessageRead, Receipt, message_laws, read_message};
use tw_pages::{Recorded, StoreFault};
use tw_skiplist::Head;

/// A service: one sound history on a disk, where its pages keep one.
#[derive(Drop)]
pub struct Service<D: Disk, H: Hasher> {
    pub(crate) alloc: Global,
    pub(crate) recorded: Unstaged<D>,
    pub(crate) is_broken: bool,
    hasher: PhantomData<H>,
    ghost tells_faults: { is_broken ≡ false → store_is_broken recorded.kept.store ≡ false },
}

impl<D: Disk, H: Hasher> Service<D, H> {
    ghost use Rattle.std.specs.Prelude.{◌↔◌, ◌≢◌, ℕ, [], length, List, Some, None, Ok, Err, IfOk, IfErr, IsErrAnd, IsTrue, OnErr, MatchOption, MatchResult};
    ghost use Rattle.tw_base.specs.declared.kinds.limits.TheConstants.{LAST_TIME};
    ghost use Rattle.tw_base.specs.history.History.{History, events_at};
    ghost use Rattle.tw_base.specs.history.Limits.{IsStep, IsThread, IsTimeWithinLimits};
    ghost use Rattle.tw_base.specs.kinds.Faults.{Rose};
    ghost use Rattle.tw_disk.specs.Disk.{IsAtRest, LeavesOnly, Reads};
    ghost use Rattle.tw_disk.specs.Image.{Image};
    ghost use Rattle.tw_pages.specs.Slots.{IsTaken};
    ghost use Rattle.tw_pages.specs.declared.open.StoreFault.{StoreFault as Fault};
    ghost use Rattle.tw_answers.specs.Refusals.{IsFault};
    ghost use Rattle.tw_msg.specs.Messages.{IsLinked};
    ghost use Rattle.tw_service.specs.Adding.{AppendsEvents, CallSteps, Receives, ReceivesBytes};
    ghost use Rattle.tw_answers.specs.Finds.{IsFoundAnswer};
    ghost use Rattle.tw_service.specs.Finds.{found_thread};
    ghost use Rattle.tw_answers.specs.Limits.{append_refusal as append_refusal_of};
    ghost use Rattle.tw_service.specs.Machine.{AnswersByMachine, IsStepOf, last_thread};
    ghost use Rattle.tw_service.specs.Machine.Call.{Append, CountSteps, TellHead, TellName};
    ghost use Rattle.tw_service.specs.Machine.Reply.{OfName, OfNumber, OfThread};
    ghost use Rattle.tw_pages.specs.Records.{IsWritten, written_record};
    ghost use Rattle.tw_answers.specs.Roots.{root_kind};
    ghost use Rattle.tw_service.specs.Writing.{AppendsTo, CommitsRoot, IsThreadOfNext};
    ghost use Rattle.tw_service.specs.Serves.{HasSameDisk, IsOver, Serves, archive_of, clock_of, disk_of, has_failed, head_of, head_thread, name_of, pages_of, record_of, steps_of, threads_of};
    ghost use Rattle.tw_service.specs.Stands.{IsBlankOrNew, IsNotOpenedFor, OpensWith, StandsFor, StandsForOneOf, greater, no_history};

    /// Makes a service of this name, without a step, on a disk that has no store.
    ///
    /// A disk fault excepted, it answers `Taken` exactly where the disk has at least four pages and a gate reads open, and then changes
    /// nothing; else only `DiskFault`, never `NoMemory`. A disk with four pages and an open gate reads as before, and a crash leaves
    /// nothing else than before, whatever the answer. Where a crash stops it, the disk is blank or stands for the empty history of the
    /// name, or is what a crash might have left before; and so reads a disk that told its content and is given back.
    ///
    /// The clauses from `taken` on are those of `Recorded::init` in `tw_pages`, of the disk of this service and its new images.
    pub fn init(alloc: Global, disk: D, name: Name) -> Result<Service<D, H>, (D, StoreFault)>
        // A new service serves the empty history of its name, at rest.
        ensures served { IfOk result (λ s. (c : Image) → (D.view disk).content ≡ Some c
            → Serves H.dig D.view s (no_history name)) }
        // It has the name that was given, no steps, and has met no disk fault.
        ensures thread { IfOk result (λ s. (name_of s ≡ name) × (steps_of s ≡ 0) × (has_failed s ≡ false)) }
        // Its record has no page of a step or of an archive, no thread and no time.
        ensures record { IfOk result (λ s. ((head_of s).page ≡ 0) × ((archive_of s).page ≡ 0) × (threads_of s ≡ 0)
            × (clock_of s ≡ None)) }

        // `Taken` only where a store is there.
        ensures taken { IfErr result (λ e. e.1 ≡ StoreFault.Taken → (c : Image) → (D.view disk).content ≡ Some c
            → IsTaken c) }
        // Where a store is there, the answer is `Taken`, a disk fault excepted.
        ensures exact { (c : Image) → (D.view disk).content ≡ Some c → IsTaken c
            → IsErrAnd result (λ e. (e.1 ≡ StoreFault.Taken) ⊎ (e.1 ≡ StoreFault.DiskFault)) }
        // After `Taken` nothing was written.
        ensures unchanged { IfErr result (λ e. e.1 ≡ StoreFault.Taken → ((D.view e.0).content ≡ (D.view disk).content)
            × LeavesOnly (D.view disk) (D.view e.0) ((D.view disk).may_leave)) }
        // Making never answers anything but a service, `Taken` or `DiskFault`.
        ensures answers { IfErr result (λ e. (e.1 ≡ StoreFault.Taken) ⊎ (e.1 ≡ StoreFault.DiskFault)) }
        // `DiskFault` comes only where the disk's count of faults rose.
        ensures fault { IfErr result (λ e. e.1 ≡ StoreFault.DiskFault
            → Rose ((D.view disk).faults) ((D.view e.0).faults)) }
        // The count of faults hasn't fallen.
        ensures later { MatchResult result (λ s. (D.view disk).faults ≤ (D.view (disk_of s)).faults)
            (λ e. (D.view disk).faults ≤ (D.view e.0).faults) }

        // Where a store is there, nothing is written, whatever the answer.
        ensures held { (c : Image) → (D.view disk).content ≡ Some c → IsTaken c
            → IfErr result (λ e. ((D.view e.0).content ≡ Some c)
            × LeavesOnly (D.view disk) (D.view e.0) ((D.view disk).may_leave)) }

        // A crash while a service is made leaves what it might have left before, a blank disk, or the empty history.
        ensures any_moment { IfOk result (λ s. (c : Image) → (D.view disk).content ≡ Some c
            → LeavesOnly (D.view disk) (D.view (disk_of s)) (λ i. (D.view disk).may_leave i
            ⊎ IsBlankOrNew H.dig name i)) }
        // Where making fails, a crash leaves such images alone too.
        ensures any_moment_err { IfErr result (λ e. (c : Image) → (D.view disk).content ≡ Some c
            → LeavesOnly (D.view disk) (D.view e.0) (λ i. (D.view disk).may_leave i
            ⊎ IsBlankOrNew H.dig name i)) }

        // A disk that is given back tells its content still, which is such an image.
        ensures told { IfErr result (λ e. (c : Image) → (D.view disk).content ≡ Some c
            → Reads (D.view e.0) (λ i. (D.view disk).may_leave i ⊎ IsBlankOrNew H.dig name i)) }
    {
        see_name(&name);
        let auth = genesis::<H>(&name);
        let root = RootRecord {
            name,
            head: Head {
                step: 0,
                auth,
                page: 0,
            },
            archive: Root {
                page: 0,
                label: empty_tree::<H>(),
            },
            threads: 0,
            time: None,
        };
        match Recorded::init::<H>(alloc, disk, root) {
            Err((disk, fault)) => Err((disk, fault)),
            Ok(kept) => Ok(Service {
                alloc,
                recorded: Unstaged { kept },
                is_broken: false,
                hasher: PhantomData,
            }),
        }
    }

    /// Opens the service that a disk holds, after a barrier that makes it stable.
    ///
    /// `Blank` and `NotAStore` exactly where the store answers them; `NotAStore` with the slot that
    /// counts, too, exactly where the root record is none of a service. Else only `DiskFault`, never `NoMemory`. A disk that stands for a
    /// history is never refused. Whatever it answers, the disk reads as before.
    pub fn open(alloc: Global, disk: D) -> Result<Service<D, H>, (D, StoreFault)>
        // A disk that reads as a history is opened as it, at rest, or met a disk fault.
        ensures served { (c : Image) (of : List ℕ) (h : History) → (D.view disk).content ≡ Some c
            → StandsFor H.dig c of h
            → MatchResult result (λ s. Serves H.dig D.view s h) (λ e. e.1 ≡ StoreFault.DiskFault) }
        // Whatever is opened, its disk is at rest over what it read as.
        ensures stable { IfOk result (λ s. (c : Image) → (D.view disk).content ≡ Some c
            → IsAtRest (D.view (disk_of s)) (λ i. i ≡ c)) }
        // A value that was opened has met no disk fault.
        ensures whole { IfOk result (λ s. has_failed s ≡ false) }

        // Whatever is opened has the value's root record, which is one of a service, and the value's pages.
        ensures opened { IfOk result (λ s. (c : Image) → (D.view disk).content ≡ Some c
            → OpensWith c (record_of s) (λ ps. pages_of D.view s ≡ Some ps)) }

        // Over a disk that told what it reads as, the value's disk is at rest with its record and pages, whatever they keep.
        ensures over { IfOk result (λ s. (c : Image) → (D.view disk).content ≡ Some c
            → (ps : Image) × (pages_of D.view s ≡ Some ps) × IsWritten root_kind (written_record (record_of s) ps) c × IsOver D.view s ps) }

        // `Blank` and `NotAStore` come only where their reasons stand.
        ensures refused { IfErr result (λ e. (c : Image) → (D.view disk).content ≡ Some c
            → (e.1 ≡ StoreFault.DiskFault) ⊎ IsNotOpenedFor c e.1) }
        // `Blank` and `NotAStore` come wherever their reasons stand, a disk fault excepted.
        ensures exact { (c : Image) (fault : Fault) → (D.view disk).content ≡ Some c → IsNotOpenedFor c fault
            → IsErrAnd result (λ e. (e.1 ≡ fault) ⊎ (e.1 ≡ StoreFault.DiskFault)) }
        // Whatever it answers, the disk reads as before.
        ensures unchanged { MatchResult result (λ s. (D.view (disk_of s)).content ≡ (D.view disk).content)
            (λ e. (D.view e.0).content ≡ (D.view disk).content) }
        // Opening never answers `Taken` or `NoMemory`.
        ensures answers { IfErr result (λ e. (e.1 ≢ StoreFault.Taken) × (e.1 ≢ StoreFault.NoMemory)) }
        // `DiskFault` comes only where the disk's count of faults rose.
        ensures fault { IfErr result (λ e. e.1 ≡ StoreFault.DiskFault
            → Rose ((D.view disk).faults) ((D.view e.0).faults)) }
        // The count of faults hasn't fallen.
        ensures later { MatchResult result (λ s. (D.view disk).faults ≤ (D.view (disk_of s)).faults)
            (λ e. (D.view disk).faults ≤ (D.view e.0).faults) }

        // A crash since the start leaves nothing else than before: opening writes nothing.
        ensures any_moment { IfOk result (λ s. LeavesOnly (D.view disk) (D.view (disk_of s))
            ((D.view disk).may_leave)) }
        // Where opening fails, it wrote nothing either.
        ensures any_moment_err { IfErr result (λ e. LeavesOnly (D.view disk) (D.view e.0) ((D.view disk).may_leave)) }
    {
        match Recorded::<D, RootRecord>::open::<H>(alloc, disk) {
            Err((disk, fault)) => Err((disk, fault)),
            Ok(kept) => Ok(Service {
                alloc,
                recorded: Unstaged { kept },
                is_broken: false,
                hasher: PhantomData,
            }),
        }
    }

    /// The number of steps.
    pub fn steps(&self) -> u64
        // Over every disk the number of steps is that of the value's head.
        ensures value { result ≡ steps_of self.now }
        // Where a history is served, its number of steps is told.
        ensures served { (h : History) → Serves H.dig D.view self.now h → result ≡ length h.steps }
        // Telling the number of steps is a step of the machine that changes nothing.
        ensures machine { (h : History) → Serves H.dig D.view self.now h
            → IsStepOf H.dig h CountSteps (OfNumber result) h }
    {
        self.recorded.kept.root.head.step
    }

    /// The thread of the last step; where there is no step, step 0 with the authenticator of the name.
    pub fn head(&self) -> Thread
        // Over every disk the thread is that of the value's head.
        ensures value { result ≡ head_thread self.now }
        // Where a history is served, the thread of its last step is told.
        ensures served { (h : History) → Serves H.dig D.view self.now h → result ≡ last_thread H.dig h }
        // Telling the last thread is a step of the machine that changes nothing.
        ensures machine { (h : History) → Serves H.dig D.view self.now h
            → IsStepOf H.dig h TellHead (OfThread result) h }
    {
        Thread {
            from: self.recorded.kept.root.name,
            step: self.recorded.kept.root.head.step,
            auth: self.recorded.kept.root.head.auth,
        }
    }

    /// The name.
    pub fn name(&self) -> Name
        // Over every disk the name is the value's own.
        ensures value { result ≡ name_of self.now }
        // Where a history is served, its name is told.
        ensures served { (h : History) → Serves H.dig D.view self.now h → result ≡ h.name }
        // Telling the name is a step of the machine that changes nothing.
        ensures machine { (h : History) → Serves H.dig D.view self.now h → IsStepOf H.dig h TellName (OfName result) h }
    {
        self.recorded.kept.root.name
    }

    /// Gives the disk back. Where a history was served, the disk stands for it, at rest.
    pub fn close(self) -> D
        // The disk is given back.
        ensures disk { result ≡ disk_of self }
        // The disk that is given back stands for the history that was served, at rest.
        ensures stands { (h : History) → Serves H.dig D.view self h
            → IsAtRest (D.view result) (λ i. StandsFor H.dig i (name_of self) h) }
        // Where the value was at rest with its record and pages, whatever they keep, the disk opens with these, at rest.
        ensures over { (ps : Image) → IsOver D.view self ps
            → IsAtRest (D.view result) (IsWritten root_kind (written_record (record_of self) ps)) }
    {
        let Service {
            alloc: _,
            recorded,
            is_broken: _,
            hasher: _,
        } = self;
        let Unstaged { kept } = recorded;
        kept.close()
    }

    /// Adds a step of these events, which has no time, and answers its thread.
    ///
    /// Refusals, the first that stands: `Reopen` where an earlier call on this value answered `DiskFault`; `Full` where there are 2^40 -
    /// 1 steps; `TooMany` where there are more than 1,024 events; `TooLong` where one is longer than 1,024 bytes, with the length of the
    /// first such one, or where together they are longer than 65,536 bytes, with that length. `BadPage` tells the first page met for the
    /// new step's links that isn't the page of its step; it never comes where a history is served. All memory is taken before the first
    /// write, so after `NoMemory` the disk is as before. After `DiskFault` this value has to be given up; where a history was served, the
    /// disk tells its content still, which stands for the history before the call or with the new step; `open` then serves that one, or
    /// meets a disk fault.
    pub fn append(&mut self, events: &EventList) -> Result<Thread, Refusal>
        // Adding a step of events without a time. Each refusal of the table comes exactly where its line is the first that stands; else
        // only `DiskFault`, `BadPage` and `NoMemory` are left. Over told pages, whatever they keep, the answer is what is found in them,
        // a disk fault and want of memory excepted. Of a store at rest with a record and pages, whatever these keep, every image that a
        // crash since the start may leave opens with them, or with the record of the step that is found in them and the pages found with
        // it; and so does the content, which is told still, after `DiskFault` too; after `Ok` it is the latter, at rest; after a refusal
        // but `DiskFault` it is as before. Where a history is served, the history with one more step of these events is the next one. Every image that a crash since the start may leave stands for one of the two, and so does the content, which is told
        // still, after `DiskFault` too; after `Ok` the next one is served, at rest, and the answer is the thread of its last step; after
        // a refusal but `DiskFault` nothing was written, and the history is served as before. Where no earlier call met a disk fault, the
        // call is a step of the machine. The archive and the greatest time that the root record tells stay as they were, over whatever
        // store; after each refusal name and head do too. The value remembers that a call answered `DiskFault`, which comes only where
        // the disk's count of faults rose.
        ensures { AppendsEvents H.dig D.view events.now None self.old self.new result }
    {
        self.add(events, None)
    }

    /// Adds a step of these events at this time, in seconds, which is at most 2^40 - 1, and answers its thread. The time is what the
    /// caller claims: no clock is read.
    ///
    /// Refusals are those of `append`, and after them `ClockBack` where the time is below the greatest time of the steps so far, with
    /// both.
    pub fn append_at(&mut self, events: &EventList, time: u64) -> Result<Thread, Refusal>
        requires { time ≤ LAST_TIME }
        // Adding a step of events at a time does what adding one without a time does; and `ClockBack` is the last line of its table,
        // which stands exactly where the time is below the greatest one that the root record tells; and after `Ok` that one is the
        // greater of the two.
        ensures { AppendsEvents H.dig D.view events.now (Some time) self.old self.new result }
    {
        self.add(events, Some(time))
    }

    /// Archives the thread of the message that these bytes are in a step of its own, and answers the receipt of that step; or, where the
    /// archive has the thread, that of the step that received it, and makes none. After `Ok`, where a history is served, the step and its
    /// pages are on the disk, as after `append`.
    ///
    /// Refusals, the first that stands: `Reopen` where an earlier call on this value answered `DiskFault`; `Malformed` where the bytes
    /// are no message, with the first byte at which none goes on; `Own` where the message is of this service itself; what the archive has
    /// against it, with what is kept; and, where the thread is to be archived, `Full` where
    /// there are 2^40 - 1 steps. `BadPage` tells the first page met that isn't of its kind, the one read last where the step that is told
    /// to have received the thread is above the last one, or the root's page of the archive where one reading of it contradicts another;
    /// it never comes where a history is served. All memory is taken before the first write, so after `NoMemory` the disk is as before.
    /// After `DiskFault` this value has to be given up, as after that of `append`.
    pub fn receive(&mut self, bytes: &[u8]) -> Result<Receipt, Refusal>
        // Receiving bytes without a time. Those that are no message are refused: after a disk fault by `Reopen`, and else by `Malformed`
        // with the first byte at which no message goes on, want of memory excepted; nothing has changed then. Those that are a message
        // are received as that message is, where no earlier call met a disk fault and there was memory to read it, and by `Reopen` after
        // such a call.
        ensures { ReceivesBytes H.dig D.view bytes.now None self.old self.new result }
    {
        self.take_bytes(bytes, None)
    }

    /// Archives the thread of the message that these bytes are, as `receive` does, in a step of this time, in seconds, which is at most
    /// 2^40 - 1. The time is what the caller claims: no clock is read. A thread that the archive has is answered whatever the time.
    ///
    /// Refusals are those of `receive`, and after them `ClockBack` where the time is below the greatest time of the steps so far, with
    /// both.
    pub fn receive_at(&mut self, bytes: &[u8], time: u64) -> Result<Receipt, Refusal>
        requires { time ≤ LAST_TIME }
        // Receiving bytes at a time does what receiving them without one does, with the message received at this time.
        ensures { ReceivesBytes H.dig D.view bytes.now (Some time) self.old self.new result }
    {
        self.take_bytes(bytes, Some(time))
    }

    /// Reads the message, and archives its thread with this time or none.
    fn take_bytes(&mut self, bytes: &[u8], time: Option<u64>) -> Result<Receipt, Refusal>
        requires { IsTimeWithinLimits time }
        ensures { ReceivesBytes H.dig D.view bytes.now time self.old self.new result }
    {
        if self.is_broken {
            return Err(Refusal::Reopen);
        }
        message_laws();
        match read_message(self.alloc, bytes) {
            Ok(message) => {
                let received = self.take(&message, time);
                // Dropped by its name, so that the prover meets the drop in one place.
                drop(message);
                received
            }
            Err(ReadFault::Malformed { place }) => Err(Refusal::Malformed { place }),
            Err(ReadFault::NoMemory) => Err(Refusal::NoMemory),
        }
    }

    /// Archives the thread of a message that was read, with this time or none, as `receive` and `receive_at` do. No memory is needed
    /// before the message's service is looked at, so `Own` comes exactly.
    pub fn take(&mut self, message: &MessageRead, time: Option<u64>) -> Result<Receipt, Refusal>
        requires linked { IsLinked message.now }
        requires thread { IsThread message.now.thread }
        requires time { IsTimeWithinLimits time }
        // Receiving a message. `Reopen` and `Own` come exactly where their lines are the first that stand. Over told pages, whatever they
        // keep, what becomes of the message is what the archive's pages tell of it, and the answer is by that, a disk fault and want of
        // memory excepted: what the archive has against it, `Full` or `ClockBack`; the receipt of the step that received it; or that
        // of the next step. Of a store at rest with a record and pages, whatever these keep, every image that a crash since the start may
        // leave opens with them, or with the record of a step that archives the thread and the pages found with it; and so does the
        // content, which is told still, after `DiskFault` too; after the next step's receipt it is the latter, at rest, and after any other
        // answer but `DiskFault` it is as before. Where a history is served, every image that a crash since the start may leave stands for it or for a next
        // one, with one more step that archives the thread at this time, and so does the content, which is told still, after `DiskFault`
        // too; after `Ok` the call is a step of the machine to what is then served, at rest; after a refusal but `DiskFault` nothing was
        // written, and the history is served as before. The record has one thread more, the next head and the greater time after a step
        // was made, and stays as it was where the thread is known and after each refusal, over whatever store. The value remembers that a
        // call answered `DiskFault`, which comes only where the disk's count of faults rose.
        ensures { Receives H.dig D.view message.now time self.old self.new result }
    {
        let name = &self.recorded.kept.root.name;
        if let Some(refusal) = own_refusal(self.is_broken, name, &message.thread.from) {
            return Err(refusal);
        }
        match self.recorded.receive::<H>(self.alloc, message, time) {
            Ok(receipt) => Ok(receipt),
            Err(refusal) => {
                self.is_broken = refusal.is_disk_fault();
                Err(refusal)
            }
        }
    }

    /// Adds a step of these events, with this time or none.
    fn add(&mut self, events: &EventList, time: Option<u64>) -> Result<Thread, Refusal>
        requires { IsTimeWithinLimits time }
        ensures table { MatchOption
            (append_refusal_of (has_failed self.old) (steps_of self.old) (clock_of self.old) events.now time)
            (IfErr result IsFault) (λ refusal. result ≡ Err refusal) }
        ensures answer { (ps : Image) → pages_of D.view self.old ≡ Some ps
            → IsFoundAnswer result (found_thread H.dig ps (name_of self.old) (head_of self.old) (has_failed self.old)
            (clock_of self.old) events.now time (archive_of self.old)) }
        ensures steps { (h : History) → Serves H.dig D.view self.old h
            → CallSteps H.dig D.view (Append events.now time) (λ thread. OfThread thread) self.old self.new result h }
        ensures written { (ps : Image) → IsOver D.view self.old ps
            → CommitsRoot D.view (AppendsTo H.dig events.now time) (IsThreadOfNext H.dig events.now time) self.old.recorded.kept.store self.new.recorded.kept.store
            (record_of self.old) (record_of self.new) result ps }
        ensures thread { IfOk result (λ thread. (thread ≡ head_thread self.new) × (thread.from ≡ name_of self.old)
            × (thread.step ≡ steps_of self.old + 1)) }
        ensures archive { (archive_of self.new ≡ archive_of self.old) × (threads_of self.new ≡ threads_of self.old) }
        ensures clock { IfOk result (λ thread. clock_of self.new ≡ greater (clock_of self.old) time) }
        ensures kept { OnErr result ((head_of self.new ≡ head_of self.old) × (name_of self.new ≡ name_of self.old)
            × (clock_of self.new ≡ clock_of self.old)) }
        ensures unwritten { IfErr result (λ refusal. (refusal ≡ Refusal.DiskFault)
            ⊎ HasSameDisk D.view self.old self.new) }
        ensures broken { IsTrue (has_failed self.new)
            ↔ (IsTrue (has_failed self.old) ⊎ (result ≡ Err Refusal.DiskFault)) }
        ensures fault { result ≡ Err Refusal.DiskFault
            → Rose ((D.view (disk_of self.old)).faults) ((D.view (disk_of self.new)).faults) }
        ensures later { (D.view (disk_of self.old)).faults ≤ (D.view (disk_of self.new)).faults }
    {
        let root = &self.recorded.kept.root;
        if let Some(refusal) = append_refusal(
            self.is_broken,
            root.head.step,
            root.time,
            events,
            time,
        ) {
            return Err(refusal);
        }
        match self.recorded.add_step::<H>(self.alloc, events, time) {
            Ok(()) => Ok(self.head()),
            Err(refusal) => {
                self.is_broken = refusal.is_disk_fault();
                Err(refusal)
            }
        }
    }
}
