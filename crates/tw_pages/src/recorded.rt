// A store with its root record, be it a service's, a follower's or a test's.

ghost use Rattle.std.specs.Prelude.{◌≡◌, ◌≢◌, ◌⊎◌, ◌+◌, ◌<◌, ◌≤◌, ℕ, List, [], length, Some, IfErr, IfOk, IsErrAnd, MatchResult, OnErr, OnOk, true, false};
ghost use Rattle.tw_base.specs.kinds.Faults.{Rose};
ghost use Rattle.tw_disk.specs.Disk.{IsAtRest, LeavesOnly, Reads};
ghost use Rattle.tw_disk.specs.Image.{Image};
ghost use Rattle.tw_disk.specs.declared.limits.TheConstants.{FIRST_PAGE, NUMBER_LIMIT};
ghost use Rattle.tw_pages.specs.Same.{store_count, store_list};
ghost use Rattle.tw_pages.specs.Slots.{IsTaken};
ghost use Rattle.tw_pages.specs.StoreValue.{generation_of, is_broken, staged_of, store_disk, store_used};
ghost use Rattle.tw_pages.specs.declared.open.StoreFault.{StoreFault as Fault};
ghost use Rattle.tw_pages.specs.Records.{IsBlankOrNew, IsNotOpenedFor, IsOnce, IsOneOf, IsWritten, Written, written_record};
ghost use Rattle.tw_pages.specs.Rests.{RestsWith};

use crate::open::StoreFault;
use crate::store::Store;
use std::alloc::Global;
use tw_base::{Failed, Hasher};
use tw_disk::{Disk, Pages, Record};

/// A store, with the root record that it was made, opened or committed with last.
#[derive(Drop)]
pub struct Recorded<D: Disk, R: Record> {
    pub store: Store<D>,
    pub root: R,
}

impl<D: Disk, R: Record> Recorded<D, R> {
    /// Makes a store with this record and no pages, on a disk that has no store.
    pub fn init<H: Hasher>(
        alloc: Global,
        disk: D,
        root: R,
    ) -> Result<Recorded<D, R>, (D, StoreFault)>
        requires first { (R.kind H.dig).May FIRST_PAGE 1 root }
        requires begun { (R.kind H.dig).May FIRST_PAGE 0 root }
        // A new store has the record and no pages, at rest.
        ensures rests { IfOk result (λ s. (c : Image) → (D.view disk).content ≡ Some c
            → RestsWith D.view (R.kind H.dig) s.store (written_record root [])) }
        // It has nothing staged, and has met no failed device call.
        ensures clean { IfOk result (λ s. (s.root ≡ root) × (staged_of s.store ≡ []) × (is_broken s.store ≡ false)) }
        // It has the first four pages alone, and generation 1.
        ensures numbers { IfOk result (λ s. (store_count s.store ≡ FIRST_PAGE) × (generation_of s.store ≡ 1)) }

        // `Taken` only where a store is there.
        ensures taken { IfErr result (λ e. e.1 ≡ StoreFault.Taken → (c : Image) → (D.view disk).content ≡ Some c
            → IsTaken c) }
        // Where a store is there, the answer is `Taken`, a disk fault excepted.
        ensures exact { (c : Image) → (D.view disk).content ≡ Some c → IsTaken c
            → IsErrAnd result (λ e. (e.1 ≡ StoreFault.Taken) ⊎ (e.1 ≡ StoreFault.DiskFault)) }
        // After `Taken` nothing was written.
        ensures unchanged { IfErr result (λ e. e.1 ≡ StoreFault.Taken → ((D.view e.0).content ≡ (D.view disk).content)
            × LeavesOnly (D.view disk) (D.view e.0) (D.view disk).may_leave) }
        // Making never answers anything but a store, `Taken` or `DiskFault`.
        ensures answers { IfErr result (λ e. (e.1 ≡ StoreFault.Taken) ⊎ (e.1 ≡ StoreFault.DiskFault)) }
        // `DiskFault` only where the disk's count of faults rose.
        ensures fault { IfErr result (λ e. e.1 ≡ StoreFault.DiskFault → Rose (D.view disk).faults (D.view e.0).faults) }
        // Whatever it answers, the count of faults hasn't fallen.
        ensures later { MatchResult result (λ s. (D.view disk).faults ≤ (D.view (store_disk s.store)).faults) (λ e. (D.view disk).faults ≤ (D.view e.0).faults) }

        // Where a store is there, nothing is written, whatever the answer.
        ensures held { (c : Image) → (D.view disk).content ≡ Some c → IsTaken c
            → IfErr result (λ e. ((D.view e.0).content ≡ Some c)
            × LeavesOnly (D.view disk) (D.view e.0) (D.view disk).may_leave) }

        // A crash while a store is made leaves what it might have left before, a blank disk, or the new store.
        ensures any_moment { IfOk result (λ s. (c : Image) → (D.view disk).content ≡ Some c
            → LeavesOnly (D.view disk) (D.view (store_disk s.store)) (λ i. (D.view disk).may_leave i
            ⊎ IsBlankOrNew (R.kind H.dig) root i)) }
        // Where making fails, a crash leaves such images alone too.
        ensures any_moment_err { IfErr result (λ e. (c : Image) → (D.view disk).content ≡ Some c
            → LeavesOnly (D.view disk) (D.view e.0) (λ i. (D.view disk).may_leave i
            ⊎ IsBlankOrNew (R.kind H.dig) root i)) }
        // A disk that is given back tells its content still, which is such an image.
        ensures told { IfErr result (λ e. (c : Image) → (D.view disk).content ≡ Some c
            → Reads (D.view e.0) (λ i. (D.view disk).may_leave i ⊎ IsBlankOrNew (R.kind H.dig) root i)) }
    {
        let bytes = root.bytes::<H>();
        match Store::init(alloc, disk, bytes.as_slice()) {
            Err((disk, fault)) => Err((disk, fault)),
            Ok(store) => Ok(Recorded { store, root }),
        }
    }

    /// Opens the store that a disk holds, after a barrier that makes it stable. A root record of another kind is `NotAStore` with the
    /// slot that counts.
    pub fn open<H: Hasher>(alloc: Global, disk: D) -> Result<Recorded<D, R>, (D, StoreFault)>
        // A disk that reads as a store with a record of this kind is opened as it, at rest, whatever its pages keep, or met a fault.
        ensures found { IsOnce (R.kind H.dig) → (c : Image) (w : Written R) → (D.view disk).content ≡ Some c → IsWritten (R.kind H.dig) w c
            → MatchResult result (λ s. (s.root ≡ w.root) × RestsWith D.view (R.kind H.dig) s.store w) (λ e. e.1 ≡ StoreFault.DiskFault) }
        // Whatever is opened is such a store, which the disk read as; and it is at rest over what that was.
        ensures opened { IfOk result (λ s. (c : Image) → (D.view disk).content ≡ Some c
            → (ps : Image) × (store_list D.view s.store ≡ Some ps) × IsWritten (R.kind H.dig) (written_record s.root ps) c
            × RestsWith D.view (R.kind H.dig) s.store (written_record s.root ps) × IsAtRest (D.view (store_disk s.store)) (λ i. i ≡ c)) }
        // It has nothing staged, and has met no failed device call.
        ensures clean { IfOk result (λ s. (staged_of s.store ≡ []) × (is_broken s.store ≡ false)) }
        // Over every disk the record may stand in a store of the value's used pages and generation.
        ensures may { IfOk result (λ s. (R.kind H.dig).May (store_count s.store) (generation_of s.store) s.root) }

        // A refusal comes only where its reason stands.
        ensures refused { IfErr result (λ e. (c : Image) → (D.view disk).content ≡ Some c
            → (e.1 ≡ StoreFault.DiskFault) ⊎ IsNotOpenedFor (R.kind H.dig) c e.1) }
        // Each refusal comes wherever its reason stands, a disk fault excepted.
        ensures exact { (c : Image) (fault : Fault) → (D.view disk).content ≡ Some c → IsNotOpenedFor (R.kind H.dig) c fault
            → IsErrAnd result (λ e. (e.1 ≡ fault) ⊎ (e.1 ≡ StoreFault.DiskFault)) }
        // Whatever it answers, the disk reads as before.
        ensures unchanged { MatchResult result (λ s. (D.view (store_disk s.store)).content ≡ (D.view disk).content) (λ e. (D.view e.0).content ≡ (D.view disk).content) }
        // Opening never answers `Taken` or `NoMemory`.
        ensures answers { IfErr result (λ e. (e.1 ≢ StoreFault.Taken) × (e.1 ≢ StoreFault.NoMemory)) }
        // `DiskFault` only where the disk's count of faults rose.
        ensures fault { IfErr result (λ e. e.1 ≡ StoreFault.DiskFault → Rose (D.view disk).faults (D.view e.0).faults) }
        // Whatever it answers, the count of faults hasn't fallen.
        ensures later { MatchResult result (λ s. (D.view disk).faults ≤ (D.view (store_disk s.store)).faults) (λ e. (D.view disk).faults ≤ (D.view e.0).faults) }

        // A crash since the start leaves nothing else than before: opening writes nothing.
        ensures any_moment { IfOk result (λ s. LeavesOnly (D.view disk) (D.view (store_disk s.store)) (D.view disk).may_leave) }
        // Where opening fails, it wrote nothing either.
        ensures any_moment_err { IfErr result (λ e. LeavesOnly (D.view disk) (D.view e.0) (D.view disk).may_leave) }
    {
        match Store::open(alloc, disk) {
            Err((disk, fault)) => Err((disk, fault)),
            Ok(store) => match R::read::<H>(store.root(), store.used(), store.generation()) {
                None => {
                    let slot = store.slot();
                    Err((store.close(), StoreFault::NotAStore { slot }))
                }
                Some(root) => Ok(Recorded { store, root }),
            },
        }
    }

    /// Makes the staged pages and this record the store's, or drops what was staged. It takes no memory.
    pub fn commit<H: Hasher>(&mut self, next: R) -> Result<(), Failed>
        requires next { generation_of self.old.store + 1 < NUMBER_LIMIT }
        requires whole { is_broken self.old.store ≡ false }

        // Of a store at rest with its record, whatever its pages keep, each image that a crash since may leave opens with that record and
        // those pages, or with the next record and the staged pages behind them.
        ensures any_moment { (ps all : Image) → RestsWith D.view (R.kind H.dig) self.old.store (written_record self.old.root ps) → store_list D.view self.old.store ≡ Some all
            → (R.kind H.dig).May (store_count self.old.store) (generation_of self.old.store + 1) next
            → LeavesOnly (D.view (store_disk self.old.store)) (D.view (store_disk self.new.store)) (IsOneOf (R.kind H.dig) (written_record self.old.root ps) (written_record next all)) }
        // The content is told still, after a disk fault too, and is such an image.
        ensures told { (ps all : Image) → RestsWith D.view (R.kind H.dig) self.old.store (written_record self.old.root ps) → store_list D.view self.old.store ≡ Some all
            → (R.kind H.dig).May (store_count self.old.store) (generation_of self.old.store + 1) next
            → Reads (D.view (store_disk self.new.store)) (IsOneOf (R.kind H.dig) (written_record self.old.root ps) (written_record next all)) }
        // After `Ok` it is the latter, at rest.
        ensures done { OnOk result ((ps all : Image) → RestsWith D.view (R.kind H.dig) self.old.store (written_record self.old.root ps) → store_list D.view self.old.store ≡ Some all
            → (R.kind H.dig).May (store_count self.old.store) (generation_of self.old.store + 1) next
            → RestsWith D.view (R.kind H.dig) self.new.store (written_record next all)) }

        // After `Ok` the value has the next record and one generation more, and has met no failed device call.
        ensures root { OnOk result ((self.new.root ≡ next) × (generation_of self.new.store ≡ generation_of self.old.store + 1)
            × (store_count self.new.store ≡ store_count self.old.store) × (is_broken self.new.store ≡ false)) }
        // After a failure it has the record that it had.
        ensures kept { OnErr result ((self.new.root ≡ self.old.root) × (generation_of self.new.store ≡ generation_of self.old.store)
            × (store_used self.new.store ≡ store_used self.old.store)) }
        // After any failure the store is broken.
        ensures broken { OnErr result (is_broken self.new.store ≡ true) }
        // Whatever the answer, nothing is staged any more.
        ensures clean { staged_of self.new.store ≡ [] }
        // It fails only where the disk's count of faults rose, which hasn't fallen.
        ensures fault { OnErr result (Rose (D.view (store_disk self.old.store)).faults (D.view (store_disk self.new.store)).faults) }
        ensures later { (D.view (store_disk self.old.store)).faults ≤ (D.view (store_disk self.new.store)).faults }
    {
        let bytes = next.bytes::<H>();
        match self.store.commit(bytes.as_slice()) {
            Ok(()) => {
                self.root = next;
                Ok(())
            }
            Err(_) => {
                self.store.discard();
                Err(Failed)
            }
        }
    }

    /// Gives the disk back. What is staged is dropped.
    pub fn close(self) -> D
        ensures disk { result ≡ store_disk self.store }
        // Where the store is at rest with a record and pages, so is the disk, for good.
        ensures rests { (dig : List ℕ → List ℕ) (w : Written R) → RestsWith D.view (R.kind dig) self.store w
            → IsAtRest (D.view result) (IsWritten (R.kind dig) w) }
    {
        let Recorded { store, root: _ } = self;
        store.close()
    }
}
