// What the two slots of a disk hold, and which of them counts.
ghost use Rattle.std.specs.Prelude.{◌≡◌, ◌≢◌, ◌⊎◌, ◌<◌, ◌≤◌, ◌+◌, ◌-◌, ℕ, length, Some, Err, IfOk, IfErr, OnOk, IfSome};
ghost use Rattle.std.specs.Option.{IsSomeAnd};
ghost use Rattle.tw_base.specs.kinds.Faults.{HasCause, Rose};
ghost use Rattle.tw_disk.specs.Image.{Image};
ghost use Rattle.tw_disk.specs.Disk.{LeavesOnly, IsAtRest, Only};
ghost use Rattle.tw_pages.specs.SlotSteps.{HoldsSlot, IsFoundIn, HasRoom};
ghost use Rattle.tw_pages.specs.Slots.{IsRefusedFor};
ghost use Rattle.tw_pages.specs.declared.open.StoreFault.TheVariants.{DiskFault};
ghost use Rattle.tw_disk.specs.declared.limits.TheConstants.{FIRST_PAGE};

use crate::body::{Body, read_body};
use crate::gate::is_gate_open;
use crate::limits::FIRST_BODY;
use tw_base::Failed;
use tw_base::limits::PAGE_SIZE;
use tw_disk::Disk;
use tw_disk::limits::FIRST_PAGE;

// What was read of a slot.
#[derive(Drop)]
pub enum Slot {
    // The gate reads closed.
    Closed,
    // The gate reads open, and the body isn't of its grammar.
    Broken,
    // The gate reads open over this body.
    Holds(Body),
}

// Reads a slot: its gate, and its body where the gate reads open.
pub(crate) fn read_slot<D: Disk>(disk: &mut D, slot: u64, count: u64) -> Result<Slot, Failed>
    requires low { slot < 2 }
    requires count { (D.view disk.old).count ≡ Some count }
    requires room { FIRST_PAGE ≤ count }
    ensures slot { IfOk result (λ s. (c : Image) → (D.view disk.old).content ≡ Some c
        → HoldsSlot (length c) slot c s) }
    ensures room { IfOk result (HasRoom count) }
    ensures count { (D.view disk.new).count ≡ (D.view disk.old).count }
    ensures content { (D.view disk.new).content ≡ (D.view disk.old).content }
    ensures images { (c : Image) → (D.view disk.new).may_leave c → (D.view disk.old).may_leave c }
    ensures time { LeavesOnly (D.view disk.old) (D.view disk.new) (D.view disk.old).may_leave }
    ensures cause { HasCause (D.view disk.old).faults (D.view disk.new).faults result }
{
    if !is_gate_open(disk, slot)? {
        return Ok(Slot::Closed);
    }
    let mut page = [0; PAGE_SIZE];
    disk.read(FIRST_BODY + slot, &mut page)?;
    match read_body(&page, count) {
        Some(body) => Ok(Slot::Holds(body)),
        None => Ok(Slot::Broken),
    }
}

/// Why a store isn't made or opened.
#[derive(Clone, Copy, Debug, PartialEq, Eq)]
pub enum StoreFault {
    /// The disk has at least four pages, and a gate reads open: something is there already.
    Taken,
    /// There are fewer than four pages, or both gates read closed: nothing was made yet.
    Blank,
    /// A gate reads open, and the body of the lowest such slot that fails isn't of its grammar; or both gates read open over bodies of one generation (slot 1).
    NotAStore { slot: u8 },
    /// A device call failed; the disk's count of faults rose in this call.
    DiskFault,
    /// There was no memory. The store itself never answers this: it is for values above it.
    NoMemory,
}

// The slot that counts, its body, and whether the other gate reads open.
#[derive(Drop)]
pub struct Found {
    pub slot: u8,
    pub body: Body,
    pub is_spare_open: bool,
}

// Chooses the slot that counts: the one with an open gate, or of two the one of the higher generation.
pub(crate) fn choose(first: Slot, second: Slot) -> Result<Found, StoreFault>
    ensures found { (c : Image) → HoldsSlot (length c) 0 c first → HoldsSlot (length c) 1 c second
        → IfOk result (IsFoundIn c) }
    ensures slot { IfOk result (λ f. f.slot < 2) }
    ensures room { (count : ℕ) → HasRoom count first → HasRoom count second
        → IfOk result (λ f. f.body.used ≤ count) }
    ensures answers { IfErr result (λ e. (e ≢ StoreFault.DiskFault) × (e ≢ StoreFault.Taken)
        × (e ≢ StoreFault.NoMemory)) }
    ensures refused { (c : Image) → FIRST_PAGE ≤ length c → HoldsSlot (length c) 0 c first
        → HoldsSlot (length c) 1 c second → IfErr result (IsRefusedFor c) }
{
    match (first, second) {
        (Slot::Broken, _) => Err(StoreFault::NotAStore { slot: 0 }),
        (_, Slot::Broken) => Err(StoreFault::NotAStore { slot: 1 }),
        (Slot::Closed, Slot::Closed) => Err(StoreFault::Blank),
        (Slot::Holds(body), Slot::Closed) => Ok(Found {
            slot: 0,
            body,
            is_spare_open: false,
        }),
        (Slot::Closed, Slot::Holds(body)) => Ok(Found {
            slot: 1,
            body,
            is_spare_open: false,
        }),
        (Slot::Holds(body), Slot::Holds(other)) => choose_newer(body, other),
    }
}

// Chooses of two slots with open gates the one of the higher generation.
fn choose_newer(first: Body, second: Body) -> Result<Found, StoreFault>
    ensures found { (c : Image) → HoldsSlot (length c) 0 c (Slot.Holds first)
        → HoldsSlot (length c) 1 c (Slot.Holds second) → IfOk result (IsFoundIn c) }
    ensures slot { IfOk result (λ f. f.slot < 2) }
    ensures room { (count : ℕ) → first.used ≤ count → second.used ≤ count
        → IfOk result (λ f. f.body.used ≤ count) }
    ensures answers { IfErr result (λ e. (e ≢ StoreFault.DiskFault) × (e ≢ StoreFault.Taken)
        × (e ≢ StoreFault.NoMemory)) }
    ensures refused { (c : Image) → FIRST_PAGE ≤ length c → HoldsSlot (length c) 0 c (Slot.Holds first)
        → HoldsSlot (length c) 1 c (Slot.Holds second) → IfErr result (IsRefusedFor c) }
{
    if first.generation == second.generation {
        return Err(StoreFault::NotAStore { slot: 1 });
    }
    if first.generation > second.generation {
        return Ok(Found {
            slot: 0,
            body: first,
            is_spare_open: true,
        });
    }
    Ok(Found {
        slot: 1,
        body: second,
        is_spare_open: true,
    })
}

impl From<Failed> for StoreFault {
    ghost from_gives = { λ _ e. e ≡ DiskFault };

    fn from(_: Failed) -> Self {
        StoreFault::DiskFault
    }
}

// The first barrier of `init` and `open`, which makes what the disk reads stable, and the page count.
pub(crate) fn settle<D: Disk>(disk: &mut D) -> Result<u64, Failed>
    ensures count { IfOk result (λ n. (D.view disk.new).count ≡ Some n) }
    ensures durable { OnOk result (IfSome (D.view disk.old).content (λ c. Only c (D.view disk.new).may_leave)) }
    ensures content { (D.view disk.new).content ≡ (D.view disk.old).content }
    ensures images { (c : Image) → (D.view disk.new).may_leave c → (D.view disk.old).may_leave c }
    ensures time { LeavesOnly (D.view disk.old) (D.view disk.new) (D.view disk.old).may_leave }
    ensures cause { HasCause (D.view disk.old).faults (D.view disk.new).faults result }
{
    disk.barrier()?;
    let count = disk.pages()?;
    Ok(count)
}

// Makes what was written stable, and finds the slot that counts.
pub(crate) fn find<D: Disk>(disk: &mut D) -> Result<Found, StoreFault>
    ensures found { IfOk result (λ f. (c : Image) → (D.view disk.old).content ≡ Some c
        → IsAtRest (D.view disk.new) (λ i. (i ≡ c) × IsFoundIn i f)) }
    ensures refused { IfErr result (λ e. (c : Image) → (D.view disk.old).content ≡ Some c
        → (e ≡ StoreFault.DiskFault) ⊎ IsRefusedFor c e) }
    ensures room { IfOk result (λ f. (f.slot < 2) × IsSomeAnd (D.view disk.new).count (λ n. f.body.used ≤ n)) }
    ensures answers { IfErr result (λ e. (e ≢ StoreFault.Taken) × (e ≢ StoreFault.NoMemory)) }
    ensures content { (D.view disk.new).content ≡ (D.view disk.old).content }
    ensures images { LeavesOnly (D.view disk.old) (D.view disk.new) (D.view disk.old).may_leave }
    ensures fault { result ≡ Err StoreFault.DiskFault → Rose (D.view disk.old).faults (D.view disk.new).faults }
    ensures later { (D.view disk.old).faults ≤ (D.view disk.new).faults }
{
    let count = settle(disk)?;
    if count < FIRST_PAGE {
        return Err(StoreFault::Blank);
    }
    let first = read_slot(disk, 0, count)?;
    let second = read_slot(disk, 1, count)?;
    match choose(first, second) {
        Ok(found) => Ok(found),
        Err(fault) => Err(fault),
    }
}
