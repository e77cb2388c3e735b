// The phases that make a store.
ghost use Rattle.std.specs.Prelude.{◌≡◌, ◌⊎◌, ◌<◌, ◌≤◌, ℕ, List, length, Some, Err, OnOk, IfOk, IfErr, if◌then◌else◌};
ghost use Rattle.std.specs.Option.{IsSomeAnd};
ghost use Rattle.tw_disk.specs.Image.{Image};
ghost use Rattle.tw_base.specs.kinds.Faults.{Rose};
ghost use Rattle.tw_disk.specs.Disk.{LeavesOnly, IsAtRest, IsRun};
ghost use Rattle.tw_pages.specs.Store.{OpensAboveOlder};
ghost use Rattle.tw_pages.specs.InitSteps.{BothClosed, HasBodies, IsUnmade};
ghost use Rattle.tw_pages.specs.Init.{first_opening, IsBlankOrRoot};
ghost use Rattle.tw_pages.specs.Slots.{IsBlank, IsTaken};
ghost use Rattle.tw_disk.specs.declared.limits.TheConstants.{FIRST_PAGE};
ghost use Rattle.tw_pages.specs.declared.limits.TheConstants.{MOST_ROOT_BYTES};

use crate::durable::write_pair_durably;
use crate::gate::is_gate_open;
use crate::layout::{body, closed_gate, open_gate};
use crate::limits::FIRST_BODY;
use crate::open::{StoreFault, settle};
use tw_base::Failed;
use tw_disk::Disk;
use tw_disk::limits::FIRST_PAGE;

// Writes both gates closed, for good.
pub(crate) fn write_closed_gates<D: Disk>(disk: &mut D) -> Result<(), Failed>
    requires { IsSomeAnd (D.view disk.old).count (λ n. 0 ≤ n) }
    ensures closed { OnOk result (IsAtRest (D.view disk.old) (λ c. length c < FIRST_PAGE)
        → IsAtRest (D.view disk.new) BothClosed) }
    ensures images { IsAtRest (D.view disk.old) (λ c. length c < FIRST_PAGE)
        → LeavesOnly (D.view disk.old) (D.view disk.new) (λ c. length c < FIRST_PAGE) }
    ensures grown { OnOk result (IsSomeAnd (D.view disk.new).count (λ n. 2 ≤ n)) }
    ensures run { IsRun (D.view disk.old) (D.view disk.new) result }
{
    write_pair_durably(disk, 0, &closed_gate(), 1, &closed_gate())?;
    Ok(())
}

// Writes both bodies with this root record, for good: that of slot 0 with generation 1, which counts, that of slot 1 with
// generation 0, the older one. Both, since a crash may leave either gate open while both are opened.
pub(crate) fn write_bodies<D: Disk>(disk: &mut D, root: &[u8]) -> Result<(), Failed>
    requires room { IsSomeAnd (D.view disk.old).count (λ n. 2 ≤ n) }
    requires root { length root.now ≤ MOST_ROOT_BYTES }
    ensures ready { OnOk result (IsAtRest (D.view disk.old) BothClosed
        → IsAtRest (D.view disk.new) (λ c. BothClosed c × HasBodies root.now c)) }
    ensures images { IsAtRest (D.view disk.old) BothClosed
        → LeavesOnly (D.view disk.old) (D.view disk.new) BothClosed }
    ensures grown { OnOk result (IsSomeAnd (D.view disk.new).count (λ n. FIRST_PAGE ≤ n)) }
    ensures run { IsRun (D.view disk.old) (D.view disk.new) result }
{
    write_pair_durably(
        disk,
        FIRST_BODY,
        &body(1, FIRST_PAGE, root),
        FIRST_BODY + 1,
        &body(0, FIRST_PAGE, root),
    )?;
    Ok(())
}

// Writes both gates open, for good, which makes the store.
pub(crate) fn write_open_gates<D: Disk>(disk: &mut D) -> Result<(), Failed>
    requires { IsSomeAnd (D.view disk.old).count (λ n. FIRST_PAGE ≤ n) }
    ensures grown { OnOk result (IsSomeAnd (D.view disk.new).count (λ n. FIRST_PAGE ≤ n)) }
    ensures opened { OnOk result ((root : List ℕ)
        → IsAtRest (D.view disk.old) (λ c. BothClosed c × HasBodies root c)
        → IsAtRest (D.view disk.new) (OpensAboveOlder (first_opening root))) }
    ensures images { (root : List ℕ) → IsAtRest (D.view disk.old) (λ c. BothClosed c
        × HasBodies root c)
        → LeavesOnly (D.view disk.old) (D.view disk.new) (IsBlankOrRoot root) }
    ensures run { IsRun (D.view disk.old) (D.view disk.new) result }
{
    write_pair_durably(disk, 0, &open_gate(), 1, &open_gate())?;
    Ok(())
}

// Makes what was written stable, refuses a store that is there, and tells whether there are too few pages for one.
pub(crate) fn look<D: Disk>(disk: &mut D) -> Result<bool, StoreFault>
    ensures unmade { IfOk result (λ short. (c : Image) → (D.view disk.old).content ≡ Some c
        → IsAtRest (D.view disk.new) (λ i. (i ≡ c) × IsUnmade short i)) }
    ensures images { LeavesOnly (D.view disk.old) (D.view disk.new) (D.view disk.old).may_leave }
    ensures taken { result ≡ Err StoreFault.Taken → (c : Image) → (D.view disk.old).content ≡ Some c → IsTaken c }
    ensures answers { IfErr result (λ e. (e ≡ StoreFault.Taken) ⊎ (e ≡ StoreFault.DiskFault)) }
    ensures content { (D.view disk.new).content ≡ (D.view disk.old).content }
    ensures room { IfOk result (λ short. IsSomeAnd (D.view disk.new).count (λ n. (if short then 0 else 2) ≤ n)) }
    ensures fault { result ≡ Err StoreFault.DiskFault → Rose (D.view disk.old).faults (D.view disk.new).faults }
    ensures later { (D.view disk.old).faults ≤ (D.view disk.new).faults }
{
    let count = settle(disk)?;
    if count < FIRST_PAGE {
        return Ok(true);
    }
    if is_gate_open(disk, 0)? {
        return Err(StoreFault::Taken);
    }
    if is_gate_open(disk, 1)? {
        return Err(StoreFault::Taken);
    }
    Ok(false)
}

// Sees that both gates are closed: `look` has seen it, unless there are too few pages; then they are written.
pub(crate) fn ensure_gates_closed<D: Disk>(disk: &mut D, short: bool) -> Result<(), Failed>
    requires { IsSomeAnd (D.view disk.old).count (λ n. (if short then 0 else 2) ≤ n) }
    ensures closed { OnOk result (IsAtRest (D.view disk.old) (IsUnmade short)
        → IsAtRest (D.view disk.new) BothClosed) }
    ensures images { IsAtRest (D.view disk.old) (IsUnmade short)
        → LeavesOnly (D.view disk.old) (D.view disk.new) IsBlank }
    ensures room { OnOk result (IsSomeAnd (D.view disk.new).count (λ n. 2 ≤ n)) }
    ensures run { IsRun (D.view disk.old) (D.view disk.new) result }
{
    if short {
        write_closed_gates(disk)?;
    }
    Ok(())
}

// Writes a store where there is none.
pub(crate) fn make<D: Disk>(disk: &mut D, short: bool, root: &[u8]) -> Result<(), Failed>
    requires room { IsSomeAnd (D.view disk.old).count (λ n. (if short then 0 else 2) ≤ n) }
    requires root { length root.now ≤ MOST_ROOT_BYTES }
    ensures made { OnOk result (IsAtRest (D.view disk.old) (IsUnmade short)
        → IsAtRest (D.view disk.new) (OpensAboveOlder (first_opening root.now))) }
    ensures images { IsAtRest (D.view disk.old) (IsUnmade short)
        → LeavesOnly (D.view disk.old) (D.view disk.new) (IsBlankOrRoot root.now) }
    ensures room { OnOk result (IsSomeAnd (D.view disk.new).count (λ n. FIRST_PAGE ≤ n)) }
    ensures run { IsRun (D.view disk.old) (D.view disk.new) result }
{
    ensure_gates_closed(disk, short)?;
    write_bodies(disk, root)?;
    write_open_gates(disk)?;
    Ok(())
}
