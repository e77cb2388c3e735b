// The commit, as a run of its phases.
ghost use Rattle.std.specs.Prelude.{◌≡◌, ◌⊎◌, ◌<◌, ◌≤◌, ◌+◌, ◌-◌, ◌^◌, ℕ, List, length, Some, OnOk, OnErr, IfSome};
ghost use Rattle.std.specs.Option.{IsSomeAnd};
ghost use Rattle.tw_disk.specs.Image.{Image};
ghost use Rattle.tw_disk.specs.Disk.{LeavesOnly, IsAtRest, IsRun};
ghost use Rattle.tw_pages.specs.Store.{Opening, OpensAs, OpensAlone, OpensAboveOlder, OpensAsEither, IsAbove, spare_of};
ghost use Rattle.tw_pages.specs.CommitSteps.{IsReady, IsCommit};
ghost use Rattle.tw_disk.specs.declared.limits.TheConstants.{FIRST_PAGE, NUMBER_LIMIT};
ghost use Rattle.tw_pages.specs.declared.limits.TheConstants.{MOST_ROOT_BYTES};

use crate::phases::{close_spare_gate, open_spare_gate, write_spare_body};
use crate::staged::write_staged;
use tw_base::{Failed, Page};
use tw_disk::Disk;

// Closes the spare gate where it reads open, so that no crash while its body is written leaves it open over a broken one.
pub(crate) fn ensure_spare_gate_closed<D: Disk>(
    disk: &mut D,
    spare: u64,
    is_open: bool,
) -> Result<(), Failed>
    requires low { spare < 2 }
    requires room { IsSomeAnd (D.view disk.old).count (λ n. FIRST_PAGE ≤ n) }
    ensures closed { OnOk result ((o : Opening) → spare ≡ spare_of o
        → IsAtRest (D.view disk.old) (IsAbove is_open o)
        → IsAtRest (D.view disk.new) (OpensAlone o)) }
    ensures images { (o : Opening) → spare ≡ spare_of o
        → IsAtRest (D.view disk.old) (IsAbove is_open o)
        → LeavesOnly (D.view disk.old) (D.view disk.new) (OpensAs o) }
    ensures run { IsRun (D.view disk.old) (D.view disk.new) result }
{
    if is_open {
        close_spare_gate(disk, spare)?;
    }
    Ok(())
}

// All but the opening of the gate: until that each image that a crash may leave opens as the old store.
pub(crate) fn prepare<D: Disk>(
    disk: &mut D,
    spare: u64,
    is_open: bool,
    used: u64,
    generation: u64,
    staged: &[Page],
    root: &[u8],
) -> Result<(), Failed>
    requires low { spare < 2 }
    requires root { length root.now ≤ MOST_ROOT_BYTES }
    requires used { FIRST_PAGE ≤ used }
    requires room { IsSomeAnd (D.view disk.old).count (λ n. used ≤ n) }
    requires fits { used + length staged.now < NUMBER_LIMIT }
    requires next { generation < NUMBER_LIMIT }
    ensures ready { OnOk result ((old new : Opening)
        → IsCommit spare used generation staged.now root.now old new
        → IsAtRest (D.view disk.old) (IsAbove is_open old)
        → IsAtRest (D.view disk.new) (IsReady old new)) }
    ensures images { (old new : Opening) → IsCommit spare used generation staged.now root.now old new
        → IsAtRest (D.view disk.old) (IsAbove is_open old)
        → LeavesOnly (D.view disk.old) (D.view disk.new) (OpensAs old) }
    ensures grown { OnOk result (IsSomeAnd (D.view disk.new).count (λ n. used + length staged.now ≤ n)) }
    ensures run { IsRun (D.view disk.old) (D.view disk.new) result }
{
    ensure_spare_gate_closed(disk, spare, is_open)?;
    write_staged(disk, used, staged)?;
    write_spare_body(
        disk,
        spare,
        generation + 1,
        used + staged.len() as u64,
        root,
    )?;
    Ok(())
}

// Makes the staged pages and the root the store's.
pub(crate) fn commit_to<D: Disk>(
    disk: &mut D,
    spare: u64,
    is_open: bool,
    used: u64,
    generation: u64,
    staged: &[Page],
    root: &[u8],
) -> Result<(), Failed>
    requires low { spare < 2 }
    requires root { length root.now ≤ MOST_ROOT_BYTES }
    requires used { FIRST_PAGE ≤ used }
    requires room { IsSomeAnd (D.view disk.old).count (λ n. used ≤ n) }
    requires fits { used + length staged.now < NUMBER_LIMIT }
    requires next { generation < NUMBER_LIMIT }
    ensures done { OnOk result ((old new : Opening)
        → IsCommit spare used generation staged.now root.now old new
        → IsAtRest (D.view disk.old) (IsAbove is_open old)
        → IsAtRest (D.view disk.new) (OpensAboveOlder new)) }
    ensures images { (old new : Opening) → IsCommit spare used generation staged.now root.now old new
        → IsAtRest (D.view disk.old) (IsAbove is_open old)
        → LeavesOnly (D.view disk.old) (D.view disk.new) (OpensAsEither old new) }
    ensures grown { OnOk result (IsSomeAnd (D.view disk.new).count (λ n. used + length staged.now ≤ n)) }
    ensures run { IsRun (D.view disk.old) (D.view disk.new) result }
{
    prepare(disk, spare, is_open, used, generation, staged, root)?;
    open_spare_gate(disk, spare)?;
    Ok(())
}
