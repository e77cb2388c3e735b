// Reading the gate of a slot, the bytes that `layout.rt` makes.
ghost use Rattle.std.specs.Prelude.{◌≡◌, ◌<◌, ◌≤◌, ◌↔◌, Some, IfOk, IsTrue};
ghost use Rattle.std.specs.Option.{IsSomeAnd};
ghost use Rattle.tw_disk.specs.Image.{Image};
ghost use Rattle.tw_base.specs.kinds.Faults.{HasCause};
ghost use Rattle.tw_disk.specs.Disk.{LeavesOnly};
ghost use Rattle.tw_pages.specs.Slots.{IsOpen};
ghost use Rattle.tw_disk.specs.declared.limits.TheConstants.{FIRST_PAGE};

use tw_base::Failed;
use tw_base::limits::PAGE_SIZE;
use tw_disk::Disk;

// Whether the gate of a slot reads open.
pub(crate) fn is_gate_open<D: Disk>(disk: &mut D, slot: u64) -> Result<bool, Failed>
    requires low { slot < 2 }
    requires room { IsSomeAnd (D.view disk.old).count (λ n. FIRST_PAGE ≤ n) }
    ensures gate { IfOk result (λ b. (c : Image) → (D.view disk.old).content ≡ Some c → (IsTrue b ↔ IsOpen slot c)) }
    ensures count { (D.view disk.new).count ≡ (D.view disk.old).count }
    ensures content { (D.view disk.new).content ≡ (D.view disk.old).content }
    ensures images { (c : Image) → (D.view disk.new).may_leave c → (D.view disk.old).may_leave c }
    ensures time { LeavesOnly (D.view disk.old) (D.view disk.new) (D.view disk.old).may_leave }
    ensures cause { HasCause (D.view disk.old).faults (D.view disk.new).faults result }
{
    let mut page = [0; PAGE_SIZE];
    disk.read(slot, &mut page)?;
    Ok(page[0] == 1)
}
