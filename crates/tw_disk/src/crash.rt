// What a crash of a disk in memory leaves.
ghost use Rattle.std.specs.Prelude.{◌≡◌, ◌≤◌, [], length, replicate};
ghost use Rattle.tw_base.specs.declared.kinds.limits.TheConstants.{PAGE_SIZE};
ghost use Rattle.tw_disk.specs.Model.{spoilt, outcome};
ghost use Rattle.tw_disk.specs.KeptCalls.{written_of, AllFit};
ghost use Rattle.tw_disk.specs.LooseSteps.{loose_of, AllBelow};

use crate::call::Call;
use crate::kept_page::KeptPage;
use std::alloc::Global;

// Takes back the writes since the last good barrier, the last one first.
fn unwind(pages: &mut Vec<KeptPage>, calls: &mut Vec<Call>)
    requires { AllFit calls.old.items pages.old.items }
    ensures { pages.new.items ≡ (written_of calls.old.items pages.old.items).settled }
{
    while let Some(call) = calls.pop() {
        match call {
            Call::Overwrite { page, before } => pages[page as usize] = before,
            Call::Append { page } => pages.truncate(page as usize),
            Call::Barrier => return,
        }
    }
}

// Puts bytes of this value into each page that was written since the last good barrier.
fn spoil(pages: &mut Vec<KeptPage>, calls: &mut Vec<Call>, alloc: Global, byte: u8)
    requires { AllBelow (length pages.old.items) (loose_of [] calls.old.items) }
    ensures { pages.new.items ≡ spoilt (replicate PAGE_SIZE byte) (loose_of [] calls.old.items) pages.old.items }
{
    while let Some(call) = calls.pop() {
        let Some(page) = call.page_written() else {
            return;
        };
        pages[page as usize] = KeptPage::all_of(alloc, byte);
    }
}

// Leaves the outcome of this choice, 0 to 3, as `crash` of `MemDisk` numbers them.
pub(crate) fn leave(pages: &mut Vec<KeptPage>, calls: &mut Vec<Call>, alloc: Global, choice: u8)
    requires fits { AllFit calls.old.items pages.old.items }
    requires choice { choice ≤ 3 }
    ensures { pages.new.items ≡ outcome choice (written_of calls.old.items pages.old.items) }
{
    match choice {
        0 => unwind(pages, calls),
        1 => (),
        2 => spoil(pages, calls, alloc, 0),
        _ => spoil(pages, calls, alloc, 1),
    }
}
