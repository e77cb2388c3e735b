// Reading one page of a list, whatever stands in it, or telling that none has this number.

ghost use Rattle.std.specs.Prelude.{◌≡◌, ◌<◌, ◌+◌, ◌^◌, OnOk};
ghost use Rattle.tw_disk.specs.Answers.{ReadsPages};
ghost use Rattle.tw_disk.specs.Found.{bytes_in};
ghost use Rattle.tw_disk.specs.WalkFaults.{walk_faults};

use crate::limits::FIRST_PAGE;
use crate::pages::Pages;
use crate::walk_fault::WalkFault;
use tw_base::Page;

/// Gives the bytes of the page of this number. BadPage tells the number where no page has it: it is below 4, or not below the
/// number of pages. After a fault the array may hold anything. What it gives is promised where the pages are told.
#[tactic(auto, unfolding(crate::specs::Found::bytes_in))]
pub fn read_page<P: Pages>(pages: &mut P, page: u64, into: &mut Page) -> Result<(), WalkFault>
    // Over told pages it gives the bytes of the page of this number, or tells the number of a page that isn't there; it
    // changes nothing of what the pages tell, and a failed read has its cause.
    ensures reads { ReadsPages walk_faults P.view P.same pages.old pages.new (λ _. into.new) result (λ ps. bytes_in ps page) }
    // Over any pages, told or not, a page that it gives is one of them, so the number behind it is one too.
    ensures there { OnOk result ((page < (P.view pages.old).used) × (page + 1 < 2 ^ 64)) }
{
    if page < FIRST_PAGE || page >= pages.used() {
        return Err(WalkFault::BadPage { page });
    }
    match pages.read(page, into) {
        Ok(()) => Ok(()),
        Err(_) => Err(WalkFault::DiskFault),
    }
}
