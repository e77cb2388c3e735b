// Pages of which some are kept, as upper crates see them.
ghost use Rattle.std.specs.Prelude.{◌≡◌, ◌-◌, ◌<◌, ◌≤◌, Some, IsOk, OnOk};
ghost use Rattle.tw_base.specs.kinds.Faults.{HasCause};
ghost use Rattle.tw_disk.specs.Image.{Image, page_at};
ghost use Rattle.tw_disk.specs.Pages.{OnlyReads};
ghost use Rattle.tw_disk.specs.declared.limits.TheConstants.{FIRST_PAGE, NUMBER_LIMIT};
ghost use Rattle.tw_cache.specs.Cached.{HasKept, inner_of};

use crate::cached::Cached;
use tw_base::{Failed, NoMemory, Page};
use tw_disk::{Pages, Shelved};

/// The inner pages: their list, number, faults, `same` and `unbroken`.
impl<P: Pages> Pages for Cached<P> {
    ghost view = { λ c. P.view c.pages };

    ghost same = { λ a b. P.same a.pages b.pages };

    ghost told_count = { λ c. P.told_count c.pages };

    ghost from_first = { λ c. P.from_first c.pages };

    ghost same_itself = { λ c. P.same_itself c.pages };

    ghost same_on = { λ a b c. P.same_on a.pages b.pages c.pages };

    fn used(&self) -> u64 {
        self.pages.used()
    }

    fn read(&mut self, page: u64, into: &mut Page) -> Result<(), Failed>
        requires low { FIRST_PAGE ≤ page }
        requires below { page < (P.view (inner_of self.old)).used }
        // A read gives the page that the inner pages have, whether it is kept or not.
        ensures page { OnOk result ((pages : Image) → (P.view (inner_of self.old)).list ≡ Some pages
            → into.new ≡ page_at pages (page - FIRST_PAGE)) }
        // Reading changes nothing of what the inner pages tell.
        ensures kept { OnlyReads (λ c. P.view (inner_of c)) (λ a b. P.same (inner_of a) (inner_of b)) self.old self.new (IsOk result) }
        // A read fails only where the inner pages' count of faults rose.
        ensures cause { HasCause (P.view (inner_of self.old)).faults (P.view (inner_of self.new)).faults result }

        // A page that is kept is answered, and the inner pages aren't asked.
        ensures without_reading { HasKept self.old page → IsOk result × (inner_of self.new ≡ inner_of self.old) }
    {
        Shelved::over(&mut self.pages, &mut self.shelf).read(page, into)
    }

    fn stage(&mut self, page: &Page) -> Result<u64, NoMemory> {
        Shelved::over(&mut self.pages, &mut self.shelf).stage(page)
    }
}
