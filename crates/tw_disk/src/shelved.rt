// Pages that are lent, of which some are kept on a shelf.
ghost use Rattle.std.specs.Prelude.{◌≡◌, ◌-◌, ◌<◌, ◌≤◌, ℕ, Some, IsOk, OnOk};
ghost use Rattle.std.proofs.Common.{refl, ◌∙◌};
ghost use Rattle.std.proofs.Props.{props};
ghost use Rattle.tw_base.specs.kinds.Faults.{HasCause};
ghost use Rattle.tw_disk.specs.Keeping.{ArePagesOf};
ghost use Rattle.tw_disk.specs.Shelves.{HoldsPage, kept_on};
ghost use Rattle.tw_disk.specs.Image.{Image, page_at};
ghost use Rattle.tw_disk.specs.Pages.{OnlyReads};
ghost use Rattle.tw_disk.specs.declared.limits.TheConstants.{FIRST_PAGE};

use crate::pages::Pages;
use crate::shelf::Shelf;
use tw_base::{Failed, NoMemory, Page};

/// Pages that are lent, with a shelf that is lent too, on which those read last are kept, so that they aren't read again.
///
/// What it answers is what the lent pages answer.
#[derive(Drop)]
pub struct Shelved<'a, P: Pages> {
    pub(crate) pages: &'a mut P,
    pub(crate) shelf: &'a mut Shelf,
    ghost right: { ArePagesOf (P.view pages.now).list (kept_on shelf.now) } by { Prim.hlevel props },
}

impl<'a, P: Pages> Shelved<'a, P> {
    /// Over these pages and a shelf of them.
    pub fn over(pages: &'a mut P, shelf: &'a mut Shelf) -> Shelved<'a, P>
        requires { ArePagesOf (P.view pages.old).list (kept_on shelf.old) }
        // The pages are those that were lent.
        ensures pages { (result.pages.ghost_name ≡ pages.entry.ghost_name) × (result.pages.now ≡ pages.old) }
        // So is the shelf.
        ensures shelf { (result.shelf.ghost_name ≡ shelf.entry.ghost_name) × (result.shelf.now ≡ shelf.old) }
    {
        Shelved { pages, shelf }
    }
}

/// The lent pages: their list, number, faults, `same` and `unbroken`. What was lent stays the same.
impl<'a, P: Pages> Pages for Shelved<'a, P> {
    ghost view = { λ s. P.view s.pages.now };

    ghost same = { λ a b. (a.pages.ghost_name ≡ b.pages.ghost_name) × (a.shelf.ghost_name ≡ b.shelf.ghost_name) × P.same a.pages.now b.pages.now };

    ghost told_count = { λ s. P.told_count s.pages.now };

    ghost from_first = { λ s. P.from_first s.pages.now };

    ghost same_itself = { λ s. (refl, refl, P.same_itself s.pages.now) };

    ghost same_on = { λ a b c first second. (first.0 ∙ second.0, first.1 ∙ second.1, P.same_on a.pages.now b.pages.now c.pages.now first.2 second.2) };

    fn used(&self) -> u64 {
        self.pages.used()
    }

    fn read(&mut self, page: u64, into: &mut Page) -> Result<(), Failed>
        requires low { FIRST_PAGE ≤ page }
        requires below { page < (P.view self.old.pages.now).used }
        // A read gives the page that the lent pages have, whether it is on the shelf or not.
        ensures page { OnOk result ((pages : Image) → (P.view self.old.pages.now).list ≡ Some pages
            → into.new ≡ page_at pages (page - FIRST_PAGE)) }
        // Reading changes nothing of what the lent pages tell.
        ensures kept { OnlyReads (λ s. P.view s.pages.now) (λ a b. (a.pages.ghost_name ≡ b.pages.ghost_name) × (a.shelf.ghost_name ≡ b.shelf.ghost_name)
            × P.same a.pages.now b.pages.now) self.old self.new (IsOk result) }
        // A read fails only where the lent pages' count of faults rose.
        ensures cause { HasCause (P.view self.old.pages.now).faults (P.view self.new.pages.now).faults result }

        // A page on the shelf is answered, and the lent pages aren't asked.
        ensures without_reading { HoldsPage self.old.shelf.now page → IsOk result × (self.new.pages.now ≡ self.old.pages.now) }
    {
        if self.shelf.find(page, into) {
            return Ok(());
        }
        self.pages.read(page, into)?;
        self.shelf.keep(page, into);
        Ok(())
    }

    fn stage(&mut self, page: &Page) -> Result<u64, NoMemory> {
        self.pages.stage(page)
    }
}
