// A list of pages that grows: what upper crates see of a store (tw_pages), of pages in memory, or of either behind a shelf.
ghost use Rattle.std.specs.Prelude.{◌≡◌, ◌<◌, ◌≤◌, ◌+◌, ◌-◌, ◌^◌, ◌++◌, ◌∷◌, [], ℕ, length, Option, Some, IfOk, IsOk, OnOk, OnErr};
ghost use Rattle.std.specs.Option.{option_map};
ghost use Rattle.tw_disk.specs.Image.{Image, page_at};
ghost use Rattle.tw_base.specs.kinds.Faults.{HasCause};
ghost use Rattle.tw_disk.specs.Pages.{OnlyReads, PagesView};
ghost use Rattle.tw_disk.specs.declared.limits.TheConstants.{FIRST_PAGE, NUMBER_LIMIT};

use tw_base::{Failed, NoMemory, Page};

/// Numbered pages of 4,096 bytes, of which those from number 4 on can be read. Pages are only added, at the end.
///
/// `same` holds between an earlier and a later value where nothing but staging and reading happened between them; `unbroken` is of one
/// value, and only a `read` that answers `Failed` may end it.
pub trait Pages {
    /// What the pages tell of themselves.
    ghost view: { Self → PagesView };

    /// The later value has what the earlier one had, but for pages staged since.
    ghost same: { Self → Self → Type 0 };

    /// The number of pages, committed and staged, the first four among them.
    fn used(&self) -> u64
        ensures count { result ≡ (view self.now).used }
        // It is at least 4.
        ensures least { FIRST_PAGE ≤ result };

    /// Gives the bytes of a page from number 4 on. After `Failed` the array may hold anything.
    fn read(&mut self, page: u64, into: &mut Page) -> Result<(), Failed>
        requires low { FIRST_PAGE ≤ page }
        requires below { page < (view self.old).used }
        // A read gives the page that the told list has.
        ensures page { OnOk result ((pages : Image) → (view self.old).list ≡ Some pages
            → into.new ≡ page_at pages (page - FIRST_PAGE)) }
        // Reading changes nothing of what the pages tell.
        ensures kept { OnlyReads view same self.old self.new (IsOk result) }
        // A read fails only where the count of faults rose.
        ensures cause { HasCause (view self.old).faults (view self.new).faults result };

    /// Puts a page at the end, and answers its number, which is the old `used`. After `NoMemory` all is as before.
    fn stage(&mut self, page: &Page) -> Result<u64, NoMemory>
        requires { (view self.old).used < NUMBER_LIMIT - FIRST_PAGE }
        // Staging tells the number of the page that was added.
        ensures number { IfOk result (λ n. n ≡ (view self.old).used) }
        // It appends the page to the told list.
        ensures list { OnOk result ((view self.new).list ≡ option_map (λ pages. pages ++ page.now ∷ []) (view self.old).list) }
        ensures used { OnOk result ((view self.new).used ≡ (view self.old).used + 1) }
        // Where it fails, the list is as before.
        ensures list_err { OnErr result ((view self.new).list ≡ (view self.old).list) }
        ensures used_err { OnErr result ((view self.new).used ≡ (view self.old).used) }
        ensures same { same self.old self.new }
        ensures unbroken { (view self.old).unbroken → (view self.new).unbroken }
        // It counts no fault.
        ensures faults { (view self.new).faults ≡ (view self.old).faults };

    /// The list that is told has as many pages as are counted.
    ghost told_count: { (s : Self) (pages : Image) → (view s).list ≡ Some pages → (view s).used ≡ FIRST_PAGE + length pages };

    /// The first four pages are counted.
    ghost from_first: { (s : Self) → FIRST_PAGE ≤ (view s).used };

    /// A value is the same as itself.
    ghost same_itself: { (s : Self) → same s s };

    /// Values along a chain are the same.
    ghost same_on: { (a b c : Self) → same a b → same b c → same a c };
}
