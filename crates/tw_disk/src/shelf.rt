// A shelf: pages that are kept in memory by their numbers; `shelved.rt` reads pages over one.
ghost use Rattle.std.specs.Prelude.{◌≡◌, ◌≤◌, ◌-◌, [], ℕ, length, IfOk, IfSome, IsTrue, Option, Some};
ghost use Rattle.tw_disk.specs.Keeping.{AddsAtMost, ArePagesOf};
ghost use Rattle.tw_disk.specs.Image.{Image, page_at};
ghost use Rattle.std.proofs.Props.{props};
ghost use Rattle.tw_disk.specs.declared.limits.TheConstants.{FIRST_PAGE, MOST_KEPT};

use crate::keep::keep;
use crate::limits::MOST_KEPT;
use lru::LruCache;
use std::alloc::Global;
use std::num::NonZeroUsize;
use tw_base::{NoMemory, Page};

/// A shelf of pages, which are kept in memory by their numbers: those read last, at most 64. Where there was no memory for the shelf
/// itself, it keeps none; each page that is kept then takes memory of its own, where there is some.
#[derive(Drop)]
pub struct Shelf {
    pub(crate) kept: Option<LruCache<u64, Box<Page>>>,
    ghost room: { IfSome kept (λ k. k.cap ≡ MOST_KEPT) } by { Prim.hlevel props },
}

impl Shelf {
    ghost use Rattle.tw_disk.specs.Shelves.{HoldsPage, emptied_shelf, kept_on};

    /// A shelf with no page on it. `NoMemory` where there is none for the shelf itself.
    pub fn with_room(alloc: Global) -> Result<Shelf, NoMemory>
        // No page is kept yet.
        ensures { IfOk result (λ s. kept_on s ≡ []) }
    {
        let kept = LruCache::new(alloc, NonZeroUsize::new(MOST_KEPT).unwrap())?;
        Ok(Shelf { kept: Some(kept) })
    }

    /// A shelf with no page on it, whatever memory there is.
    pub fn new(alloc: Global) -> Shelf
        // No page is kept yet.
        ensures { kept_on result ≡ [] }
    {
        match Shelf::with_room(alloc) {
            Ok(shelf) => shelf,
            Err(_none) => Shelf { kept: None },
        }
    }

    /// Gives the page of this number, where it is kept, and tells whether it is.
    pub(crate) fn find(&mut self, page: u64, into: &mut Page) -> bool
        ensures page { IsTrue result → (list : Option Image) (pages : Image) → ArePagesOf list (kept_on self.old) → list ≡ Some pages → into.new ≡ page_at pages (page - FIRST_PAGE) }
        ensures right { (list : Option Image) → ArePagesOf list (kept_on self.old) → ArePagesOf list (kept_on self.new) }
        ensures found { HoldsPage self.old page → IsTrue result }
    {
        match &mut self.kept {
            None => false,
            Some(kept) => match kept.get(&page) {
                None => false,
                Some(found) => {
                    *into = **found;
                    true
                }
            },
        }
    }

    /// Keeps the page under its number, where there is memory; the one that was used longest ago may go.
    pub(crate) fn keep(&mut self, number: u64, page: &Page)
        ensures { AddsAtMost (kept_on self.old) (kept_on self.new) number page.now }
    {
        if let Some(kept) = &mut self.kept {
            keep(kept, number, page);
        }
    }

    /// How many pages are kept, at most 64.
    pub fn len(&self) -> usize
        // It is the number of pages on the shelf.
        ensures count { result ≡ length (kept_on self.now) }
        // No shelf has more than 64 pages.
        ensures most { length (kept_on self.now) ≤ MOST_KEPT }
    {
        match &self.kept {
            None => 0,
            Some(kept) => kept.len(),
        }
    }

    /// Keeps none any more.
    pub fn clear(&mut self)
        ensures { self.new ≡ emptied_shelf self.old }
    {
        if let Some(kept) = &mut self.kept {
            kept.clear();
        }
    }
}
