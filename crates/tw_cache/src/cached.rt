// Pages with a shelf of their own: how they are made, lent and given back; `paged.rt` reads them.
ghost use Rattle.std.specs.Prelude.{◌≡◌, ◌≤◌, IfOk, IfErr, length};
ghost use Rattle.std.specs.Borrow.{sem};
ghost use Rattle.std.proofs.Props.{props};
ghost use Rattle.tw_disk.specs.Keeping.{ArePagesOf};
ghost use Rattle.tw_disk.specs.Shelves.{kept_on};
ghost use Rattle.tw_disk.specs.declared.limits.TheConstants.{MOST_KEPT};

use std::alloc::Global;
use tw_base::NoMemory;
use tw_disk::{Pages, Shelf};

/// Pages that keep in memory those read last, at most 64, so that the inner pages aren't asked for them again.
///
/// What it answers is what the inner pages answer. Where there is no memory to keep a page, the page is answered all the same.
#[derive(Drop)]
pub struct Cached<P: Pages> {
    pub(crate) pages: P,
    pub(crate) shelf: Shelf,
    ghost right: { ArePagesOf (P.view pages).list (kept_on shelf) } by { Prim.hlevel props },
}

impl<P: Pages> Cached<P> {
    ghost use Rattle.tw_cache.specs.Cached.{LendsInner, inner_of, kept_of};

    /// Keeps none of the pages yet. `NoMemory`, with the pages, where there is none for what it keeps beside them.
    pub fn new(alloc: Global, pages: P) -> Result<Cached<P>, (P, NoMemory)>
        // The inner pages are those that were handed in.
        ensures inner { IfOk result (λ c. inner_of c ≡ pages) }
        // Where there is no memory, they are given back.
        ensures given_back { IfErr result (λ e. e.0 ≡ pages) }
    {
        match Shelf::with_room(alloc) {
            Ok(shelf) => Ok(Cached { pages, shelf }),
            Err(none) => Err((pages, none)),
        }
    }

    /// How many pages are kept, at most 64.
    pub fn kept(&self) -> usize
        // It is the number of pages that are kept.
        ensures count { result ≡ length (kept_of self.now) }
        // Never are more than 64 pages kept.
        ensures most { length (kept_of self.now) ≤ MOST_KEPT }
    {
        self.shelf.len()
    }

    /// The inner pages, to be changed. All that is kept is forgotten first, so no page is answered that was changed or discarded there.
    pub fn inner_mut(&mut self) -> &mut P
        ensures value { result.now ≡ inner_of self.old }
        // Afterwards the inner pages are what was made of them, and no page is kept.
        ensures* writes_back { sem 𝓛 (LendsInner P.row P.Pages self.entry result) }
    {
        self.shelf.clear();
        &mut self.pages
    }

    /// Gives the inner pages back.
    pub fn close(self) -> P
        ensures { result ≡ inner_of self }
    {
        let Cached { pages, shelf: _ } = self;
        pages
    }
}
