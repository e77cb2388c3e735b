// The calls that a disk in memory keeps, by which a crash takes writes back.

use crate::kept_page::KeptPage;

/// A write that took effect, or a good barrier, with what undoes it.
#[derive(Drop)]
pub enum Call {
    /// A write of a page that was there, with the bytes that it replaced.
    Overwrite { page: u64, before: KeptPage },
    /// A write at the count, which added the page of that number.
    Append { page: u64 },
    /// A good barrier.
    Barrier,
}

impl Call {
    ghost use Rattle.std.specs.Prelude.{◌≡◌, ◌∷◌, [], ℕ, List, MatchOption};
    ghost use Rattle.tw_disk.specs.LooseSteps.{loose_of};

    // The page that it wrote, if it is a write.
    pub fn page_written(self) -> Option<u64>
        ensures { MatchOption result (self ≡ Call.Barrier) (λ page. (pages : List ℕ)
            → loose_of pages (self ∷ []) ≡ page ∷ pages) }
    {
        match self {
            Call::Overwrite { page, before: _ } => Some(page),
            Call::Append { page } => Some(page),
            Call::Barrier => None,
        }
    }
}
