// The limits of a tree's pages; those of one page are in tw_rbnode, and stand in `limit_laws` here, too.

ghost use Rattle.std.specs.Prelude.{◌≡◌};
ghost use Rattle.tw_rbnode.specs.declared.limits.TheConstants.{MOST_KEYS, TOP_LEVEL};

/// The least number of keys of a page other than a root page.
pub const LEAST_KEYS: u64 = 12;

/// The most pages that one more entry stages: two at each level, and a root page.
pub const MOST_STAGED: u64 = 23;

/// The limits of a tree's pages, by number.
pub fn limit_laws()
    // `MOST_KEYS`, the most keys of a page, is 24.
    ensures most { MOST_KEYS ≡ 24 }
    // `TOP_LEVEL`, the greatest level of a page, is 10.
    ensures level { TOP_LEVEL ≡ 10 }
    // `LEAST_KEYS`, the least number of keys of a page other than a root page, is 12.
    ensures least { LEAST_KEYS ≡ 12 }
    // `MOST_STAGED`, the most pages that one more entry stages, is 23.
    ensures staged { MOST_STAGED ≡ 23 }
{}
