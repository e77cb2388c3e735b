// The limits of a store, and the places of its own pages.

ghost use Rattle.std.specs.Prelude.{◌≡◌, ◌^◌};
ghost use Rattle.tw_base.specs.declared.kinds.limits.TheConstants.{PAGE_SIZE};
ghost use Rattle.tw_disk.specs.declared.limits.TheConstants.{FIRST_PAGE, NUMBER_LIMIT};

/// The most bytes of a root record.
pub const MOST_ROOT_BYTES: usize = 512;

/// The number of the page of the first body: the body of slot 0. The gate of a slot is the page of the slot's number.
pub const FIRST_BODY: u64 = 2;

/// The sizes and places of a store, by number.
pub fn limit_laws()
    // `MOST_ROOT_BYTES`, the most bytes of a root record, is 512.
    ensures root { MOST_ROOT_BYTES ≡ 512 }
    // `FIRST_BODY`, the page of the body of slot 0, is 2.
    ensures body { FIRST_BODY ≡ 2 }
    // `FIRST_PAGE`, the first of the committed pages, is 4.
    ensures first { FIRST_PAGE ≡ 4 }
    // `NUMBER_LIMIT`, below which page numbers, counts of pages and generations are, is 2^48.
    ensures numbers { NUMBER_LIMIT ≡ 2 ^ 48 }
    // `PAGE_SIZE`, the bytes of a page, is 4,096.
    ensures page { PAGE_SIZE ≡ 4096 }
{}
