// The numbers of pages: the first of a list, and those that none reaches; and how many a shelf keeps.

/// The number of the first page of a list of pages. The four pages below it are the store's own.
pub const FIRST_PAGE: u64 = 4;

/// Page numbers, counts of pages and generations are below this number, which is 2^48.
pub const NUMBER_LIMIT: u64 = 0x1_0000_0000_0000;

/// How many pages a shelf keeps at most: 256 KiB of them.
pub const MOST_KEPT: usize = 64;
