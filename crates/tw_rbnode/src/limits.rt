// The limits of one page of the archive's tree; those of trees of pages are in `tw_rbtree`.

/// The most keys of a page.
pub const MOST_KEYS: u64 = 24;

/// The greatest level of a page; leaf pages have level 0.
pub const TOP_LEVEL: u8 = 10;
