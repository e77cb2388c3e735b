// What a slot of a tree page has in its bytes. (A store's slots are in `tw_pages`.)

use crate::kept::Kept;
use crate::links::Link;

/// A slot: its link, and its entry.
#[derive(Clone, Copy, Default, Drop)]
pub(crate) struct Slot {
    pub link: Link,
    pub entry: Kept,
}
