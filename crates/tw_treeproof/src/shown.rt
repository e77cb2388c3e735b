// What a tree proof shows.

use tw_base::Entry;

/// What a proof shows of each tree with a label whose keys rise, and whose fields have the widths of a
/// node's text, or two texts clash.
#[derive(Clone, Copy, PartialEq, Eq, Debug, Drop)]
pub enum Shown {
    /// The tree has the asked entry.
    Present,
    /// The tree has no entry of the asked key.
    Absent,
    /// The tree's entry next to the asked key on the asked side, or that it has none there.
    Nearest(Option<Entry>),
    /// Nothing.
    Wrong,
}
