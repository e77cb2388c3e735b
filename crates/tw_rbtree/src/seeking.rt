// Where a question leads in one page, which is at hand; `descending.rt` reads the next one.

ghost use Rattle.std.specs.Prelude.{◌≡◌, drop};
ghost use Rattle.tw_rbtree.specs.Ways.{seek as seek_in, stop_in};

use tw_base::{Ask, Entry, goes_left, meets};
use tw_rbnode::{Found, RbNode, entry_at, keys};

/// Where a question leads in a page.
#[derive(Clone, Copy, Drop)]
pub(crate) struct Sought {
    /// The slot of the asked key, or the place to which the way leads.
    pub at: Found,
    /// The nearest entry on the left of the way so far.
    pub low: Option<Entry>,
    /// The entry of the asked key.
    pub met: Option<Entry>,
    /// The nearest entry on the right of the way so far.
    pub high: Option<Entry>,
}

/// Where the question leads in the page, which lies between these two entries.
pub(crate) fn seek(node: &RbNode, ask: &Ask, low: &Option<Entry>, high: &Option<Entry>) -> Sought
    ensures { result ≡ seek_in ask.now 0 low.now high.now node.now.entries }
{
    let mut sought = Sought {
        at: Found::Between(0),
        low: *low,
        met: None,
        high: *high,
    };
    for place in 0..keys(node) {
        let entry = entry_at(node, place + 1);
        if meets(ask, &entry) {
            sought.at = Found::At(place + 1);
            sought.met = Some(entry);
            return sought;
        }
        if goes_left(ask, &entry) {
            sought.high = Some(entry);
            return sought;
        }
        sought.at = Found::Between(place + 1);
        sought.low = Some(entry);
    }
    sought
}
