// One page further on a way down, for `asking.rt`, `proving.rt` and `inserting.rt`.

ghost use Rattle.std.specs.Prelude.{◌≡◌, ◌≤◌, IfOk, length};
ghost use Rattle.tw_disk.specs.Answers.{ReadsPages};
ghost use Rattle.tw_disk.specs.WalkFaults.{walk_faults};
ghost use Rattle.tw_rbtree.specs.Downs.{IsDown};
ghost use Rattle.tw_rbtree.specs.Ways.{child_page as child_page_of, down_in};

use crate::reading::{read_child, see_node};
use crate::seeking::{Sought, seek};
use tw_base::{Ask, Entry, Hasher};
use tw_disk::{Pages, WalkFault};
use tw_rbnode::{Found, RbNode, child_at, level};

/// Where the way goes from a page: it ends there, or goes on into a child page.
#[derive(Drop)]
pub(crate) enum Down {
    /// The asked key is there.
    Met {
        here: Sought,
    },
    /// The way ends at this place of a leaf page.
    Leaf {
        here: Sought,
        place: u8,
    },
    /// The way goes on into the page at this place.
    Child {
        here: Sought,
        place: u8,
        child: RbNode,
    },
}

/// The number of the page at a place.
#[tactic(auto, using(crate::proofs::WayLaws::child_pages))]
pub(crate) fn child_page(node: &RbNode, place: u8) -> u64
    requires { place ≤ length node.now.entries }
    ensures { result ≡ child_page_of node.now place }
{
    child_at(node, place).page
}

/// Goes on from this page, which lies between these two entries.
#[tactic(auto, unfolding(crate::specs::Ways::down_in), using(crate::proofs::Downs::spots))]
pub(crate) fn descend<P: Pages, H: Hasher>(
    pages: &mut P,
    ask: &Ask,
    node: &RbNode,
    low: &Option<Entry>,
    high: &Option<Entry>,
) -> Result<Down, WalkFault>
    ensures reads { ReadsPages walk_faults P.view P.same pages.old pages.new (λ d. d) result (λ ps. down_in H.dig ps ask.now low.now high.now node.now) }
    ensures down { IfOk result (IsDown H.dig ask.now low.now high.now node.now) }
{
    see_node(node);
    let here = seek(node, ask, low, high);
    let Found::Between(place) = here.at else {
        return Ok(Down::Met { here });
    };
    if level(node) == 0 {
        return Ok(Down::Leaf { here, place });
    }
    let page = child_page(node, place);
    let child = read_child::<P, H>(pages, page, level(node) - 1, &here.low, &here.high)?;
    Ok(Down::Child { here, place, child })
}
