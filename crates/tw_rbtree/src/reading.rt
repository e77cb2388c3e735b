// Reading the pages of a tree, each of which has to fit the way to it; the bytes of one are read in `tw_rbnode`.

ghost use Rattle.std.specs.Prelude.{◌≡◌, true, ◌&&◌, IfErr, IfOk};
ghost use Rattle.tw_disk.specs.Answers.{AnswersAs, ReadsPages};
ghost use Rattle.tw_disk.specs.WalkFaults.{walk_faults};
ghost use Rattle.tw_disk.specs.declared.walk_fault.WalkFault.TheVariants.{BadPage};
ghost use Rattle.tw_rbnode.specs.Children.{HasChildren};
ghost use Rattle.tw_rbnode.specs.Page.{IsNode};
ghost use Rattle.tw_rbtree.specs.Reading.{child_in, fits as fits_there, is_above as is_above_of, is_below as is_below_of, lie_between, node_from as node_from_bytes, node_in};

use crate::limits::LEAST_KEYS;
use tw_base::limits::PAGE_SIZE;
use tw_base::{Entry, Hasher, Page, entry_key, is_below};
use tw_disk::{Pages, WalkFault, read_page};
use tw_rbnode::{RbNode, entry_at, keys, level, read_node};

/// Tells a proof that a page keeps the rules of a tree page, by a call of which nothing else is wanted.
pub(crate) fn see_node(node: &RbNode)
    ensures { IsNode node.now }
{
    let _count = keys(node);
}

/// The tree page that the bytes of the page of this number are.
fn node_from<H: Hasher>(bytes: &Page, page: u64) -> Result<RbNode, WalkFault>
    ensures answer { AnswersAs walk_faults (λ n. n) result (node_from_bytes H.dig page bytes.now) }
    ensures kinds { IfOk result (λ n. HasChildren H.dig n) }
    ensures bad { IfErr result (λ fault. fault ≡ BadPage page) }
{
    match read_node::<H>(bytes, page) {
        Some(node) => Ok(node),
        None => Err(WalkFault::BadPage { page }),
    }
}

/// Reads the tree page of this number; any may be a root page.
#[tactic(auto, unfolding(crate::specs::Reading::node_in))]
pub(crate) fn read_root<P: Pages, H: Hasher>(pages: &mut P, page: u64) -> Result<RbNode, WalkFault>
    ensures reads { ReadsPages walk_faults P.view P.same pages.old pages.new (λ n. n) result (λ ps. node_in H.dig ps page) }
    ensures kinds { IfOk result (λ n. HasChildren H.dig n) }
{
    let mut bytes = [0; PAGE_SIZE];
    read_page(pages, page, &mut bytes)?;
    node_from::<H>(&bytes, page)
}

/// Whether the entry lies above this one.
fn lies_above(low: &Option<Entry>, entry: &Entry) -> bool
    ensures { result ≡ is_above_of low.now entry.now }
{
    match low {
        None => true,
        Some(low) => is_below(&entry_key(low), &entry_key(entry)),
    }
}

/// Whether the entry lies below this one.
fn lies_below(high: &Option<Entry>, entry: &Entry) -> bool
    ensures { result ≡ is_below_of high.now entry.now }
{
    match high {
        None => true,
        Some(high) => is_below(&entry_key(entry), &entry_key(high)),
    }
}

/// Whether the entry lies between these two.
fn is_between(low: &Option<Entry>, high: &Option<Entry>, entry: &Entry) -> bool
    ensures { result ≡ (is_above_of low.now entry.now && is_below_of high.now entry.now) }
{
    lies_above(low, entry) && lies_below(high, entry)
}

/// Whether the page's keys lie between those of these two entries.
fn lies_between(node: &RbNode, low: &Option<Entry>, high: &Option<Entry>) -> bool
    ensures { result ≡ lie_between low.now high.now node.now.entries }
{
    for place in 0..keys(node) {
        let entry = entry_at(node, place + 1);
        if !is_between(low, high, &entry) {
            return false;
        }
    }
    true
}

/// Whether the page fits the way to it.
fn fits(node: &RbNode, wanted: u8, low: &Option<Entry>, high: &Option<Entry>) -> bool
    ensures { result ≡ fits_there wanted low.now high.now node.now }
{
    level(node) == wanted && keys(node) as u64 >= LEAST_KEYS && lies_between(node, low, high)
}

/// Reads the tree page of this number, of this level and between these two entries.
#[tactic(auto, unfolding(crate::specs::Reading::child_in))]
pub(crate) fn read_child<P: Pages, H: Hasher>(
    pages: &mut P,
    page: u64,
    wanted: u8,
    low: &Option<Entry>,
    high: &Option<Entry>,
) -> Result<RbNode, WalkFault>
    ensures reads { ReadsPages walk_faults P.view P.same pages.old pages.new (λ n. n) result (λ ps. child_in H.dig ps wanted low.now high.now page) }
    ensures level { IfOk result (λ n. n.level ≡ wanted) }
    ensures lie { IfOk result (λ n. lie_between low.now high.now n.entries ≡ true) }
    ensures kinds { IfOk result (λ n. HasChildren H.dig n) }
{
    let node = read_root::<P, H>(pages, page)?;
    if !fits(&node, wanted, low, high) {
        return Err(WalkFault::BadPage { page });
    }
    Ok(node)
}
