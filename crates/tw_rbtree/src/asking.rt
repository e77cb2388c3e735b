// What a tree in pages has of a key, and next to it: where a way down ends. `proving.rt` goes down so for a proof, and
// `inserting.rt` to add an entry, each by a recursion of its own over `descending.rt`.

ghost use Rattle.std.specs.Prelude.{◌≡◌, IfOk, IfSome};
ghost use Rattle.tw_base.specs.history.Entries.{KeyBelow, key_of};
ghost use Rattle.tw_base.specs.history.Limits.{IsEntryInRange};
ghost use Rattle.tw_disk.specs.Answers.{ReadsPages};
ghost use Rattle.tw_disk.specs.WalkFaults.{walk_faults};
ghost use Rattle.tw_rbtree.specs.Beside.{AreBeside, IsSoughtBy};
ghost use Rattle.tw_rbtree.specs.Ways.{end_from, found_after, found_before, found_with, way_end};

use crate::descending::{Down, descend};
use crate::reading::read_root;
use crate::seeking::Sought;
use tw_base::{Ask, Entry, Hasher, Key, Root};
use tw_disk::{Pages, WalkFault};
use tw_rbnode::{Found, RbNode};

/// Where the way from this page down ends, which lies between these two entries. Calls itself once a level.
#[tactic(auto, using(crate::proofs::Downs::ends_down))]
fn end_below<P: Pages, H: Hasher>(
    pages: &mut P,
    ask: &Ask,
    node: &RbNode,
    low: &Option<Entry>,
    high: &Option<Entry>,
) -> Result<Sought, WalkFault>
    requires beside { AreBeside ask.now low.now high.now }
    ensures tells { IfOk result (λ s. IsSoughtBy ask.now s) }
    ensures reads { ReadsPages walk_faults P.view P.same pages.old pages.new (λ s. s) result (λ ps. end_from H.dig ps ask.now node.now.level low.now high.now node.now) }
{
    match descend::<P, H>(pages, ask, node, low, high)? {
        Down::Met { here } => Ok(here),
        Down::Leaf { here, .. } => Ok(here),
        Down::Child { here, child, .. } => {
            end_below::<P, H>(pages, ask, &child, &here.low, &here.high)
        }
    }
}

/// Where the way from the root down ends.
#[tactic(auto, using(crate::proofs::WayLaws::root_ends))]
fn find_end<P: Pages, H: Hasher>(pages: &mut P, root: &Root, ask: &Ask) -> Result<Sought, WalkFault>
    ensures tells { IfOk result (λ s. IsSoughtBy ask.now s) }
    ensures reads { ReadsPages walk_faults P.view P.same pages.old pages.new (λ s. s) result (λ ps. way_end H.dig ps ask.now root.now) }
{
    if root.page == 0 {
        return Ok(Sought {
            at: Found::Between(0),
            low: None,
            met: None,
            high: None,
        });
    }
    let first = read_root::<P, H>(pages, root.page)?;
    end_below::<P, H>(pages, ask, &first, &None, &None)
}

/// The entry of the key, or none where the tree under the root has no entry of it. Reads the pages on one way down, and takes no
/// memory.
#[tactic(auto, unfolding(crate::specs::Ways::found_with))]
pub fn get<P: Pages, H: Hasher>(
    pages: &mut P,
    root: &Root,
    key: &Key,
) -> Result<Option<Entry>, WalkFault>
    // It changes nothing of what the pages tell, and `DiskFault` comes only where the count of faults rose. Over told pages the
    // answer is what is found in them, whatever they keep, a disk fault excepted: the entry of the key at the
    // end of the way down, or `BadPage` with the first page met that doesn't fit the way.
    ensures reads { ReadsPages walk_faults P.view P.same pages.old pages.new (λ e. e) result (λ ps. found_with H.dig ps root.now key.now) }
    // Over any pages, told or not, an entry that is answered has the asked key, and its steps are within 1 to 2^40 - 1.
    ensures key { IfOk result (λ o. IfSome o (λ e. (key_of e ≡ key.now) × IsEntryInRange e)) }
{
    let end = find_end::<P, H>(pages, root, &Ask::Absent(*key))?;
    Ok(end.met)
}

/// The entry with the greatest key below this one, or none where no key of the tree under the root is below it. Reads the pages on
/// one way down to a leaf page, and takes no memory.
#[tactic(auto, unfolding(crate::specs::Ways::found_before))]
pub fn before<P: Pages, H: Hasher>(
    pages: &mut P,
    root: &Root,
    key: &Key,
) -> Result<Option<Entry>, WalkFault>
    // It changes nothing of what the pages tell, and `DiskFault` comes only where the count of faults rose. Over told pages the
    // answer is what is found in them, whatever they keep, a disk fault excepted: the nearest entry on the
    // left of the way down, or `BadPage` with the first page met that doesn't fit the way.
    ensures reads { ReadsPages walk_faults P.view P.same pages.old pages.new (λ e. e) result (λ ps. found_before H.dig ps root.now key.now) }
    // Over any pages, told or not, an entry that is answered is below the key, and its steps are within 1 to 2^40 - 1.
    ensures key { IfOk result (λ o. IfSome o (λ e. KeyBelow (key_of e) key.now × IsEntryInRange e)) }
{
    let end = find_end::<P, H>(pages, root, &Ask::Below(*key))?;
    Ok(end.low)
}

/// The entry with the least key above this one, or none where no key of the tree under the root is above it. Reads the pages on
/// one way down to a leaf page, and takes no memory.
#[tactic(auto, unfolding(crate::specs::Ways::found_after))]
pub fn after<P: Pages, H: Hasher>(
    pages: &mut P,
    root: &Root,
    key: &Key,
) -> Result<Option<Entry>, WalkFault>
    // It changes nothing of what the pages tell, and `DiskFault` comes only where the count of faults rose. Over told pages the
    // answer is what is found in them, whatever they keep, a disk fault excepted: the nearest entry on the
    // right of the way down, or `BadPage` with the first page met that doesn't fit the way.
    ensures reads { ReadsPages walk_faults P.view P.same pages.old pages.new (λ e. e) result (λ ps. found_after H.dig ps root.now key.now) }
    // Over any pages, told or not, an entry that is answered is above the key, and its steps are within 1 to 2^40 - 1.
    ensures key { IfOk result (λ o. IfSome o (λ e. KeyBelow key.now (key_of e) × IsEntryInRange e)) }
{
    let end = find_end::<P, H>(pages, root, &Ask::Above(*key))?;
    Ok(end.high)
}
