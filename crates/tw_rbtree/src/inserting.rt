// One entry more in a tree over pages: those on the way down are staged anew, and each earlier root keeps its tree.

ghost use Rattle.std.specs.Prelude.{◌≡◌, ◌≢◌, ◌+◌, ◌*◌, ◌-◌, ◌<◌, ◌≤◌, ◌^◌, ◌++◌, ◌∷◌, ◌&&◌, [], ℕ, List, true, IfOk, None, Option, Some, length, map, slice_index_or};
ghost use Rattle.std.specs.Option.{option_map};
ghost use Rattle.tw_base.specs.declared.history.root.Root.{Root};
ghost use Rattle.tw_base.specs.declared.history.thread.Entry.{Entry};
ghost use Rattle.tw_base.specs.history.Asking.{with_entry};
ghost use Rattle.tw_base.specs.history.Entries.{key_of};
ghost use Rattle.tw_base.specs.history.Limits.{IsEntryInRange};
ghost use Rattle.tw_base.specs.format.PageBytes.{IsPageOf};
ghost use Rattle.tw_base.specs.history.Tree.{Tree, IsRising, entries};
ghost use Rattle.tw_disk.specs.Answers.{AddsBy, AnswersAs, AnswersOr, NeverRefuses};
ghost use Rattle.tw_disk.specs.Image.{Image};
ghost use Rattle.tw_disk.specs.Pages.{OnlyAdds};
ghost use Rattle.tw_rbnode.specs.Children.{AddedHasChildren, HasChildren, IsChildAt};
ghost use Rattle.tw_rbnode.specs.NodeBytes.{fields_of, page_node_codec};
ghost use Rattle.tw_rbnode.specs.Page.{IsBetween, IsNode};
ghost use Rattle.tw_rbnode.specs.Trees.{woven};
ghost use Rattle.tw_rbtree.specs.Answers.{NeverUntrue, found_insert, top_at};
ghost use Rattle.tw_rbtree.specs.FaultWords.{tree_faults};
ghost use Rattle.tw_rbtree.specs.Growing.{AddedAreNodes, AddedLists, GrownLists, IsGrownIn, IsLast, IsStaged, IsStagedAs, IsWith, LiesIn, MayGoInto, SidesList, grows_from, is_full, is_two, leaf_of};
ghost use Rattle.tw_rbtree.specs.Putting.{ArePages, AreRegrown, IsRegrown, IsTop, PutsIn};
ghost use Rattle.tw_rbtree.specs.Reading.{is_above, is_below, lie_between};
ghost use Rattle.tw_rbtree.specs.Standing.{AreTrees, IsTreeBelow, HasNamed, Named, StandsForTree, StandsWith};
ghost use Rattle.tw_rbtree.specs.Ways.{Stop, way_from};
ghost use Rattle.tw_rbtree.specs.declared.inserting.Grown.TheVariants.{Two};
ghost use Rattle.tw_rbtree.specs.declared.limits.TheConstants.{MOST_STAGED};
ghost use Rattle.tw_base.specs.declared.history.tree_proof.Ask.TheVariants.{Absent};
ghost use Rattle.tw_disk.specs.Found.Found.{Is};
ghost use Rattle.tw_rbnode.specs.declared.limits.TheConstants.{TOP_LEVEL};

use crate::descending::{Down, descend};
use crate::fault::TreeFault;
use crate::reading::{read_root, see_node};
use std::alloc::Global;
use tw_base::{Ask, Entry, Hasher, NoMemory, Root, empty_tree, entry_key};
use tw_disk::Pages;
use tw_rbnode::limits::TOP_LEVEL;
use tw_rbnode::{Added, Child, RbNode, add, label, level, put_child, single, write_node};

/// What a part of the tree has become: one child in its place, or two with an entry between them. (`Added` of tw_rbnode is the same
/// before its pages are staged.)
#[derive(Clone, Copy, Drop)]
pub(crate) enum Grown {
    One(Child),
    Two {
        left: Child,
        middle: Entry,
        right: Child,
    },
}

/// Tells a proof that one page, or both of two, keep the rules of a tree page.
fn see_added(added: &Added)
    ensures { AddedAreNodes added.now }
{
    match added {
        Added::One(node) => see_node(node),
        Added::Two { left, right, .. } => {
            see_node(left);
            see_node(right);
        }
    }
}

/// Stages the page, and answers the child that it is.
fn stage_node<P: Pages, H: Hasher>(pages: &mut P, node: &RbNode) -> Result<Child, NoMemory>
    requires { (P.view pages.old).used < 2 ^ 48 - 4 }
    ensures node { IsNode node.now }
    ensures staged { IfOk result (λ c. IsStaged H.dig ((P.view pages.old).used) node.now c) }
    ensures put { IfOk result (λ c. (bytes : List ℕ) × IsPageOf page_node_codec bytes (fields_of node.now)
        × ((P.view pages.new).list ≡ option_map (λ ps. ps ++ bytes ∷ []) (P.view pages.old).list)) }
    ensures used { IfOk result (λ c. (P.view pages.new).used ≡ (P.view pages.old).used + 1) }
    ensures few { (P.view pages.new).used ≤ (P.view pages.old).used + 1 }
    ensures kept { OnlyAdds P.view P.same pages.old pages.new (Unit {0}) }
    ensures faults { (P.view pages.new).faults ≡ (P.view pages.old).faults }
{
    see_node(node);
    let page = pages.stage(&write_node(node))?;
    let label = label::<H>(node);
    Ok(Child { page, label })
}

/// Stages the one page, or the two from left to right.
fn stage_added<P: Pages, H: Hasher>(pages: &mut P, added: Added) -> Result<Grown, NoMemory>
    requires { (P.view pages.old).used < 2 ^ 48 - 5 }
    ensures lists { (ps : Image) → (P.view pages.old).list ≡ Some ps → AddedHasChildren H.dig added →
        (named : Named) → named.below ≤ (P.view pages.old).used →
        (own least : ℕ) (es : List Entry) → AddedLists H.dig (HasNamed named) ps own least es added →
        IfOk result (λ g. (now : Image) × ((P.view pages.new).list ≡ Some now) × GrownLists H.dig (HasNamed named) now own least es g) }
    ensures put { (ps : Image) → (P.view pages.old).list ≡ Some ps → IfOk result (λ g. (own : Image) × ((P.view pages.new).list ≡ Some (ps ++ own)) × ArePages added own) }
    ensures staged { IfOk result (λ g. IsStagedAs H.dig ((P.view pages.old).used) added g) }
    ensures last { IfOk result (λ g. IsLast ((P.view pages.new).used) g) }
    ensures more { IfOk result (λ g. (P.view pages.old).used < (P.view pages.new).used) }
    ensures few { (P.view pages.new).used ≤ (P.view pages.old).used + 2 }
    ensures kept { OnlyAdds P.view P.same pages.old pages.new (Unit {0}) }
    ensures faults { (P.view pages.new).faults ≡ (P.view pages.old).faults }
{
    match added {
        Added::One(node) => Ok(Grown::One(stage_node::<P, H>(pages, &node)?)),
        Added::Two {
            left,
            middle,
            right,
        } => {
            let left = stage_node::<P, H>(pages, &left)?;
            let right = stage_node::<P, H>(pages, &right)?;
            Ok(Grown::Two {
                left,
                middle,
                right,
            })
        }
    }
}

/// The page with what its child at the place has become.
fn with_grown<H: Hasher>(node: &RbNode, place: u8, grown: &Grown) -> Added
    requires { MayGoInto H.dig node.now place grown.now }
    ensures with { IsWith node.now place grown.now result }
    ensures kinds { HasChildren H.dig node.now → AddedHasChildren H.dig result }
{
    match *grown {
        Grown::One(child) => Added::One(put_child(node, place, child)),
        Grown::Two {
            left,
            middle,
            right,
        } => add::<H>(node, place, middle, left, right),
    }
}

/// Stages the page with what its child at the place has become, and answers what the page has become.
fn regrow<P: Pages, H: Hasher>(
    pages: &mut P,
    node: &RbNode,
    place: u8,
    below: &Grown,
) -> Result<Grown, TreeFault>
    requires used { (P.view pages.old).used < 2 ^ 48 - 5 }
    requires goes { MayGoInto H.dig node.now place below.now }
    ensures put { (ps : Image) → (P.view pages.old).list ≡ Some ps → IfOk result (λ g. (own : Image) × ((P.view pages.new).list ≡ Some (ps ++ own))
        × IsRegrown H.dig ((P.view pages.old).used) node.now place below.now own g) }
    ensures adds { AddsBy tree_faults P.view P.same pages.old pages.new result (NeverRefuses tree_faults result) (AnswersAs tree_faults is_two)
        (λ ps. Is (is_two below.now && is_full node.now)) }
    ensures grown { (low high : Option Entry) → lie_between low high node.now.entries ≡ true → LiesIn low high below.now → IfOk result (IsGrownIn low high) }
    ensures lists { (ps : Image) → (P.view pages.old).list ≡ Some ps → HasChildren H.dig node.now → (named : Named) → named.below ≤ (P.view pages.old).used →
        (ts : List Tree) → AreTrees (IsTreeBelow H.dig (HasNamed named) ps node.now.level) node.now.children ts → IsRising (woven (map entries ts) node.now.entries) →
        (entry : Entry) → IsBetween node.now.entries place (key_of entry) →
        SidesList (IsTreeBelow H.dig (HasNamed named) ps node.now.level) (with_entry (slice_index_or (map entries ts) place []) entry) below.now →
        IfOk result (λ g. (now : Image) × ((P.view pages.new).list ≡ Some now)
        × GrownLists H.dig (HasNamed named) now node.now.level (length node.now.entries) (with_entry (woven (map entries ts) node.now.entries) entry) g) }
    ensures last { IfOk result (λ g. IsLast ((P.view pages.new).used) g) }
    ensures more { IfOk result (λ g. (P.view pages.old).used < (P.view pages.new).used) }
    ensures few { (P.view pages.new).used ≤ (P.view pages.old).used + 2 }
{
    see_node(node);
    let added = with_grown::<H>(node, place, below);
    see_added(&added);
    let grown = stage_added::<P, H>(pages, added)?;
    Ok(grown)
}

/// The entry alone, at an empty place.
fn leaf<H: Hasher>(entry: &Entry) -> Grown
    ensures { result ≡ leaf_of H.dig entry.now }
{
    let left = Child {
        page: 0,
        label: empty_tree::<H>(),
    };
    let right = left;
    Grown::Two {
        left,
        middle: *entry,
        right,
    }
}

/// Puts the entry below this page, whose keys lie between these two entries as the entry does, and answers what the page has
/// become. Calls itself once a level.
#[tactic(auto, using(crate::proofs::Downs::grows_down))]
fn grow_below<P: Pages, H: Hasher>(
    pages: &mut P,
    node: &RbNode,
    low: &Option<Entry>,
    high: &Option<Entry>,
    entry: &Entry,
) -> Result<Grown, TreeFault>
    requires used { (P.view pages.old).used < 2 ^ 47 }
    requires kinds { HasChildren H.dig node.now }
    requires range { IsEntryInRange entry.now }
    requires lie { lie_between low.now high.now node.now.entries ≡ true }
    requires above { is_above low.now entry.now ≡ true }
    requires below { is_below high.now entry.now ≡ true }
    ensures adds { AddsBy tree_faults P.view P.same pages.old pages.new result (NeverUntrue result) (AnswersOr tree_faults is_two)
        (λ ps. grows_from H.dig ps (key_of entry.now) node.now.level low.now high.now node.now) }
    ensures lists { (ps : Image) → (P.view pages.old).list ≡ Some ps → (named : Named) → named.below ≤ (P.view pages.old).used →
        (ts : List Tree) → AreTrees (IsTreeBelow H.dig (HasNamed named) ps node.now.level) node.now.children ts →
        IsRising (woven (map entries ts) node.now.entries) →
        IfOk result (λ g. (now : Image) × ((P.view pages.new).list ≡ Some now)
        × GrownLists H.dig (HasNamed named) now node.now.level (length node.now.entries) (with_entry (woven (map entries ts) node.now.entries) entry.now) g) }
    ensures put { (ps : Image) → (P.view pages.old).list ≡ Some ps → IfOk result (λ g. (stops : List Stop) × (more : Image) × ((P.view pages.new).list ≡ Some (ps ++ more))
        × (way_from H.dig ps (Absent (key_of entry.now)) node.now.level low.now high.now node.now ≡ Is stops)
        × AreRegrown H.dig ((P.view pages.old).used) entry.now stops more g) }
    ensures grown { IfOk result (IsGrownIn low.now high.now) }
    ensures last { IfOk result (λ g. IsLast ((P.view pages.new).used) g) }
    ensures more { IfOk result (λ g. (P.view pages.old).used < (P.view pages.new).used) }
    ensures few { (P.view pages.new).used ≤ (P.view pages.old).used + 2 * (node.now.level + 1) }
{
    let ask = Ask::Absent(entry_key(entry));
    match descend::<P, H>(pages, &ask, node, low, high)? {
        Down::Met { .. } => Err(TreeFault::Present),
        Down::Leaf { place, .. } => regrow::<P, H>(pages, node, place, &leaf::<H>(entry)),
        Down::Child { here, place, child } => {
            let below = grow_below::<P, H>(pages, &child, &here.low, &here.high, entry)?;
            regrow::<P, H>(pages, node, place, &below)
        }
    }
}

/// The root of a page that is staged.
fn root_of(child: Child) -> Root
    ensures page { result.page ≡ child.page }
    ensures label { result.label ≡ child.label }
{
    Root {
        page: child.page,
        label: child.label,
    }
}

/// Stages the page of one key between two children.
fn stage_single<P: Pages, H: Hasher>(
    pages: &mut P,
    own: u8,
    left: Child,
    middle: Entry,
    right: Child,
) -> Result<Root, NoMemory>
    requires used { (P.view pages.old).used < 2 ^ 48 - 4 }
    requires level { own ≤ 10 }
    requires range { IsEntryInRange middle }
    requires left { IsChildAt H.dig own left }
    requires right { IsChildAt H.dig own right }
    ensures lists { (ps : Image) → (P.view pages.old).list ≡ Some ps → (named : Named) → named.below ≤ (P.view pages.old).used →
        (ts : List Tree) → AreTrees (IsTreeBelow H.dig (HasNamed named) ps own) (left ∷ right ∷ []) ts →
        IsRising (woven (map entries ts) (middle ∷ [])) →
        IfOk result (λ new. (now : Image) × (t : Tree) × ((P.view pages.new).list ≡ Some now) × StandsWith H.dig (HasNamed named) now new t × (entries t ≡ woven (map entries ts) (middle ∷ []))) }
    ensures put { (ps : Image) → (P.view pages.old).list ≡ Some ps → IfOk result (λ new. (top : Image) × ((P.view pages.new).list ≡ Some (ps ++ top))
        × IsTop H.dig ((P.view pages.old).used) own (Two left middle right) top new) }
    ensures page { IfOk result (λ new. (P.view pages.new).used ≡ new.page + 1) }
    ensures more { IfOk result (λ new. (P.view pages.old).used < (P.view pages.new).used) }
    ensures few { (P.view pages.new).used ≤ (P.view pages.old).used + 1 }
    ensures kept { OnlyAdds P.view P.same pages.old pages.new (Unit {0}) }
    ensures faults { (P.view pages.new).faults ≡ (P.view pages.old).faults }
{
    let node = single::<H>(own, middle, left, right);
    Ok(root_of(stage_node::<P, H>(pages, &node)?))
}

/// The root over what the page of the earlier root, which has this level, has become: its page, or one more that is staged over two.
fn stage_top<P: Pages, H: Hasher>(
    pages: &mut P,
    root: &Root,
    own: u8,
    grown: Grown,
) -> Result<Root, TreeFault>
    requires used { (P.view pages.old).used < 2 ^ 48 - 4 }
    requires level { own ≤ TOP_LEVEL }
    requires grown { IsGrownIn None None grown }
    ensures adds { AddsBy tree_faults P.view P.same pages.old pages.new result (NeverUntrue result) (AnswersOr tree_faults (λ (_ : Root). tt))
        (λ ps. top_at root.now.page own (is_two grown)) }
    ensures lists { (ps : Image) → (P.view pages.old).list ≡ Some ps → (named : Named) → named.below ≤ (P.view pages.old).used →
        (least : ℕ) → 1 ≤ least → (es : List Entry) → IsRising es → GrownLists H.dig (HasNamed named) ps own least es grown →
        IfOk result (λ new. (now : Image) × (t : Tree) × ((P.view pages.new).list ≡ Some now)
        × StandsWith H.dig (HasNamed named) now new t × (entries t ≡ es)) }
    ensures put { (ps : Image) → (P.view pages.old).list ≡ Some ps → IfOk result (λ new. (top : Image) × ((P.view pages.new).list ≡ Some (ps ++ top))
        × IsTop H.dig ((P.view pages.old).used) (own + 1) grown top new) }
    ensures page { IsLast ((P.view pages.old).used) grown → IfOk result (λ new. (P.view pages.new).used ≡ new.page + 1) }
    ensures few { (P.view pages.new).used ≤ (P.view pages.old).used + 1 }
{
    match grown {
        Grown::One(child) => Ok(root_of(child)),
        Grown::Two {
            left,
            middle,
            right,
        } => {
            if own == TOP_LEVEL {
                return Err(TreeFault::BadPage { page: root.page });
            }
            Ok(stage_single::<P, H>(pages, own + 1, left, middle, right)?)
        }
    }
}

/// Puts the entry into the tree under a root that has a page, and answers the new root.
#[tactic(auto, using(crate::proofs::Inserts::insert_roots))]
fn insert_below<P: Pages, H: Hasher>(
    pages: &mut P,
    root: &Root,
    entry: &Entry,
) -> Result<Root, TreeFault>
    requires used { (P.view pages.old).used < 2 ^ 47 }
    requires range { IsEntryInRange entry.now }
    requires some { root.now.page ≢ 0 }
    ensures adds { AddsBy tree_faults P.view P.same pages.old pages.new result (NeverUntrue result) (AnswersOr tree_faults (λ (_ : Root). tt))
        (λ ps. found_insert H.dig ps root.now (key_of entry.now)) }
    ensures inserted { (ps : Image) → (P.view pages.old).list ≡ Some ps → (named : Named) → named.below ≤ (P.view pages.old).used →
        (t : Tree) → StandsWith H.dig (HasNamed named) ps root.now t →
        IfOk result (λ new. (now : Image) × (grown : Tree) × ((P.view pages.new).list ≡ Some now)
        × StandsWith H.dig (HasNamed named) now new grown × (entries grown ≡ with_entry (entries t) entry.now)) }
    ensures put { (ps : Image) → (P.view pages.old).list ≡ Some ps → IfOk result (λ new. (more : Image) × ((P.view pages.new).list ≡ Some (ps ++ more))
        × PutsIn H.dig ps root.now entry.now more new) }
    ensures page { IfOk result (λ new. (P.view pages.new).used ≡ new.page + 1) }
    ensures more { IfOk result (λ new. (P.view pages.old).used < (P.view pages.new).used) }
    ensures few { (P.view pages.new).used ≤ (P.view pages.old).used + MOST_STAGED }
{
    let first = read_root::<P, H>(pages, root.page)?;
    let own = level(&first);
    let grown = grow_below::<P, H>(pages, &first, &None, &None, entry);
    drop(first);
    stage_top::<P, H>(pages, root, own, grown?)
}

/// Puts the entry into the tree under the root, and answers the new root. It reads the pages on the way down to the entry's place,
/// each once, and stages as many, at most one more a level and a new root page; every earlier root keeps its tree. The pages
/// take the memory, and there is no other use of it.
///
/// Conditions: fewer than 2^47 pages are used, and the entry's steps are within 1 to 2^40 - 1. `Present` exactly where the key is
/// there. After a refusal pages of the call may stay staged, behind those that were there.
#[tactic(auto, using(crate::proofs::Inserts::insert_roots))]
pub fn insert<P: Pages, H: Hasher>(
    _alloc: Global,
    pages: &mut P,
    root: &Root,
    entry: Entry,
) -> Result<Root, TreeFault>
    requires used { (P.view pages.old).used < 2 ^ 47 }
    requires range { IsEntryInRange entry }
    // The pages that were told stay, whatever is answered; new ones may stand behind them. `DiskFault` comes only where the count of
    // faults rose, and `Untrue` never. Over told pages the answer is what is found in them, whatever they keep, a disk fault and
    // want of memory excepted: there is a new root where the way down ends at an empty place, `Present` where it meets the key, and
    // `BadPage` with the first page met that doesn't fit the way, or with the root's page where all pages of eleven levels are full.
    ensures adds { AddsBy tree_faults P.view P.same pages.old pages.new result (NeverUntrue result) (AnswersOr tree_faults (λ (_ : Root). tt))
        (λ ps. found_insert H.dig ps root.now (key_of entry)) }
    // Where the pages stand for a tree under the root, whose pages below a number are to be named trees, those told then stand under
    // the new root, with the same names, for a tree that lists the same entries and the new one in its place.
    ensures inserted { (ps : Image) → (P.view pages.old).list ≡ Some ps → (named : Named) → named.below ≤ (P.view pages.old).used →
        (t : Tree) → StandsWith H.dig (HasNamed named) ps root.now t →
        IfOk result (λ new. (now : Image) × (grown : Tree) × ((P.view pages.new).list ≡ Some now)
        × StandsWith H.dig (HasNamed named) now new grown × (entries grown ≡ with_entry (entries t) entry)) }
    // The same where nothing is named: pages that stand for a tree then stand for one with the new entry in its place.
    ensures plain { (ps : Image) → (P.view pages.old).list ≡ Some ps → (t : Tree) → StandsForTree H.dig ps root.now t →
        IfOk result (λ new. (now : Image) × (grown : Tree) × ((P.view pages.new).list ≡ Some now)
        × StandsForTree H.dig now new grown × (entries grown ≡ with_entry (entries t) entry)) }
    // The pages that are staged are those of the way down to the entry's place, as it is found, each as one page or two with what stands
    // below it now, and a new root's page above them where the way's first page is two now, or there was no page; and no others. So what
    // stands beside the way is named as before, whatever it keeps.
    ensures put { (ps : Image) → (P.view pages.old).list ≡ Some ps → IfOk result (λ new. (more : Image) × ((P.view pages.new).list ≡ Some (ps ++ more))
        × PutsIn H.dig ps root.now entry more new) }
    // The new root's page is the last one.
    ensures page { IfOk result (λ new. (P.view pages.new).used ≡ new.page + 1) }
    // One page is staged at least, so the new root's page stands behind those that were there.
    ensures more { IfOk result (λ new. (P.view pages.old).used < (P.view pages.new).used) }
    // At most 23 pages are staged.
    ensures few { (P.view pages.new).used ≤ (P.view pages.old).used + MOST_STAGED }
{
    if root.page == 0 {
        let empty = Child {
            page: 0,
            label: empty_tree::<H>(),
        };
        return Ok(stage_single::<P, H>(pages, 0, empty, entry, empty)?);
    }
    insert_below::<P, H>(pages, root, &entry)
}
