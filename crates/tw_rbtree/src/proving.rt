// The proof of what a tree in pages has, made on the way down that `asking.rt` goes for the entry alone; tw_tree makes
// proofs of trees in memory, for tests.

ghost use Rattle.std.specs.Prelude.{◌≡◌, ◌+◌, ◌*◌, ◌≤◌, ◌++◌, ◌↔◌, IfOk, IsTrue, OnOk, [], length, take};
ghost use Rattle.tw_base.specs.history.TreeProofs.{ancestors_of};
ghost use Rattle.tw_base.specs.history.Limits.{IsAncestorInRange};
ghost use Rattle.tw_disk.specs.Answers.{ReadsBy, ReadsPages};
ghost use Rattle.tw_rbnode.specs.Answers.{IsThereAsFound};
ghost use Rattle.tw_rbnode.specs.Trees.{nodes_above};
ghost use Rattle.tw_base.specs.kinds.Lists.{Each};
ghost use Rattle.tw_rbtree.specs.Answers.{AnswersPath, IsSoAt, NeverPresent};
ghost use Rattle.tw_rbtree.specs.FaultWords.{tree_faults};
ghost use Rattle.tw_rbtree.specs.Paths.{found_tree_path, proof_in, shown_above, shown_at, shown_from, with_above};

use crate::descending::{Down, descend};
use crate::fault::TreeFault;
use crate::reading::{read_root, see_node};
use crate::seeking::Sought;
use std::alloc::Global;
use tw_base::{AncestorList, Ask, Entry, Hasher, NoMemory, Root, TreeProof};
use tw_disk::Pages;
use tw_rbnode::{Found, RbNode, WayDown, sides, way};

/// The entry at the end of a way, none at an empty place, and the proof of what is there. (`Shown` of tw_treeproof is what a proof shows.)
#[derive(Drop)]
pub(crate) struct Shown {
    pub met: Option<Entry>,
    pub proof: TreeProof,
}

/// Puts the nodes of a page behind the others.
fn push_way(ancestors: &mut AncestorList, way: &WayDown) -> Result<(), NoMemory>
    requires { way.now.count ≤ 9 }
    ensures { OnOk result (ancestors.new ≡ ancestors.old ++ take way.now.count way.now.nodes) }
{
    for index in 0..way.count as usize {
        ancestors.push(way.nodes[index])?;
    }
    Ok(())
}

/// The proof with the nodes of a page above its own.
fn with_way(proof: TreeProof, way: &WayDown) -> Result<TreeProof, NoMemory>
    requires { way.now.count ≤ 9 }
    ensures { IfOk result (λ new. new ≡ with_above proof (take way.now.count way.now.nodes)) }
{
    match proof {
        TreeProof::Present {
            left,
            right,
            ancestors,
        } => {
            let mut ancestors = ancestors;
            push_way(&mut ancestors, way)?;
            Ok(TreeProof::Present {
                left,
                right,
                ancestors,
            })
        }
        TreeProof::Gap { ancestors } => {
            let mut ancestors = ancestors;
            push_way(&mut ancestors, way)?;
            Ok(TreeProof::Gap { ancestors })
        }
    }
}

/// The proof of what stands in this slot or place of a page, without the nodes above it.
fn proof_there<H: Hasher>(alloc: Global, node: &RbNode, at: &Found) -> TreeProof
    requires { IsThereAsFound node.now.entries at.now }
    ensures { result ≡ proof_in H.dig node.now at.now [] }
{
    let ancestors = AncestorList::new(alloc);
    match *at {
        Found::At(slot) => {
            let (left, right) = sides::<H>(node, slot);
            TreeProof::Present {
                left,
                right,
                ancestors,
            }
        }
        Found::Between(_) => TreeProof::Gap { ancestors },
    }
}

/// What was shown further down, with the nodes of this page above the slot or place.
#[tactic(auto, using(crate::proofs::Besides::ranges_above))]
fn with_page<H: Hasher>(shown: Shown, node: &RbNode, at: &Found) -> Result<Shown, NoMemory>
    requires { IsThereAsFound node.now.entries at.now }
    ensures shown { IfOk result (λ new. new ≡ record { met = shown.met; proof = with_above shown.proof (nodes_above H.dig node.now at.now) }) }
    ensures few { IfOk result (λ new. length (ancestors_of new.proof) ≤ length (ancestors_of shown.proof) + 9) }
    ensures ranges { Each IsAncestorInRange (ancestors_of shown.proof) → IfOk result (λ new. Each IsAncestorInRange (ancestors_of new.proof)) }
{
    see_node(node);
    let way = way::<H>(node, at);
    let Shown { met, proof } = shown;
    let proof = with_way(proof, &way)?;
    Ok(Shown { met, proof })
}

/// What is shown at the end of a way in this page.
fn end_in<H: Hasher>(alloc: Global, node: &RbNode, here: &Sought) -> Result<Shown, NoMemory>
    requires { IsThereAsFound node.now.entries here.now.at }
    ensures shown { IfOk result (λ shown. shown ≡ shown_above H.dig node.now here.now (shown_at H.dig node.now here.now)) }
    ensures few { IfOk result (λ shown. length (ancestors_of shown.proof) ≤ 9) }
    ensures ranges { IfOk result (λ shown. Each IsAncestorInRange (ancestors_of shown.proof)) }
{
    let proof = proof_there::<H>(alloc, node, &here.at);
    let end = Shown {
        met: here.met,
        proof,
    };
    let shown = with_page::<H>(end, node, &here.at)?;
    Ok(shown)
}

/// What is shown on the way from this page down, which lies between these two entries. Calls itself once a level.
#[tactic(auto, using(crate::proofs::Downs::shown_down))]
fn shown_below<P: Pages, H: Hasher>(
    alloc: Global,
    pages: &mut P,
    ask: &Ask,
    node: &RbNode,
    low: &Option<Entry>,
    high: &Option<Entry>,
) -> Result<Shown, TreeFault>
    ensures reads { ReadsPages tree_faults P.view P.same pages.old pages.new (λ x. x) result (λ ps. shown_from H.dig ps ask.now node.now.level low.now high.now node.now) }
    ensures few { IfOk result (λ shown. length (ancestors_of shown.proof) ≤ 9 * (node.now.level + 1)) }
    ensures ranges { IfOk result (λ shown. Each IsAncestorInRange (ancestors_of shown.proof)) }
{
    match descend::<P, H>(pages, ask, node, low, high)? {
        Down::Met { here } | Down::Leaf { here, .. } => Ok(end_in::<H>(alloc, node, &here)?),
        Down::Child { here, child, .. } => {
            let shown = shown_below::<P, H>(alloc, pages, ask, &child, &here.low, &here.high)?;
            Ok(with_page::<H>(shown, node, &here.at)?)
        }
    }
}

/// What is shown on the way from the root down.
#[tactic(auto, using(crate::proofs::Downs::shown_down))]
fn show<P: Pages, H: Hasher>(
    alloc: Global,
    pages: &mut P,
    root: &Root,
    ask: &Ask,
) -> Result<Shown, TreeFault>
    ensures reads { ReadsPages tree_faults P.view P.same pages.old pages.new (λ x. x) result (λ ps. found_tree_path H.dig ps ask.now root.now) }
    ensures few { IfOk result (λ shown. length (ancestors_of shown.proof) ≤ 99) }
    ensures ranges { IfOk result (λ shown. Each IsAncestorInRange (ancestors_of shown.proof)) }
{
    if root.page == 0 {
        let ancestors = AncestorList::new(alloc);
        return Ok(Shown {
            met: None,
            proof: TreeProof::Gap { ancestors },
        });
    }
    let first = read_root::<P, H>(pages, root.page)?;
    shown_below::<P, H>(alloc, pages, ask, &first, &None, &None)
}

/// Whether what is asked is so, where the way met this entry or none.
fn is_so(ask: &Ask, met: &Option<Entry>) -> bool
    ensures { IsTrue result ↔ IsSoAt ask.now met.now }
{
    match ask {
        Ask::Present(asked) => *met == Some(*asked),
        Ask::Absent(_) => met.is_none(),
        Ask::Below(_) | Ask::Above(_) => true,
    }
}

/// The proof of the answer to the question, of the tree under the root. Reads the pages on one way down, and hashes at most the
/// nodes of these pages. `Untrue` exactly where the asked entry isn't there, or the key that is said to be absent is.
pub fn path<P: Pages, H: Hasher>(
    alloc: Global,
    pages: &mut P,
    root: &Root,
    ask: &Ask,
) -> Result<TreeProof, TreeFault>
    // It changes nothing of what the pages tell, `DiskFault` comes only where the count of faults rose, and `Present` never. Over told
    // pages the answer is what is found in them, whatever they keep, a disk fault and want of memory excepted: the nodes
    // above the end of the way down and what is there, `Untrue` where what is asked isn't so there, or `BadPage` with the first
    // page met that doesn't fit the way.
    ensures reads { ReadsBy tree_faults P.view P.same pages.old pages.new result (NeverPresent result) (AnswersPath ask.now) (λ ps. found_tree_path H.dig ps ask.now root.now) }
    // Over any pages, told or not, a proof has at most 99 nodes above its place.
    ensures few { IfOk result (λ proof. length (ancestors_of proof) ≤ 99) }
    // Their entries have steps within 1 to 2^40 - 1.
    ensures ranges { IfOk result (λ proof. Each IsAncestorInRange (ancestors_of proof)) }
{
    let Shown { met, proof } = show::<P, H>(alloc, pages, root, ask)?;
    if !is_so(ask, &met) {
        return Err(TreeFault::Untrue);
    }
    Ok(proof)
}
