// Checking a tree proof against the label of the tree, which isn't there itself.

ghost use Rattle.std.specs.Prelude.{◌≡◌, ◌≢◌, [], ◌∷◌, ◌++◌, IsTrue, ◌↔◌};
ghost use Rattle.tw_base.specs.history.Auth.{tree_label};
ghost use Rattle.tw_base.specs.kinds.Bytes.{HasBytes};
ghost use Rattle.tw_base.specs.kinds.Clash.{OrClash};
ghost use Rattle.tw_base.specs.kinds.Handing.{Hands};
ghost use Rattle.tw_base.specs.history.Entries.{IsFit};
ghost use Rattle.tw_base.specs.history.HistoryTexts.{tree_texts};
ghost use Rattle.tw_base.specs.kinds.Lists.{Each};
ghost use Rattle.tw_base.specs.history.Tree.{IsRisingTree, Tree, entries};
ghost use Rattle.tw_base.specs.history.TreeProofs.{ancestors_of};
ghost use Rattle.tw_base.specs.history.Ways.{IsNotAsked, climb_texts, climbed_tree, is_left, nearest_left as left_of_way, nearest_right as right_of_way, over_text};
ghost use Rattle.tw_treeproof.specs.Answers.{Checks, IsAnswer, Shows, asks_entry, is_of_entry, place_text, shown_answer, tree_proof_texts};
ghost use Rattle.tw_treeproof.specs.Sizes.{HasPlaceSizes, HasProofSizes, HaveSizes};
ghost use Rattle.tw_treeproof.specs.declared.shown.Shown.TheVariants.{Wrong};

use crate::shown::Shown;
use tw_base::{
    Ancestor, Ask, Digest, Entry, Hasher, Transcript, TreeProof, Unwritten, empty_tree_told,
    goes_left, meets, tree_node_told,
};

/// The label of the asked place, whose text is handed on.
fn place_label<T: Transcript>(ask: &Ask, proof: &TreeProof, texts: &mut T) -> Digest
    ensures label { result ≡ T.dig (place_text ask.now proof.now) }
    ensures took { Hands T.took texts.old texts.new (place_text ask.now proof.now ∷ []) }
    ensures sizes { HasPlaceSizes ask.now proof.now }
{
    match (ask, proof) {
        (Ask::Present(entry), TreeProof::Present { left, right, .. }) => {
            tree_node_told(left, entry, right, texts)
        }
        _ => empty_tree_told(texts),
    }
}

/// The label of the ancestor's node, over that of the side that the way takes; its text is handed on.
fn label_over<T: Transcript>(
    ask: &Ask,
    ancestor: &Ancestor,
    below: &Digest,
    texts: &mut T,
) -> Digest
    ensures label { result ≡ T.dig (over_text (is_left ask.now) ancestor.now below.now) }
    ensures took { Hands T.took texts.old texts.new (over_text (is_left ask.now) ancestor.now below.now ∷ []) }
    ensures other { HasBytes 32 ancestor.now.other }
    ensures fits { IsFit ancestor.now.entry }
{
    if goes_left(ask, &ancestor.entry) {
        tree_node_told(below, &ancestor.entry, &ancestor.other, texts)
    } else {
        tree_node_told(&ancestor.other, &ancestor.entry, below, texts)
    }
}

/// The label of the whole tree, computed upwards from that of the asked place; the texts of the ancestors
/// are handed on.
fn climb_tree<T: Transcript>(
    ask: &Ask,
    ancestors: &[Ancestor],
    place: Digest,
    texts: &mut T,
) -> Digest
    ensures label { result ≡ climbed_tree T.dig (is_left ask.now) ancestors.now place }
    ensures took { Hands T.took texts.old texts.new (climb_texts T.dig (is_left ask.now) ancestors.now place) }
    ensures sizes { HaveSizes ancestors.now }
{
    let mut label = place;
    for ancestor in ancestors {
        let above = label_over(ask, ancestor, &label, texts);
        label = above;
    }
    label
}

/// The nodes above the asked place.
fn ancestors_of_proof(proof: &TreeProof) -> &[Ancestor]
    ensures { result.now ≡ ancestors_of proof.now }
{
    match proof {
        TreeProof::Present { ancestors, .. } | TreeProof::Gap { ancestors } => ancestors.as_slice(),
    }
}

/// The label of the whole tree to which a tree proof leads. Its texts are handed on: that at the asked place,
/// and those of the nodes above it, upwards.
#[tactic(auto, unfolding(crate::specs::Answers::tree_proof_texts))]
pub fn tree_label_told<T: Transcript>(ask: &Ask, proof: &TreeProof, texts: &mut T) -> Digest
    // The label is computed upwards from that of the asked place.
    ensures label { result ≡ climbed_tree T.dig (is_left ask.now) (ancestors_of proof.now) (T.dig (place_text ask.now proof.now)) }
    // The texts of the tree proof are handed on.
    ensures took { Hands T.took texts.old texts.new (tree_proof_texts T.dig ask.now proof.now) }
    ensures sizes { HasProofSizes ask.now proof.now }
{
    let place = place_label(ask, proof, texts);
    climb_tree(ask, ancestors_of_proof(proof), place, texts)
}

/// Whether the proof is of the kind that the question asks for.
fn is_of_kind(ask: &Ask, proof: &TreeProof) -> bool
    ensures { IsTrue result ↔ (is_of_entry proof.now ≡ asks_entry ask.now) }
{
    match (ask, proof) {
        (Ask::Present(_), TreeProof::Present { .. }) => true,
        (Ask::Absent(_) | Ask::Below(_) | Ask::Above(_), TreeProof::Gap { .. }) => true,
        _ => false,
    }
}

/// Whether no ancestor has the asked key.
fn is_free(ask: &Ask, ancestors: &[Ancestor]) -> bool
    ensures { IsTrue result ↔ Each (IsNotAsked ask.now) ancestors.now }
{
    for ancestor in ancestors {
        if meets(ask, &ancestor.entry) {
            return false;
        }
    }
    true
}

/// Whether the proof is of the asked kind and leads up to the root, past no entry of the asked key.
fn leads<H: Hasher>(root: &Digest, ask: &Ask, proof: &TreeProof) -> bool
    ensures exact { IsTrue result ↔ Checks H.dig root.now ask.now proof.now }
    ensures sizes { IsTrue result → HasProofSizes ask.now proof.now }
{
    if !is_of_kind(ask, proof) || !is_free(ask, ancestors_of_proof(proof)) {
        return false;
    }
    tree_label_told(ask, proof, &mut Unwritten::<H>::new()) == *root
}

/// The entry of the nearest ancestor at which the way goes right.
fn nearest_right(ask: &Ask, ancestors: &[Ancestor]) -> Option<Entry>
    ensures { result ≡ right_of_way (is_left ask.now) ancestors.now }
{
    for ancestor in ancestors {
        if !goes_left(ask, &ancestor.entry) {
            return Some(ancestor.entry);
        }
    }
    None
}

/// The entry of the nearest ancestor at which the way goes left.
fn nearest_left(ask: &Ask, ancestors: &[Ancestor]) -> Option<Entry>
    ensures { result ≡ left_of_way (is_left ask.now) ancestors.now }
{
    for ancestor in ancestors {
        if goes_left(ask, &ancestor.entry) {
            return Some(ancestor.entry);
        }
    }
    None
}

/// What a proof that checks shows.
fn answer(ask: &Ask, ancestors: &[Ancestor]) -> Shown
    ensures { result ≡ shown_answer ask.now ancestors.now }
{
    match ask {
        Ask::Present(_) => Shown::Present,
        Ask::Absent(_) => Shown::Absent,
        Ask::Below(_) => Shown::Nearest(nearest_right(ask, ancestors)),
        Ask::Above(_) => Shown::Nearest(nearest_left(ask, ancestors)),
    }
}

/// What the proof shows; for the proof of `check` a clause tells the sizes of what was hashed, too.
fn checked<H: Hasher>(root: &Digest, ask: &Ask, proof: &TreeProof) -> Shown
    ensures shows { Shows H.dig root.now ask.now proof.now result }
    ensures sizes { result ≢ Wrong → HasProofSizes ask.now proof.now }
{
    if leads::<H>(root, ask, proof) {
        answer(ask, ancestors_of_proof(proof))
    } else {
        Shown::Wrong
    }
}

/// What the proof shows of the trees with this label, in answer to the question. `Wrong` exactly
/// where the proof isn't of the kind that the question asks for, an ancestor has the asked key in a
/// question for one key, or the labels computed upwards don't give this one. The number of ancestors
/// isn't limited here, but in the format.
///
/// Of a tree of this label whose keys rise, and whose fields have the widths of a node's text, what
/// is shown is that tree's own answer, or two texts of the tree and of the proof clash.
pub fn check<H: Hasher>(root: &Digest, ask: &Ask, proof: &TreeProof) -> Shown
    // A *tree proof* is of an entry or of an empty place, with the nodes above it. Checking it shows the answer of the
    // nodes above exactly where the proof is of the kind that is asked for, no node above has an asked key, and the
    // labels lead up to the root; else it shows nothing.
    ensures shows { Shows H.dig root.now ask.now proof.now result }
    // What a tree proof shows is so of the entries of each rising tree with that label, be it that it has an entry, that
    // it lacks a key, or its entry next to a key, or two texts of the tree and of the proof clash.
    ensures binds { (t : Tree) → IsRisingTree t → tree_label H.dig t ≡ root.now →
        OrClash H.dig (tree_texts H.dig t ++ tree_proof_texts H.dig ask.now proof.now) (IsAnswer (entries t) ask.now result) }
{
    checked::<H>(root, ask, proof)
}
