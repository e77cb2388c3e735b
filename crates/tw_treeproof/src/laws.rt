// The laws of tree proofs, on which the layers above build.

ghost use Rattle.std.specs.Prelude.{◌≡◌, ℕ, ◌≤◌, List, length};
ghost use Rattle.tw_base.specs.declared.history.tree_proof.Ask.{Ask};
ghost use Rattle.tw_base.specs.declared.history.tree_proof.TreeProof.{TreeProof};
ghost use Rattle.tw_base.specs.history.Auth.{tree_label};
ghost use Rattle.tw_base.specs.format.Codecs.{IsUnambiguous};
ghost use Rattle.tw_base.specs.format.Formats.{Spells};
ghost use Rattle.tw_base.specs.kinds.Lists.{Each};
ghost use Rattle.tw_base.specs.history.Tree.{IsRising, Tree, entries, height};
ghost use Rattle.tw_base.specs.history.EntryCodec.{entry_codec};
ghost use Rattle.tw_base.specs.history.TreeProofs.{IsSo, ancestors_of, proof_of};
ghost use Rattle.tw_treeproof.specs.declared.limits.TheConstants.{MOST_ABOVE_PLACE};
ghost use Rattle.tw_treeproof.specs.Answers.{Checks, IsAnswer, asks_entry, shown_answer};
ghost use Rattle.tw_treeproof.specs.Codecs.{gap_codec, present_codec, tree_proof_codec};

use tw_base::Hasher;

/// What the formats spell: a value's one spelling is what is written of it. A proof of an entry has
/// at most 12,257 bytes, and one of an empty place at most 12,289.
pub fn tree_proof_spelling_laws()
    // An entry of an archive has one spelling.
    ensures entry { IsUnambiguous entry_codec }
    // A tree proof of an entry has one spelling.
    ensures present { IsUnambiguous present_codec }
    // A tree proof of an empty place has one spelling.
    ensures gap { IsUnambiguous gap_codec }
    // A tree proof of an entry has at most 12,257 bytes.
    ensures present_size { (bytes : List ℕ) (p : TreeProof) → Spells present_codec.format bytes p → length bytes ≤ 12257 }
    // A tree proof of an empty place has at most 12,289 bytes.
    ensures gap_size { (bytes : List ℕ) (p : TreeProof) → Spells gap_codec.format bytes p → length bytes ≤ 12289 }
{}

/// A tree's own proof of what is so checks under the tree's label, and shows the answer of its
/// entries; where no way down has more than 128 nodes, and the entries' steps are within 1 to
/// 2^40 - 1, it has a spelling.
pub fn tree_proof_laws<H: Hasher>()
    // The proof that a tree has of what is so of its entries checks under the label of the tree.
    ensures checks { (t : Tree) (ask : Ask) → IsRising (entries t) → IsSo (entries t) ask →
        Checks H.dig (tree_label H.dig t) ask (proof_of H.dig t ask) }
    // It shows the answer of the tree's entries.
    ensures answers { (t : Tree) (ask : Ask) → IsRising (entries t) → IsSo (entries t) ask →
        IsAnswer (entries t) ask (shown_answer ask (ancestors_of (proof_of H.dig t ask))) }
    // Where no way down has more than 128 nodes, and the entries have spellings, the proof has one.
    ensures fits { (t : Tree) (ask : Ask) → IsRising (entries t) → IsSo (entries t) ask → height t ≤ MOST_ABOVE_PLACE →
        Each entry_codec.Fits (entries t) → (tree_proof_codec (asks_entry ask)).Fits (proof_of H.dig t ask) }
{}
