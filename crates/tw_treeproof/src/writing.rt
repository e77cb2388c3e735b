// Writing a tree proof into a proof or a map file: of an entry (`put_present`), or of an empty place (`put_gap`).
#![tactic(auto, unfolding(crate::specs::Codecs::ancestor_codec, tw_base::specs::format::Seen::codecs))]

ghost use Rattle.std.specs.Prelude.{◌≡◌, ◌++◌, flat_map, length, OnOk};
ghost use Rattle.tw_base.specs.format.Fields.{number_bytes};
ghost use Rattle.tw_base.specs.kinds.Lists.{Each};
ghost use Rattle.tw_base.specs.history.Limits.{IsAncestorInRange};
ghost use Rattle.tw_treeproof.specs.Codecs.{ancestor_codec, gap_codec, present_codec, tree_proof_bytes, tree_proof_codec};
ghost use Rattle.tw_treeproof.specs.Answers.{is_of_entry};
ghost use Rattle.tw_treeproof.specs.Limits.{IsProofInRange};

use tw_base::{
    Ancestor, AncestorList, Bytes, NoMemory, TreeProof, put_digest, put_entry, put_last_bytes,
};

/// Appends a node above the asked place.
fn put_ancestor(into: &mut Bytes, ancestor: &Ancestor) -> Result<(), NoMemory>
    ensures ok { OnOk result (into.new ≡ into.old ++ ancestor_codec.write ancestor.now) }
    ensures fits { OnOk result (IsAncestorInRange ancestor.now → ancestor_codec.Fits ancestor.now) }
{
    put_entry(into, &ancestor.entry)?;
    put_digest(into, &ancestor.other)
}

/// Appends the number of the nodes in one byte.
#[tactic(auto)]
fn put_count(into: &mut Bytes, ancestors: &AncestorList) -> Result<(), NoMemory>
    ensures { OnOk result (into.new ≡ into.old ++ number_bytes 1 (length ancestors.now)) }
{
    put_last_bytes(into, ancestors.len() as u64, 1)
}

/// Appends the nodes.
#[tactic(auto)]
fn put_ancestors(into: &mut Bytes, ancestors: &[Ancestor]) -> Result<(), NoMemory>
    ensures ok { OnOk result (into.new ≡ into.old ++ flat_map ancestor_codec.write ancestors.now) }
    ensures fits { OnOk result (Each (λ a. IsAncestorInRange a → ancestor_codec.Fits a) ancestors.now) }
{
    for ancestor in ancestors {
        put_ancestor(into, ancestor)?;
    }
    Ok(())
}

/// Appends the proof: the number of the nodes above, of an entry the labels of both sides of its
/// node, and the nodes, nearest first. They spell it where it has at most 127 nodes above an entry or
/// 128 above an empty place, and their entries' steps are within 1 to 2^40 - 1.
#[tactic(auto, unfolding(crate::specs::Codecs::gap_codec, crate::specs::Codecs::present_codec, tw_base::specs::format::Seen::codecs))]
pub fn put_tree_proof(into: &mut Bytes, proof: &TreeProof) -> Result<(), NoMemory>
    // What is appended of a tree proof is its bytes in the format.
    ensures ok { OnOk result (into.new ≡ into.old ++ tree_proof_bytes proof.now) }
    // A tree proof within the limits of its format has that spelling.
    ensures fits { OnOk result (IsProofInRange proof.now → (tree_proof_codec (is_of_entry proof.now)).Fits proof.now) }
{
    match proof {
        TreeProof::Present {
            left,
            right,
            ancestors,
        } => {
            put_count(into, ancestors)?;
            put_digest(into, left)?;
            put_digest(into, right)?;
            put_ancestors(into, ancestors.as_slice())
        }
        TreeProof::Gap { ancestors } => {
            put_count(into, ancestors)?;
            put_ancestors(into, ancestors.as_slice())
        }
    }
}

/// Appends the proof where it is of an entry, and else nothing.
#[tactic(auto, unfolding(crate::specs::Codecs::present_codec, tw_base::specs::format::Codecs::variant))]
pub fn put_present(into: &mut Bytes, proof: &TreeProof) -> Result<(), NoMemory>
    // What is appended of a proof of an entry is its bytes in the format; of another proof nothing.
    ensures { OnOk result (into.new ≡ into.old ++ present_codec.write proof.now) }
{
    match proof {
        TreeProof::Present { .. } => put_tree_proof(into, proof),
        TreeProof::Gap { .. } => Ok(()),
    }
}

/// Appends the proof where it is of an empty place, and else nothing.
#[tactic(auto, unfolding(crate::specs::Codecs::gap_codec, tw_base::specs::format::Codecs::variant))]
pub fn put_gap(into: &mut Bytes, proof: &TreeProof) -> Result<(), NoMemory>
    // What is appended of a proof of an empty place is its bytes in the format; of another proof nothing.
    ensures { OnOk result (into.new ≡ into.old ++ gap_codec.write proof.now) }
{
    match proof {
        TreeProof::Gap { .. } => put_tree_proof(into, proof),
        TreeProof::Present { .. } => Ok(()),
    }
}
