// Reading a tree proof within a proof or a map file: of an entry (`take_present`), or of an empty place (`take_gap`).
#![tactic(auto, unfolding(crate::specs::Codecs::ancestor_codec, tw_base::specs::format::Seen::records))]

ghost use Rattle.std.specs.Prelude.{◌≤◌, length};
ghost use Rattle.tw_base.specs.format.Codecs.{counted, many};
ghost use Rattle.tw_base.specs.format.Taking.{Takes};
ghost use Rattle.tw_treeproof.specs.declared.limits.TheConstants.{MOST_ABOVE_PLACE};
ghost use Rattle.tw_treeproof.specs.Codecs.{ancestor_codec, counted_parts, gap_codec, parts_codec, present_codec};

use crate::limits::{MOST_ABOVE_ENTRY, MOST_ABOVE_PLACE};
use std::alloc::Global;
use tw_base::{
    Ancestor, AncestorList, Digest, ReadFault, TreeProof, take_digest, take_entry, take_number,
};

/// Takes a node above the asked place, 96 bytes. (A verifier takes them one by one.)
pub fn take_ancestor(bytes: &[u8], at: &mut u64) -> Result<Ancestor, ReadFault>
    requires { at.old ≤ length bytes.now }
    // A node is taken at a place exactly as its codec reads it; else the place of the first bad byte is told.
    ensures { Takes ancestor_codec (λ a. a) bytes.now at.old at.new result }
{
    let entry = take_entry(bytes, at)?;
    let other = take_digest(bytes, at)?;
    Ok(Ancestor { entry, other })
}

/// Takes so many nodes.
#[tactic(auto)]
fn take_ancestors(
    alloc: Global,
    bytes: &[u8],
    at: &mut u64,
    count: u64,
) -> Result<AncestorList, ReadFault>
    requires { at.old ≤ length bytes.now }
    ensures { Takes (many count ancestor_codec) (λ up. up) bytes.now at.old at.new result }
{
    let mut ancestors = AncestorList::new(alloc);
    for _i in 0..count {
        ancestors.push(take_ancestor(bytes, at)?)?;
    }
    Ok(ancestors)
}

/// Takes the number of the nodes, at most 128, and each of them.
#[tactic(auto)]
fn take_counted_ancestors(
    alloc: Global,
    bytes: &[u8],
    at: &mut u64,
) -> Result<AncestorList, ReadFault>
    requires { at.old ≤ length bytes.now }
    ensures { Takes (counted 1 0 MOST_ABOVE_PLACE ancestor_codec) (λ up. up) bytes.now at.old at.new result }
{
    let count = take_number(bytes, at, 1, 0, MOST_ABOVE_PLACE)?;
    take_ancestors(alloc, bytes, at, count)
}

/// The labels of both sides of a node, and the nodes above it.
type PresentParts = (Digest, (Digest, AncestorList));

/// Takes the labels of both sides of a node, and so many nodes above it.
fn take_parts(
    alloc: Global,
    bytes: &[u8],
    at: &mut u64,
    count: u64,
) -> Result<PresentParts, ReadFault>
    requires { at.old ≤ length bytes.now }
    ensures { Takes (parts_codec count) (λ t. t) bytes.now at.old at.new result }
{
    let left = take_digest(bytes, at)?;
    let right = take_digest(bytes, at)?;
    let ancestors = take_ancestors(alloc, bytes, at, count)?;
    Ok((left, (right, ancestors)))
}

/// Takes the number of the nodes above a node, at most 127, the labels of its sides, and the nodes.
#[tactic(auto)]
fn take_counted_parts(alloc: Global, bytes: &[u8], at: &mut u64) -> Result<PresentParts, ReadFault>
    requires { at.old ≤ length bytes.now }
    ensures { Takes counted_parts (λ t. t) bytes.now at.old at.new result }
{
    let count = take_number(bytes, at, 1, 0, MOST_ABOVE_ENTRY)?;
    take_parts(alloc, bytes, at, count)
}

/// Takes a proof of an entry: the number of the nodes above it (at most 127), the labels of both
/// sides of its node, and the nodes.
#[tactic(auto, unfolding(crate::specs::Codecs::present_codec, tw_base::specs::format::Codecs::variant))]
pub fn take_present(alloc: Global, bytes: &[u8], at: &mut u64) -> Result<TreeProof, ReadFault>
    requires { at.old ≤ length bytes.now }
    // A proof of an entry is taken at a place exactly as its codec reads it; else the place of the first bad byte is
    // told.
    ensures { Takes present_codec (λ p. p) bytes.now at.old at.new result }
{
    let (left, (right, ancestors)) = take_counted_parts(alloc, bytes, at)?;
    Ok(TreeProof::Present {
        left,
        right,
        ancestors,
    })
}

/// Takes a proof of an empty place: the number of the nodes above it (at most 128), and the nodes.
#[tactic(auto, unfolding(crate::specs::Codecs::gap_codec, tw_base::specs::format::Codecs::variant))]
pub fn take_gap(alloc: Global, bytes: &[u8], at: &mut u64) -> Result<TreeProof, ReadFault>
    requires { at.old ≤ length bytes.now }
    // A proof of an empty place is taken at a place exactly as its codec reads it; else the place of the first bad byte
    // is told.
    ensures { Takes gap_codec (λ p. p) bytes.now at.old at.new result }
{
    let ancestors = take_counted_ancestors(alloc, bytes, at)?;
    Ok(TreeProof::Gap { ancestors })
}
