// The new nodes that a tree in pages lists, as the file of a history has them; tw_history/src/writing.rt writes those of a
// history in memory.
#![tactic(auto, unfolding(tw_base::specs::history::HistoryCodec::node_codec, tw_base::specs::format::Seen::codecs))]

ghost use Rattle.std.specs.Prelude.{◌≡◌, ◌++◌, flat_map, map, IfOk, OnOk};
ghost use Rattle.std.specs.List.{list_all};
ghost use Rattle.tw_base.specs.history.HistoryCodec.{node_codec};
ghost use Rattle.tw_export.specs.NodeNumbers.{is_known as is_known_of, is_numbered as is_numbered_of, new_side_number, numbered_node};
ghost use Rattle.tw_export.specs.Told.{numbers_in};

use crate::numbers::PageNumbers;
use tw_base::{Bytes, NoMemory, put_last_bytes};
use tw_rbtree::{NewNode, Side};

/// Whether what stands on a side of a listed node has a number.
fn is_numbered(numbers: &PageNumbers, side: &Side) -> bool
    ensures { result ≡ is_numbered_of (numbers_in numbers.now) side.now }
{
    match *side {
        Side::Empty | Side::New(_) => true,
        Side::Old(page) => numbers.of(page).is_some(),
    }
}

/// Whether what stands on each side of a listed node has a number.
fn is_known(numbers: &PageNumbers, node: &NewNode) -> bool
    ensures { result ≡ is_known_of (numbers_in numbers.now) node.now }
{
    is_numbered(numbers, &node.left) && is_numbered(numbers, &node.right)
}

/// Whether what stands on each side of these nodes has a number.
#[tactic(auto)]
pub(crate) fn are_numbered(numbers: &PageNumbers, nodes: &[NewNode]) -> bool
    ensures { result ≡ list_all (λ node. is_known_of (numbers_in numbers.now) node) nodes.now }
{
    nodes.iter().all(|node| is_known(numbers, node))
}

/// The number of a listed node's side, where so many nodes were numbered before those that are listed; 0 of
/// an older page that has none. A number beyond 64 bits is as want of memory.
fn side_number(numbers: &PageNumbers, before: u64, side: &Side) -> Result<u64, NoMemory>
    ensures { IfOk result (λ n. n ≡ new_side_number (numbers_in numbers.now) before side.now) }
{
    match *side {
        Side::Empty => Ok(0),
        Side::New(place) => before.checked_add(place).ok_or(NoMemory),
        Side::Old(page) => Ok(numbers.of(page).unwrap_or(0)),
    }
}

/// Appends a listed node.
fn put_node(
    into: &mut Bytes,
    numbers: &PageNumbers,
    before: u64,
    node: &NewNode,
) -> Result<(), NoMemory>
    ensures { OnOk result (into.new ≡ into.old ++ node_codec.write (numbered_node (numbers_in numbers.now) before node.now)) }
{
    let left = side_number(numbers, before, &node.left)?;
    let right = side_number(numbers, before, &node.right)?;
    put_last_bytes(into, left, 4)?;
    put_last_bytes(into, node.entry.archived, 8)?;
    put_last_bytes(into, right, 4)?;
    Ok(())
}

/// Appends the listed nodes.
#[tactic(auto)]
pub(crate) fn put_nodes(
    into: &mut Bytes,
    numbers: &PageNumbers,
    before: u64,
    nodes: &[NewNode],
) -> Result<(), NoMemory>
    ensures { OnOk result (into.new ≡ into.old ++ flat_map node_codec.write (map (numbered_node (numbers_in numbers.now) before) nodes.now)) }
{
    for node in nodes {
        put_node(into, numbers, before, node)?;
    }
    Ok(())
}
