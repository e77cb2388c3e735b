// Checking one event against the root of its step's events, by an audit path, which `path.rt` makes.

ghost use Rattle.std.specs.Prelude.{◌≡◌, ℕ, ◌≤◌, ◌↔◌, List, [], ◌∷◌, ◌++◌, length, reverse, IsTrue, Some, slice_get};
ghost use Rattle.tw_base.specs.events.AuditPath.{ChecksEvent, audit_texts, node_text_beside, node_texts_above, root_above};
ghost use Rattle.tw_base.specs.kinds.Bytes.{AreBytes};
ghost use Rattle.tw_base.specs.kinds.Clash.{OrClash};
ghost use Rattle.tw_base.specs.kinds.Handing.{Hands};
ghost use Rattle.tw_base.specs.kinds.Lists.{Each};
ghost use Rattle.tw_base.specs.events.EventTree.{event_root, event_texts};
ghost use Rattle.tw_base.specs.declared.kinds.limits.TheConstants.{MOST_EVENTS, MOST_EVENT_BYTES};

use arrayvec::ArrayVec;
use tw_base::{
    Digest, Hasher, Labels, Side, Transcript, Unwritten, event_leaf, event_node_told,
    is_same_digest, see_bytes, sides_of,
};

/// The label of the event node over a label of the path, which stands on that side, and the label
/// reached so far; its text is handed on.
fn node_above<T: Transcript>(side: Side, label: &Digest, reached: &Digest, texts: &mut T) -> Digest
    ensures label { result ≡ T.dig (node_text_beside side label.now reached.now) }
    ensures took { Hands T.took texts.old texts.new (node_text_beside side label.now reached.now ∷ []) }
{
    match side {
        Side::Left => event_node_told(label, reached, texts),
        Side::Right => event_node_told(reached, label, texts),
    }
}

/// The root that a leaf's label and the labels of its audit path lead to (RFC 6962, section 2.1.1).
/// The sides are those on which the path's labels stand, from the root down. The texts of the nodes are
/// handed on, upwards.
pub fn root_above_leaf<T: Transcript>(
    sides: ArrayVec<Side, 10>,
    path: &[Digest],
    leaf: Digest,
    texts: &mut T,
) -> Digest
    requires { length path.now ≤ length sides.items }
    // The root above a leaf is that to which its label and the labels of the path lead.
    ensures root { result ≡ root_above T.dig (reverse sides.items) path.now leaf }
    // The texts of the nodes above the leaf are handed on.
    ensures took { Hands T.took texts.old texts.new (node_texts_above T.dig (reverse sides.items) path.now leaf) }
{
    let mut sides = sides;
    let mut reached = leaf;
    for label in path {
        let Some(side) = sides.pop() else {
            unreachable!();
        };
        let above = node_above(side, label, &reached, texts);
        reached = above;
    }
    reached
}

/// Whether the path leads from the event to the root.
fn is_shown<H: Hasher>(root: &Digest, count: u32, index: u32, event: &[u8], path: &[Digest]) -> bool
    requires few { count ≤ MOST_EVENTS }
    requires small { length event.now ≤ MOST_EVENT_BYTES }
    ensures { IsTrue result ↔ ChecksEvent H.dig root.now count index event.now path.now }
{
    if index >= count {
        return false;
    }
    let sides = sides_of(count as usize, index as usize);
    if path.len() != sides.len() {
        return false;
    }
    let leaf = event_leaf::<H>(event);
    let reached = root_above_leaf(sides, path, leaf, &mut Unwritten::<H>::new());
    is_same_digest(&reached, root)
}

/// Whether the path shows that the event, of at most 1,024 bytes, stands at that index of the
/// `count` events, at most 1,024, with that root: the index is below the count, and the path has
/// the length of that count and index and leads from the event's leaf to the root (RFC 6962,
/// section 2.1.1). Takes no memory.
///
/// Where it does, each list of so many events, which are bytes, with that root has this event at this
/// index, or two different texts among those of its tree and those hashed here, both of bytes, have one digest.
pub fn check_event<H: Hasher>(
    root: &Digest,
    count: u32,
    index: u32,
    event: &[u8],
    path: &Labels,
) -> bool
    requires few { count ≤ MOST_EVENTS }
    requires small { length event.now ≤ MOST_EVENT_BYTES }
    // A check answers true exactly where index, length of the path and root are right.
    ensures answer { IsTrue result ↔ ChecksEvent H.dig root.now count index event.now path.now }
    // Where it answers true, each list of so many events, which are bytes, with that root has the event at that index, or
    // two texts of these events and of the check clash.
    ensures binds { IsTrue result → (events : List (List ℕ)) → Each AreBytes events → length events ≡ count → event_root H.dig events ≡ root.now →
        OrClash H.dig (event_texts H.dig events ++ audit_texts H.dig count index event.now path.now) (slice_get events index ≡ Some event.now) }
{
    see_bytes(event);
    is_shown::<H>(root, count, index, event, path.as_slice())
}
