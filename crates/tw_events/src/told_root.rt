// The root of a list of events, whose texts are handed on.

ghost use Rattle.std.specs.Prelude.{◌≡◌, ℕ, ◌<◌, ◌≤◌, List, length};
ghost use Rattle.tw_base.specs.declared.kinds.limits.TheConstants.{MOST_EVENTS, MOST_EVENT_BYTES};
ghost use Rattle.tw_base.specs.events.EventTree.{event_leaf_texts, event_node_texts, event_root as event_root_of, event_texts};
ghost use Rattle.tw_base.specs.kinds.Lists.{Each};
ghost use Rattle.tw_events.specs.EventLeaves.{leaf_labels};
ghost use Rattle.tw_base.specs.kinds.Handing.{Hands};

use arrayvec::ArrayVec;
use tw_base::{
    Bytes, Digest, Transcript, event_leaf_told, event_node_told, left_count, no_events_told,
};

/// The root over the labels of the leaves of events, from one on; it goes at most ten halvings deep.
fn root_over_leaves<T: Transcript>(leaves: &[Digest], texts: &mut T) -> Digest
    requires some { 0 < length leaves.now }
    requires few { length leaves.now ≤ MOST_EVENTS }
    ensures root { (events : List (List ℕ)) → leaves.now ≡ leaf_labels T.dig events → result ≡ event_root_of T.dig events }
    ensures took { (events : List (List ℕ)) → leaves.now ≡ leaf_labels T.dig events → Hands T.took texts.old texts.new (event_node_texts T.dig events) }
{
    match leaves {
        [leaf] => *leaf,
        _ => {
            let (left, right) = leaves.split_at(left_count(leaves.len()));
            let left_root = root_over_leaves(left, texts);
            let right_root = root_over_leaves(right, texts);
            event_node_told(&left_root, &right_root, texts)
        }
    }
}

/// The labels of the leaves of the events.
fn leaves_of<T: Transcript>(events: &[Bytes], texts: &mut T) -> ArrayVec<Digest, 1024>
    requires few { length events.now ≤ MOST_EVENTS }
    requires small { Each (λ event. length event ≤ MOST_EVENT_BYTES) events.now }
    ensures labels { result.items ≡ leaf_labels T.dig events.now }
    ensures took { Hands T.took texts.old texts.new (event_leaf_texts events.now) }
{
    let mut leaves: ArrayVec<Digest, 1024> = ArrayVec::new();
    for event in events {
        let leaf = event_leaf_told(event.as_slice(), texts);
        leaves.push(leaf);
    }
    leaves
}

/// The root of more events than one.
fn root_of_many<T: Transcript>(events: &[Bytes], texts: &mut T) -> Digest
    requires many { 1 < length events.now }
    requires few { length events.now ≤ MOST_EVENTS }
    requires small { Each (λ event. length event ≤ MOST_EVENT_BYTES) events.now }
    ensures root { result ≡ event_root_of T.dig events.now }
    ensures took { Hands T.took texts.old texts.new (event_texts T.dig events.now) }
{
    let leaves = leaves_of(events, texts);
    root_over_leaves(leaves.as_slice(), texts)
}

/// The root of at most 1,024 events, each of at most 1,024 bytes: the Merkle tree hash of RFC 6962,
/// section 2.1. Each text is hashed once, the leaves by their index and then the nodes, each behind its
/// sides. Takes no memory of its own but for the labels of the leaves, on the stack. That order of the texts
/// asks for these labels, 32 KB of them; `event_root` goes depth first and needs none, which is why there are
/// two.
pub fn event_root_told<T: Transcript>(events: &[Bytes], texts: &mut T) -> Digest
    requires few { length events.now ≤ MOST_EVENTS }
    requires small { Each (λ event. length event ≤ MOST_EVENT_BYTES) events.now }
    // A root of events is the Merkle tree hash of RFC 6962.
    ensures root { result ≡ event_root_of T.dig events.now }
    // The texts of the events are handed on.
    ensures took { Hands T.took texts.old texts.new (event_texts T.dig events.now) }
{
    match events {
        [] => no_events_told(texts),
        [event] => event_leaf_told(event.as_slice(), texts),
        _ => root_of_many(events, texts),
    }
}
