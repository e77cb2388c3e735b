// The root of a list of events; that of `told_root.rt` hands its texts on, and tells why there are two.

ghost use Rattle.std.specs.Prelude.{◌≡◌, ◌≤◌, length};
ghost use Rattle.tw_base.specs.events.EventTree.{event_root as event_root_of};
ghost use Rattle.tw_base.specs.kinds.Lists.{Each};
ghost use Rattle.tw_base.specs.declared.kinds.limits.TheConstants.{MOST_EVENTS, MOST_EVENT_BYTES};

use tw_base::{Bytes, Digest, Hasher, event_leaf, event_node, left_count, no_events};

/// The root of at most 1,024 events, each of at most 1,024 bytes: the Merkle tree hash of RFC 6962,
/// section 2.1. Takes no memory, hashes each text once, and goes at most ten halvings deep. It goes depth first;
/// `event_root_told` hands the leaves on before the nodes and keeps their labels, which this one needn't.
#[tactic(auto, using(crate::proofs::Steps::few_events))]
pub fn event_root<H: Hasher>(events: &[Bytes]) -> Digest
    requires few { length events.now ≤ MOST_EVENTS }
    requires small { Each (λ event. length event ≤ MOST_EVENT_BYTES) events.now }
    // A root of events is the Merkle tree hash of RFC 6962.
    ensures { result ≡ event_root_of H.dig events.now }
{
    match events {
        [] => no_events::<H>(),
        [event] => event_leaf::<H>(event.as_slice()),
        _ => {
            let (left, right) = events.split_at(left_count(events.len()));
            let left_root = event_root::<H>(left);
            let right_root = event_root::<H>(right);
            event_node::<H>(&left_root, &right_root)
        }
    }
}
