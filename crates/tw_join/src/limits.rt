// How many parts join, and the limits of proofs that bear on it.

ghost use Rattle.std.specs.Prelude.{◌≡◌};
ghost use Rattle.tw_base.specs.declared.kinds.limits.TheConstants.{MOST_HOPS};
ghost use Rattle.tw_treeproof.specs.declared.limits.TheConstants.{MOST_ABOVE_ENTRY, MOST_ABOVE_PLACE};

/// The most parts that join: two events, and for each of at most 64 hops a thread and a link.
pub const MOST_PARTS: usize = 130;

/// The limits of proofs, by number.
pub fn limit_laws()
    // `MOST_PARTS`, the most parts that join, is 130.
    ensures parts { MOST_PARTS ≡ 130 }
    // `MOST_HOPS`, the most hops of a proof from event to event, is 64.
    ensures hops { MOST_HOPS ≡ 64 }
    // `MOST_ABOVE_ENTRY`, the most nodes above that of an entry that a tree proof is of, is 127.
    ensures above_entry { MOST_ABOVE_ENTRY ≡ 127 }
    // `MOST_ABOVE_PLACE`, the most nodes above an empty place that one is of, is 128.
    ensures above_place { MOST_ABOVE_PLACE ≡ 128 }
{}
