// The laws of joining: what joined proofs are, and where they are accepted.

ghost use Rattle.std.specs.Prelude.{◌≡◌, ◌+◌, ◌≤◌, ℕ, List, length, Result, reverse, take, Ok};
ghost use Rattle.tw_base.specs.declared.kinds.limits.TheConstants.{MOST_HOPS};
ghost use Rattle.tw_base.specs.format.Formats.{Spells};
ghost use Rattle.tw_base.specs.kinds.Lists.{Each};
ghost use Rattle.tw_chain.specs.declared.proof.PrecedenceProof.{PrecedenceProof};
ghost use Rattle.tw_chain.specs.declared.proof.Proof.{Proof};
ghost use Rattle.tw_chain.specs.declared.proof.Proof.TheVariants.{Precedes};
ghost use Rattle.tw_chain.specs.Accepting.{named, report_of};
ghost use Rattle.tw_join.specs.declared.joining.JoinFault.{JoinFault};
ghost use Rattle.tw_join.specs.Joining.{Joins, joined_proof, shown_hops, tops_of};
ghost use Rattle.tw_join.specs.Joining.Taken.{Nothing};
ghost use Rattle.tw_join.specs.OwnParts.{JoinedBytesAreAccepted, JoinedIsAccepted};
ghost use Rattle.tw_chain.specs.Proofs.{proof_bytes, proof_layout};

use crate::limits::MOST_PARTS;
use tw_base::Hasher;

/// What parts join to: a proof that has a spelling where they have, that tells the hops that they show
/// and names the tops of its first part and links, and that is accepted where services made them, as are the bytes that are written of it.
pub fn joining_laws<H: Hasher>()
    // Parts that services of sound histories made, for hops that stand there, and that fit, join to a proof that is accepted
    // wherever the anchors of the tops that it names are held, and are those of the histories.
    ensures joined { JoinedIsAccepted H.dig }
    // What parts join to, each of which has a spelling, has a spelling itself: what is written of it.
    ensures joined_spelled { (parts : List Proof) (p : PrecedenceProof) →
        Each (λ part. (bytes : List ℕ) × Spells proof_layout bytes part) parts → joined_proof Nothing 1 parts ≡ Ok p → Spells proof_layout (proof_bytes (Precedes p)) (Precedes p) }
    // In one piece: where services of sound histories made the parts, for hops that stand there, and no part has more nodes
    // above the place of its tree proof than its format has room for, 127 above an entry, the bytes that are written of what
    // they join to spell it, and are accepted wherever the anchors of the tops that it names are held, and are those of the
    // histories.
    ensures joined_accepts { JoinedBytesAreAccepted H.dig }
    // The hops of its report are those that the parts show, from the first event to the second.
    ensures joined_hops { (parts : List Proof) (p : PrecedenceProof) →
        joined_proof Nothing 1 parts ≡ Ok p → (report_of (Precedes p)).hops ≡ reverse (shown_hops parts) }
    // It names the top of the first part and those tops of the links that are above 0, and no other, in the order of the parts.
    ensures joined_tops { (parts : List Proof) (p : PrecedenceProof) → joined_proof Nothing 1 parts ≡ Ok p → named (Precedes p) ≡ tops_of parts }
    // It has at most 64 hops.
    ensures joined_few { (parts : List Proof) (p : PrecedenceProof) → joined_proof Nothing 1 parts ≡ Ok p → length p.hops ≤ MOST_HOPS }
    // No more than 130 parts join: what the first 131 of some come to, all of them come to.
    ensures front_decides { (parts : List Proof) (result : Result Proof JoinFault) → Joins (take (MOST_PARTS + 1) parts) result → Joins parts result }
{}
