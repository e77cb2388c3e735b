// Putting evidence of a fork to whoever received both threads: whether they broke a rule of their own (`contradict` of tw_contradict). Whether it
// is evidence of a fork is judged in tw_evidence (`check_evidence`).

ghost use Rattle.std.specs.Prelude.{◌≡◌, ◌++◌, [], ◌∷◌, ℕ, List, Option, IfOk, true};
ghost use Rattle.tw_base.specs.declared.history.thread.Thread.{Thread as Line};
ghost use Rattle.tw_base.specs.format.Formats.{Spells};
ghost use Rattle.tw_chain.specs.declared.proof.LinkProof.{LinkProof};
ghost use Rattle.tw_chain.specs.declared.proof.Proof.TheVariants.{Archived};
ghost use Rattle.tw_chain.specs.Accepting.{proof_texts};
ghost use Rattle.tw_evidence.specs.declared.evidence.Evidence.{Evidence as AnyEvidence};
ghost use Rattle.tw_contradict.specs.declared.verdict.ContradictReason.TheVariants.{NoConflict};
ghost use Rattle.tw_contradict.specs.declared.verdict.ContradictVerdict.TheVariants.{No};
ghost use Rattle.tw_evidence.specs.Evidence.{evidence_layout, thread_proof_codec};
ghost use Rattle.tw_contradict.specs.Facts.{later};
ghost use Rattle.tw_judge.specs.Receiver.{IsOfOneReceiver, IsReceiverJudged, IsReceiverVerdict};
ghost use Rattle.tw_contradict.specs.Verdicts.{IsLink, NoneHas, joins, link_proof_texts};

use std::alloc::Global;
use tw_base::{Hasher, NoMemory, ReadFault, Thread};
use tw_contradict::{ContradictVerdict, contradict};
use tw_evidence::{Evidence, read_evidence, write_thread_proof};

/// The verdict on both proofs of the evidence as two files.
fn judge_sides<H: Hasher>(
    alloc: Global,
    evidence: &Evidence,
    anchors: &[Thread],
    link: &[u8],
) -> Result<ContradictVerdict, NoMemory>
    ensures { IfOk result (IsReceiverVerdict H.dig anchors.now evidence.now link.now) }
{
    let first = write_thread_proof(alloc, &evidence.first)?;
    let second = write_thread_proof(alloc, &evidence.second)?;
    let judged = contradict::<H>(
        alloc,
        first.as_slice(),
        anchors,
        second.as_slice(),
        anchors,
        link,
    );
    drop(second);
    drop(first);
    judged
}

/// The verdict of `contradict` on both proofs of the evidence of a fork, under the anchors and with a link
/// between their lines: whether the service that received both threads broke a rule by it. Where two services
/// did, it is `NoConflict`. Whether the evidence shows a fork isn't asked; `check_evidence` tells that.
pub fn contradict_received<H: Hasher>(
    alloc: Global,
    evidence: &[u8],
    anchors: &[Thread],
    link: &[u8],
) -> Result<ContradictVerdict, ReadFault>
    // Bytes that spell evidence get the verdict of `contradict` on its two proofs, each under the anchors; of others the length of the
    // longest front that some evidence begins with is told.
    ensures { IsReceiverJudged H.dig anchors.now evidence.now link.now result }
{
    let evidence = read_evidence(alloc, evidence)?;
    let judged = judge_sides::<H>(alloc, &evidence, anchors, link);
    drop(evidence);
    match judged {
        Ok(verdict) => Ok(verdict),
        Err(NoMemory) => Err(ReadFault::NoMemory),
    }
}

/// What evidence of a fork says of the service that received both threads.
pub fn receiver_laws<H: Hasher>()
    // Where evidence shows a fork, one service received both threads, each under a line of it, and both are of one step, no list of sound
    // histories has both lines, or two different texts of the histories and of both proofs, all of bytes, have one digest: whoever the
    // threads are of, the receiver broke a rule, or showed two histories.
    ensures one_receiver { (anchors : List Line) (bytes : List ℕ) (e : AnyEvidence) (one other : Line) → Spells evidence_layout bytes e →
        IsOfOneReceiver H.dig anchors e one other →
        NoneHas H.dig (one ∷ other ∷ []) (proof_texts H.dig (Archived e.first) ++ proof_texts H.dig (Archived e.second)) }
    // Where the lines are one, or a link leads from the later one down to the earlier one, no list of sound histories has the later
    // line, or texts of the link, too, clash: then the receiver broke a rule.
    ensures joined { (anchors : List Line) (bytes link : List ℕ) (e : AnyEvidence) (one other : Line) (between : Option LinkProof) →
        Spells evidence_layout bytes e → IsOfOneReceiver H.dig anchors e one other → IsLink link between → joins H.dig one other between ≡ true →
        NoneHas H.dig (later one other ∷ []) (proof_texts H.dig (Archived e.first) ++ (proof_texts H.dig (Archived e.second) ++ link_proof_texts H.dig between)) }
    // And the verdict on it isn't that no rule is broken.
    ensures found { (anchors : List Line) (bytes link : List ℕ) (e : AnyEvidence) (one other : Line) → Spells evidence_layout bytes e →
        IsOfOneReceiver H.dig anchors e one other → IsReceiverVerdict H.dig anchors e link (No NoConflict) → ⊥ }
{}
