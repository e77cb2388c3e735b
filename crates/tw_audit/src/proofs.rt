// What checking a proof hashes, in the order of its bytes, once more and without a judgement; tw_chain/src/passing.rt has the
// checks.

ghost use Rattle.std.specs.Prelude.{◌≡◌, ℕ, ◌<◌, ◌≤◌, List, ◌++◌, length, IfSome};
ghost use Rattle.std.specs.List.{flat_map};
ghost use Rattle.tw_base.specs.declared.kinds.limits.TheConstants.{LAST_STEP};
ghost use Rattle.tw_base.specs.kinds.Lists.{Each};
ghost use Rattle.tw_skipproof.specs.Acceptance.{part_texts};
ghost use Rattle.tw_skipproof.specs.Paths.{HasShape, path_texts};
ghost use Rattle.tw_treeproof.specs.Answers.{tree_proof_texts};
ghost use Rattle.tw_chain.specs.declared.proof.Proof.TheVariants.{Exists, Precedes};
ghost use Rattle.tw_chain.specs.Accepting.{proof_texts};
ghost use Rattle.tw_chain.specs.Checks.{checks, end_of_order};
ghost use Rattle.tw_audit.specs.PieceTexts.{bind_texts, hop_texts, opened_texts, seen_texts};
ghost use Rattle.tw_audit.specs.Shapes.{IsCheckShaped, IsEventShaped, IsHopShaped, IsPartAuditable};
ghost use Rattle.tw_base.specs.kinds.Handing.{Hands};

use tw_base::{Ask, Digest, EventPart, Transcript, TreeProof};
use tw_chain::{HopPart, PrecedenceProof, Proof};
use tw_events::root_over_told;
use tw_skipproof::{ExistenceProof, Opening, Part, Path, climb_told, opening_auth_told};
use tw_treeproof::tree_label_told;

/// Hands on the texts of a path from one step down to another, over the authenticator of the lower one.
fn hash_path<T: Transcript>(path: &Path, from: u64, to: u64, bottom: &Digest, texts: &mut T)
    requires shape { HasShape path.now.links from to }
    requires step { from ≤ LAST_STEP }
    ensures { Hands T.took texts.old texts.new (path_texts T.dig path.now.links from to bottom.now) }
{
    let Some(_) = climb_told(path, from, to, bottom, texts) else {
        unreachable!();
    };
}

/// Hands on the texts of a step under a top: those of its opening, and then those of the path.
fn hash_part<T: Transcript>(step: u64, top: u64, path: &Path, opening: &Opening, texts: &mut T)
    requires labels { length opening.now.others < 40 }
    requires shape { HasShape path.now.links top step }
    requires top { top ≤ LAST_STEP }
    ensures { (service : List ℕ) → Hands T.took texts.old texts.new
        (part_texts T.dig (record { service = service; step = step; top = top; path = path.now; opening = opening.now })) }
{
    let bottom = opening_auth_told(opening, step, texts);
    hash_path(path, top, step, &bottom, texts);
}

/// Hands on the texts of a step under its top, and then those of one of its events.
fn hash_seen<T: Transcript>(at: &Part, event: &EventPart, texts: &mut T)
    requires part { IsPartAuditable at.now }
    requires event { IsEventShaped at.now.opening.count event.now }
    ensures { Hands T.took texts.old texts.new (seen_texts T.dig at.now event.now) }
{
    hash_part(at.step, at.top, &at.path, &at.opening, texts);
    root_over_told(event, at.opening.count, texts);
}

/// Hands on the texts of a proof of an event.
fn hash_existence<T: Transcript>(proof: &ExistenceProof, texts: &mut T)
    requires { Each IsCheckShaped (checks (Exists proof.now)) }
    ensures { Hands T.took texts.old texts.new (proof_texts T.dig (Exists proof.now)) }
{
    hash_seen(&proof.at, &proof.event, texts);
}

/// Hands on the texts of a step under its top, and then those of an answer of its archive.
fn hash_answer<T: Transcript>(at: &Part, ask: &Ask, shown: &TreeProof, texts: &mut T)
    requires { IsPartAuditable at.now }
    ensures { Hands T.took texts.old texts.new (part_texts T.dig at.now ++ tree_proof_texts T.dig ask.now shown.now) }
{
    hash_part(at.step, at.top, &at.path, &at.opening, texts);
    tree_label_told(ask, shown, texts);
}

/// Hands on the texts of the opening of a step, where there is one.
fn hash_opened<T: Transcript>(step: u64, opening: &Option<Opening>, texts: &mut T)
    requires { IfSome opening.now (λ o. length o.others < 40) }
    ensures { Hands T.took texts.old texts.new (opened_texts T.dig step opening.now) }
{
    match opening {
        None => {}
        Some(opening) => {
            opening_auth_told(opening, step, texts);
        }
    }
}

/// Hands on the texts of the path from a hop's bind down to its thread's step, where the thread is bound.
fn hash_bind<T: Transcript>(hop: &HopPart, texts: &mut T)
    requires { IsHopShaped hop.now }
    ensures { Hands T.took texts.old texts.new (bind_texts T.dig hop.now) }
{
    if hop.bind == 0 {
        return;
    }
    let thread = &hop.entry.thread;
    hash_path(&hop.link, hop.bind, thread.step, &thread.auth, texts);
}

/// Hands on the texts of a hop.
fn hash_hop<T: Transcript>(hop: &HopPart, texts: &mut T)
    requires { IsHopShaped hop.now }
    ensures { Hands T.took texts.old texts.new (hop_texts T.dig hop.now) }
{
    tree_label_told(&Ask::Present(hop.entry), &hop.shown, texts);
    hash_bind(hop, texts);
    hash_opened(hop.entry.thread.step, &hop.opening, texts);
}

/// Hands on the texts of hops, one after another.
fn hash_hops<T: Transcript>(hops: &[HopPart], texts: &mut T)
    requires { Each IsHopShaped hops.now }
    ensures { Hands T.took texts.old texts.new (flat_map (hop_texts T.dig) hops.now) }
{
    for hop in hops {
        hash_hop(hop, texts);
    }
}

/// The step to which the hops come from the second event's.
fn end_step(proof: &PrecedenceProof) -> u64
    ensures { result ≡ (end_of_order proof.now).step }
{
    match proof.hops.as_slice().last() {
        None => proof.head.step.saturating_sub(1),
        Some(hop) => hop.entry.thread.step,
    }
}

/// Hands on the texts of a proof from event to event: the second event's, those of the step before it, the
/// hops', and the first event's.
fn hash_precedence<T: Transcript>(proof: &PrecedenceProof, texts: &mut T)
    requires { Each IsCheckShaped (checks (Precedes proof.now)) }
    ensures { Hands T.took texts.old texts.new (proof_texts T.dig (Precedes proof.now)) }
{
    hash_seen(&proof.head, &proof.event, texts);
    hash_opened(proof.head.step.saturating_sub(1), &proof.before, texts);
    hash_hops(proof.hops.as_slice(), texts);
    let tail = &proof.tail;
    hash_part(tail.step, end_step(proof), &tail.path, &tail.opening, texts);
    root_over_told(&tail.event, tail.opening.count, texts);
}

/// Hands on what checking the proof hashes, in the order of its bytes.
pub(crate) fn hash_proof<T: Transcript>(proof: &Proof, texts: &mut T)
    requires { Each IsCheckShaped (checks proof.now) }
    ensures { Hands T.took texts.old texts.new (proof_texts T.dig proof.now) }
{
    match proof {
        Proof::Exists(proof) => hash_existence(proof, texts),
        Proof::Precedes(proof) => hash_precedence(proof, texts),
        Proof::Archived(proof) => {
            hash_answer(&proof.at, &Ask::Present(proof.entry), &proof.shown, texts)
        }
        Proof::Absent(proof) => {
            hash_answer(&proof.at, &Ask::Absent(proof.key), &proof.shown, texts)
        }
        Proof::Linked(proof) => {
            hash_path(&proof.path, proof.top, proof.step, &proof.auth, texts)
        }
    }
}
