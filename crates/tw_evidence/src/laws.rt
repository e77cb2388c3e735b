// The laws of evidence: its spelling, and when it shows a fork.

ghost use Rattle.std.specs.Prelude.{◌≡◌, ◌≢◌, ◌↔◌, ℕ, ◌≤◌, List, length, Option, Ok, IfSome};
ghost use Rattle.tw_base.specs.declared.history.thread.Thread.{Thread};
ghost use Rattle.tw_base.specs.format.Codecs.{IsUnambiguous};
ghost use Rattle.tw_base.specs.format.Formats.{IsFront, Spells};
ghost use Rattle.tw_skipproof.specs.Paths.{Climbs};
ghost use Rattle.tw_chain.specs.declared.proof.LinkProof.{LinkProof};
ghost use Rattle.tw_chain.specs.declared.proof.Proof.TheVariants.{Archived, Linked};
ghost use Rattle.tw_chain.specs.declared.proof.ThreadProof.{ThreadProof};
ghost use Rattle.tw_chain.specs.Accepting.{Accepts};
ghost use Rattle.tw_chain.specs.Proofs.{proof_layout};
ghost use Rattle.tw_evidence.specs.declared.evidence.Evidence.{Evidence};
ghost use Rattle.tw_evidence.specs.declared.fork.Fork.{Fork};
ghost use Rattle.tw_evidence.specs.declared.fork.ForkReason.{ForkReason};
ghost use Rattle.tw_evidence.specs.declared.fork.ForkVerdict.TheVariants.{No, Yes};
ghost use Rattle.tw_evidence.specs.Accusing.{accused};
ghost use Rattle.tw_evidence.specs.Evidence.{evidence_bytes, evidence_codec, evidence_layout, link_proof_codec, link_proof_layout, thread_proof_codec, thread_proof_layout};
ghost use Rattle.tw_evidence.specs.Forks.{IsForkVerdict, IsReasonTold, ShowsFork, fork_of, fork_verdict};

use tw_base::Hasher;

/// The words of evidence, and of the proofs of which it is made: each has one value, a value has one
/// spelling, and no word is the front of a longer one.
pub fn evidence_laws()
    // Evidence has one spelling.
    ensures once { IsUnambiguous evidence_codec }
    // No front of evidence has more than 188,744 bytes, so that what so many bytes of a file decide, all of them decide.
    ensures size { (bytes : List ℕ) → IsFront evidence_layout bytes → length bytes ≤ 188744 }
    // A proof of a received thread that stands by itself has one spelling, and so has one of a step's authenticator.
    ensures thread_once { IsUnambiguous thread_proof_codec }
    ensures link_once { IsUnambiguous link_proof_codec }
    // No front of one has more than 67,474 bytes, nor one of the other more than 53,829.
    ensures thread_size { (bytes : List ℕ) → IsFront thread_proof_layout bytes → length bytes ≤ 67474 }
    ensures link_size { (bytes : List ℕ) → IsFront link_proof_layout bytes → length bytes ≤ 53829 }
    // The words of both are those of proofs of their kinds.
    ensures thread { (bytes : List ℕ) (t : ThreadProof) → Spells thread_proof_layout bytes t ↔ Spells proof_layout bytes (Archived t) }
    ensures link { (bytes : List ℕ) (l : LinkProof) → Spells link_proof_layout bytes l ↔ Spells proof_layout bytes (Linked l) }
{}

/// When evidence shows a fork, what is told where it doesn't, and that what is made of accepted proofs is
/// accepted.
pub fn fork_laws<H: Hasher>()
    // The verdict on evidence is `Yes` exactly where it shows a fork: where both proofs are accepted, of threads of one
    // service, the first not of the later step, where the bottom isn't the first thread's authenticator, and where the path
    // climbs from it to the second thread's. It then tells the entries of both proofs, and whose archives have them.
    ensures yes { (anchors : List Thread) (e : Evidence) (f : Fork) →
        fork_verdict H.dig anchors e ≡ Yes f ↔ (ShowsFork H.dig anchors e × (f ≡ fork_of e)) }
    // Each reason is told exactly where it stands and none before it does: against the first proof, or, where that one is
    // accepted, against the second, with the reason of the verdict on this proof by itself, which isn't strict; where both are
    // accepted, that the threads are of two services, the first is of the later step, or it has the bottom for its
    // authenticator; and where they are not and it has not, that the path doesn't climb.
    ensures no { (anchors : List Thread) (bytes : List ℕ) (e : Evidence) (reason : ForkReason) → Spells evidence_layout bytes e →
        fork_verdict H.dig anchors e ≡ No reason ↔ IsReasonTold H.dig anchors e reason }
    // Evidence that is made of two proofs whose bytes are accepted under some anchors, and of a link or of none, is accepted
    // under them, where the bottom isn't the first thread's authenticator and the path climbs to the second thread's.
    ensures complete { (anchors : List Thread) (one other : List ℕ) (first second : ThreadProof) (link : Option LinkProof) (e : Evidence) →
        Spells thread_proof_layout one first → Accepts H.dig anchors one → Spells thread_proof_layout other second → Accepts H.dig anchors other →
        IfSome link link_proof_codec.Fits → accused first second link ≡ Ok e → e.bottom ≢ first.entry.thread.auth →
        Climbs H.dig e.link.links second.entry.thread.step first.entry.thread.step e.bottom second.entry.thread.auth →
        IsForkVerdict H.dig anchors (evidence_bytes e) (Yes (fork_of e)) }
{}
