// The laws of proofs: their spelling, and what an accepted one says of histories.

ghost use Rattle.std.specs.Prelude.{◌≡◌, ◌≢◌, ℕ, ◌<◌, ◌≤◌, List, length, Some, slice_get};
ghost use Rattle.tw_base.specs.declared.history.thread.Entry.{Entry};
ghost use Rattle.tw_base.specs.declared.history.thread.Key.{Key};
ghost use Rattle.tw_base.specs.declared.history.thread.Thread.{Thread};
ghost use Rattle.tw_base.specs.declared.kinds.limits.TheConstants.{LAST_STEP};
ghost use Rattle.tw_base.specs.history.Anchors.{anchor_of};
ghost use Rattle.tw_base.specs.history.Auth.{auth};
ghost use Rattle.tw_base.specs.format.Codecs.{IsUnambiguous};
ghost use Rattle.tw_base.specs.kinds.Bytes.{AreBytes};
ghost use Rattle.tw_base.specs.kinds.Lists.{Each};
ghost use Rattle.tw_base.specs.kinds.Names.{IsName};
ghost use Rattle.tw_base.specs.format.Formats.{Spells};
ghost use Rattle.tw_base.specs.history.Entries.{key_of};
ghost use Rattle.tw_base.specs.history.History.{History, entry_at, events_at, received};
ghost use Rattle.tw_base.specs.history.Sound.{IsSound};
ghost use Rattle.tw_base.specs.history.Tree.{height, tree};
ghost use Rattle.tw_skipproof.specs.declared.existence.ExistenceProof.{ExistenceProof};
ghost use Rattle.tw_skipproof.specs.HistoryProofs.{IsExistenceOf, MakesExistence};
ghost use Rattle.tw_skipproof.specs.Existence.{existence_bytes};
ghost use Rattle.tw_treeproof.specs.declared.limits.TheConstants.{MOST_ABOVE_PLACE};
ghost use Rattle.tw_chain.specs.declared.proof.Proof.{Proof};
ghost use Rattle.tw_chain.specs.declared.proof.Proof.TheVariants.{Exists};
ghost use Rattle.tw_chain.specs.Accepting.{Accepts, IsAccepted, claim_of, proof_texts, report_of};
ghost use Rattle.tw_chain.specs.Binding.{BindsReport};
ghost use Rattle.tw_chain.specs.Claiming.{ClaimsOf, claim_at};
ghost use Rattle.tw_chain.specs.OwnProofs.{HasFewNodes, HasOwnAbsence, HasOwnEvent, HasOwnLink, HasOwnThread, IsOwnProof};
ghost use Rattle.tw_chain.specs.Proofs.{proof_bytes, proof_codec, proof_layout};
ghost use Rattle.tw_chain.specs.Services.{HoldsItsServices};

use tw_base::Hasher;

/// The proof that a history has of one of its events, under a top that isn't below the event's
/// step, is accepted wherever the anchor held of that service and top has the history's
/// authenticator of the top. It claims that this event stands at this index of the step, with the
/// step's time or none. Where the history is sound and has the top, the proof is spelled, by what
/// `write_existence` writes of it, and these bytes are accepted there.
///
/// There is such a proof of each event of a history, each thread that it received, each key of which it
/// received none, and each step, under each top from there on.
///
/// A sound history's proofs of a thread that was received, of a key of which none was, and of a step's
/// authenticator are accepted in the same way, claim what they are of, and are spelled: those of threads and
/// keys where few nodes stand above the place of their tree proofs.
pub fn completeness_laws<H: Hasher>()
    // The proof that a history has of one of its events, under a top that isn't below its step, is accepted wherever
    // the anchor that is held of the service and top has the history's authenticator of the top.
    ensures accepted { (h : History) (step index top : ℕ) (p : ExistenceProof) (anchors : List Thread) (anchor : Thread) →
        step ≤ top → IsExistenceOf H.dig h step index top p → anchor_of anchors h.name top ≡ Some anchor → anchor.auth ≡ auth H.dig h top →
        IsAccepted H.dig anchors (Exists p) }
    // So are the bytes that spell such a proof accepted, wherever that anchor is held.
    ensures accepts { (h : History) (step index top : ℕ) (bytes : List ℕ) (anchors : List Thread) (anchor : Thread) →
        step ≤ top → MakesExistence H.dig h step index top bytes → anchor_of anchors h.name top ≡ Some anchor → anchor.auth ≡ auth H.dig h top →
        Accepts H.dig anchors bytes }
    // The proof that a history has of an event claims that event at that place, with the time of its step, or with none
    // where the step has none.
    ensures claim { (h : History) (step index top : ℕ) (p : ExistenceProof) (event : List ℕ) →
        IsExistenceOf H.dig h step index top p → slice_get (events_at h step) index ≡ Some event → claim_of (Exists p) ≡ claim_at h step index event }
    // Where the history is sound and has the top, and that anchor is held, the bytes that are written of the proof
    // spell it, and are accepted.
    ensures spelled { (h : History) (step index top : ℕ) (p : ExistenceProof) (anchors : List Thread) (anchor : Thread) →
        IsSound h → step ≤ top → top ≤ length h.steps → IsExistenceOf H.dig h step index top p →
        anchor_of anchors h.name top ≡ Some anchor → anchor.auth ≡ auth H.dig h top →
        Spells proof_layout (existence_bytes p) (Exists p) × Accepts H.dig anchors (existence_bytes p) }
    // A history has a proof of each of its events, under each top from the event's step on.
    ensures has_event { (h : History) (step index top : ℕ) →
        step ≤ top → index < length (events_at h step) → HasOwnEvent H.dig h step top index }
    // It has a proof of each thread that it received, at the step that received it and at each one after, under each top from
    // there on.
    ensures has_thread { (h : History) (step top : ℕ) (entry : Entry) (archived : ℕ) →
        step ≤ top → entry_at h archived ≡ Some entry → archived ≤ step → HasOwnThread H.dig h step top entry }
    // It has a proof, at each step from 1 on, of each service and step of which no thread was received up to there, under each
    // top from there on.
    ensures has_absence { (h : History) (step top : ℕ) (key : Key) →
        0 < step → step ≤ top → IsName key.from → (0 < key.step) × (key.step ≤ LAST_STEP) →
        Each (λ entry. key_of entry ≢ key) (received h step) → HasOwnAbsence H.dig h step top key }
    // It has a proof of the authenticator of each step, under each top from there on.
    ensures has_link { (h : History) (step top : ℕ) → step ≤ top → HasOwnLink H.dig h step top }
    // The proof that a sound history has of a step under a top that it has and that isn't below the step, be it of an
    // event, of a thread that was received up to the step, of a key of which none was, or of the step's authenticator, is
    // accepted wherever the anchor that is held of the service and top has the history's authenticator of the top.
    ensures own { (h : History) (step top : ℕ) (p : Proof) (anchors : List Thread) (anchor : Thread) →
        IsSound h → step ≤ top → top ≤ length h.steps → IsOwnProof H.dig h step top p → anchor_of anchors h.name top ≡ Some anchor → anchor.auth ≡ auth H.dig h top →
        IsAccepted H.dig anchors p }
    // It claims that thread, that there is none of that key, or that authenticator, at the history's step; what a proof of an
    // event claims, `claim` says.
    ensures own_claims { (h : History) (step top : ℕ) (p : Proof) → IsOwnProof H.dig h step top p → ClaimsOf H.dig h step top p }
    // Where the history has the top, which is from 1 on, and no more nodes stand above the place of a tree proof in such a
    // proof than its format has room for, 127 above an entry and 128 above an empty place, the bytes that are written of the
    // proof spell it.
    ensures own_spelled { (h : History) (step top : ℕ) (p : Proof) →
        IsSound h → step ≤ top → 0 < top → top ≤ length h.steps → HasFewNodes p → IsOwnProof H.dig h step top p →
        Spells proof_layout (proof_bytes p) p }
    // No more nodes stand there in any of a sound history's proofs of a step where no way down the tree of the step's archive
    // has more than 128.
    ensures own_few { (h : History) (step top : ℕ) (p : Proof) →
        IsSound h → step ≤ top → top ≤ length h.steps → height (tree h step) ≤ MOST_ABOVE_PLACE → IsOwnProof H.dig h step top p →
        HasFewNodes p }
{}

/// The words of proofs: each has one value, a value has one spelling, and no word is the front of a
/// longer one.
pub fn proof_laws()
    // Proofs have one spelling each: the words of the format are what is written of those that fit, and none is the
    // front of a longer one.
    ensures once { IsUnambiguous proof_codec }
    // A proof has fewer than 5,242,880 bytes.
    ensures small { (bytes : List ℕ) (p : Proof) → Spells proof_layout bytes p → length bytes < 5242880 }
{}

/// What an accepted proof says of histories, whatever its kind.
pub fn chain_laws<H: Hasher>()
    // What the report of an accepted proof claims is so in every family of sound histories that has the threads held of
    // the proof, or two different texts of the histories and of the proof, both of bytes, have one digest.
    ensures headline { (bytes : List ℕ) (p : Proof) (anchors : List Thread) →
        Spells proof_layout bytes p → IsAccepted H.dig anchors p → BindsReport H.dig anchors p (report_of p) }
    // Where bytes spell a proof, each of the texts that checking it hashes is bytes.
    ensures texts { (bytes : List ℕ) (p : Proof) → Spells proof_layout bytes p → Each AreBytes (proof_texts H.dig p) }
    // What is held suffices: of each service of whose history the claim of an accepted proof speaks, and of both services of
    // each of its hops, a thread is held, whose anchor the verifier has, or which the proof carries. And no other thread is held than
    // an anchor that the verifier has, or one that the proof carries and its report tells, with this very step and authenticator; and
    // each that is carried is held.
    ensures held { (p : Proof) (anchors : List Thread) → IsAccepted H.dig anchors p → HoldsItsServices anchors p }
{}
