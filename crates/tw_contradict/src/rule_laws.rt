// The laws of services that break a rule: what accepted files that contradict each other say of their lines.

ghost use Rattle.std.specs.Prelude.{◌≡◌, ◌↔◌, ◌⊎◌, ◌≤◌, ◌++◌, [], ◌∷◌, ℕ, List, Option, Some, None, true};
ghost use Rattle.tw_base.specs.declared.history.thread.Thread.{Thread};
ghost use Rattle.tw_base.specs.history.Anchors.{anchor_of};
ghost use Rattle.tw_base.specs.history.Entries.{key_of};
ghost use Rattle.tw_base.specs.format.Formats.{Spells};
ghost use Rattle.tw_chain.specs.declared.proof.AbsenceProof.{AbsenceProof};
ghost use Rattle.tw_chain.specs.declared.proof.LinkProof.{LinkProof};
ghost use Rattle.tw_chain.specs.declared.proof.Proof.TheVariants.{Absent, Archived};
ghost use Rattle.tw_chain.specs.declared.proof.ThreadProof.{ThreadProof};
ghost use Rattle.tw_chain.specs.Accepting.{IsAccepted, proof_texts};
ghost use Rattle.tw_chain.specs.Proofs.{proof_layout};
ghost use Rattle.tw_contradict.specs.declared.facts.Conflict.{Conflict};
ghost use Rattle.tw_contradict.specs.declared.facts.Facts.{Facts};
ghost use Rattle.tw_contradict.specs.declared.facts.Rule.{Rule};
ghost use Rattle.tw_contradict.specs.declared.verdict.ContradictVerdict.{ContradictVerdict};
ghost use Rattle.tw_contradict.specs.ArchiveFiles.{archive_texts};
ghost use Rattle.tw_contradict.specs.Facts.{later};
ghost use Rattle.tw_contradict.specs.Rules.{BreakNone, IsBroken, breaks, conflict_of, rule_texts};
ghost use Rattle.tw_contradict.specs.Verdicts.{IsContradictVerdict, IsFinding, IsLink, NoneHas, Says, joins, link_proof_texts};

use tw_base::Hasher;

/// What the first broken rule is, and that each rule that is broken is found.
pub fn conflict_laws<H: Hasher>()
    // Files of which a rule is named are of one service, and break that rule, in one order or the other.
    ensures named { (one other : Facts) (conflict : Conflict) → conflict_of H.dig one other ≡ Some conflict → IsBroken H.dig one other conflict }
    // None is named exactly where the files are of two services, or break none of the rules in either order.
    ensures free { (one other : Facts) → conflict_of H.dig one other ≡ None ↔ BreakNone H.dig one other }
    // Bytes that are accepted under some anchors say one thing.
    ensures one_thing { (anchors : List Thread) (bytes : List ℕ) (one other : Facts) → Says H.dig anchors bytes one → Says H.dig anchors bytes other → one ≡ other }
    // Where two files of one service are accepted, each under its own anchors, and break a rule of the list, in one order or the other,
    // the verdict is that a rule is broken; or, where a link is given that isn't one of their lines, that it isn't.
    ensures complete { (anchors others : List Thread) (first second link : List ℕ) (one other : Facts) (rule : Rule) (verdict : ContradictVerdict) →
        Says H.dig anchors first one → Says H.dig others second other → one.service ≡ other.service →
        (breaks H.dig rule one other ≡ true) ⊎ (breaks H.dig rule other one ≡ true) →
        IsContradictVerdict H.dig anchors others first second link verdict → IsFinding H.dig one other link verdict }
{}

/// What accepted files that contradict each other say of a service's lines.
pub fn contradiction_laws<H: Hasher>()
    // Where a proof that a service received a thread, and one that up to that proof's step or to a later one it received none of that
    // service and step, are both accepted, each under a line of the service, no list of sound histories has both lines, or two
    // different texts of the histories and of the proofs, all of bytes, have one digest: the service broke a rule, or showed two
    // histories.
    ensures no_keeper { (anchors others : List Thread) (first second : List ℕ) (p : ThreadProof) (q : AbsenceProof) (one other : Thread) →
        Spells proof_layout first (Archived p) → IsAccepted H.dig anchors (Archived p) → Spells proof_layout second (Absent q) → IsAccepted H.dig others (Absent q) →
        p.at.service ≡ q.at.service → key_of p.entry ≡ q.key → p.at.step ≤ q.at.step →
        anchor_of anchors p.at.service p.at.top ≡ Some one → anchor_of others q.at.service q.at.top ≡ Some other →
        NoneHas H.dig (one ∷ other ∷ []) (proof_texts H.dig (Archived p) ++ proof_texts H.dig (Absent q)) }
    // The same of all files, map files among them, and of each rule that they break, in one order or the other: what they say needn't be
    // the first that is told. The texts have that of no events, too, where the rule is about its root.
    ensures none { (anchors others : List Thread) (first second : List ℕ) (one other : Facts) (conflict : Conflict) →
        (said : Says H.dig anchors first one) → (also : Says H.dig others second other) → IsBroken H.dig one other conflict →
        NoneHas H.dig (one.line ∷ other.line ∷ []) (archive_texts H.dig said.proof ++ (archive_texts H.dig also.proof ++ rule_texts conflict.rule)) }
    // Where the lines are one, or a link leads from the later one down to the earlier one, no list of sound histories has the later
    // line, or texts of the link, too, clash: then the service broke a rule, whatever else it showed.
    ensures joined { (anchors others : List Thread) (first second link : List ℕ) (one other : Facts) (conflict : Conflict) (between : Option LinkProof) →
        (said : Says H.dig anchors first one) → (also : Says H.dig others second other) → IsBroken H.dig one other conflict →
        IsLink link between → joins H.dig one.line other.line between ≡ true →
        NoneHas H.dig (later one.line other.line ∷ [])
        (archive_texts H.dig said.proof ++ (archive_texts H.dig also.proof ++ (rule_texts conflict.rule ++ link_proof_texts H.dig between))) }
{}
