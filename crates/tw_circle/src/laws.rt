// The laws of ways that lead back, and of claims that are opposed.

ghost use Rattle.std.specs.Prelude.{◌≡◌, ℕ, List, []};
ghost use Rattle.tw_base.specs.declared.history.report.Hop.{Hop};
ghost use Rattle.tw_base.specs.declared.history.thread.Key.{Key};
ghost use Rattle.tw_base.specs.declared.history.thread.Thread.{Thread};
ghost use Rattle.tw_base.specs.format.Formats.{Spells};
ghost use Rattle.tw_base.specs.history.Family.{AllSound, family_texts};
ghost use Rattle.tw_base.specs.history.History.{History};
ghost use Rattle.tw_base.specs.kinds.Lists.{Each};
ghost use Rattle.tw_chain.specs.declared.proof.Proof.{Proof};
ghost use Rattle.tw_chain.specs.Accepting.{IsAccepted, report_of};
ghost use Rattle.tw_chain.specs.Proofs.{proof_layout};
ghost use Rattle.tw_circle.specs.Opposed.{AreOpposed, HasRingOrClash};
ghost use Rattle.tw_circle.specs.Rings.{HasRing, LeadsBack};

use tw_base::Hasher;

/// What sound histories have where hops lead from a step of one of them back to that step, or to an earlier one, and where the reports
/// of two accepted proofs say that this came before that, and that before this.
pub fn circle_laws<H: Hasher>()
    // In a list of sound histories, hops, at least one, that lead from a step of a service to that step or an earlier one of the same
    // service give a ring among the histories' own texts: a list, not empty, each text of which holds the digest of the next one, and
    // the last that of the first.
    ensures no_circle { (family : List History) (hops : List Hop) (start goal : Key) →
        AllSound family → LeadsBack H.dig family hops start goal → HasRing H.dig (family_texts H.dig family) }
    // A ring isn't always there: sound histories without steps have none.
    ensures no_ring { (family : List History) → AllSound family → Each (λ (h : History). h.steps ≡ []) family →
        HasRing H.dig (family_texts H.dig family) → ⊥ }
    // Where two proofs are accepted, each under its own anchors, and the one's report says that this came before that, the other's that
    // that came before this, each list of sound histories that has the lines held of both has such a ring; or two different texts of
    // the histories and of the proofs, all of bytes, have one digest.
    ensures opposed { (anchors others : List Thread) (one other : List ℕ) (p q : Proof) →
        Spells proof_layout one p → IsAccepted H.dig anchors p → Spells proof_layout other q → IsAccepted H.dig others q →
        AreOpposed (report_of p).claim (report_of q).claim → HasRingOrClash H.dig anchors others p q }
    // No two such reports are both without hops, whatever lines are held, and whatever histories there are.
    ensures without_hops { (anchors others : List Thread) (one other : List ℕ) (p q : Proof) →
        Spells proof_layout one p → IsAccepted H.dig anchors p → Spells proof_layout other q → IsAccepted H.dig others q →
        AreOpposed (report_of p).claim (report_of q).claim → (report_of p).hops ≡ [] → (report_of q).hops ≡ [] → ⊥ }
{}
