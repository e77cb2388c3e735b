// What the answers of audits mean.

ghost use Rattle.std.specs.Prelude.{◌≡◌, ◌↔◌, ◌⊎◌, ℕ, List, true, Ok, Err, Result};
ghost use Rattle.tw_base.specs.declared.history.thread.Thread.{Thread};
ghost use Rattle.tw_base.specs.format.Formats.{Spells};
ghost use Rattle.tw_base.specs.history.Family.{AllSound, HasThread, HasThreads};
ghost use Rattle.tw_base.specs.history.History.{History};
ghost use Rattle.tw_base.specs.kinds.Clash.{Clash};
ghost use Rattle.tw_chain.specs.declared.proof.Proof.{Proof};
ghost use Rattle.tw_chain.specs.Accepting.{IsAccepted, held, report_of};
ghost use Rattle.tw_chain.specs.Proofs.{proof_layout};
ghost use Rattle.tw_audit.specs.declared.finding.AuditFault.{AuditFault};
ghost use Rattle.tw_audit.specs.declared.finding.AuditFault.TheVariants.{NoMemory};
ghost use Rattle.tw_audit.specs.declared.finding.Finding.{Finding};
ghost use Rattle.tw_audit.specs.declared.finding.Finding.TheVariants.{Stands};
ghost use Rattle.tw_audit.specs.Answers.{AnswerMeans, TellsClash};
ghost use Rattle.tw_audit.specs.Auditing.{IsAudit, agrees_with, audited_texts};

use tw_base::Hasher;

/// What an audit's answer means, whoever gives it.
pub fn audit_laws<H: Hasher>()
    // An audit of the bytes of a proof against sound histories gives an answer that is so: where the report stands, what it
    // claims is so of the histories; where there is a clash, the two texts are of the histories and the proof, both of bytes,
    // differ and have the digest; a thread that isn't held is the first that the histories don't have.
    ensures means { (family : List History) (anchors : List Thread) (bytes : List ℕ) (p : Proof) (result : Result Finding AuditFault) →
        AllSound family → Spells proof_layout bytes p → IsAudit H.dig family anchors bytes result → AnswerMeans H.dig family anchors p result }
    // Where two texts of sound histories that have the threads held and of an accepted proof clash, an audit tells a pair, or
    // there was no memory: the first of the texts whose digest an earlier different one has, and the earliest such one.
    ensures finds { (family : List History) (anchors : List Thread) (bytes : List ℕ) (p : Proof) (result : Result Finding AuditFault) →
        AllSound family → Spells proof_layout bytes p → IsAccepted H.dig anchors p → HasThreads H.dig family (held anchors p) →
        Clash H.dig (audited_texts H.dig family p) → IsAudit H.dig family anchors bytes result → TellsClash H.dig (audited_texts H.dig family p) result }
    // Where no two of them clash, it tells that the proof's report stands, or there was no memory.
    ensures stands { (family : List History) (anchors : List Thread) (bytes : List ℕ) (p : Proof) (result : Result Finding AuditFault) →
        AllSound family → Spells proof_layout bytes p → IsAccepted H.dig anchors p → HasThreads H.dig family (held anchors p) →
        (Clash H.dig (audited_texts H.dig family p) → ⊥) → IsAudit H.dig family anchors bytes result →
        (result ≡ Ok (Stands (report_of p))) ⊎ (result ≡ Err NoMemory) }
    // Histories agree with a thread exactly where they have it.
    ensures has { (family : List History) (t : Thread) → (agrees_with H.dig family t ≡ true) ↔ HasThread H.dig family t }
{}
