// The laws of schedules: what comes of each of them.

ghost use Rattle.std.specs.Prelude.{◌≡◌, ℕ, ◌≤◌, ◌-◌, List, Result, Ok, Some, true};
ghost use Rattle.tw_audit.specs.Auditing.{IsAudit};
ghost use Rattle.tw_audit.specs.declared.finding.AuditFault.{AuditFault};
ghost use Rattle.tw_audit.specs.declared.finding.Finding.{Finding};
ghost use Rattle.tw_base.specs.declared.history.question.Question.TheVariants as ask;
ghost use Rattle.tw_base.specs.declared.history.report.Report.{Report};
ghost use Rattle.tw_base.specs.declared.history.thread.Entry.{Entry};
ghost use Rattle.tw_base.specs.history.Entries.{key_of};
ghost use Rattle.tw_base.specs.history.Family.{AllSound, HasThread};
ghost use Rattle.tw_base.specs.history.History.{History, entry_at};
ghost use Rattle.tw_chain.specs.Reasons.{IsVerdict};
ghost use Rattle.tw_chain.specs.declared.proof.PrecedenceProof.{PrecedenceProof};
ghost use Rattle.tw_chain.specs.declared.proof.Proof.{Proof};
ghost use Rattle.tw_chain.specs.declared.verdict.Verdict.TheVariants.{Yes};
ghost use Rattle.tw_join.specs.Joining.{joined_proof};
ghost use Rattle.tw_join.specs.Joining.Taken.{Nothing};
ghost use Rattle.tw_service.specs.Machine.Call.{Ask};
ghost use Rattle.tw_tmap.specs.Bounds.{first_from, high_bound, low_bound};
ghost use Rattle.tw_generate.specs.Coming.{AllCanBeDone, IsAuditTold, IsLedTo, IsNotRefused};
ghost use Rattle.tw_generate.specs.Schedules.{Trio, Who, no_steps, schedule, trio_history};
ghost use Rattle.tw_generate.specs.Summing.{AreParts, IsClaimed, IsFileMap, IsQuestionAnswered, high_side, last, last_event, low_side, received_by, trio_family, trio_heads};

use tw_archive::judgement_laws;
use tw_audit::audit_laws;
use tw_base::Hasher;
use tw_chain::{completeness_laws, proof_laws};
use tw_join::joining_laws;
use tw_tmap::map_laws;

/// What comes of the schedule of every number and up to 10,000 rounds, whatever trees the services keep. The function itself does nothing.
pub fn generate_laws<H: Hasher>()
    // No call of the schedule is refused, wherever those before it led: that a service appends, tells its last step, or receives a message.
    ensures goes { (number rounds : ℕ) → rounds ≤ 10000 → AllCanBeDone H.dig (schedule number rounds) no_steps }
    // Each of the three histories is sound.
    ensures sound { (number rounds : ℕ) (t : Trio) → IsLedTo H.dig number rounds t → AllSound (trio_family t) }
    // Each thread that one of them received is one that they have.
    ensures present { (number rounds : ℕ) (t : Trio) (who : Who) (step : ℕ) (e : Entry) → IsLedTo H.dig number rounds t →
        entry_at (trio_history who t) step ≡ Some e → HasThread H.dig (trio_family t) e.thread }
    // From 50 rounds on beta received a thread of alpha, and gamma one of beta of the step that archived the first of them, or of a later one.
    ensures found { (number rounds : ℕ) (t : Trio) → IsLedTo H.dig number rounds t → 50 ≤ rounds →
        (of_alpha : Entry) × (of_beta : Entry) × (first_from t.alpha.name 1 (received_by t.beta) ≡ Some of_alpha)
        × (first_from t.beta.name of_alpha.archived (received_by t.gamma) ≡ Some of_beta) }
    // No service refuses what is asked of it for the proof of the last event and for the map.
    ensures asked { (number rounds : ℕ) (t : Trio) → IsLedTo H.dig number rounds t → IsNotRefused H.dig t.gamma (Ask (last_event t))
        × IsNotRefused H.dig t.alpha (Ask (low_side t)) × IsNotRefused H.dig t.gamma (Ask (high_side t)) }
    // Nor what is asked of it for the parts of the proof over these threads.
    ensures asked_parts { (number rounds : ℕ) (t : Trio) (of_alpha of_beta : Entry) → IsLedTo H.dig number rounds t →
        first_from t.alpha.name 1 (received_by t.beta) ≡ Some of_alpha → first_from t.beta.name of_alpha.archived (received_by t.gamma) ≡ Some of_beta →
        IsNotRefused H.dig t.gamma (Ask (ask.Thread (last t.gamma - 1) (key_of of_beta) (Some (last t.gamma))))
        × IsNotRefused H.dig t.beta (Ask (ask.Link of_beta.thread.step (Some (last t.beta))))
        × IsNotRefused H.dig t.beta (Ask (ask.Thread of_beta.thread.step (key_of of_alpha) (Some (last t.beta))))
        × IsNotRefused H.dig t.alpha (Ask (ask.Link of_alpha.thread.step (Some (last t.alpha))))
        × IsNotRefused H.dig t.alpha (Ask (ask.Event 1 0 (Some of_alpha.thread.step))) }
    // The parts that the services make of these threads join.
    ensures joined { (number rounds : ℕ) (t : Trio) (of_alpha of_beta : Entry) (parts : List Proof) → IsLedTo H.dig number rounds t →
        first_from t.alpha.name 1 (received_by t.beta) ≡ Some of_alpha → first_from t.beta.name of_alpha.archived (received_by t.gamma) ≡ Some of_beta →
        AreParts H.dig t of_alpha of_beta parts → (whole : PrecedenceProof) × (joined_proof Nothing 1 parts ≡ Ok whole) }
    // The proof that is claimed is accepted under the heads, in the strict form.
    ensures accepted { (number rounds : ℕ) (t : Trio) (bytes : List ℕ) → IsLedTo H.dig number rounds t → IsClaimed H.dig t rounds bytes →
        (report : Report) × IsVerdict H.dig (trio_heads H.dig t) true bytes (Yes report) }
    // The map files of alpha's last step against gamma are accepted under the heads, and tell the bounds of the histories.
    ensures mapped { (number rounds : ℕ) (t : Trio) (low_bytes high_bytes : List ℕ) → IsLedTo H.dig number rounds t →
        IsQuestionAnswered H.dig t.alpha (low_side t) low_bytes → IsQuestionAnswered H.dig t.gamma (high_side t) high_bytes →
        IsFileMap H.dig (trio_heads H.dig t) low_bytes high_bytes (low_bound t.alpha (last t.alpha) t.gamma.name) (high_bound t.gamma t.alpha.name (last t.alpha) (last t.gamma)) }
    // An audit of the proof that is claimed against the histories tells that it stands or that texts clash, or there was no memory.
    ensures audited { (number rounds : ℕ) (t : Trio) (bytes : List ℕ) (result : Result Finding AuditFault) → IsLedTo H.dig number rounds t →
        IsClaimed H.dig t rounds bytes → IsAudit H.dig (trio_family t) (trio_heads H.dig t) bytes result → IsAuditTold result }
{
    // By the laws of judgements, of proofs, of what parts join to, of map files and of audits.
    judgement_laws::<H>();
    completeness_laws::<H>();
    proof_laws();
    joining_laws::<H>();
    map_laws::<H>();
    audit_laws::<H>();
}
