// Holding a proof against histories: the calls of an audit, over the passes of `passing.rt` and `proofs.rt`. Values are given
// up by `drop`: those that go out of scope on many ways are proved slowly (docs/proving.md).

ghost use Rattle.std.specs.Prelude.{◌≡◌, ◌++◌, List, false, Ok, IfOk, OnOk};
ghost use Rattle.std.specs.Option.{option_map};
ghost use Rattle.tw_base.specs.format.Formats.{Spells};
ghost use Rattle.tw_base.specs.declared.history.report.Reason.{Reason};
ghost use Rattle.tw_base.specs.declared.history.thread.Thread.{Thread as ThreadMeant};
ghost use Rattle.tw_base.specs.history.Family.{AllSound, family_texts};
ghost use Rattle.tw_base.specs.kinds.Clash.{clash_pair};
ghost use Rattle.tw_base.specs.kinds.Lists.{Each};
ghost use Rattle.tw_chain.specs.declared.proof.Proof.{Proof as ProofMeant};
ghost use Rattle.tw_chain.specs.Accepting.{held, proof_texts, report_of};
ghost use Rattle.tw_chain.specs.Checks.{checks};
ghost use Rattle.tw_chain.specs.Proofs.{proof_layout};
ghost use Rattle.tw_chain.specs.Reasons.{IsVerdict};
ghost use Rattle.tw_chain.specs.declared.verdict.Verdict.TheVariants.{No as Rejected};
ghost use Rattle.tw_audit.specs.Answers.{AnswerMeans};
ghost use Rattle.tw_audit.specs.Auditing.{IsAudit, IsAuditAnswer, audited_texts, of_pair};
ghost use Rattle.tw_audit.specs.KeyLists.{CoversClashes, TookKeys, key_front};
ghost use Rattle.tw_audit.specs.Shapes.{IsCheckShaped};
ghost use Rattle.tw_audit.specs.Stops.{missing_in};
ghost use Rattle.tw_audit.specs.Tables.{TookBehind, pair_kept};
ghost use Rattle.tw_audit.specs.declared.finding.Finding.TheVariants.{NotAccepted};
ghost use Rattle.tw_audit.specs.declared.keys.Repeated.{Repeated as RepeatedMeant};
ghost use Rattle.tw_base.specs.kinds.Handing.{Hands};

use crate::finder::Finder;
use crate::finding::{AuditFault, Finding};
use crate::held::held_threads;
use crate::key_transcript::KeyTranscript;
use crate::passing::{Missing, first_missing, pass_histories};
use crate::proofs::hash_proof;
use crate::table::TextPair;
use std::alloc::Global;
use tw_base::{Hasher, NoMemory, ReadFault, Report, Thread, Transcript};
use tw_chain::{Proof, Verdict, read_proof};
use tw_history::{History, table_of};
use tw_verifier::verify;

/// The first of the threads held of the proof that the histories don't have, whose texts are handed on.
fn missing_of<T: Transcript>(
    alloc: Global,
    proof: &Proof,
    anchors: &[Thread],
    histories: &[History],
    texts: &mut T,
) -> Result<Option<Missing>, NoMemory>
    ensures missing { IfOk result (λ missing. missing ≡ missing_in T.dig histories.now (held anchors.now proof.now)) }
    ensures took { OnOk result (Hands T.took texts.old texts.new (family_texts T.dig histories.now)) }
{
    let held = held_threads(alloc, proof, anchors)?;
    let passed = pass_histories(alloc, histories, held.as_slice(), texts)?;
    Ok(first_missing(held.as_slice(), passed.as_slice()))
}

/// What is found of the pair of all texts, where the histories have the threads held.
fn found<H: Hasher>(report: Report, pair: Option<TextPair>) -> Finding
    ensures { result ≡ of_pair H.dig report (option_map pair_kept pair) }
{
    match pair {
        None => Finding::Stands(report),
        Some(TextPair { one, other }) => {
            drop(report);
            let digest = H::digest(one.as_slice());
            Finding::Clash { one, other, digest }
        }
    }
}

/// The pair of the texts of the histories and of the proof, if two of them clash and the finder's keys are of all that do. Each
/// text is hashed once more, and the finder keeps those that have one of its keys.
fn pair_among<H: Hasher>(
    alloc: Global,
    proof: &Proof,
    histories: &[History],
    finder: Finder<H>,
) -> Result<Option<TextPair>, NoMemory>
    requires { Each IsCheckShaped (checks proof.now) }
    ensures { IfOk result (λ pair. (repeated : RepeatedMeant) → CoversClashes H.dig (audited_texts H.dig histories.now proof.now) repeated →
        TookBehind H.dig finder.repeated finder.table (key_front repeated) → option_map pair_kept pair ≡ clash_pair H.dig (audited_texts H.dig histories.now proof.now)) }
{
    let mut finder = finder;
    match pass_histories(alloc, histories, &[], &mut finder) {
        Ok(passed) => {
            drop(passed);
            hash_proof(proof, &mut finder);
            finder.into_pair()
        }
        Err(NoMemory) => {
            drop(finder);
            Err(NoMemory)
        }
    }
}

/// The pair of the texts of the histories and of the proof, whose keys these are, if two of them clash.
fn pair_of<H: Hasher>(
    alloc: Global,
    proof: &Proof,
    histories: &[History],
    keys: KeyTranscript<H>,
) -> Result<Option<TextPair>, NoMemory>
    requires { Each IsCheckShaped (checks proof.now) }
    ensures { IfOk result (λ pair. TookKeys H.dig keys.keys (proof_texts H.dig proof.now ++ family_texts H.dig histories.now) →
        option_map pair_kept pair ≡ clash_pair H.dig (audited_texts H.dig histories.now proof.now)) }
{
    let repeated = keys.keys.into_repeated(alloc)?;
    if repeated.keys.is_empty() {
        return Ok(None);
    }
    let finder = Finder::<H>::new(alloc, repeated);
    pair_among(alloc, proof, histories, finder)
}

/// What is found once the histories were passed: the first thread held that they don't have, or what the
/// texts of the histories and of the proof come to.
fn judge<H: Hasher>(
    alloc: Global,
    proof: &Proof,
    report: Report,
    missing: Option<Missing>,
    histories: &[History],
    keys: KeyTranscript<H>,
) -> Result<Finding, AuditFault>
    requires { Each IsCheckShaped (checks proof.now) }
    ensures { (anchors : List ThreadMeant) → report ≡ report_of proof.now → missing ≡ missing_in H.dig histories.now (held anchors proof.now) →
        TookKeys H.dig keys.keys (proof_texts H.dig proof.now ++ family_texts H.dig histories.now) → IsAuditAnswer H.dig histories.now anchors proof.now result }
{
    if let Some(Missing { held, found }) = missing {
        drop(report);
        drop(keys);
        return Err(AuditFault::NotHeld { held, found });
    }
    match pair_of(alloc, proof, histories, keys) {
        Ok(pair) => Ok(found::<H>(report, pair)),
        Err(NoMemory) => {
            drop(report);
            Err(AuditFault::NoMemory)
        }
    }
}

/// How many texts there are but for those of events, by a guess, for which room is made: of each step two links and its
/// authenticator, of each node one, and 8,192 of the proof and the rest.
fn expected_texts(histories: &[History]) -> usize {
    let mut count: usize = 8192;
    for history in histories {
        let (steps, nodes) = table_of(history);
        count = count
            .saturating_add(steps.len().saturating_mul(3))
            .saturating_add(nodes.len());
    }
    count
}

/// Holds an accepted proof with this report against the histories.
fn hold<H: Hasher>(
    alloc: Global,
    proof: &Proof,
    report: Report,
    anchors: &[Thread],
    histories: &[History],
) -> Result<Finding, AuditFault>
    requires { Each IsCheckShaped (checks proof.now) }
    ensures { report ≡ report_of proof.now → IsAuditAnswer H.dig histories.now anchors.now proof.now result }
{
    let mut keys = KeyTranscript::<H>::new(alloc);
    keys.reserve(expected_texts(histories));
    // The proof's texts come first, since they stand in the histories too: so these are known there.
    hash_proof(proof, &mut keys);
    match missing_of(alloc, proof, anchors, histories, &mut keys) {
        Ok(missing) => judge(alloc, proof, report, missing, histories, keys),
        Err(NoMemory) => {
            drop(report);
            drop(keys);
            Err(AuditFault::NoMemory)
        }
    }
}

/// Holds the bytes of a proof, an accepted one with this report, against the histories.
fn hold_bytes<H: Hasher>(
    alloc: Global,
    bytes: &[u8],
    report: Report,
    anchors: &[Thread],
    histories: &[History],
) -> Result<Finding, AuditFault>
    requires { (p : ProofMeant) × Spells proof_layout bytes.now p }
    ensures { (p : ProofMeant) → Spells proof_layout bytes.now p → report ≡ report_of p → IsAuditAnswer H.dig histories.now anchors.now p result }
{
    match read_proof(alloc, bytes) {
        Ok(proof) => {
            let finding = hold::<H>(alloc, &proof, report, anchors, histories);
            drop(proof);
            finding
        }
        Err(ReadFault::NoMemory) => {
            drop(report);
            Err(AuditFault::NoMemory)
        }
        Err(ReadFault::Malformed { .. }) => unreachable!(),
    }
}

/// What is found when the verdict on a proof's bytes under the anchors, not in the strict form, is held
/// against the histories: `NotAccepted` with the verdict's reason where it is No; else `NotHeld` with the
/// first of the threads held (the anchors that the proof names, and the threads that it carries, in the
/// order of its bytes) that the histories don't have; else the first clash of the texts of the histories,
/// in their order, and of the proof; else that the report stands. Of several histories of one service the
/// first counts for threads and claims, and all of them for the texts.
///
/// Each text is hashed once, and of all but the first ones seven bytes are kept. Only where these agree of texts
/// that aren't known to be one, all texts are hashed once more, and those are kept whole. So measured, time grows with
/// the number of the texts and their bytes, and memory with their number.
pub fn audit_judged<H: Hasher>(
    alloc: Global,
    bytes: &[u8],
    verdict: Verdict,
    anchors: &[Thread],
    histories: &[History],
) -> Result<Finding, AuditFault>
    requires { IsVerdict H.dig anchors.now false bytes.now verdict }
    // An audit with a verdict at hand answers what an audit of the bytes answers.
    ensures answer { IsAudit H.dig histories.now anchors.now bytes.now result }
    // A proof that isn't accepted is told so whatever memory there is.
    ensures rejected { (reason : Reason) → verdict ≡ Rejected reason → result ≡ Ok (NotAccepted reason) }
{
    match verdict {
        Verdict::No(reason) => Ok(Finding::NotAccepted(reason)),
        Verdict::Yes(report) => hold_bytes::<H>(alloc, bytes, report, anchors, histories),
    }
}

/// What is found when the bytes of a proof are judged under the anchors and held against the histories.
/// `NotAccepted` exactly where the verdict isn't Yes, with its reason; else `NotHeld` exactly where the
/// histories lack a thread held, with the first that they lack; else `Clash` exactly where two different
/// texts of the histories and of the proof have one digest, with the first such pair; else `Stands`, so
/// that what the report claims is so of the histories where they are sound. Of several histories of one
/// service the first counts for threads and claims, and all of them for the texts.
///
/// The texts of the proof are hashed for the verdict and once more beside those of the histories.
pub fn audit<H: Hasher>(
    alloc: Global,
    bytes: &[u8],
    anchors: &[Thread],
    histories: &[History],
) -> Result<Finding, AuditFault>
    // An audit answers that the bytes aren't accepted, by the verdict's reason; else the first thread held that the
    // histories don't have, and what they have there; else the first clash of the texts of the histories and of the
    // proof; else that the proof's report stands.
    ensures answer { IsAudit H.dig histories.now anchors.now bytes.now result }
    // Where the histories are sound and the bytes spell a proof, its answer is so: the bytes aren't accepted; or the first of the
    // threads held that the histories lack; or two of the texts of the histories and the proof that differ and have the
    // digest; or the report stands, so that what it claims is so of the histories, and no two of the texts clash.
    ensures means { AllSound histories.now → (p : ProofMeant) → Spells proof_layout bytes.now p → AnswerMeans H.dig histories.now anchors.now p result }
{
    match verify::<H>(alloc, bytes, anchors, false) {
        Ok(verdict) => audit_judged::<H>(alloc, bytes, verdict, anchors, histories),
        Err(NoMemory) => Err(AuditFault::NoMemory),
    }
}
