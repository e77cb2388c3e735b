// What is told of the services' histories by a proof, a map and an audit, and the histories that are read of their files for
// that.

ghost use Rattle.std.specs.Prelude.{◌≡◌, ◌↔◌, ℕ, [], ◌∷◌, length, Option, Result, true, Ok, IfErr, IfOk, IsErr};
ghost use Rattle.tw_audit.specs.Auditing.{IsAudit};
ghost use Rattle.tw_audit.specs.declared.finding.AuditFault.{AuditFault as AuditFaultMeant};
ghost use Rattle.tw_audit.specs.declared.finding.Finding.{Finding as FindingMeant};
ghost use Rattle.tw_base.specs.declared.history.report.Report.{Report};
ghost use Rattle.tw_base.specs.history.History.{History as HistoryMeant};
ghost use Rattle.tw_chain.specs.Reasons.{IsVerdict};
ghost use Rattle.tw_chain.specs.declared.verdict.Verdict.TheVariants.{Yes as Accepted};
ghost use Rattle.tw_history.specs.Refusals.{ReadsHistory};
ghost use Rattle.tw_history.specs.declared.fault.HistoryFault.TheVariants.{NoMemory as WantedMemory};
ghost use Rattle.tw_tmap.specs.declared.map_verdict.MapVerdict.TheVariants.{Yes as Between};
ghost use Rattle.tw_generate.specs.Coming.{IsAuditTold};
ghost use Rattle.tw_generate.specs.Playing.{AllPlay, PlaysHistory};
ghost use Rattle.tw_generate.specs.Schedules.{Trio};
ghost use Rattle.tw_generate.specs.Summing.{IsFileMap, IsMap, TellsStands, trio_heads};
ghost use Rattle.tw_generate.specs.Unrefused.{HavePlayed, IsFileFailure};

use crate::laws::generate_laws;
use crate::services::Services;
use crate::telling::{answered, read_whole};
use std::alloc::Global;
use tw_answers::Refusal;
use tw_audit::{AuditFault, Finding, audit};
use tw_base::{Bytes, Hasher, NoMemory, Question, Sequence, Threads};
use tw_chain::Verdict;
use tw_disk::Disk;
use tw_history::{History, HistoryFault, history_laws, read_history};
use tw_service::Service;
use tw_tmap::{MapVerdict, check_map, map_file_laws, read_high, read_low};
use tw_verifier::verify;

/// The bounds of a map.
#[derive(Clone, Copy, Drop)]
pub(crate) struct Bounds {
    pub low: u64,
    pub high: Option<u64>,
}

/// The last threads of the services.
pub(crate) fn heads<D: Disk, H: Hasher>(
    alloc: Global,
    services: &Services<D, H>,
) -> Result<Threads, NoMemory>
    ensures { (t : Trio) → AllPlay H.dig D.view services.now t → IfOk result (λ heads. heads ≡ trio_heads H.dig t) }
{
    let alpha = services.alpha.head();
    let beta = services.beta.head();
    let gamma = services.gamma.head();
    list_of(alloc, alpha, beta, gamma)
}

/// The list of what there is of alpha, of beta and of gamma.
pub(crate) fn list_of<T: Drop>(
    alloc: Global,
    alpha: T,
    beta: T,
    gamma: T,
) -> Result<Sequence<T>, NoMemory>
    ensures { IfOk result (λ list. list ≡ alpha ∷ beta ∷ gamma ∷ []) }
{
    let mut list = Sequence::new(alloc);
    list.push(alpha)?;
    list.push(beta)?;
    list.push(gamma)?;
    Ok(list)
}

/// The number of hops of a proof that is accepted.
fn hops_of(verdict: Verdict) -> u64
    requires { (report : Report) × (verdict ≡ Accepted report) }
    ensures { (report : Report) × (verdict ≡ Accepted report) × (result ≡ length report.hops) }
{
    match verdict {
        Verdict::Yes(report) => report.hops.len() as u64,
        Verdict::No(_) => unreachable!(),
    }
}

/// The number of hops of the proof, where it is accepted and carries no thread.
pub(crate) fn judge<H: Hasher>(
    alloc: Global,
    proof: &Bytes,
    heads: &Threads,
) -> Result<u64, NoMemory>
    requires { (report : Report) × IsVerdict H.dig heads.now true proof.now (Accepted report) }
    ensures { IfOk result (λ hops. (report : Report) × IsVerdict H.dig heads.now true proof.now (Accepted report) × (hops ≡ length report.hops)) }
{
    let verdict = verify::<H>(alloc, proof.as_slice(), heads.as_slice(), true)?;
    Ok(hops_of(verdict))
}

/// The bounds of a map that is accepted.
fn bounds_of(verdict: MapVerdict) -> Bounds
    requires { (low : ℕ) × (high : Option ℕ) × (upto : ℕ) × (verdict ≡ Between low high upto) }
    ensures { (upto : ℕ) × (verdict ≡ Between result.low result.high upto) }
{
    match verdict {
        MapVerdict::Yes { low, high, .. } => Bounds { low, high },
        MapVerdict::No(_) | MapVerdict::Gap => unreachable!(),
    }
}

/// What map files tell under the heads.
fn checked<H: Hasher>(
    alloc: Global,
    low: &Bytes,
    high: &Bytes,
    heads: &Threads,
) -> Result<Bounds, NoMemory>
    requires { (bottom : ℕ) × (upper : Option ℕ) × IsFileMap H.dig heads.now low.now high.now bottom upper }
    ensures { IfOk result (λ bounds. IsFileMap H.dig heads.now low.now high.now bounds.low bounds.high) }
{
    map_file_laws();
    let low = read_whole(read_low(alloc, low.as_slice()))?;
    let high = read_whole(read_high(alloc, high.as_slice()))?;
    Ok(bounds_of(check_map::<H>(&low, &high, heads.as_slice())))
}

/// Between which of gamma's steps alpha's last one lies.
pub(crate) fn map<D: Disk, H: Hasher>(
    alloc: Global,
    services: &mut Services<D, H>,
    heads: &Threads,
) -> Result<Bounds, NoMemory>
    requires { (number rounds : ℕ) × (t : Trio) × HavePlayed H.dig D.view number rounds t services.old × (heads.now ≡ trio_heads H.dig t) }
    ensures { (t : Trio) → AllPlay H.dig D.view services.old t → heads.now ≡ trio_heads H.dig t
        → IfOk result (λ bounds. AllPlay H.dig D.view services.new t × IsMap H.dig t bounds.low bounds.high) }
{
    generate_laws::<H>();
    let step = services.alpha.steps();
    let top = services.gamma.steps();
    let alpha = services.alpha.name();
    let gamma = services.gamma.name();
    let low = answered(
        &mut services.alpha,
        &Question::Low {
            step,
            peer: gamma,
            top: Some(step),
        },
    )?;
    let high = answered(
        &mut services.gamma,
        &Question::High {
            step,
            peer: alpha,
            top: Some(top),
        },
    )?;
    checked::<H>(alloc, &low, &high, heads)
}

/// Reads the file of a history.
fn read(alloc: Global, bytes: &Bytes) -> Result<History, HistoryFault>
    ensures { ReadsHistory bytes.now result }
{
    read_history(alloc, bytes.as_slice())
}

/// The history that was read of a file that has one.
fn history_read(read: Result<History, HistoryFault>) -> Result<History, NoMemory>
    requires { IfErr read (λ fault. fault ≡ WantedMemory) }
    ensures value { IfOk result (λ history. read ≡ Ok history) }
    ensures memory { IsErr result ↔ IsErr read }
{
    match read {
        Ok(history) => Ok(history),
        Err(HistoryFault::NoMemory) => Err(NoMemory),
        Err(_) => unreachable!(),
    }
}

/// The history that a file has.
fn history_of(alloc: Global, bytes: &Bytes) -> Result<History, NoMemory>
    requires { (h : HistoryMeant) × ReadsHistory bytes.now (Ok h) }
    ensures { (h : HistoryMeant) → ReadsHistory bytes.now (Ok h) → IfOk result (λ history. history ≡ h) }
{
    history_laws();
    history_read(read(alloc, bytes))
}

/// The answer of a call that is refused at most for the length of a file. No clause says that the file of a history is within its limit,
/// and one that isn't is told as want of memory.
fn file_given(answer: Result<Bytes, Refusal>) -> Result<Bytes, NoMemory>
    requires { IfErr answer IsFileFailure }
    ensures value { IfOk result (λ bytes. answer ≡ Ok bytes) }
    ensures memory { IsErr result ↔ IsErr answer }
{
    match answer {
        Ok(bytes) => Ok(bytes),
        Err(Refusal::TooLong { .. } | Refusal::DiskFault | Refusal::NoMemory) => Err(NoMemory),
        Err(_) => unreachable!(),
    }
}

/// The file of a service's history.
fn file_of<D: Disk, H: Hasher>(service: &mut Service<D, H>) -> Result<Bytes, NoMemory>
    requires { (h : HistoryMeant) × PlaysHistory H.dig D.view service.old h }
    ensures { (h : HistoryMeant) → PlaysHistory H.dig D.view service.old h
        → IfOk result (λ bytes. PlaysHistory H.dig D.view service.new h × ReadsHistory bytes (Ok h)) }
{
    file_given(service.ask(&Question::Export))
}

/// The history of a service, by its file.
pub(crate) fn exported<D: Disk, H: Hasher>(
    alloc: Global,
    service: &mut Service<D, H>,
) -> Result<History, NoMemory>
    requires { (h : HistoryMeant) × PlaysHistory H.dig D.view service.old h }
    ensures { (h : HistoryMeant) → PlaysHistory H.dig D.view service.old h
        → IfOk result (λ history. PlaysHistory H.dig D.view service.new h × (history ≡ h)) }
{
    let bytes = file_of(service)?;
    history_of(alloc, &bytes)
}

/// Whether it is told that the proof stands; else texts clash.
fn stands_told(told: Result<Finding, AuditFault>) -> Result<bool, NoMemory>
    requires { IsAuditTold told }
    ensures stands { IfOk result (λ stands. (finding : FindingMeant) × (told ≡ Ok finding) × TellsStands finding stands) }
    ensures memory { IsErr result ↔ IsErr told }
{
    match told {
        Ok(Finding::Stands(_)) => Ok(true),
        Ok(Finding::Clash { .. }) => Ok(false),
        Err(AuditFault::NoMemory) => Err(NoMemory),
        Ok(Finding::NotAccepted(_)) | Err(AuditFault::NotHeld { .. }) => unreachable!(),
    }
}

/// Whether the proof stands against the histories; else texts clash.
pub(crate) fn stands<H: Hasher>(
    alloc: Global,
    proof: &Bytes,
    heads: &Threads,
    histories: &Sequence<History>,
) -> Result<bool, NoMemory>
    requires { (result : Result FindingMeant AuditFaultMeant) → IsAudit H.dig histories.now heads.now proof.now result → IsAuditTold result }
    ensures { IfOk result (λ stands. (finding : FindingMeant) × IsAudit H.dig histories.now heads.now proof.now (Ok finding) × TellsStands finding stands) }
{
    stands_told(audit::<H>(
        alloc,
        proof.as_slice(),
        heads.as_slice(),
        histories.as_slice(),
    ))
}
