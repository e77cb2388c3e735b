// The call that plays the three services by a number (`services.rt`) and sums up what they hold (`summary.rt`).

ghost use Rattle.std.specs.Prelude.{◌≡◌, ◌≤◌, ◌<◌, ◌+◌, ◌∷◌, [], ℕ, length, true, Result, Ok, Err, IfErr, IfOk};
ghost use Rattle.sha2.specs.Sha256.{sha256};
ghost use Rattle.tw_audit.specs.Auditing.{IsAudit};
ghost use Rattle.tw_audit.specs.declared.finding.AuditFault.{AuditFault};
ghost use Rattle.tw_audit.specs.declared.finding.Finding.{Finding as FindingMeant};
ghost use Rattle.tw_base.specs.declared.history.report.Report.{Report};
ghost use Rattle.tw_chain.specs.Reasons.{IsVerdict};
ghost use Rattle.tw_chain.specs.declared.verdict.Verdict.TheVariants.{Yes};
ghost use Rattle.tw_disk.specs.MemDisk.{mem_disk_view};
ghost use Rattle.tw_generate.specs.Coming.{IsAuditTold};
ghost use Rattle.tw_generate.specs.Generating.{IsGenerated, IsHeld};
ghost use Rattle.tw_generate.specs.Line.{summary_line};
ghost use Rattle.tw_generate.specs.Playing.{AllPlay, ArePlaying};
ghost use Rattle.tw_generate.specs.Schedules.{Trio, no_steps};
ghost use Rattle.tw_generate.specs.Summing.{IsClaimed, IsSummaryOf, TellsStands, received_by, trio_family};
ghost use Rattle.tw_generate.specs.Unrefused.{HavePlayed};
ghost use Rattle.tw_generate.specs.declared.generating.GenerateFault.TheVariants.{TooMany};
ghost use Rattle.tw_generate.specs.declared.summary.Summary.{Summary as SummaryMeant};
ghost use Rattle.tw_generate.specs.declared.generating.GenerateFault.TheVariants.{NoMemory as WantedMemory};

use crate::claiming::claim;
use crate::judging::{exported, heads, judge, list_of, map, stands};
use crate::laws::generate_laws;
use crate::received::count_received;
use crate::services::Services;
use crate::summary::{Summary, print_summary};
use std::alloc::Global;
use tw_base::{Bytes, Hasher, NoMemory, Sequence, Sha, Threads};
use tw_disk::{Disk, MemDisk};
use tw_history::History;

/// The most rounds of a schedule; the command line allows no more, either (`MOST_GENERATED` of tw_words).
const MOST_ROUNDS: u64 = 10_000;

/// Why nothing was generated.
#[derive(Clone, Copy, PartialEq, Eq, Debug, Drop)]
pub enum GenerateFault {
    /// There are more than 10,000 rounds.
    TooMany,
    /// There was no memory for what the call needed.
    NoMemory,
}

impl From<NoMemory> for GenerateFault {
    ghost from_gives = { λ _ fault. fault ≡ WantedMemory };

    fn from(_none: NoMemory) -> Self {
        GenerateFault::NoMemory
    }
}

/// What was generated: the line of its summary, and the disks of the services, at rest.
#[derive(Drop)]
pub struct Generated {
    /// One line of compact JSON, with its line feed.
    pub text: Bytes,
    pub alpha: MemDisk,
    pub beta: MemDisk,
    pub gamma: MemDisk,
}

/// What the services claim: a proof, and the histories that it is of.
#[derive(Drop)]
struct Claims {
    /// The bytes of the proof.
    proof: Bytes,
    /// The histories of alpha, beta and gamma.
    histories: Sequence<History>,
    /// How many threads all three received.
    threads: u64,
}

/// How many threads the histories received.
fn threads_of(alpha: &History, beta: &History, gamma: &History) -> u64
    ensures { result ≡ length (received_by alpha.now) + length (received_by beta.now) + length (received_by gamma.now) }
{
    count_received(alpha) + count_received(beta) + count_received(gamma)
}

/// The histories of the services.
#[derive(Drop)]
struct Histories {
    alpha: History,
    beta: History,
    gamma: History,
}

/// The histories of the services, by their files.
fn export_all<D: Disk, H: Hasher>(
    alloc: Global,
    services: &mut Services<D, H>,
) -> Result<Histories, NoMemory>
    requires { (t : Trio) × AllPlay H.dig D.view services.old t }
    ensures { (t : Trio) → AllPlay H.dig D.view services.old t
        → IfOk result (λ told. AllPlay H.dig D.view services.new t × (told.alpha ≡ t.alpha) × (told.beta ≡ t.beta) × (told.gamma ≡ t.gamma)) }
{
    let alpha = exported(alloc, &mut services.alpha)?;
    let beta = exported(alloc, &mut services.beta)?;
    let gamma = exported(alloc, &mut services.gamma)?;
    Ok(Histories { alpha, beta, gamma })
}

/// The claims over these histories, by this proof.
fn claims_of(alloc: Global, proof: Bytes, histories: Histories) -> Result<Claims, NoMemory>
    ensures { IfOk result (λ told. (told.proof ≡ proof) × (told.histories ≡ histories.alpha ∷ histories.beta ∷ histories.gamma ∷ [])
        × (told.threads ≡ length (received_by histories.alpha) + length (received_by histories.beta) + length (received_by histories.gamma))) }
{
    let Histories { alpha, beta, gamma } = histories;
    let threads = threads_of(&alpha, &beta, &gamma);
    let histories = list_of(alloc, alpha, beta, gamma)?;
    Ok(Claims {
        proof,
        histories,
        threads,
    })
}

/// What the services claim after so many rounds.
fn claimed<D: Disk, H: Hasher>(
    alloc: Global,
    services: &mut Services<D, H>,
    rounds: u64,
) -> Result<Claims, NoMemory>
    requires { (number : ℕ) × (t : Trio) × HavePlayed H.dig D.view number rounds t services.old }
    ensures { (t : Trio) → AllPlay H.dig D.view services.old t
        → IfOk result (λ told. AllPlay H.dig D.view services.new t × IsClaimed H.dig t rounds told.proof × (told.histories ≡ trio_family t)
        × (told.threads ≡ length (received_by t.alpha) + length (received_by t.beta) + length (received_by t.gamma))) }
{
    let histories = export_all(alloc, services)?;
    let proof = claim(alloc, services, &histories.beta, &histories.gamma, rounds)?;
    claims_of(alloc, proof, histories)
}

/// The number of hops of the proof that is claimed, and whether it stands against the histories, else texts clash.
fn judged<H: Hasher>(
    alloc: Global,
    claimed: &Claims,
    heads: &Threads,
) -> Result<(u64, bool), NoMemory>
    requires accepted { (report : Report) × IsVerdict H.dig heads.now true claimed.now.proof (Yes report) }
    requires audited { (result : Result FindingMeant AuditFault) → IsAudit H.dig claimed.now.histories heads.now claimed.now.proof result
        → IsAuditTold result }
    ensures { IfOk result (λ told. ((report : Report) × IsVerdict H.dig heads.now true claimed.now.proof (Yes report) × (told.0 ≡ length report.hops))
        × ((finding : FindingMeant) × IsAudit H.dig claimed.now.histories heads.now claimed.now.proof (Ok finding) × TellsStands finding told.1)) }
{
    let hops = judge::<H>(alloc, &claimed.proof, heads)?;
    let stands = stands::<H>(alloc, &claimed.proof, heads, &claimed.histories)?;
    Ok((hops, stands))
}

/// The summary of what the services hold after so many rounds.
fn summarize<D: Disk, H: Hasher>(
    alloc: Global,
    services: &mut Services<D, H>,
    rounds: u64,
) -> Result<Summary, NoMemory>
    requires { (number : ℕ) × (t : Trio) × HavePlayed H.dig D.view number rounds t services.old }
    ensures { (t : Trio) → AllPlay H.dig D.view services.old t
        → IfOk result (λ summary. AllPlay H.dig D.view services.new t × IsSummaryOf H.dig t rounds summary) }
{
    generate_laws::<H>();
    let heads = heads(alloc, services)?;
    let claimed = claimed(alloc, services, rounds)?;
    let bounds = map(alloc, services, &heads)?;
    let (hops, stands) = judged::<H>(alloc, &claimed, &heads)?;
    let summary = Summary {
        stands,
        high: bounds.high,
        hops,
        low: bounds.low,
        alpha: services.alpha.steps(),
        beta: services.beta.steps(),
        gamma: services.gamma.steps(),
        threads: claimed.threads,
    };
    drop(claimed);
    drop(heads);
    Ok(summary)
}

/// Runs the services alpha, beta and gamma on disks in memory by the schedule that the number makes, and sums up what they hold, in one
/// line of compact JSON with a line feed.
///
/// There are so many rounds. In each every service appends one to four events of 200 bytes, as they are drawn from the number on; in each
/// fiftieth every service tells each other one its last step. Then each appends the event `end`. Told are whether an audit of the proof
/// below against the three histories stands, the map of alpha's last step against gamma, the hops of the proof, which is accepted and
/// carries no thread, the steps of the services, and how many threads they received. From 50 rounds on the proof is that alpha's first
/// event precedes the last one of gamma; below it is that of gamma's last event.
///
/// `NoMemory` where there was no memory for the services, their disks or what is told of them; of the histories' files no clause says
/// that they are within their limit, and one that isn't is told so, too. That no service refuses a call, that proof and map are accepted
/// and that the audit answers is proved.
pub fn generate(alloc: Global, number: u64, rounds: u64) -> Result<Generated, GenerateFault>
    // What is generated are histories to which the schedule of the number leads. The text is the line of what is told of them: by the
    // strict verdict, under their heads, on the proof that is claimed, by the map of alpha's last step against gamma, and by the audit of
    // the proof against them. Each disk stands for the history of its service, at rest.
    ensures made { IfOk result (λ made. IsGenerated sha256 number rounds made.text (mem_disk_view made.alpha) (mem_disk_view made.beta) (mem_disk_view made.gamma)) }
    // `TooMany` is answered exactly where there are more than 10,000 rounds.
    ensures many { (IfErr result (λ fault. fault ≡ TooMany → 10000 < rounds)) × (10000 < rounds → result ≡ Err TooMany) }
{
    if rounds > MOST_ROUNDS {
        return Err(GenerateFault::TooMany);
    }
    let made = generate_within(alloc, number, rounds)?;
    Ok(made)
}

/// The services on new disks in memory.
fn blank_services(alloc: Global) -> Result<Services<MemDisk, Sha>, NoMemory>
    ensures { IfOk result (λ services. ArePlaying sha256 mem_disk_view services no_steps) }
{
    Services::<MemDisk, Sha>::make(
        alloc,
        MemDisk::new(alloc),
        MemDisk::new(alloc),
        MemDisk::new(alloc),
    )
}

/// What is generated: this text, and the disks of the services.
fn closed(text: Bytes, services: Services<MemDisk, Sha>) -> Generated
    ensures text { result.text ≡ text }
    ensures disks { (t : Trio) → AllPlay sha256 mem_disk_view services t → IsHeld sha256 (mem_disk_view result.alpha) t.alpha
        × IsHeld sha256 (mem_disk_view result.beta) t.beta × IsHeld sha256 (mem_disk_view result.gamma) t.gamma }
{
    let Services {
        alpha,
        beta,
        gamma,
        ..
    } = services;
    Generated {
        text,
        alpha: alpha.close(),
        beta: beta.close(),
        gamma: gamma.close(),
    }
}

/// The services after so many rounds.
fn played(alloc: Global, number: u64, rounds: u64) -> Result<Services<MemDisk, Sha>, NoMemory>
    requires { rounds ≤ 10000 }
    ensures { IfOk result (λ services. (t : Trio) × HavePlayed sha256 mem_disk_view number rounds t services) }
{
    generate_laws::<Sha>();
    let mut services = blank_services(alloc)?;
    services.play(alloc, number, rounds)?;
    Ok(services)
}

/// The line of what is told of the services after so many rounds.
fn summed(
    alloc: Global,
    services: &mut Services<MemDisk, Sha>,
    rounds: u64,
) -> Result<Bytes, NoMemory>
    requires { (number : ℕ) × (t : Trio) × HavePlayed sha256 mem_disk_view number rounds t services.old }
    ensures { (t : Trio) → AllPlay sha256 mem_disk_view services.old t → IfOk result (λ text. AllPlay sha256 mem_disk_view services.new t
        × ((told : SummaryMeant) × IsSummaryOf sha256 t rounds told × (text ≡ summary_line told))) }
{
    let summary = summarize(alloc, services, rounds)?;
    print_summary(alloc, &summary)
}

/// What is generated of so many rounds, at most 10,000.
fn generate_within(alloc: Global, number: u64, rounds: u64) -> Result<Generated, NoMemory>
    requires { rounds ≤ 10000 }
    ensures { IfOk result (λ made. IsGenerated sha256 number rounds made.text (mem_disk_view made.alpha) (mem_disk_view made.beta) (mem_disk_view made.gamma)) }
{
    let mut services = played(alloc, number, rounds)?;
    let text = summed(alloc, &mut services, rounds)?;
    Ok(closed(text, services))
}
