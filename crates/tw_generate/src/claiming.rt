// The proof that is claimed of the services' histories: that an event precedes another one, or, after few rounds, of one event.

ghost use Rattle.std.specs.Prelude.{◌≡◌, ◌↔◌, ◌≤◌, ◌-◌, ◌++◌, [], ◌∷◌, ℕ, Ok, Some, IfErr, IfOk, IsErr, OnOk};
ghost use Rattle.tw_base.specs.declared.history.question.Question.TheVariants as ask;
ghost use Rattle.tw_base.specs.declared.history.thread.Entry.{Entry as EntryMeant};
ghost use Rattle.tw_base.specs.format.Formats.{Spells};
ghost use Rattle.tw_base.specs.history.Entries.{key_of};
ghost use Rattle.tw_base.specs.history.History.{History as HistoryMeant};
ghost use Rattle.tw_chain.specs.Proofs.{proof_layout};
ghost use Rattle.tw_chain.specs.declared.proof.PrecedenceProof.{PrecedenceProof};
ghost use Rattle.tw_chain.specs.declared.proof.Proof.{Proof as ProofMeant};
ghost use Rattle.tw_join.specs.Joining.{joined_proof};
ghost use Rattle.tw_join.specs.Joining.Taken.{Nothing};
ghost use Rattle.tw_join.specs.declared.joining.JoinFault.TheVariants.{NoMemory as WantedMemory};
ghost use Rattle.tw_tmap.specs.Bounds.{first_from};
ghost use Rattle.tw_generate.specs.Playing.{AllPlay, PlaysHistory};
ghost use Rattle.tw_generate.specs.Schedules.{Trio};
ghost use Rattle.tw_generate.specs.Summing.{AreParts, IsClaimed, IsJoined, IsPartAsked, IsPrecedence, IsQuestionAnswered, last_event, received_by};
ghost use Rattle.tw_generate.specs.Unrefused.{CanProve, HavePlayed};

use crate::laws::generate_laws;
use crate::received::first_entry;
use crate::services::{ROUNDS_BETWEEN, Services};
use crate::telling::{answered, read_whole};
use std::alloc::Global;
use tw_base::{Bytes, Entry, Hasher, Name, NoMemory, Question, Sequence, entry_key};
use tw_chain::{Proof, read_proof, write_proof};
use tw_disk::Disk;
use tw_history::History;
use tw_join::{JoinFault, join};
use tw_service::Service;

/// The proof that these bytes are.
fn proof_of(alloc: Global, bytes: &Bytes) -> Result<Proof, NoMemory>
    requires { (p : ProofMeant) × Spells proof_layout bytes.now p }
    ensures { IfOk result (λ proof. Spells proof_layout bytes.now proof) }
{
    read_whole(read_proof(alloc, bytes.as_slice()))
}

/// The first entry of a thread of this service, of this step or a later one, that the history received.
fn found(history: &History, from: &Name, least: u64) -> Entry
    requires { (entry : EntryMeant) × (first_from from.now least (received_by history.now) ≡ Some entry) }
    ensures { first_from from.now least (received_by history.now) ≡ Some result }
{
    match first_entry(history, from, least) {
        Some(entry) => entry,
        None => unreachable!(),
    }
}

/// The step before.
fn step_before(step: u64) -> u64
    ensures { result ≡ step - 1 }
{
    step.saturating_sub(1)
}

/// The question for the first event of a step, under that top.
fn event(step: u64, top: u64) -> Question
    ensures { result ≡ ask.Event step 0 (Some top) }
{
    Question::Event {
        step,
        index: 0,
        top: Some(top),
    }
}

/// The question for an entry in the archive of a step, under that top.
fn thread(step: u64, entry: &Entry, top: u64) -> Question
    ensures { result ≡ ask.Thread step (key_of entry.now) (Some top) }
{
    Question::Thread {
        step,
        key: entry_key(entry),
        top: Some(top),
    }
}

/// The question for the authenticator of a step, under that top.
fn link(step: u64, top: u64) -> Question
    ensures { result ≡ ask.Link step (Some top) }
{
    Question::Link {
        step,
        top: Some(top),
    }
}

/// Adds the proof that answers a question.
fn add_part<D: Disk, H: Hasher>(
    alloc: Global,
    parts: &mut Sequence<Proof>,
    service: &mut Service<D, H>,
    question: Question,
) -> Result<(), NoMemory>
    requires { CanProve H.dig D.view question service.old }
    ensures { (h : HistoryMeant) → PlaysHistory H.dig D.view service.old h → OnOk result (PlaysHistory H.dig D.view service.new h
        × ((part : ProofMeant) × IsPartAsked H.dig h question part × (parts.new ≡ parts.old ++ part ∷ []))) }
{
    let bytes = answered(service, &question)?;
    parts.push(proof_of(alloc, &bytes)?)?;
    Ok(())
}

/// The parts of the proof that alpha's first event precedes gamma's last one, by these threads.
fn parts<D: Disk, H: Hasher>(
    alloc: Global,
    services: &mut Services<D, H>,
    of_alpha: &Entry,
    of_beta: &Entry,
) -> Result<Sequence<Proof>, NoMemory>
    requires { (number rounds : ℕ) × (t : Trio) × HavePlayed H.dig D.view number rounds t services.old
        × (first_from t.alpha.name 1 (received_by t.beta) ≡ Some of_alpha.now) × (first_from t.beta.name of_alpha.now.archived (received_by t.gamma) ≡ Some of_beta.now) }
    ensures { (t : Trio) → AllPlay H.dig D.view services.old t
        → IfOk result (λ parts. AllPlay H.dig D.view services.new t × AreParts H.dig t of_alpha.now of_beta.now parts) }
{
    generate_laws::<H>();
    let alpha = &mut services.alpha;
    let beta = &mut services.beta;
    let gamma = &mut services.gamma;
    let top = alpha.steps();
    let last = beta.steps();
    let end = gamma.steps();
    let before = step_before(end);
    let between = of_beta.thread.step;
    let under = of_alpha.thread.step;
    let mut parts = Sequence::new(alloc);
    add_part(alloc, &mut parts, gamma, event(end, end))?;
    add_part(alloc, &mut parts, gamma, thread(before, of_beta, end))?;
    add_part(alloc, &mut parts, beta, link(between, last))?;
    add_part(alloc, &mut parts, beta, thread(between, of_alpha, last))?;
    add_part(alloc, &mut parts, alpha, link(under, top))?;
    add_part(alloc, &mut parts, alpha, event(1, under))?;
    Ok(parts)
}

/// What parts that fit together join to.
fn whole_of(joined: Result<Proof, JoinFault>) -> Result<Proof, NoMemory>
    requires { IfErr joined (λ fault. fault ≡ WantedMemory) }
    ensures value { IfOk result (λ proof. joined ≡ Ok proof) }
    ensures memory { IsErr result ↔ IsErr joined }
{
    match joined {
        Ok(proof) => Ok(proof),
        Err(JoinFault::NoMemory) => Err(NoMemory),
        Err(JoinFault::Gap { .. }) => unreachable!(),
    }
}

/// The bytes of what the parts join to.
fn joined_bytes(alloc: Global, parts: &Sequence<Proof>) -> Result<Bytes, NoMemory>
    requires { (whole : PrecedenceProof) × (joined_proof Nothing 1 parts.now ≡ Ok whole) }
    ensures { IfOk result (λ bytes. IsJoined parts.now bytes) }
{
    let proof = whole_of(join(alloc, parts.as_slice()))?;
    let written = write_proof(alloc, &proof);
    drop(proof);
    written
}

/// The proof that alpha's first event precedes gamma's last one.
fn precedence<D: Disk, H: Hasher>(
    alloc: Global,
    services: &mut Services<D, H>,
    beta: &History,
    gamma: &History,
) -> Result<Bytes, NoMemory>
    requires { (number rounds : ℕ) × (t : Trio) × HavePlayed H.dig D.view number rounds t services.old × (50 ≤ rounds)
        × (beta.now ≡ t.beta) × (gamma.now ≡ t.gamma) }
    ensures { (t : Trio) → AllPlay H.dig D.view services.old t → beta.now ≡ t.beta → gamma.now ≡ t.gamma
        → IfOk result (λ bytes. AllPlay H.dig D.view services.new t × IsPrecedence H.dig t bytes) }
{
    generate_laws::<H>();
    let alpha_name = services.alpha.name();
    let beta_name = services.beta.name();
    let of_alpha = found(beta, &alpha_name, 1);
    let of_beta = found(gamma, &beta_name, of_alpha.archived);
    let parts = parts(alloc, services, &of_alpha, &of_beta)?;
    joined_bytes(alloc, &parts)
}

/// The proof of the first event of gamma's last step.
fn existence<D: Disk, H: Hasher>(services: &mut Services<D, H>) -> Result<Bytes, NoMemory>
    requires { (number rounds : ℕ) × (t : Trio) × HavePlayed H.dig D.view number rounds t services.old }
    ensures { (t : Trio) → AllPlay H.dig D.view services.old t
        → IfOk result (λ bytes. AllPlay H.dig D.view services.new t × IsQuestionAnswered H.dig t.gamma (last_event t) bytes) }
{
    generate_laws::<H>();
    let last = services.gamma.steps();
    answered(&mut services.gamma, &event(last, last))
}

/// The proof that is claimed after so many rounds.
pub(crate) fn claim<D: Disk, H: Hasher>(
    alloc: Global,
    services: &mut Services<D, H>,
    beta: &History,
    gamma: &History,
    rounds: u64,
) -> Result<Bytes, NoMemory>
    requires { (number : ℕ) × (t : Trio) × HavePlayed H.dig D.view number rounds t services.old × (beta.now ≡ t.beta) × (gamma.now ≡ t.gamma) }
    ensures { (t : Trio) → AllPlay H.dig D.view services.old t → beta.now ≡ t.beta → gamma.now ≡ t.gamma
        → IfOk result (λ bytes. AllPlay H.dig D.view services.new t × IsClaimed H.dig t rounds bytes) }
{
    if rounds < ROUNDS_BETWEEN {
        return existence(services);
    }
    precedence(alloc, services, beta, gamma)
}
