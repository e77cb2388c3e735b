// A world as it is played: its services on disks in memory, and what lines made.

ghost use Rattle.std.specs.Prelude.{◌≡◌, ◌<◌, ◌≤◌, ◌+◌, ℕ, suc, List, length, false, Some, IfOk, IsSome, OnOk};
ghost use Rattle.sha2.specs.Sha256.{sha256};
ghost use Rattle.tw_base.specs.format.Formats.{Spells};
ghost use Rattle.tw_base.specs.history.Questions.{MayAsk};
ghost use Rattle.tw_chain.specs.Proofs.{proof_layout};
ghost use Rattle.tw_chain.specs.Reasons.{IsVerdict};
ghost use Rattle.tw_chain.specs.declared.proof.LinkProof.{LinkProof};
ghost use Rattle.tw_chain.specs.declared.proof.Proof.{Proof as ProofOf};
ghost use Rattle.tw_chain.specs.declared.proof.Proof.TheVariants.{Linked};
ghost use Rattle.tw_chain.specs.declared.verdict.Verdict.{Verdict as VerdictOf};
ghost use Rattle.tw_join.specs.Joining.{Joins};
ghost use Rattle.tw_script.specs.AskedWords.{AsksWell};
ghost use Rattle.tw_script.specs.declared.line.Line.TheVariants.{Service, Append, Send, Inject, Deliver, Lose, Crash, Prove, Join, Anchor, Verify};
ghost use Rattle.tw_world.specs.PlayedLines.{AreLinesRead, HasPlayed, TellsNext};
ghost use Rattle.tw_world.specs.OnDisks.{IsFirst};
ghost use Rattle.tw_world.specs.Players.{AreFiled, AreProofsOfNumbers, CanPlayLine, FilesJoinTo, KeepsHosts, HasGiven, HasService, IsProofText, PlayerFollows, PlaysLine, ProofsJoinTo, mail_kept, thread_of_link};
ghost use Rattle.tw_world.specs.Playing.{script_lines};
ghost use Rattle.tw_world.specs.Runs.{IsFiled, IsNotFiled, loss_answer as loss_answer_of, verdict_answer};
ghost use Rattle.tw_world.specs.Worlds.{World, after_line, no_world, with_anchor, with_message};
ghost use Rattle.tw_world.specs.declared.told.Answer.TheVariants.{Done};
ghost use Rattle.tw_world.specs.declared.told.Told.TheVariants.{Plain};

use crate::host::{Host, Planned};
use crate::told::{Answer, Told, ToldList};
use std::alloc::Global;
use tw_answers::Refusal;
use tw_base::{Bytes, EventList, Name, NoMemory, Question, ReadFault, Sequence, Sha, Thread};
use tw_chain::{Proof, Verdict, read_proof, write_proof};
use tw_join::{JoinFault, join};
use tw_script::{Line, Script};
use tw_verifier::verify;

/// A message.
#[derive(Drop)]
pub(crate) enum Mail {
    /// It has these bytes.
    Made(Bytes),
    /// Its line was refused.
    Unmade,
    /// It was dropped.
    Dropped,
}

/// What lines have made so far.
#[derive(Drop)]
pub(crate) struct Player {
    alloc: Global,
    hosts: Vec<Host>,
    messages: Vec<Mail>,
    files: Vec<Option<Bytes>>,
    anchors: Vec<Thread>,
}

impl Player {
    /// Nothing.
    pub(crate) fn new(alloc: Global) -> Self
        ensures { PlayerFollows result no_world }
    {
        Player {
            alloc,
            hosts: Vec::new(alloc),
            messages: Vec::new(alloc),
            files: Vec::new(alloc),
            anchors: Vec::new(alloc),
        }
    }

    /// The services, in the order in which they were made.
    pub(crate) fn into_hosts(self) -> Vec<Host>
        ensures { result ≡ self.hosts }
    {
        self.hosts
    }

    /// Plays the lines of a script, one after another, where nothing was played before, and tells what came of each.
    pub(crate) fn play_lines(&mut self, script: &Script) -> Result<ToldList, NoMemory>
        requires read { AreLinesRead script.now }
        requires nothing { PlayerFollows self.old no_world }
        ensures { IfOk result (λ told. HasPlayed (script_lines script.now) told self.new) }
    {
        let mut told = ToldList::new(self.alloc);
        let lines = script.as_slice();
        for numbered in lines {
            self.play_next(&mut told, &numbered.line)?;
        }
        Ok(told)
    }

    /// Plays the line, and tells what came of it behind what was told before.
    fn play_next(&mut self, told: &mut ToldList, line: &Line) -> Result<(), NoMemory>
        requires asks { AsksWell line.now }
        requires may { CanPlayLine self.old line.now }
        ensures { OnOk result (TellsNext self.old self.new line.now told.old told.new) }
    {
        match self.play(line)? {
            Told::Plain(Answer::Refused(refusal)) => {
                told.push(Told::Plain(Answer::Refused(refusal)))
            }
            one => told.push(one),
        }
    }

    /// Plays the line. The script's lines use only what is there.
    fn play(&mut self, line: &Line) -> Result<Told, NoMemory>
        requires asks { AsksWell line.now }
        requires may { CanPlayLine self.old line.now }
        ensures { IfOk result (PlaysLine self.old self.new line.now) }
    {
        match line {
            Line::Service { name } => self.make(*name),
            Line::Hostile { .. } => Ok(Told::Plain(Answer::Done)),
            Line::Append { service, events } => self.append(service, events),
            Line::Send { service, since } => self.send(service, *since),
            Line::Inject { bytes, .. } => self.inject(bytes.as_slice()),
            Line::Deliver { message, service } => self.deliver(*message, service),
            Line::Lose { message } => Ok(self.lose(*message)),
            Line::Crash {
                service,
                call,
                choice,
            } => {
                let planned = Planned {
                    call: *call,
                    choice: *choice,
                };
                Ok(self.plan(service, planned))
            }
            Line::Prove { service, asked } => self.prove(service, asked),
            Line::Join { files } => self.join(files.as_slice()),
            Line::Anchor { service, step } => self.anchor(service, *step),
            Line::Verify { file } => self.verify(*file),
        }
    }

    /// Where the service of this name stands.
    fn find(&self, name: &Name) -> usize
        requires { HasService self.now name.now }
        ensures { (result < length self.now.hosts.items) × IsFirst self.now.hosts.items name.now result }
    {
        for at in 0..self.hosts.len() {
            if self.hosts[at].name == *name {
                return at;
            }
        }
        unreachable!()
    }

    /// Makes a service.
    fn make(&mut self, name: Name) -> Result<Told, NoMemory>
        ensures { IfOk result (PlaysLine self.old self.new (Service name)) }
    {
        let host = Host::make(self.alloc, name)?;
        self.hosts.push(host)?;
        Ok(Told::Plain(Answer::Done))
    }

    /// Appends a step of these events to the service's history.
    fn append(&mut self, service: &Name, events: &EventList) -> Result<Told, NoMemory>
        requires { CanPlayLine self.old (Append service.now events.now) }
        ensures { IfOk result (PlaysLine self.old self.new (Append service.now events.now)) }
    {
        let at = self.find(service);
        let told = self.hosts[at].append(self.alloc, events)?;
        Ok(told)
    }

    /// Makes the next message, or none, and tells its number.
    fn add_message(&mut self, mail: Mail) -> Result<u64, NoMemory>
        ensures { IfOk result (λ number. (w : World) → PlayerFollows self.old w
            → (number ≡ suc (length w.messages)) × PlayerFollows self.new (after_line (with_message w (mail_kept mail))) × KeepsHosts self.old self.new) }
    {
        self.messages.push(mail)?;
        Ok(self.messages.len() as u64)
    }

    /// What the service gives when it is asked.
    fn ask(
        &mut self,
        service: &Name,
        question: &Question,
    ) -> Result<Result<Bytes, Refusal>, NoMemory>
        requires asks { MayAsk question.now }
        requires there { HasService self.old service.now }
        ensures { IfOk result (HasGiven self.old self.new service.now question.now) }
    {
        let at = self.find(service);
        let given = self.hosts[at].ask(self.alloc, question)?;
        Ok(given)
    }

    /// Makes the next message, of the service's last step.
    fn send(&mut self, service: &Name, since: u64) -> Result<Told, NoMemory>
        requires { CanPlayLine self.old (Send service.now since) }
        ensures { IfOk result (PlaysLine self.old self.new (Send service.now since)) }
    {
        match self.ask(service, &Question::ThreadOut { since })? {
            Ok(bytes) => {
                let number = self.add_message(Mail::Made(bytes))?;
                Ok(Told::Plain(Answer::Sent { number }))
            }
            Err(refusal) => {
                self.add_message(Mail::Unmade)?;
                Ok(Told::Plain(Answer::Refused(refusal)))
            }
        }
    }

    /// Makes the next message of these bytes, whatever name lies.
    fn inject(&mut self, bytes: &[u8]) -> Result<Told, NoMemory>
        ensures { IfOk result (λ told. (name : List ℕ) → PlaysLine self.old self.new (Inject name bytes.now) told) }
    {
        let bytes = Bytes::from_slice(self.alloc, bytes)?;
        let number = self.add_message(Mail::Made(bytes))?;
        Ok(Told::Plain(Answer::Sent { number }))
    }

    /// Gives a message to the service.
    fn deliver(&mut self, number: u64, service: &Name) -> Result<Told, NoMemory>
        requires { CanPlayLine self.old (Deliver number service.now) }
        ensures { IfOk result (PlaysLine self.old self.new (Deliver number service.now)) }
    {
        let at = self.find(service);
        let index = index_of(number, self.messages.len());
        match &self.messages[index] {
            Mail::Made(bytes) => {
                let told = self.hosts[at].deliver(self.alloc, bytes.as_slice())?;
                Ok(told)
            }
            Mail::Unmade => Ok(Told::Plain(Answer::Nothing)),
            Mail::Dropped => unreachable!(),
        }
    }

    /// Drops a message.
    fn lose(&mut self, number: u64) -> Told
        requires { CanPlayLine self.old (Lose number) }
        ensures { PlaysLine self.old self.new (Lose number) result }
    {
        let index = index_of(number, self.messages.len());
        let answer = loss_answer(&self.messages[index]);
        self.messages[index] = Mail::Dropped;
        Told::Plain(answer)
    }

    /// A crash waits for the service's next append or delivery, in place of another that waited.
    fn plan(&mut self, service: &Name, planned: Planned) -> Told
        requires { CanPlayLine self.old (Crash service.now planned.call planned.choice) }
        ensures { PlaysLine self.old self.new (Crash service.now planned.call planned.choice) result }
    {
        let at = self.find(service);
        self.hosts[at].crash = Some(planned);
        Told::Plain(Answer::Done)
    }

    /// Makes the next file of these bytes, which are a proof's.
    fn add_file(&mut self, bytes: Bytes) -> Result<Told, NoMemory>
        requires { IsProofText bytes }
        ensures { IfOk result (λ told. (w : World) → PlayerFollows self.old w → (next : World) × IsFiled w bytes told next × PlayerFollows self.new next × KeepsHosts self.old self.new) }
    {
        self.files.push(Some(bytes))?;
        Ok(Told::Plain(Answer::Filed {
            number: self.files.len() as u64,
        }))
    }

    /// The next file isn't made, for this reason.
    fn add_none(&mut self, why: Answer) -> Result<Told, NoMemory>
        ensures { IfOk result (λ told. (w : World) → PlayerFollows self.old w → (next : World) × IsNotFiled w why told next × PlayerFollows self.new next × KeepsHosts self.old self.new) }
    {
        self.files.push(None)?;
        Ok(Told::Plain(why))
    }

    /// Makes the next file, a proof of the service's history.
    fn prove(&mut self, service: &Name, asked: &Question) -> Result<Told, NoMemory>
        requires asks { MayAsk asked.now }
        requires may { CanPlayLine self.old (Prove service.now asked.now) }
        ensures { IfOk result (PlaysLine self.old self.new (Prove service.now asked.now)) }
    {
        match self.ask(service, asked)? {
            Ok(bytes) => self.add_file(bytes),
            Err(refusal) => self.add_none(Answer::Refused(refusal)),
        }
    }

    /// The proofs that these files are; None where one of them wasn't made.
    fn proofs(&self, numbers: &[u64]) -> Result<Option<Sequence<Proof>>, NoMemory>
        requires { (w : World) × PlayerFollows self.now w × AreFiled w numbers.now }
        ensures { IfOk result (λ proofs. (w : World) → PlayerFollows self.now w → AreFiled w numbers.now → AreProofsOfNumbers w numbers.now proofs) }
    {
        let mut proofs = Sequence::new(self.alloc);
        for number in numbers {
            let index = index_of(*number, self.files.len());
            match &self.files[index] {
                None => return Ok(None),
                Some(bytes) => {
                    let proof = proof_of(self.alloc, bytes.as_slice())?;
                    proofs.push(proof)?;
                }
            }
        }
        Ok(Some(proofs))
    }

    /// What the files of these numbers join to: the bytes of a proof, or why there is none.
    fn joined(&self, numbers: &[u64]) -> Result<Result<Bytes, Answer>, NoMemory>
        requires { (w : World) × PlayerFollows self.now w × AreFiled w numbers.now }
        ensures { IfOk result (λ joined. (w : World) → PlayerFollows self.now w → AreFiled w numbers.now → FilesJoinTo w numbers.now joined) }
    {
        let Some(proofs) = self.proofs(numbers)? else {
            return Ok(Err(Answer::Nothing));
        };
        joined_proofs(self.alloc, proofs.as_slice())
    }

    /// Joins files into the next one.
    fn join(&mut self, numbers: &[u64]) -> Result<Told, NoMemory>
        requires { CanPlayLine self.old (Join numbers.now) }
        ensures { IfOk result (PlaysLine self.old self.new (Join numbers.now)) }
    {
        match self.joined(numbers)? {
            Ok(bytes) => self.add_file(bytes),
            Err(why) => self.add_none(why),
        }
    }

    /// Holds the service's authenticator at a step.
    fn anchor(&mut self, service: &Name, step: u64) -> Result<Told, NoMemory>
        requires { CanPlayLine self.old (Anchor service.now step) }
        ensures { IfOk result (PlaysLine self.old self.new (Anchor service.now step)) }
    {
        match self.ask(service, &Question::Link { step, top: None })? {
            Err(refusal) => Ok(Told::Plain(Answer::Refused(refusal))),
            Ok(bytes) => self.hold_linked(bytes.as_slice()),
        }
    }

    /// Holds the authenticator that the bytes of a proof tell.
    fn hold_linked(&mut self, bytes: &[u8]) -> Result<Told, NoMemory>
        requires { (link : LinkProof) × Spells proof_layout bytes.now (Linked link) }
        ensures { IfOk result (λ told. (told ≡ Plain Done) × ((w : World) → PlayerFollows self.old w → (link : LinkProof)
            × Spells proof_layout bytes.now (Linked link) × PlayerFollows self.new (after_line (with_anchor w (thread_of_link link))) × KeepsHosts self.old self.new)) }
    {
        let anchor = linked_thread(self.alloc, bytes)?;
        self.hold(anchor)?;
        Ok(Told::Plain(Answer::Done))
    }

    /// Holds an anchor in place of one of its service.
    fn hold(&mut self, anchor: Thread) -> Result<(), NoMemory>
        ensures { OnOk result ((w : World) → PlayerFollows self.old w → PlayerFollows self.new (after_line (with_anchor w anchor)) × KeepsHosts self.old self.new) }
    {
        self.anchors.retain(|held| held.from != anchor.from);
        self.anchors.push(anchor)?;
        Ok(())
    }

    /// Judges a file under the anchors held.
    fn verify(&mut self, number: u64) -> Result<Told, NoMemory>
        requires { CanPlayLine self.old (Verify number) }
        ensures { IfOk result (PlaysLine self.old self.new (Verify number)) }
    {
        let index = index_of(number, self.files.len());
        let Some(bytes) = &self.files[index] else {
            return Ok(Told::Plain(Answer::Nothing));
        };
        let answer = judged(self.alloc, bytes.as_slice(), &self.anchors)?;
        Ok(Told::Plain(answer))
    }
}

/// The proof that the bytes are.
fn proof_of(alloc: Global, bytes: &[u8]) -> Result<Proof, NoMemory>
    requires { IsProofText bytes.now }
    ensures { IfOk result (λ p. Spells proof_layout bytes.now p) }
{
    match read_proof(alloc, bytes) {
        Ok(proof) => Ok(proof),
        Err(ReadFault::NoMemory) => Err(NoMemory),
        Err(ReadFault::Malformed { .. }) => unreachable!(),
    }
}

/// The bytes of the proof that proofs joined to, or where they didn't join.
fn written(
    alloc: Global,
    joined: &Result<Proof, JoinFault>,
) -> Result<Result<Bytes, Answer>, NoMemory>
    ensures { IfOk result (λ given. (proofs : List ProofOf) → Joins proofs joined.now → ProofsJoinTo proofs given) }
{
    match joined {
        Ok(proof) => {
            let bytes = write_proof(alloc, proof)?;
            Ok(Ok(bytes))
        }
        Err(JoinFault::Gap { place }) => Ok(Err(Answer::NotJoined { place: *place })),
        Err(JoinFault::NoMemory) => Err(NoMemory),
    }
}

/// What the proofs join to: the bytes of a proof, or where they don't join.
fn joined_proofs(alloc: Global, proofs: &[Proof]) -> Result<Result<Bytes, Answer>, NoMemory>
    ensures { IfOk result (ProofsJoinTo proofs.now) }
{
    let joined = join(alloc, proofs);
    let given = written(alloc, &joined);
    drop(joined);
    given
}

/// The thread of the authenticator that the bytes of a proof tell. A service gives no other bytes for it.
fn linked_thread(alloc: Global, bytes: &[u8]) -> Result<Thread, NoMemory>
    requires { (link : LinkProof) × Spells proof_layout bytes.now (Linked link) }
    ensures { IfOk result (λ t. (link : LinkProof) × Spells proof_layout bytes.now (Linked link) × (t ≡ thread_of_link link)) }
{
    match read_proof(alloc, bytes) {
        Ok(Proof::Linked(link)) => Ok(Thread {
            from: link.service,
            step: link.step,
            auth: link.auth,
        }),
        Err(ReadFault::NoMemory) => Err(NoMemory),
        _ => unreachable!(),
    }
}

/// What is told of a message that is dropped, and wasn't before.
fn loss_answer(mail: &Mail) -> Answer
    requires { IsSome (loss_answer_of (mail_kept mail.now)) }
    ensures { loss_answer_of (mail_kept mail.now) ≡ Some result }
{
    match mail {
        Mail::Made(_) => Answer::Done,
        Mail::Unmade => Answer::Nothing,
        Mail::Dropped => unreachable!(),
    }
}

/// What is told of the verdict on the bytes of a file.
fn judged(alloc: Global, bytes: &[u8], anchors: &[Thread]) -> Result<Answer, NoMemory>
    ensures { IfOk result (λ answer. (verdict : VerdictOf) × IsVerdict sha256 anchors.now false bytes.now verdict × (answer ≡ verdict_answer verdict)) }
{
    let verdict = verify::<Sha>(alloc, bytes, anchors, false)?;
    let answer = answer_of(&verdict);
    drop(verdict);
    Ok(answer)
}

/// What is told of a verdict.
fn answer_of(verdict: &Verdict) -> Answer
    ensures { result ≡ verdict_answer verdict.now }
{
    match verdict {
        Verdict::Yes(_) => Answer::Accepted,
        Verdict::No(reason) => Answer::Rejected {
            reason: reason.number(),
        },
    }
}

/// Where that which has this number, counted from 1, stands among so many.
fn index_of(number: u64, count: usize) -> usize
    requires { (0 < number) × (number ≤ count) }
    ensures { (result < count) × (result + 1 ≡ number) }
{
    number as usize - 1
}
