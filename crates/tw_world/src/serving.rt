// What a service on a disk in memory does for a line of a script; for a schedule, tw_generate/src/telling.rt has that.

ghost use Rattle.std.specs.Prelude.{◌≡◌, ◌⊎◌, ◌↔◌, ◌≤◌, true, false, None, Some, Ok, Err, is_some, IfErr, IfOk, IsErr, IsNone, IsTrue, OnOk};
ghost use Rattle.sha2.specs.Sha256.{sha256};
ghost use Rattle.tw_base.specs.declared.history.refusal.Refusal.TheVariants.{DiskFault as OfDisk, NoMemory as OfMemory};
ghost use Rattle.tw_base.specs.history.History.{History};
ghost use Rattle.tw_base.specs.history.Questions.{MayAsk};
ghost use Rattle.tw_disk.specs.Image.{Image};
ghost use Rattle.tw_disk.specs.MemDisk.{is_stopped, mem_disk_view, pages_of};
ghost use Rattle.tw_pages.specs.declared.open.StoreFault.TheVariants.{DiskFault as FailedDisk};
ghost use Rattle.tw_service.specs.Serves.{Serves, disk_of, has_failed};
ghost use Rattle.tw_service.specs.Stands.{IsImageOfHistory, no_history};
ghost use Rattle.tw_world.specs.Hosts.{Given, Answered, AnswersRefusal, LineEnds, GivesReply, GoesOnByReply, HoldsHistory, IsGiven, RestsAs, StandsForGood, crash_told as crash_told_of};
ghost use Rattle.tw_world.specs.Hosts.Given.{OfBytes, OfEvents};
ghost use Rattle.tw_world.specs.OnDisks.{DoesGiven, LineEndsWith, IsAskedOn, IsGivenOn, IsOpenedFor, IsOpenedOn, StartsOn, choice_number, pages_left};

use crate::host::{Host, MemService, Opened, Planned};
use crate::told::{Answer, Told};
use std::alloc::Global;
use std::mem;
use tw_answers::Refusal;
use tw_base::{Bytes, EventList, Name, NoMemory, Question};
use tw_disk::MemDisk;
use tw_pages::StoreFault;
use tw_script::CrashChoice;

/// The service that was made or opened; a fault of the disk comes from want of memory.
fn service_of(opened: Result<MemService, (MemDisk, StoreFault)>) -> Result<MemService, NoMemory>
    requires { IfErr opened (λ e. e.1 ≡ FailedDisk) }
    ensures service { IfOk result (λ service. opened ≡ Ok service) }
    ensures memory { IsErr result ↔ IsErr opened }
{
    match opened {
        Ok(service) => Ok(service),
        Err((_, StoreFault::DiskFault)) => Err(NoMemory),
        Err((_, _)) => unreachable!(),
    }
}

/// Opens the service of a disk.
fn open(alloc: Global, disk: MemDisk) -> Result<MemService, NoMemory>
    requires { (h : History) × StandsForGood disk h }
    ensures serves { IfOk result (λ service. (h : History) → StandsForGood disk h → Serves sha256 mem_disk_view service h) }
    ensures whole { IfOk result (λ service. has_failed service ≡ false) }
    ensures opens { IfOk result (λ service. IsOpenedOn disk service) }
{
    service_of(MemService::open(alloc, disk))
}

/// The disk, to be stopped where a crash waits: opening makes the first device call.
fn stopping(disk: MemDisk, crash: Option<Planned>) -> MemDisk
    ensures stands { (h : History) → StandsForGood disk h → StandsForGood result h }
    ensures starts { StartsOn crash disk result }
{
    match crash {
        Some(planned) => {
            let mut disk = disk;
            disk.stop_at(planned.call.saturating_add(1));
            disk
        }
        None => disk,
    }
}

/// Opens it, where a crash waits so that the service is stopped at its call.
fn open_for(alloc: Global, disk: MemDisk, crash: Option<Planned>) -> Result<Opened, NoMemory>
    requires { (h : History) × StandsForGood disk h }
    ensures serves { IfOk result (λ opened. (h : History) → StandsForGood disk h → Serves sha256 mem_disk_view opened.service h) }
    ensures whole { IfOk result (λ opened. has_failed opened.service ≡ false) }
    ensures opens { IfOk result (IsOpenedFor disk crash) }
{
    let service = open(alloc, stopping(disk, crash))?;
    Ok(Opened { service, crash })
}

/// The number of a crash's choice to a disk in memory.
fn number_of(choice: CrashChoice) -> u8
    ensures few { result ≤ 3 }
    ensures number { result ≡ choice_number choice }
{
    match choice {
        CrashChoice::Old => 0,
        CrashChoice::New => 1,
        CrashChoice::Zeros => 2,
        CrashChoice::Ones => 3,
    }
}

/// A disk at rest, with the number of steps of its service.
#[derive(Drop)]
struct Rested {
    disk: MemDisk,
    steps: u64,
}

/// The disk, at rest, without what its calls wrote over, which it would keep from line to line: a crash that leaves the new
/// bytes lets go of that, and changes nothing that such a disk holds.
fn settled(disk: MemDisk) -> MemDisk
    ensures stands { (h : History) → StandsForGood disk h → StandsForGood result h }
    ensures left { (h : History) → StandsForGood disk h → pages_of result ≡ pages_of disk }
{
    let mut disk = disk;
    disk.crash(number_of(CrashChoice::New));
    disk
}

/// Closes a service.
fn closed(service: MemService) -> Rested
    ensures rests { (h : History) → Serves sha256 mem_disk_view service h → RestsAs result.disk result.steps h }
    ensures left { (h : History) → Serves sha256 mem_disk_view service h → pages_of result.disk ≡ pages_of (disk_of service) }
{
    let steps = service.steps();
    Rested {
        disk: settled(service.close()),
        steps,
    }
}

/// Crashes, and opens the service again.
fn reopened(alloc: Global, disk: MemDisk, planned: Planned) -> Result<Rested, NoMemory>
    requires { (one : History) × (other : History) × ((c : Image) → (mem_disk_view disk).may_leave c → IsImageOfHistory sha256 one c ⊎ IsImageOfHistory sha256 other c) }
    ensures rests { IfOk result (λ rested. (one other : History) → ((c : Image) → (mem_disk_view disk).may_leave c → IsImageOfHistory sha256 one c ⊎ IsImageOfHistory sha256 other c)
        → RestsAs rested.disk rested.steps one ⊎ RestsAs rested.disk rested.steps other) }
    ensures left { IfOk result (λ rested. pages_of rested.disk ≡ pages_left (Some planned) disk) }
{
    let mut disk = disk;
    disk.crash(number_of(planned.choice));
    Ok(closed(open(alloc, disk)?))
}

/// What came of a line that may add a step.
#[derive(Drop)]
struct Ended {
    rested: Rested,
    told: Told,
}

/// What is told where a crash waited.
fn crash_told(answer: Option<Answer>, steps: u64) -> Told
    ensures { result ≡ crash_told_of answer steps }
{
    match answer {
        Some(answer) => Told::Crashed { answer, steps },
        None => Told::Stopped { steps },
    }
}

/// Sees that the disk of a line without an answer is stopped. Where it isn't, the disk's fault came from want of memory.
fn see_stopped(answer: &Option<Answer>, disk: &MemDisk) -> Result<(), NoMemory>
    ensures stopped { OnOk result (IsNone answer.now → IsTrue (is_stopped disk.now)) }
    ensures memory { IsErr result ↔ (IsNone answer.now × (is_stopped disk.now ≡ false)) }
{
    if answer.is_none() && !disk.is_stopped() {
        return Err(NoMemory);
    }
    Ok(())
}

/// Ends a line where a crash waited, with its answer, or none after a disk fault: it is told its answer where it has one, and is told
/// as stopped only where its disk is.
fn crashed(
    alloc: Global,
    service: MemService,
    planned: Planned,
    answer: Option<Answer>,
) -> Result<Ended, NoMemory>
    requires { (given : Given) × (h : History) × Answered given h service answer }
    ensures ends { IfOk result (λ ended. (given : Given) (h : History) → Answered given h service answer
        → LineEnds given true h ended.told ended.rested.disk ended.rested.steps) }
    ensures told { IfOk result (λ ended. ended.told ≡ crash_told_of answer ended.rested.steps) }
    ensures stopped { IfOk result (λ _. IsNone answer → IsTrue (is_stopped (disk_of service))) }
    ensures left { IfOk result (λ ended. pages_of ended.rested.disk ≡ pages_left (Some planned) (disk_of service)) }
{
    let disk = service.close();
    see_stopped(&answer, &disk)?;
    let rested = reopened(alloc, disk, planned)?;
    let steps = rested.steps;
    Ok(Ended {
        rested,
        told: crash_told(answer, steps),
    })
}

/// Ends a line that may add a step, with its answer, or none after a disk fault.
fn end_line(alloc: Global, opened: Opened, answer: Option<Answer>) -> Result<Ended, NoMemory>
    requires { (given : Given) × (h : History) × Answered given h opened.service answer }
    ensures ends { IfOk result (λ ended. (given : Given) (h : History) → Answered given h opened.service answer
        → LineEnds given (is_some opened.crash) h ended.told ended.rested.disk ended.rested.steps) }
    ensures leaves { IfOk result (λ ended. LineEndsWith opened answer ended.told ended.rested.disk ended.rested.steps) }
{
    let Opened { service, crash } = opened;
    match crash {
        Some(planned) => {
            let ended = crashed(alloc, service, planned, answer)?;
            Ok(ended)
        }
        None => match answer {
            Some(answer) => Ok(Ended {
                rested: closed(service),
                told: Told::Plain(answer),
            }),
            None => {
                drop(service);
                Err(NoMemory)
            }
        },
    }
}

/// The answer to a call that was refused; none to a disk fault.
fn refused(refusal: Refusal) -> Result<Option<Answer>, NoMemory>
    ensures answers { IfOk result (AnswersRefusal refusal) }
    ensures memory { IsErr result ↔ (refusal ≡ OfMemory) }
{
    match refusal {
        Refusal::NoMemory => Err(NoMemory),
        Refusal::DiskFault => Ok(None),
        other => Ok(Some(Answer::Refused(other))),
    }
}

/// Appends a step of these events.
fn appended(service: &mut MemService, events: &EventList) -> Result<Option<Answer>, NoMemory>
    ensures answers { IfOk result (λ answer. (h : History) → Serves sha256 mem_disk_view service.old h → has_failed service.old ≡ false
        → Answered (OfEvents events.now) h service.new answer) }
    ensures does { IfOk result (DoesGiven (OfEvents events.now) service.old service.new) }
{
    match service.append(events) {
        Ok(_) => Ok(Some(Answer::Stepped {
            step: service.steps(),
        })),
        Err(refusal) => refused(refusal),
    }
}

/// Receives the bytes of a message.
fn received(service: &mut MemService, bytes: &[u8]) -> Result<Option<Answer>, NoMemory>
    ensures answers { IfOk result (λ answer. (h : History) → Serves sha256 mem_disk_view service.old h → has_failed service.old ≡ false
        → Answered (OfBytes bytes.now) h service.new answer) }
    ensures does { IfOk result (DoesGiven (OfBytes bytes.now) service.old service.new) }
{
    match service.receive(bytes) {
        Ok(receipt) => Ok(Some(Answer::Archived {
            step: receipt.by.step,
        })),
        Err(refusal) => refused(refusal),
    }
}

/// What a reply to a question gives; a fault comes from want of memory.
fn given(reply: Result<Bytes, Refusal>) -> Result<Result<Bytes, Refusal>, NoMemory>
    ensures gives { IfOk result (IsGiven reply) }
    ensures memory { IsErr result ↔ ((reply ≡ Err OfDisk) ⊎ (reply ≡ Err OfMemory)) }
{
    match reply {
        Ok(bytes) => Ok(Ok(bytes)),
        Err(refusal) => match refusal {
            Refusal::NoMemory => Err(NoMemory),
            Refusal::DiskFault => Err(NoMemory),
            other => Ok(Err(other)),
        },
    }
}

impl Host {
    /// Makes a service on a new disk.
    pub(crate) fn make(alloc: Global, name: Name) -> Result<Self, NoMemory>
        ensures holds { IfOk result (λ host. HoldsHistory host (no_history name)) }
        ensures waits { IfOk result (λ host. host.crash ≡ None) }
    {
        let service = service_of(MemService::init(alloc, MemDisk::new(alloc), name))?;
        let Rested { disk, steps } = closed(service);
        Ok(Host {
            name,
            disk,
            steps,
            crash: None,
        })
    }

    /// Takes the disk out; another stands in its place.
    fn take_disk(&mut self, alloc: Global) -> MemDisk
        ensures disk { result ≡ self.old.disk }
        ensures same { (self.new.name ≡ self.old.name) × (self.new.steps ≡ self.old.steps) × (self.new.crash ≡ self.old.crash) }
    {
        mem::replace(&mut self.disk, MemDisk::new(alloc))
    }

    /// Puts the disk back behind a line that may have added a step; a crash that waited is over.
    fn end(&mut self, ended: Ended) -> Told
        ensures told { result ≡ ended.told }
        ensures rests { (self.new.disk ≡ ended.rested.disk) × (self.new.steps ≡ ended.rested.steps) }
        ensures same { (self.new.name ≡ self.old.name) × (self.new.crash ≡ None) }
    {
        let Ended { rested, told } = ended;
        let Rested { disk, steps } = rested;
        self.disk = disk;
        self.steps = steps;
        self.crash = None;
        told
    }

    /// Appends a step of these events. After want of memory the host has to be given up; so everywhere here.
    pub(crate) fn append(&mut self, alloc: Global, events: &EventList) -> Result<Told, NoMemory>
        requires { (h : History) × HoldsHistory self.old h }
        ensures goes { IfOk result (λ told. (h : History) → HoldsHistory self.old h
            → (next : History) × GoesOnByReply (OfEvents events.now) (is_some self.old.crash) h next told × HoldsHistory self.new next) }
        ensures given { IfOk result (λ told. IsGivenOn (OfEvents events.now) told self.old self.new) }
    {
        let mut opened = open_for(alloc, self.take_disk(alloc), self.crash)?;
        let answer = appended(&mut opened.service, events)?;
        let ended = end_line(alloc, opened, answer)?;
        Ok(self.end(ended))
    }

    /// Gives the bytes of a message to the service.
    pub(crate) fn deliver(&mut self, alloc: Global, bytes: &[u8]) -> Result<Told, NoMemory>
        requires { (h : History) × HoldsHistory self.old h }
        ensures goes { IfOk result (λ told. (h : History) → HoldsHistory self.old h
            → (next : History) × GoesOnByReply (OfBytes bytes.now) (is_some self.old.crash) h next told × HoldsHistory self.new next) }
        ensures given { IfOk result (λ told. IsGivenOn (OfBytes bytes.now) told self.old self.new) }
    {
        let mut opened = open_for(alloc, self.take_disk(alloc), self.crash)?;
        let answer = received(&mut opened.service, bytes)?;
        let ended = end_line(alloc, opened, answer)?;
        Ok(self.end(ended))
    }

    /// Asks a question; a fault of the disk comes from want of memory.
    pub(crate) fn ask(
        &mut self,
        alloc: Global,
        question: &Question,
    ) -> Result<Result<Bytes, Refusal>, NoMemory>
        requires asks { MayAsk question.now }
        requires holds { (h : History) × HoldsHistory self.old h }
        ensures gives { IfOk result (λ given. (h : History) → HoldsHistory self.old h → GivesReply h question.now given × HoldsHistory self.new h) }
        ensures asked { OnOk result (IsAskedOn self.old self.new) }
    {
        let mut service = open(alloc, self.take_disk(alloc))?;
        let reply = service.ask(question);
        self.disk = service.close();
        let given = given(reply)?;
        Ok(given)
    }
}
