// What one service on a disk does in a schedule: it is made, appends, answers, or tells another one its last step; for a
// script, tw_world/src/serving.rt has that.

ghost use Rattle.std.specs.Prelude.{◌≡◌, ◌↔◌, Some, None, Ok, IfErr, IfOk, IsErr, OnOk, nat_lt, if◌then◌else◌};
ghost use Rattle.tw_base.specs.declared.kinds.failure.ReadFault.TheVariants.{NoMemory as WantedMemory};
ghost use Rattle.tw_base.specs.history.History.{History};
ghost use Rattle.tw_base.specs.history.Questions.{MayAsk};
ghost use Rattle.tw_disk.specs.Image.{Image};
ghost use Rattle.tw_pages.specs.Slots.{IsTaken};
ghost use Rattle.tw_pages.specs.declared.open.StoreFault.TheVariants.{DiskFault as FailedDisk};
ghost use Rattle.tw_service.specs.Answered.{IsAcceptedFor};
ghost use Rattle.tw_service.specs.EventStep.{with_events_at};
ghost use Rattle.tw_service.specs.Machine.Call.{Append, Ask};
ghost use Rattle.tw_service.specs.Stands.{no_history};
ghost use Rattle.tw_generate.specs.Playing.{HasTold, PlaysHistory};
ghost use Rattle.tw_generate.specs.Schedules.{last_heard};
ghost use Rattle.tw_generate.specs.Summing.{IsQuestionAnswered};
ghost use Rattle.tw_generate.specs.Unrefused.{CanHear, CanHearBoth, IsFailure, TakesCall};

use std::alloc::Global;
use tw_answers::Refusal;
use tw_base::{Bytes, EventList, Hasher, Name, NoMemory, Question, ReadFault};
use tw_disk::Disk;
use tw_pages::StoreFault;
use tw_service::Service;

/// The answer of a call that can't be refused. A fault of a disk in memory is want of memory.
pub(crate) fn given<T: Drop>(answer: Result<T, Refusal>) -> Result<T, NoMemory>
    requires { IfErr answer IsFailure }
    ensures value { IfOk result (λ value. answer ≡ Ok value) }
    ensures memory { IsErr result ↔ IsErr answer }
{
    match answer {
        Ok(value) => Ok(value),
        Err(Refusal::DiskFault | Refusal::NoMemory) => Err(NoMemory),
        Err(_) => unreachable!(),
    }
}

/// What was read of bytes that are a word of its format.
pub(crate) fn read_whole<T: Drop>(read: Result<T, ReadFault>) -> Result<T, NoMemory>
    requires { IfErr read (λ fault. fault ≡ WantedMemory) }
    ensures value { IfOk result (λ value. read ≡ Ok value) }
    ensures memory { IsErr result ↔ IsErr read }
{
    match read {
        Ok(value) => Ok(value),
        Err(ReadFault::NoMemory) => Err(NoMemory),
        Err(ReadFault::Malformed { .. }) => unreachable!(),
    }
}

/// The answer to a question that can't be refused.
pub(crate) fn answered<D: Disk, H: Hasher>(
    service: &mut Service<D, H>,
    question: &Question,
) -> Result<Bytes, NoMemory>
    requires may { MayAsk question.now }
    requires takes { TakesCall H.dig D.view (Ask question.now) service.old }
    ensures asked { (h : History) → PlaysHistory H.dig D.view service.old h
        → IfOk result (λ bytes. PlaysHistory H.dig D.view service.new h × IsQuestionAnswered H.dig h question.now bytes) }
    ensures accepted { (h : History) → PlaysHistory H.dig D.view service.old h → IfOk result (λ bytes. IsAcceptedFor H.dig h question.now bytes) }
{
    given(service.ask(question))
}

/// What was made on a disk that has no store.
fn service_made<D: Disk + Drop, H: Hasher>(
    made: Result<Service<D, H>, (D, StoreFault)>,
) -> Result<Service<D, H>, NoMemory>
    requires { IfErr made (λ e. e.1 ≡ FailedDisk) }
    ensures value { IfOk result (λ service. made ≡ Ok service) }
    ensures memory { IsErr result ↔ IsErr made }
{
    match made {
        Ok(service) => Ok(service),
        Err((_, StoreFault::DiskFault)) => Err(NoMemory),
        Err((_, _)) => unreachable!(),
    }
}

/// Makes a service of this name on a blank disk.
pub(crate) fn make<D: Disk + Drop, H: Hasher>(
    alloc: Global,
    disk: D,
    name: Name,
) -> Result<Service<D, H>, NoMemory>
    requires { (image : Image) × ((D.view disk).content ≡ Some image) × (IsTaken image → ⊥) }
    ensures { (image : Image) → (D.view disk).content ≡ Some image → IfOk result (λ service. PlaysHistory H.dig D.view service (no_history name)) }
{
    service_made(Service::<D, H>::init(alloc, disk, name))
}

/// Appends a step of these events.
pub(crate) fn append<D: Disk, H: Hasher>(
    service: &mut Service<D, H>,
    events: &EventList,
) -> Result<(), NoMemory>
    requires { TakesCall H.dig D.view (Append events.now None) service.old }
    ensures { (h : History) → PlaysHistory H.dig D.view service.old h → OnOk result (PlaysHistory H.dig D.view service.new (with_events_at h events.now None)) }
{
    given(service.append(events))?;
    Ok(())
}

/// The last step that a service has heard of: this one, where the message made a step, else the one before.
fn heard(before: u64, after: u64, last: u64, step: u64) -> u64
    ensures { result ≡ (if nat_lt before after then step else last) }
{
    if before < after { step } else { last }
}

/// Tells a service's last step to another one. The last step of it that the other one archived is `last`, before and after.
fn tell<D: Disk, H: Hasher>(
    from: &mut Service<D, H>,
    to: &mut Service<D, H>,
    last: &mut u64,
) -> Result<(), NoMemory>
    requires { CanHear H.dig D.view from.old to.old last.old }
    ensures { (a b : History) → PlaysHistory H.dig D.view from.old a → PlaysHistory H.dig D.view to.old b → last.old ≡ last_heard b a.name
        → OnOk result (PlaysHistory H.dig D.view from.new a × HasTold H.dig D.view a b to.new last.new) }
{
    let bytes = answered(from, &Question::ThreadOut { since: *last })?;
    let before = to.steps();
    given(to.receive(bytes.as_slice()))?;
    *last = heard(before, to.steps(), *last, from.steps());
    Ok(())
}

/// Tells a service's last step to one other service and then to another one, as `tell` does.
pub(crate) fn tell_both<D: Disk, H: Hasher>(
    from: &mut Service<D, H>,
    one: &mut Service<D, H>,
    one_heard: &mut u64,
    other: &mut Service<D, H>,
    other_heard: &mut u64,
) -> Result<(), NoMemory>
    requires { CanHearBoth H.dig D.view from.old one.old other.old one_heard.old other_heard.old }
    ensures { (a b e : History) → PlaysHistory H.dig D.view from.old a → PlaysHistory H.dig D.view one.old b → PlaysHistory H.dig D.view other.old e
        → one_heard.old ≡ last_heard b a.name → other_heard.old ≡ last_heard e a.name
        → OnOk result (PlaysHistory H.dig D.view from.new a × HasTold H.dig D.view a b one.new one_heard.new × HasTold H.dig D.view a e other.new other_heard.new) }
{
    tell(from, one, one_heard)?;
    tell(from, other, other_heard)?;
    Ok(())
}
