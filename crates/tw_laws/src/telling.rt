// The calls of a service that tell its name, its steps and its head, as what comes in a run, for the laws of runs alone (see
// `calls.rt`).

ghost use Rattle.std.specs.Prelude.{Ok};
ghost use Rattle.tw_msg.specs.Messages.{message_bytes};
ghost use Rattle.tw_base.specs.declared.history.question.Question.TheVariants.{ThreadOut};
ghost use Rattle.tw_service.specs.Machine.Call.{Ask, CountSteps, TellHead, TellName};
ghost use Rattle.tw_service.specs.Machine.Reply.{OfBytes, OfName, OfNumber, OfThread};
ghost use Rattle.tw_laws.specs.Runs.{IsCallAnswered, IsToldUnchanged, replied};

use tw_answers::Refusal;
use tw_base::{Hasher, Name, Thread};
use tw_disk::Disk;
use tw_msg::Message;
use tw_service::Service;

/// Tells the number of steps, by `Service::steps`.
pub fn steps<D: Disk, H: Hasher>(service: &Service<D, H>) -> u64
    // Telling the number of steps is an event that changes nothing, after a disk fault too.
    ensures { IsToldUnchanged CountSteps (Ok (OfNumber result)) service.now }
{
    service.steps()
}

/// Tells the thread of the last step, by `Service::head`.
pub fn head<D: Disk, H: Hasher>(service: &Service<D, H>) -> Thread
    // Telling the thread of the last step is an event that changes nothing, after a disk fault too.
    ensures { IsToldUnchanged TellHead (Ok (OfThread result)) service.now }
{
    service.head()
}

/// Tells the name, by `Service::name`.
pub fn name<D: Disk, H: Hasher>(service: &Service<D, H>) -> Name
    // Telling the name is an event that changes nothing, after a disk fault too.
    ensures { IsToldUnchanged TellName (Ok (OfName result)) service.now }
{
    service.name()
}

/// Gives the message of the last step, by `Service::thread_out`, with its answers.
pub fn thread_out<D: Disk, H: Hasher>(
    service: &mut Service<D, H>,
    since: u64,
) -> Result<Message, Refusal>
    // Asking for a message is a call of a run.
    ensures { IsCallAnswered H.dig D.view (Ask (ThreadOut since)) (replied (λ m. OfBytes (message_bytes m)) result) service.old service.new }
{
    service.thread_out(since)
}
