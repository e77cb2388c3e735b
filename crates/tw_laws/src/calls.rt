// What may come in a run of a service, a function each: it is made, opened or closed, or a step is added. Only the laws of runs use them:
// each is the service's own call, and its contract says what comes in the run by its answer.

ghost use Rattle.std.specs.Prelude.{◌≡◌, ◌⊎◌, ◌≤◌, ℕ, List, None, Some, Err, IfOk, IsErr, IsErrAnd, MatchResult};
ghost use Rattle.tw_base.specs.declared.kinds.limits.TheConstants.{LAST_TIME};
ghost use Rattle.tw_base.specs.format.Formats.{Spells, SpellsNothing};
ghost use Rattle.tw_base.specs.history.History.{History};
ghost use Rattle.tw_disk.specs.Image.{Image};
ghost use Rattle.tw_msg.specs.declared.message.Message.{Message};
ghost use Rattle.tw_msg.specs.Messages.{message_layout};
ghost use Rattle.tw_base.specs.declared.history.refusal.Refusal.TheVariants.{NoMemory};
ghost use Rattle.tw_service.specs.Machine.Call.{Append, Receive};
ghost use Rattle.tw_service.specs.Machine.Reply.{OfReceipt, OfThread};
ghost use Rattle.tw_service.specs.Serves.{Serves, disk_of};
ghost use Rattle.tw_service.specs.Stands.{StandsFor, no_history};
ghost use Rattle.tw_pages.specs.Disks.{IsLeft};
ghost use Rattle.tw_laws.specs.Runs.{IsCallAnswered, IsServiceOpened, replied};

use std::alloc::Global;
use tw_answers::Refusal;
use tw_base::{EventList, Hasher, Name, Thread};
use tw_disk::Disk;
use tw_msg::Receipt;
use tw_pages::StoreFault;
use tw_service::Service;

/// Makes a service of this name, by `Service::init`, with its answers.
pub fn init<D: Disk, H: Hasher>(
    alloc: Global,
    disk: D,
    name: Name,
) -> Result<Service<D, H>, (D, StoreFault)>
    // Making a service on a disk that reads as a history is answered by a fault, and leaves the disk as it was.
    ensures held { (image : Image) (of : List ℕ) (h : History) → (D.view disk).content ≡ Some image → StandsFor H.dig image of h
        → IsErrAnd result (λ e. IsLeft D.view disk e.0) }
    // A service that is made on a disk that tells its content serves the history of that name without a step.
    ensures begins { IfOk result (λ s. (image : Image) → (D.view disk).content ≡ Some image → Serves H.dig D.view s (no_history name)) }
{
    Service::<D, H>::init(alloc, disk, name)
}

/// Opens the service that a disk holds, by `Service::open`, with its answers.
pub fn open<D: Disk, H: Hasher>(alloc: Global, disk: D) -> Result<Service<D, H>, (D, StoreFault)>
    // Opening a disk leads to the service of the history that it reads as, or leaves the disk as it was.
    ensures { MatchResult result (λ s. IsServiceOpened H.dig D.view disk s) (λ e. IsLeft D.view disk e.0) }
{
    Service::<D, H>::open(alloc, disk)
}

/// Gives the disk of a service back, by `Service::close`.
pub fn close<D: Disk, H: Hasher>(service: Service<D, H>) -> D
    // The disk of a service that is given up is the service's own.
    ensures { result ≡ disk_of service }
{
    service.close()
}

/// Adds a step of these events, by `Service::append`, with its answers.
pub fn append<D: Disk, H: Hasher>(
    service: &mut Service<D, H>,
    events: &EventList,
) -> Result<Thread, Refusal>
    // Adding a step is a call of a run.
    ensures { IsCallAnswered H.dig D.view (Append events.now None) (replied (λ t. OfThread t) result) service.old service.new }
{
    service.append(events)
}

/// Adds a step of these events at this time, by `Service::append_at`, with its answers.
pub fn append_at<D: Disk, H: Hasher>(
    service: &mut Service<D, H>,
    events: &EventList,
    time: u64,
) -> Result<Thread, Refusal>
    requires { time ≤ LAST_TIME }
    // Adding a step at a time is a call of a run.
    ensures { IsCallAnswered H.dig D.view (Append events.now (Some time)) (replied (λ t. OfThread t) result) service.old service.new }
{
    service.append_at(events, time)
}

/// Receives the message that these bytes are, by `Service::receive`, with its answers.
pub fn receive<D: Disk, H: Hasher>(
    service: &mut Service<D, H>,
    bytes: &[u8],
) -> Result<Receipt, Refusal>
    // Bytes that are no message are refused, and change nothing.
    ensures malformed { SpellsNothing message_layout bytes.now → IsErr result × (service.new ≡ service.old) }
    // Receiving a message is a call of a run, or finds no memory to read it, and changes nothing.
    ensures message { (m : Message) → Spells message_layout bytes.now m → ((result ≡ Err NoMemory) × (service.new ≡ service.old))
        ⊎ IsCallAnswered H.dig D.view (Receive m None) (replied (λ r. OfReceipt r) result) service.old service.new }
{
    service.receive(bytes)
}

/// Receives the message that these bytes are at this time, by `Service::receive_at`, with its answers.
pub fn receive_at<D: Disk, H: Hasher>(
    service: &mut Service<D, H>,
    bytes: &[u8],
    time: u64,
) -> Result<Receipt, Refusal>
    requires { time ≤ LAST_TIME }
    // Bytes that are no message are refused, and change nothing.
    ensures malformed { SpellsNothing message_layout bytes.now → IsErr result × (service.new ≡ service.old) }
    // Receiving a message at a time is a call of a run, or finds no memory to read it, and changes nothing.
    ensures message { (m : Message) → Spells message_layout bytes.now m → ((result ≡ Err NoMemory) × (service.new ≡ service.old))
        ⊎ IsCallAnswered H.dig D.view (Receive m (Some time)) (replied (λ r. OfReceipt r) result) service.old service.new }
{
    service.receive_at(bytes, time)
}
