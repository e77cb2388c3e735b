// The command `append`, which adds a step of the events of a file; `receiving.rt` and `offering.rt` go the same way with a
// message.

ghost use Rattle.std.specs.Prelude.{◌≡◌, ◌≤◌, ℕ, Option, Some, IfErr, IfOk, false};
ghost use Rattle.sha2.specs.Sha256.{sha256};
ghost use Rattle.tw_base.specs.history.History.{History};
ghost use Rattle.tw_disk.specs.Image.{Image};
ghost use Rattle.tw_outside.specs.Asked.{asked};
ghost use Rattle.tw_service.specs.Adding.{AppendsEvents};
ghost use Rattle.tw_service.specs.Serves.{IsOver, Serves, disk_of, has_failed, pages_of, record_of};
ghost use Rattle.tw_service.specs.Machine.Call.{Append};
ghost use Rattle.tw_service.specs.Machine.Reply.{OfThread};
ghost use Rattle.tw_diskcmd.specs.Appending.{AppendComes, AppendLeaves, AreEventsOf, IsBadEventsByte, StepComes};
ghost use Rattle.tw_diskcmd.specs.Answers.{IsOpened};
ghost use Rattle.tw_service.specs.Stands.{IsImageOfHistory};
ghost use Rattle.tw_diskcmd.specs.Disks.{IsLeft, IsService, NextBy, ReadsAsHistory, SparesOtherThanService, StepsBy, found_disk};
ghost use Rattle.tw_pages.specs.Records.{written_record};
ghost use Rattle.tw_diskcmd.specs.Files.{StopsAt};
ghost use Rattle.tw_diskcmd.specs.Leaves.{StaysOr, WritesNothing};
ghost use Rattle.tw_diskcmd.specs.Steps.{AddsFrom, AddsTo};
ghost use Rattle.tw_service.specs.Writing.{AppendsTo, IsThreadOfNext};

use crate::faults::fault_of_service;
use crate::limits::{EVENTS_LIMIT, EVENTS_READ};
use crate::store_faults::fault_of_store;
use crate::worked::Worked;
use std::alloc::Global;
use tw_base::{EventList, ReadFault, Refusal, Sha, Thread};
use tw_disk::Disk;
use tw_msg::read_events;
use tw_outside::{Inputs, read_all};
use tw_service::Service;
use tw_text::{ClaimedTime, CommandFault, bad_byte};

/// Adds a step of the events of the named file to the service on the disk, at this time or at none, and
/// answers its thread. The file is read and judged before the disk is touched.
pub fn append<D: Disk, I: Inputs>(
    alloc: Global,
    disk: D,
    inputs: &mut I,
    file: &str,
    time: Option<ClaimedTime>,
) -> Worked<D, Thread>
    requires { I.may_ask inputs.old file.now }
    // What `append` comes to is what its file, the disk and the counts of faults allow: the thread of the new step, or
    // a fault with its cause.
    ensures comes { AppendComes (asked (I.told inputs.old) (I.faults inputs.old) (I.faults inputs.new))
        (found_disk (D.view disk).content (D.view disk).faults (D.view result.disk).faults) file.now time result.outcome }
    // It leaves the disk as is right for what it came to. So it does whatever the pages of the service's store keep: after the
    // answer the disk rests with the record of the step that is found in them and the pages that are found with it; after a disk
    // fault its content opens with these, or with the record and pages that were there; and each image since is one that a crash
    // might have left before, or opens so. What is opened as no service, a follower's store among it, it leaves as it was.
    ensures leaves { AppendLeaves D.view disk result.disk (I.told inputs.old) file.now time result.outcome }
{
    match read_step(alloc, inputs, file) {
        Ok(events) => append_events(alloc, disk, &events, time),
        Err(fault) => Worked {
            outcome: Err(fault),
            disk,
        },
    }
}

/// The events of the named file, or what comes of a file that isn't read or is none.
fn read_step<I: Inputs>(
    alloc: Global,
    inputs: &mut I,
    file: &str,
) -> Result<EventList, CommandFault>
    requires { I.may_ask inputs.old file.now }
    ensures read { IfOk result (AreEventsOf (I.told inputs.old) file.now) }
    ensures stopped { IfErr result (StopsAt (asked (I.told inputs.old) (I.faults inputs.old) (I.faults inputs.new)) file.now IsBadEventsByte) }
{
    let bytes = read_all(alloc, inputs, file, EVENTS_READ)?;
    if bytes.len() > EVENTS_LIMIT {
        let bad = bad_byte(alloc, file, EVENTS_LIMIT as u64)?;
        return Err(CommandFault::Unreadable(bad));
    }
    match read_events(alloc, bytes.as_slice()) {
        Ok(events) => Ok(events),
        Err(ReadFault::Malformed { place }) => {
            Err(CommandFault::Unreadable(bad_byte(alloc, file, place)?))
        }
        Err(ReadFault::NoMemory) => Err(CommandFault::NoMemory),
    }
}

/// Adds a step of these events to the service on the disk.
fn append_events<D: Disk>(
    alloc: Global,
    disk: D,
    events: &EventList,
    time: Option<ClaimedTime>,
) -> Worked<D, Thread>
    ensures comes { StepComes (found_disk (D.view disk).content (D.view disk).faults (D.view result.disk).faults) events.now time result.outcome }
    ensures leaves { AddsTo (IsImageOfHistory sha256) D.view disk result.disk (NextBy (Append events.now time))
        (λ thread. StepsBy (Append events.now time) (OfThread thread)) result.outcome }
    ensures unwritten { WritesNothing result.outcome → IsLeft D.view disk result.disk }
    ensures spares { SparesOtherThanService D.view disk result.disk }
    ensures writes { AddsTo IsService D.view disk result.disk (StaysOr (AppendsTo sha256 events.now time))
        (IsThreadOfNext sha256 events.now time) result.outcome }
{
    match Service::<D, Sha>::open(alloc, disk) {
        Ok(service) => append_to(service, events, time),
        Err((disk, fault)) => Worked {
            outcome: Err(fault_of_store(fault)),
            disk,
        },
    }
}

/// Adds a step of these events to the service, at this time or at none.
fn add<D: Disk>(
    service: &mut Service<D, Sha>,
    events: &EventList,
    time: Option<ClaimedTime>,
) -> Result<Thread, Refusal>
    ensures { AppendsEvents sha256 D.view events.now time service.old service.new result }
{
    match time {
        None => service.append(events),
        Some(time) => service.append_at(events, time.seconds()),
    }
}

/// Adds a step of these events to the service, and gives its disk back.
fn append_to<D: Disk>(
    service: Service<D, Sha>,
    events: &EventList,
    time: Option<ClaimedTime>,
) -> Worked<D, Thread>
    requires { has_failed service ≡ false }
    ensures comes { (found : Option Image) (before : ℕ) → IsOpened found (record_of service) (pages_of D.view service)
        → ((h : History) → ReadsAsHistory found h → Serves sha256 D.view service h) → before ≤ (D.view (disk_of service)).faults
        → StepComes (found_disk found before (D.view result.disk).faults) events.now time result.outcome }
    ensures leaves { (h : History) → Serves sha256 D.view service h → AddsFrom (IsImageOfHistory sha256) D.view (disk_of service) result.disk
        (NextBy (Append events.now time)) (λ thread. StepsBy (Append events.now time) (OfThread thread)) h result.outcome }
    ensures unwritten { WritesNothing result.outcome → IsLeft D.view (disk_of service) result.disk }
    ensures writes { (ps : Image) → IsOver D.view service ps → AddsFrom IsService D.view (disk_of service) result.disk
        (StaysOr (AppendsTo sha256 events.now time)) (IsThreadOfNext sha256 events.now time) (written_record (record_of service) ps) result.outcome }
{
    let mut service = service;
    match add(&mut service, events, time) {
        Ok(thread) => Worked {
            outcome: Ok(thread),
            disk: service.close(),
        },
        Err(refusal) => Worked {
            outcome: Err(fault_of_service(refusal)),
            disk: service.close(),
        },
    }
}
