// The command `receive`, which has a service archive the thread of a message.

ghost use Rattle.std.specs.Prelude.{◌≡◌, ◌≤◌, ℕ, Option, false};
ghost use Rattle.sha2.specs.Sha256.{sha256};
ghost use Rattle.tw_base.specs.history.History.{History};
ghost use Rattle.tw_base.specs.history.Limits.{IsThread, IsTimeWithinLimits};
ghost use Rattle.tw_disk.specs.Image.{Image};
ghost use Rattle.tw_msg.specs.Messages.{IsLinked};
ghost use Rattle.tw_outside.specs.Asked.{asked};
ghost use Rattle.tw_service.specs.Adding.{Receives};
ghost use Rattle.tw_service.specs.Serves.{IsOver, Serves, disk_of, has_failed, pages_of, record_of};
ghost use Rattle.tw_service.specs.Machine.Call.{Receive};
ghost use Rattle.tw_service.specs.Machine.Reply.{OfReceipt};
ghost use Rattle.tw_diskcmd.specs.Answers.{IsOpened};
ghost use Rattle.tw_service.specs.Stands.{IsImageOfHistory};
ghost use Rattle.tw_diskcmd.specs.Disks.{IsLeft, IsService, NextBy, ReadsAsHistory, SparesOtherThanService, StepsBy, found_disk};
ghost use Rattle.tw_diskcmd.specs.Receiving.{ReceiveComes, ReceiveLeaves, ReceivedMessageComes};
ghost use Rattle.tw_pages.specs.Records.{written_record};
ghost use Rattle.tw_diskcmd.specs.Leaves.{StaysOr, WritesNothing};
ghost use Rattle.tw_diskcmd.specs.Steps.{AddsFrom, AddsTo};
ghost use Rattle.tw_service.specs.Writing.{ArchivesTo, IsReceiptOfRecord};

use crate::faults::fault_of_service;
use crate::message_files::read_message_file;
use crate::store_faults::fault_of_store;
use crate::worked::Worked;
use std::alloc::Global;
use tw_base::{Refusal, Sha};
use tw_disk::Disk;
use tw_msg::{Message, Receipt};
use tw_outside::Inputs;
use tw_service::Service;
use tw_text::ClaimedTime;

/// Archives the thread of the message in the named file in a step of the service on the disk, at this time
/// or at none, and answers the receipt of that step; or, where the archive has the thread, that of the step
/// that received it. The file is read and judged before the disk is touched.
// It stays a call, so that other commands don't have its frame on the stack.
#[inline(never)]
pub fn receive<D: Disk, I: Inputs>(
    alloc: Global,
    disk: D,
    inputs: &mut I,
    file: &str,
    time: Option<ClaimedTime>,
) -> Worked<D, Receipt>
    requires { I.may_ask inputs.old file.now }
    // What `receive` comes to is what its file, the disk and the counts of faults allow: the receipt, or a fault with its
    // cause.
    ensures comes { ReceiveComes (asked (I.told inputs.old) (I.faults inputs.old) (I.faults inputs.new))
        (found_disk (D.view disk).content (D.view disk).faults (D.view result.disk).faults) file.now time result.outcome }
    // It leaves the disk as is right for what it came to. So it does whatever the pages of the service's store keep: after the
    // receipt the disk rests with the record and pages that were there, where an earlier step received the thread, or with those of
    // the step that archives it; after a disk fault its content opens with the ones or with the others; and each image since is one
    // that a crash might have left before, or opens so. What is opened as no service, a follower's store among it, it leaves as it
    // was.
    ensures leaves { ReceiveLeaves D.view disk result.disk (I.told inputs.old) file.now time result.outcome }
{
    match read_message_file(alloc, inputs, file) {
        Ok(message) => receive_message(alloc, disk, &message, time),
        Err(fault) => Worked {
            outcome: Err(fault),
            disk,
        },
    }
}

/// Archives the thread of the message in a step of the service on the disk.
fn receive_message<D: Disk>(
    alloc: Global,
    disk: D,
    message: &Message,
    time: Option<ClaimedTime>,
) -> Worked<D, Receipt>
    requires linked { IsLinked message.now }
    requires thread { IsThread message.now.thread }
    ensures comes { ReceivedMessageComes message.now time (found_disk (D.view disk).content (D.view disk).faults (D.view result.disk).faults) result.outcome }
    ensures leaves { AddsTo (IsImageOfHistory sha256) D.view disk result.disk (NextBy (Receive message.now time))
        (λ receipt. StepsBy (Receive message.now time) (OfReceipt receipt)) result.outcome }
    ensures unwritten { WritesNothing result.outcome → IsLeft D.view disk result.disk }
    ensures spares { SparesOtherThanService D.view disk result.disk }
    ensures writes { AddsTo IsService D.view disk result.disk (StaysOr (ArchivesTo sha256 message.now time))
        (IsReceiptOfRecord sha256 message.now time) result.outcome }
{
    match Service::<D, Sha>::open(alloc, disk) {
        Ok(service) => receive_by(service, message, time),
        Err((disk, fault)) => Worked {
            outcome: Err(fault_of_store(fault)),
            disk,
        },
    }
}

/// The seconds of the time, where there is one.
fn seconds_of(time: Option<ClaimedTime>) -> Option<u64>
    ensures value { result ≡ time }
    ensures limit { IsTimeWithinLimits result }
{
    match time {
        None => None,
        Some(time) => Some(time.seconds()),
    }
}

/// Archives the thread of the message by the service, at this time or at none.
fn take<D: Disk>(
    service: &mut Service<D, Sha>,
    message: &Message,
    time: Option<ClaimedTime>,
) -> Result<Receipt, Refusal>
    requires linked { IsLinked message.now }
    requires thread { IsThread message.now.thread }
    ensures { Receives sha256 D.view message.now time service.old service.new result }
{
    service.take(message, seconds_of(time))
}

/// Archives the thread of the message by the service, and gives its disk back.
fn receive_by<D: Disk>(
    service: Service<D, Sha>,
    message: &Message,
    time: Option<ClaimedTime>,
) -> Worked<D, Receipt>
    requires whole { has_failed service ≡ false }
    requires linked { IsLinked message.now }
    requires thread { IsThread message.now.thread }
    ensures comes { (found : Option Image) (before : ℕ) → IsOpened found (record_of service) (pages_of D.view service)
        → ((h : History) → ReadsAsHistory found h → Serves sha256 D.view service h) → before ≤ (D.view (disk_of service)).faults
        → ReceivedMessageComes message.now time (found_disk found before (D.view result.disk).faults) result.outcome }
    ensures leaves { (h : History) → Serves sha256 D.view service h → AddsFrom (IsImageOfHistory sha256) D.view (disk_of service) result.disk
        (NextBy (Receive message.now time)) (λ receipt. StepsBy (Receive message.now time) (OfReceipt receipt)) h result.outcome }
    ensures unwritten { WritesNothing result.outcome → IsLeft D.view (disk_of service) result.disk }
    ensures writes { (ps : Image) → IsOver D.view service ps → AddsFrom IsService D.view (disk_of service) result.disk
        (StaysOr (ArchivesTo sha256 message.now time)) (IsReceiptOfRecord sha256 message.now time) (written_record (record_of service) ps) result.outcome }
{
    let mut service = service;
    match take(&mut service, message, time) {
        Ok(receipt) => Worked {
            outcome: Ok(receipt),
            disk: service.close(),
        },
        Err(refusal) => Worked {
            outcome: Err(fault_of_service(refusal)),
            disk: service.close(),
        },
    }
}
