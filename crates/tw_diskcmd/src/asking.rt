// The commands `thread`, `prove`, `map` and `export`, which ask a service a question, all by one function;
// tw_service/src/asking.rt answers.

ghost use Rattle.std.specs.Prelude.{◌≡◌, ◌≤◌, ℕ, Option, false};
ghost use Rattle.sha2.specs.Sha256.{sha256};
ghost use Rattle.tw_base.specs.history.History.{History};
ghost use Rattle.tw_disk.specs.Image.{Image};
ghost use Rattle.tw_base.specs.history.Questions.{MayAsk};
ghost use Rattle.tw_service.specs.Serves.{IsOver, Serves, disk_of, has_failed, pages_of, record_of};
ghost use Rattle.tw_diskcmd.specs.Answers.{IsOpened};
ghost use Rattle.tw_diskcmd.specs.Asking.{AskComes, came_of};
ghost use Rattle.tw_pages.specs.Disks.{RestsAtState};
ghost use Rattle.tw_pages.specs.Records.{written_record};
ghost use Rattle.tw_diskcmd.specs.Disks.{IsLeft, IsService, ReadLeavesHistory, ReadsAsHistory, RestsAtHistory, found_disk};

use crate::faults::fault_of_service;
use crate::store_faults::fault_of_store;
use crate::worked::Worked;
use std::alloc::Global;
use tw_base::{Bytes, Question, Refusal, Sha};
use tw_disk::Disk;
use tw_service::Service;
use tw_text::CommandFault;

/// Asks the service on the disk this question.
pub fn ask<D: Disk>(alloc: Global, disk: D, question: &Question) -> Worked<D, Bytes>
    requires { MayAsk question.now }
    // What asking comes to is what the disk and its count of faults allow: the bytes, or a fault with its cause.
    ensures comes { AskComes (found_disk (D.view disk).content (D.view disk).faults (D.view result.disk).faults) question.now result.outcome }
    // It writes nothing. Where it answered or was refused, the disk stands for the history that it read as, at rest, and rests
    // with whatever record and pages it opened with.
    ensures leaves { ReadLeavesHistory D.view disk result.disk result.outcome }
{
    match Service::<D, Sha>::open(alloc, disk) {
        Ok(service) => ask_by(service, question),
        Err((disk, fault)) => Worked {
            outcome: Err(fault_of_store(fault)),
            disk,
        },
    }
}

/// What a service answered, as the command's result.
fn came(answer: Result<Bytes, Refusal>) -> Result<Bytes, CommandFault>
    ensures { result ≡ came_of answer }
{
    match answer {
        Ok(bytes) => Ok(bytes),
        Err(refusal) => Err(fault_of_service(refusal)),
    }
}

/// Asks the service, and gives its disk back.
fn ask_by<D: Disk>(service: Service<D, Sha>, question: &Question) -> Worked<D, Bytes>
    requires whole { has_failed service ≡ false }
    requires may { MayAsk question.now }
    ensures comes { (found : Option Image) (before : ℕ) → IsOpened found (record_of service) (pages_of D.view service)
        → ((h : History) → ReadsAsHistory found h → Serves sha256 D.view service h) → before ≤ (D.view (disk_of service)).faults
        → AskComes (found_disk found before (D.view result.disk).faults) question.now result.outcome }
    ensures leaves { IsLeft D.view (disk_of service) result.disk }
    ensures rests { (h : History) → Serves sha256 D.view service h → RestsAtHistory D.view result.disk h }
    ensures over { (ps : Image) → IsOver D.view service ps → RestsAtState IsService D.view result.disk (written_record (record_of service) ps) }
{
    let mut service = service;
    let outcome = came(service.ask(question));
    Worked {
        outcome,
        disk: service.close(),
    }
}
