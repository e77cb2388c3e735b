// The call that asks a service a question, as what comes in a run, for the laws of runs alone (see `calls.rt`); the call
// itself is in tw_service/src/asking.rt.

ghost use Rattle.tw_service.specs.Machine.Call.{Ask};
ghost use Rattle.tw_service.specs.Machine.Reply.{OfBytes};
ghost use Rattle.tw_base.specs.history.Questions.{MayAsk};
ghost use Rattle.tw_laws.specs.Runs.{IsCallAnswered, replied};

use tw_answers::Refusal;
use tw_base::{Bytes, Hasher, Question};
use tw_disk::Disk;
use tw_service::Service;

/// Asks a question, by `Service::ask`, with its answers.
pub fn ask<D: Disk, H: Hasher>(
    service: &mut Service<D, H>,
    question: &Question,
) -> Result<Bytes, Refusal>
    requires { MayAsk question.now }
    // Asking a question is a call of a run.
    ensures { IsCallAnswered H.dig D.view (Ask question.now) (replied (λ bytes. OfBytes bytes) result) service.old service.new }
{
    service.ask(question)
}
