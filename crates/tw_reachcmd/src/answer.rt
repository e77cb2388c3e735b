// What these commands come to, each with its status and its text, for which tw_app asks.

ghost use Rattle.std.specs.Prelude.{◌≡◌, IfOk};
ghost use Rattle.tw_reachcmd.specs.Answers.{answer_status as answer_status_of, answer_text};

use crate::accusing::Accused;
use crate::adopt_text::print_taken;
use crate::adopting::Taken;
use crate::atlas::Planned;
use crate::audit_text::print_audited;
use crate::auditing::Audited;
use std::alloc::Global;
use tw_atlas::print_atlas;
use tw_audit::Finding;
use tw_base::{Bytes, NoMemory};
use tw_evidence::{ForkVerdict, print_fork};
use tw_text::print_gap;
use tw_tmap::{MapVerdict, print_map};

/// What a command came to that was done. (A line of a script is told an `Answer` of tw_world.)
#[derive(Drop, Debug)]
pub enum Answer {
    /// A service was accused of a fork.
    Accused(Accused),
    /// The evidence of a fork was judged.
    Fork(ForkVerdict),
    /// A proof was held against histories.
    Audited(Audited),
    /// Where receipts lead from a step was found.
    Planned(Planned),
    /// Two map files were judged.
    Mapped(MapVerdict),
    /// A history was to be taken over.
    Taken(Taken),
}

/// The status of a run that came to this answer; what each number says, `run` of tw_app tells.
pub fn answer_status(answer: &Answer) -> u8
    // The status of each answer is the one of the definitions.
    ensures { result ≡ answer_status_of answer.now }
{
    match answer {
        Answer::Accused(Accused::Whole(_))
        | Answer::Fork(ForkVerdict::Yes(_))
        | Answer::Planned(_)
        | Answer::Mapped(MapVerdict::Yes { .. })
        | Answer::Taken(Taken::File(_))
        | Answer::Audited(Audited::Found(Finding::Stands(_))) => 0,
        Answer::Accused(Accused::Unfit { .. })
        | Answer::Fork(ForkVerdict::No(_))
        | Answer::Mapped(MapVerdict::No(_) | MapVerdict::Gap)
        | Answer::Taken(Taken::Fault(_))
        | Answer::Audited(Audited::Found(Finding::NotAccepted(_)) | Audited::Unheld { .. }) => 1,
        Answer::Audited(Audited::Found(Finding::Clash { .. })) => 10,
    }
}

/// The text of the answer.
pub fn print_answer(alloc: Global, answer: &Answer) -> Result<Bytes, NoMemory>
    // What is written of an answer is exactly the text of the definitions.
    ensures { IfOk result (λ text. text ≡ answer_text answer.now) }
{
    match answer {
        Answer::Accused(Accused::Whole(evidence)) => Bytes::from_slice(alloc, evidence.as_slice()),
        Answer::Accused(Accused::Unfit { place }) => print_gap(alloc, *place),
        Answer::Fork(verdict) => print_fork(alloc, verdict),
        Answer::Audited(audited) => print_audited(alloc, audited),
        Answer::Planned(planned) => print_atlas(
            alloc,
            &planned.start.from,
            planned.start.step,
            &planned.atlas,
        ),
        Answer::Mapped(verdict) => print_map(alloc, verdict),
        Answer::Taken(taken) => print_taken(alloc, taken),
    }
}
