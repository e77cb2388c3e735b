// What a run of the program comes to; `ending.rt` and `printing.rt` have its status and its text.

ghost use Rattle.std.specs.Prelude.{◌≡◌};
ghost use Rattle.tw_app.specs.Outcomes.{of_accused, of_audited, of_fork, of_mapped, of_planned, of_taken, outcome_by};
ghost use Rattle.tw_app.specs.declared.outcome.Outcome.TheVariants.{Joined as OfJoined, Judged as OfVerdict, Made as OfThread, Received as OfReceipt, Written as OfBytes};

use tw_base::{Bytes, Thread};
use tw_chain::Verdict;
use tw_evidence::ForkVerdict;
use tw_filecmd::Joined;
use tw_msg::Receipt;
use tw_reachcmd::{Accused, Answer, Audited, Planned, Taken};
use tw_text::CommandFault;
use tw_tmap::MapVerdict;

/// What a run comes to, apart from whether its text could be written.
#[derive(Drop, Debug)]
pub enum Outcome {
    /// A proof was judged.
    Judged(Verdict),
    /// An event was shown, something was proved, a map or history file made, the last step or the heads of a
    /// follower told, or a script or a number played: the bytes of the proof, of the file or of the message, the
    /// lines of the heads, or the text of what was played.
    Written(Bytes),
    /// The proofs of files were joined, or don't fit.
    Joined(Joined),
    /// A service, a step or a follower was made, or a follower took a message: the thread of the last step, or the
    /// head.
    Made(Thread),
    /// A message was received: the receipt of the step that archived its thread.
    Received(Receipt),
    /// A command over files that reach beyond one proof was done.
    Answered(Answer),
    /// The words have no form, and this is the number of the first word, from 1, at which none goes on.
    BadWords { number: u64 },
    /// The command isn't done.
    Undone(CommandFault),
}

/// The outcome of a proof that was judged.
pub(crate) fn judged(came: Result<Verdict, CommandFault>) -> Outcome
    ensures { result ≡ outcome_by OfVerdict came }
{
    match came {
        Ok(verdict) => Outcome::Judged(verdict),
        Err(fault) => Outcome::Undone(fault),
    }
}

/// The outcome of a proof, a file or a message that was made, of heads that were told, or of what was played.
pub(crate) fn written(came: Result<Bytes, CommandFault>) -> Outcome
    ensures { result ≡ outcome_by OfBytes came }
{
    match came {
        Ok(bytes) => Outcome::Written(bytes),
        Err(fault) => Outcome::Undone(fault),
    }
}

/// The outcome of proofs that were to be joined.
pub(crate) fn joined(came: Result<Joined, CommandFault>) -> Outcome
    ensures { result ≡ outcome_by OfJoined came }
{
    match came {
        Ok(joined) => Outcome::Joined(joined),
        Err(fault) => Outcome::Undone(fault),
    }
}

/// The outcome of a service, a step or a follower that was made, or of a message that a follower was offered.
pub(crate) fn made(came: Result<Thread, CommandFault>) -> Outcome
    ensures { result ≡ outcome_by OfThread came }
{
    match came {
        Ok(thread) => Outcome::Made(thread),
        Err(fault) => Outcome::Undone(fault),
    }
}

/// The outcome of a message that was received.
pub(crate) fn received(came: Result<Receipt, CommandFault>) -> Outcome
    ensures { result ≡ outcome_by OfReceipt came }
{
    match came {
        Ok(receipt) => Outcome::Received(receipt),
        Err(fault) => Outcome::Undone(fault),
    }
}

/// The outcome of a service that was accused of a fork.
pub(crate) fn accused(came: Result<Accused, CommandFault>) -> Outcome
    ensures { result ≡ outcome_by of_accused came }
{
    match came {
        Ok(accused) => Outcome::Answered(Answer::Accused(accused)),
        Err(fault) => Outcome::Undone(fault),
    }
}

/// The outcome of evidence of a fork that was judged.
pub(crate) fn fork_judged(came: Result<ForkVerdict, CommandFault>) -> Outcome
    ensures { result ≡ outcome_by of_fork came }
{
    match came {
        Ok(verdict) => Outcome::Answered(Answer::Fork(verdict)),
        Err(fault) => Outcome::Undone(fault),
    }
}

/// The outcome of an atlas.
pub(crate) fn planned(came: Result<Planned, CommandFault>) -> Outcome
    ensures { result ≡ outcome_by of_planned came }
{
    match came {
        Ok(planned) => Outcome::Answered(Answer::Planned(planned)),
        Err(fault) => Outcome::Undone(fault),
    }
}

/// The outcome of an audit.
pub(crate) fn audited(came: Result<Audited, CommandFault>) -> Outcome
    ensures { result ≡ outcome_by of_audited came }
{
    match came {
        Ok(audited) => Outcome::Answered(Answer::Audited(audited)),
        Err(fault) => Outcome::Undone(fault),
    }
}

/// The outcome of map files that were judged.
pub(crate) fn mapped(came: Result<MapVerdict, CommandFault>) -> Outcome
    ensures { result ≡ outcome_by of_mapped came }
{
    match came {
        Ok(verdict) => Outcome::Answered(Answer::Mapped(verdict)),
        Err(fault) => Outcome::Undone(fault),
    }
}

/// The outcome of a history that was to be taken over.
pub(crate) fn taken(came: Result<Taken, CommandFault>) -> Outcome
    ensures { result ≡ outcome_by of_taken came }
{
    match came {
        Ok(taken) => Outcome::Answered(Answer::Taken(taken)),
        Err(fault) => Outcome::Undone(fault),
    }
}
