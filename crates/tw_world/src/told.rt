// What is told of a line.

ghost use Rattle.std.specs.Prelude.{◌≡◌};
ghost use Rattle.tw_world.specs.Telling.{answer_told};

use tw_answers::Refusal;
use tw_base::Sequence;

/// The answer to a line.
#[derive(Clone, Copy, Drop)]
pub enum Answer {
    /// `ok`: a name was made, a message dropped, a crash announced, or an anchor held.
    Done,
    /// `step J`: the service's step that was made.
    Stepped { step: u64 },
    /// `message N`: the number of the message that was made.
    Sent { number: u64 },
    /// `receipt J`: the service's step that archived the message's thread.
    Archived { step: u64 },
    /// `file N`: the number of the file that was made.
    Filed { number: u64 },
    /// `accepted`
    Accepted,
    /// `rejected R`: the number of the lowest reason against the proof.
    Rejected { reason: u64 },
    /// `rejected Gap PLACE`: the number of the first file that doesn't fit, or one more than there are where one is missing.
    NotJoined { place: u64 },
    /// `refused NAME`: the refusal's name alone.
    Refused(Refusal),
    /// `none`: a message or a file that the line names wasn't made.
    Nothing,
}

/// What is told of a line.
#[derive(Clone, Copy, Drop)]
pub enum Told {
    /// The answer.
    Plain(Answer),
    /// The answer, and after it a crash that had waited; the service has so many steps when it is opened again.
    Crashed { answer: Answer, steps: u64 },
    /// The line was stopped by a crash that had waited; the service has so many steps when it is opened again.
    Stopped { steps: u64 },
}

/// What is told of lines, one after another.
pub(crate) type ToldList = Sequence<Told>;

impl Told {
    /// The answer; none of a line that was stopped.
    pub fn answer(&self) -> Option<Answer>
        ensures { result ≡ answer_told self.now }
    {
        match self {
            Told::Plain(answer) => Some(*answer),
            Told::Crashed { answer, .. } => Some(*answer),
            Told::Stopped { .. } => None,
        }
    }
}
