// How many answers begin with each of four words, for the last line of a script that was played (`summary.rt`).

ghost use Rattle.std.specs.Prelude.{◌≡◌, codes};
ghost use Rattle.tw_world.specs.Playing.{counts_of};
ghost use Rattle.tw_world.specs.Telling.{begins_with, told_count_of, told_fields};

use crate::told::{Answer, Told};

/// How many lines' answers begin with each of four words.
#[derive(Clone, Copy, PartialEq, Eq, Debug, Drop)]
pub struct Counts {
    pub accepted: u64,
    pub none: u64,
    pub refused: u64,
    /// Those that begin so by `rejected Gap` among them.
    pub rejected: u64,
}

/// Whether the answer is `accepted`.
fn is_accepted(told: &Told) -> bool
    ensures { result ≡ begins_with (codes "accepted") (told_fields told.now) }
{
    matches!(told.answer(), Some(Answer::Accepted))
}

/// Whether the answer is `none`.
fn is_none(told: &Told) -> bool
    ensures { result ≡ begins_with (codes "none") (told_fields told.now) }
{
    matches!(told.answer(), Some(Answer::Nothing))
}

/// Whether the answer is a refusal.
fn is_refused(told: &Told) -> bool
    ensures { result ≡ begins_with (codes "refused") (told_fields told.now) }
{
    matches!(told.answer(), Some(Answer::Refused(_)))
}

/// Whether the answer is a rejection, of a proof or of a join.
fn is_rejected(told: &Told) -> bool
    ensures { result ≡ begins_with (codes "rejected") (told_fields told.now) }
{
    matches!(
        told.answer(),
        Some(Answer::Rejected { .. } | Answer::NotJoined { .. })
    )
}

/// How many answers are `accepted`.
fn count_accepted(told: &[Told]) -> u64
    ensures { result ≡ told_count_of (codes "accepted") told.now }
{
    told.iter().filter(|t| is_accepted(t)).count() as u64
}

/// How many answers are `none`.
fn count_none(told: &[Told]) -> u64
    ensures { result ≡ told_count_of (codes "none") told.now }
{
    told.iter().filter(|t| is_none(t)).count() as u64
}

/// How many answers are refusals.
fn count_refused(told: &[Told]) -> u64
    ensures { result ≡ told_count_of (codes "refused") told.now }
{
    told.iter().filter(|t| is_refused(t)).count() as u64
}

/// How many answers are rejections.
fn count_rejected(told: &[Told]) -> u64
    ensures { result ≡ told_count_of (codes "rejected") told.now }
{
    told.iter().filter(|t| is_rejected(t)).count() as u64
}

impl Counts {
    /// Of what is told of lines.
    pub(crate) fn of(told: &[Told]) -> Self
        ensures { result ≡ counts_of told.now }
    {
        Counts {
            accepted: count_accepted(told),
            none: count_none(told),
            refused: count_refused(told),
            rejected: count_rejected(told),
        }
    }
}
