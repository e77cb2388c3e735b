// The forms of the proofs that a `prove` line asks for; those of the command `prove` are in tw_words/src/store_forms.rt.

ghost use Rattle.tw_script.specs.LineTable as table;
ghost use Rattle.tw_script.specs.Takings.{ReadsWords, words_left};

use crate::line_words::Words;
use crate::stop::Stop;
use crate::word_values::is;
use tw_base::limits::LAST_STEP;
use tw_base::{Key, Question};

/// `event`, `thread`, `absent` or `link`, each with what its kind has
#[tactic(auto, unfolding(crate::specs::LineTable::asked_proof, crate::specs::LineForms::next))]
pub(crate) fn asked_proof(words: &mut Words<'_>) -> Result<Question, Stop>
    ensures { ReadsWords (table.asked_proof (words_left words.old.more words.old.text.now)) (λ asked. asked) result }
{
    let Some(kind) = words.word() else {
        return Err(Stop::NotAllowed);
    };
    if is(kind, b"event") {
        of_event(words)
    } else if is(kind, b"thread") {
        of_thread(words)
    } else if is(kind, b"absent") {
        of_absence(words)
    } else if is(kind, b"link") {
        of_link(words)
    } else {
        Err(Stop::NotAllowed)
    }
}

/// `STEP INDEX [TOP]`
#[tactic(auto, unfolding(crate::specs::LineTable::of_event))]
fn of_event(words: &mut Words<'_>) -> Result<Question, Stop>
    ensures { ReadsWords (table.of_event (words_left words.old.more words.old.text.now)) (λ asked. asked) result }
{
    let step = words.number(0, u64::MAX)?;
    let index = words.number(0, u64::MAX)?;
    let top = words.maybe_number()?;
    Ok(Question::Event { step, index, top })
}

/// `STEP PEER K [TOP]`
#[tactic(auto, unfolding(crate::specs::LineTable::of_thread))]
fn of_thread(words: &mut Words<'_>) -> Result<Question, Stop>
    ensures { ReadsWords (table.of_thread (words_left words.old.more words.old.text.now)) (λ asked. asked) result }
{
    let step = words.number(0, u64::MAX)?;
    let peer = words.name()?;
    let k = words.number(1, LAST_STEP)?;
    let top = words.maybe_number()?;
    Ok(Question::Thread {
        step,
        key: Key {
            from: peer,
            step: k,
        },
        top,
    })
}

/// `STEP PEER K [TOP]`, of a thread that isn't there
#[tactic(auto, unfolding(crate::specs::LineTable::of_absence))]
fn of_absence(words: &mut Words<'_>) -> Result<Question, Stop>
    ensures { ReadsWords (table.of_absence (words_left words.old.more words.old.text.now)) (λ asked. asked) result }
{
    let step = words.number(0, u64::MAX)?;
    let peer = words.name()?;
    let k = words.number(1, LAST_STEP)?;
    let top = words.maybe_number()?;
    Ok(Question::Absent {
        step,
        key: Key {
            from: peer,
            step: k,
        },
        top,
    })
}

/// `STEP [TOP]`
#[tactic(auto, unfolding(crate::specs::LineTable::of_link))]
fn of_link(words: &mut Words<'_>) -> Result<Question, Stop>
    ensures { ReadsWords (table.of_link (words_left words.old.more words.old.text.now)) (λ asked. asked) result }
{
    let step = words.number(0, u64::MAX)?;
    let top = words.maybe_number()?;
    Ok(Question::Link { step, top })
}
