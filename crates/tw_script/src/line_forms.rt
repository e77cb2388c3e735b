// The forms of a script's lines: each reads its words and makes the line of them. Those of the command line are in tw_words.

ghost use Rattle.tw_script.specs.LineForms.{choose_form};
ghost use Rattle.tw_script.specs.LineTable as table;
ghost use Rattle.tw_script.specs.LineTable.{line_forms};
ghost use Rattle.tw_script.specs.Takings.{ReadsWords, words_left};

use crate::asked_forms::asked_proof;
use crate::line::Line;
use crate::line_words::Words;
use crate::stop::Stop;
use crate::word_values::is;
use std::alloc::Global;
use tw_base::limits::LAST_STEP;

/// The line that the text is.
#[tactic(auto, unfolding(crate::specs::LineTable::line_of))]
pub(crate) fn read_line(alloc: Global, text: &[u8]) -> Result<Line, Stop>
    ensures { ReadsWords (table.line_of text.now) (λ line. line) result }
{
    let mut words = Words::new(text);
    line(alloc, &mut words)
}

/// The line of the form that the first word names.
#[tactic(auto, unfolding(crate::specs::LineForms::next))]
fn line(alloc: Global, words: &mut Words<'_>) -> Result<Line, Stop>
    ensures { ReadsWords (choose_form line_forms (words_left words.old.more words.old.text.now)) (λ line. line) result }
{
    let Some(word) = words.word() else {
        return Err(Stop::NotAllowed);
    };
    if is(word, b"service") {
        service(words)
    } else if is(word, b"hostile") {
        hostile(words)
    } else if is(word, b"append") {
        append(alloc, words)
    } else if is(word, b"send") {
        send(words)
    } else if is(word, b"inject") {
        inject(alloc, words)
    } else if is(word, b"deliver") {
        deliver(words)
    } else if is(word, b"drop") {
        lose(words)
    } else if is(word, b"crash") {
        crash(words)
    } else if is(word, b"prove") {
        prove(words)
    } else if is(word, b"join") {
        join(alloc, words)
    } else if is(word, b"anchor") {
        anchor(words)
    } else if is(word, b"verify") {
        verify(words)
    } else {
        Err(Stop::NotAllowed)
    }
}

/// `service NAME`
#[tactic(auto, unfolding(crate::specs::LineTable::service))]
fn service(words: &mut Words<'_>) -> Result<Line, Stop>
    ensures { ReadsWords (table.service (words_left words.old.more words.old.text.now)) (λ line. line) result }
{
    let name = words.name()?;
    words.end()?;
    Ok(Line::Service { name })
}

/// `hostile NAME`
#[tactic(auto, unfolding(crate::specs::LineTable::hostile))]
fn hostile(words: &mut Words<'_>) -> Result<Line, Stop>
    ensures { ReadsWords (table.hostile (words_left words.old.more words.old.text.now)) (λ line. line) result }
{
    let name = words.name()?;
    words.end()?;
    Ok(Line::Hostile { name })
}

/// `append NAME BYTES ..`
#[tactic(auto, unfolding(crate::specs::LineTable::append))]
fn append(alloc: Global, words: &mut Words<'_>) -> Result<Line, Stop>
    ensures { ReadsWords (table.append (words_left words.old.more words.old.text.now)) (λ line. line) result }
{
    let service = words.name()?;
    let events = words.all_bytes(alloc)?;
    Ok(Line::Append { service, events })
}

/// `send NAME SINCE`
#[tactic(auto, unfolding(crate::specs::LineTable::send))]
fn send(words: &mut Words<'_>) -> Result<Line, Stop>
    ensures { ReadsWords (table.send (words_left words.old.more words.old.text.now)) (λ line. line) result }
{
    let service = words.name()?;
    let since = words.number(0, u64::MAX)?;
    words.end()?;
    Ok(Line::Send { service, since })
}

/// `inject NAME BYTES`
#[tactic(auto, unfolding(crate::specs::LineTable::inject))]
fn inject(alloc: Global, words: &mut Words<'_>) -> Result<Line, Stop>
    ensures { ReadsWords (table.inject (words_left words.old.more words.old.text.now)) (λ line. line) result }
{
    let name = words.name()?;
    let bytes = words.bytes(alloc)?;
    words.end()?;
    Ok(Line::Inject { name, bytes })
}

/// `deliver N NAME`
#[tactic(auto, unfolding(crate::specs::LineTable::deliver))]
fn deliver(words: &mut Words<'_>) -> Result<Line, Stop>
    ensures { ReadsWords (table.deliver (words_left words.old.more words.old.text.now)) (λ line. line) result }
{
    let message = words.number(0, u64::MAX)?;
    let service = words.name()?;
    words.end()?;
    Ok(Line::Deliver { message, service })
}

/// `drop N`
#[tactic(auto, unfolding(crate::specs::LineTable::lose))]
fn lose(words: &mut Words<'_>) -> Result<Line, Stop>
    ensures { ReadsWords (table.lose (words_left words.old.more words.old.text.now)) (λ line. line) result }
{
    let message = words.number(0, u64::MAX)?;
    words.end()?;
    Ok(Line::Lose { message })
}

/// `crash NAME CALL CHOICE`
#[tactic(auto, unfolding(crate::specs::LineTable::crash))]
fn crash(words: &mut Words<'_>) -> Result<Line, Stop>
    ensures { ReadsWords (table.crash (words_left words.old.more words.old.text.now)) (λ line. line) result }
{
    let service = words.name()?;
    let call = words.number(1, u64::MAX)?;
    let choice = words.choice()?;
    words.end()?;
    Ok(Line::Crash {
        service,
        call,
        choice,
    })
}

/// `prove NAME ..`
#[tactic(auto, unfolding(crate::specs::LineTable::prove))]
fn prove(words: &mut Words<'_>) -> Result<Line, Stop>
    ensures { ReadsWords (table.prove (words_left words.old.more words.old.text.now)) (λ line. line) result }
{
    let service = words.name()?;
    let asked = asked_proof(words)?;
    Ok(Line::Prove { service, asked })
}

/// `join N N ..`
#[tactic(auto, unfolding(crate::specs::LineTable::join))]
fn join(alloc: Global, words: &mut Words<'_>) -> Result<Line, Stop>
    ensures { ReadsWords (table.join (words_left words.old.more words.old.text.now)) (λ line. line) result }
{
    let files = words.all_numbers(alloc)?;
    if files.len() >= 2 {
        Ok(Line::Join { files })
    } else {
        Err(Stop::NotAllowed)
    }
}

/// `anchor NAME STEP`
#[tactic(auto, unfolding(crate::specs::LineTable::anchor))]
fn anchor(words: &mut Words<'_>) -> Result<Line, Stop>
    ensures { ReadsWords (table.anchor (words_left words.old.more words.old.text.now)) (λ line. line) result }
{
    let service = words.name()?;
    let step = words.number(1, LAST_STEP)?;
    words.end()?;
    Ok(Line::Anchor { service, step })
}

/// `verify N`
#[tactic(auto, unfolding(crate::specs::LineTable::verify))]
fn verify(words: &mut Words<'_>) -> Result<Line, Stop>
    ensures { ReadsWords (table.verify (words_left words.old.more words.old.text.now)) (λ line. line) result }
{
    let file = words.number(0, u64::MAX)?;
    words.end()?;
    Ok(Line::Verify { file })
}
