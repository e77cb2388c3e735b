// The forms of `show`, `join`, `verify`, `strict`, `replay` and `generate`, behind their first word; reach_forms.rt has those over
// files that reach beyond one proof, store_forms.rt those over stores.

ghost use Rattle.std.specs.Prelude.{◌≡◌, ◌∷◌, map, IfOk};
ghost use Rattle.std.specs.String.{string_bytes};
ghost use Rattle.tw_words.specs.CommandLine as forms;
ghost use Rattle.tw_words.specs.declared.command.Command.TheVariants as Command;
ghost use Rattle.tw_words.specs.Forms.{form_named};
ghost use Rattle.tw_words.specs.Takings.{MakesCommand, MakesNamed};

use crate::command::Command;
use crate::cursor::{Stop, Words, or_further};
use crate::limits::MOST_GENERATED;
use crate::paths::{push_path, push_paths};
use std::alloc::Global;
use tw_base::limits::LAST_STEP;
use tw_base::{NoMemory, Sequence, Thread};
use tw_text::FilePath;

/// The command of the form over files alone that the word names, of the words behind it; None where it names none of them.
pub(crate) fn file_command(
    alloc: Global,
    word: &str,
    behind: Words<'_>,
) -> Option<Result<Command, Stop>>
    ensures { MakesNamed (form_named forms.file_commands word.now) (map string_bytes behind.entry.left.now) result }
{
    match word {
        "show" => Some(show(alloc, behind)),
        "join" => Some(join(alloc, behind)),
        "verify" => Some(verify(alloc, behind)),
        "strict" => Some(strict(alloc, behind)),
        "replay" => Some(replay(alloc, behind)),
        "generate" => Some(generate(behind)),
        _ => None,
    }
}

/// `show HISTORY STEP INDEX`
#[tactic(auto, unfolding(crate::specs::CommandLine::show))]
fn show(alloc: Global, mut words: Words<'_>) -> Result<Command, Stop>
    ensures { MakesCommand (forms.show (map string_bytes words.entry.left.now)) result }
{
    let history = words.path()?;
    let step = words.number(0, u64::MAX)?;
    let index = words.number(0, u64::MAX)?;
    words.end()?;
    let history = FilePath::new(alloc, history)?;
    Ok(Command::Show {
        history,
        step,
        index,
    })
}

/// `join FILE FILE ..`
#[tactic(auto, unfolding(crate::specs::CommandLine::join))]
fn join(alloc: Global, mut words: Words<'_>) -> Result<Command, Stop>
    ensures { MakesCommand (forms.join (map string_bytes words.entry.left.now)) result }
{
    let one = words.path()?;
    let two = words.path()?;
    let more = words.paths(words.left.len())?;
    Ok(join_of(alloc, one, two, more)?)
}

/// The command that joins the files of these paths.
fn join_of(alloc: Global, one: &str, two: &str, more: &[String]) -> Result<Command, NoMemory>
    ensures { IfOk result (λ command. command ≡ Command.Join (one.now ∷ two.now ∷ map string_bytes more.now)) }
{
    let mut files = Sequence::new(alloc);
    push_path(alloc, &mut files, one)?;
    push_path(alloc, &mut files, two)?;
    push_paths(alloc, &mut files, more)?;
    Ok(Command::Join { files })
}

/// `verify PROOF ANCHORS`, and else `verify PROOF NAME POS HEX`
#[tactic(auto, unfolding(crate::specs::CommandLine::verify))]
fn verify(alloc: Global, mut words: Words<'_>) -> Result<Command, Stop>
    ensures { MakesCommand (forms.verify (map string_bytes words.entry.left.now)) result }
{
    let proof = words.path()?;
    match verify_file(alloc, proof, words) {
        Err(Stop::At { left }) => or_further(left, verify_one(alloc, proof, words)),
        done => done,
    }
}

/// `ANCHORS`, behind `verify PROOF`
#[tactic(auto, unfolding(crate::specs::CommandLine::verify_file))]
fn verify_file(alloc: Global, proof: &str, mut words: Words<'_>) -> Result<Command, Stop>
    ensures { MakesCommand (forms.verify_file proof.now (map string_bytes words.entry.left.now)) result }
{
    let anchors = words.path()?;
    words.end()?;
    let proof = FilePath::new(alloc, proof)?;
    let anchors = FilePath::new(alloc, anchors)?;
    Ok(Command::VerifyFile { proof, anchors })
}

/// `NAME POS HEX`, behind `verify PROOF`
#[tactic(auto, unfolding(crate::specs::CommandLine::verify_one))]
fn verify_one(alloc: Global, proof: &str, mut words: Words<'_>) -> Result<Command, Stop>
    ensures { MakesCommand (forms.verify_one proof.now (map string_bytes words.entry.left.now)) result }
{
    let from = words.name()?;
    let step = words.number(1, LAST_STEP)?;
    let auth = words.digest()?;
    words.end()?;
    let proof = FilePath::new(alloc, proof)?;
    let anchor = Thread { from, step, auth };
    Ok(Command::VerifyOne { proof, anchor })
}

/// `strict PROOF ANCHORS`
#[tactic(auto, unfolding(crate::specs::CommandLine::strict))]
fn strict(alloc: Global, mut words: Words<'_>) -> Result<Command, Stop>
    ensures { MakesCommand (forms.strict (map string_bytes words.entry.left.now)) result }
{
    let proof = words.path()?;
    let anchors = words.path()?;
    words.end()?;
    let proof = FilePath::new(alloc, proof)?;
    let anchors = FilePath::new(alloc, anchors)?;
    Ok(Command::Strict { proof, anchors })
}

/// `replay FILE`
#[tactic(auto, unfolding(crate::specs::CommandLine::replay))]
fn replay(alloc: Global, mut words: Words<'_>) -> Result<Command, Stop>
    ensures { MakesCommand (forms.replay (map string_bytes words.entry.left.now)) result }
{
    let file = words.path()?;
    words.end()?;
    let file = FilePath::new(alloc, file)?;
    Ok(Command::Replay { file })
}

/// `generate NUMBER STEPS`
#[tactic(auto, unfolding(crate::specs::CommandLine::generate))]
fn generate(mut words: Words<'_>) -> Result<Command, Stop>
    ensures { MakesCommand (forms.generate (map string_bytes words.entry.left.now)) result }
{
    let number = words.number(0, u64::MAX)?;
    let steps = words.number(1, MOST_GENERATED)?;
    words.end()?;
    Ok(Command::Generate { number, steps })
}
