// The forms of commands over files that reach beyond one proof, behind their first word: `checkmap`, `audit`, `atlas`, `accuse`,
// `checkfork` and `adopt`.

ghost use Rattle.std.specs.Prelude.{◌≡◌, map, IfOk};
ghost use Rattle.std.specs.String.{string_bytes};
ghost use Rattle.tw_words.specs.CommandLine as forms;
ghost use Rattle.tw_words.specs.declared.command.Command.TheVariants as Command;
ghost use Rattle.tw_words.specs.Forms.{form_named};
ghost use Rattle.tw_words.specs.Takings.{MakesCommand, MakesNamed};

use crate::command::Command;
use crate::cursor::{Stop, Words, or_further};
use crate::limits::{MOST_ADOPTING, MOST_HISTORIES, MOST_RECEIPT_FILES};
use crate::paths::{paths_of, push_paths};
use std::alloc::Global;
use tw_base::limits::LAST_STEP;
use tw_base::{NoMemory, Sequence};
use tw_text::FilePath;

/// The command of the form over files that reach beyond one proof that the word names, of the words behind it; None where it names none of them.
pub(crate) fn reach_command(
    alloc: Global,
    word: &str,
    behind: Words<'_>,
) -> Option<Result<Command, Stop>>
    ensures { MakesNamed (form_named forms.reach_commands word.now) (map string_bytes behind.entry.left.now) result }
{
    match word {
        "checkmap" => Some(check_map(alloc, behind)),
        "audit" => Some(audit(alloc, behind)),
        "atlas" => Some(atlas(alloc, behind)),
        "accuse" => Some(accuse(alloc, behind)),
        "checkfork" => Some(check_fork(alloc, behind)),
        "adopt" => Some(adopt(alloc, behind)),
        _ => None,
    }
}

/// `checkmap LOW HIGH ANCHORS`
#[tactic(auto, unfolding(crate::specs::CommandLine::check_map))]
fn check_map(alloc: Global, mut words: Words<'_>) -> Result<Command, Stop>
    ensures { MakesCommand (forms.check_map (map string_bytes words.entry.left.now)) result }
{
    let low = words.path()?;
    let high = words.path()?;
    let anchors = words.path()?;
    words.end()?;
    Ok(Command::CheckMap {
        low: FilePath::new(alloc, low)?,
        high: FilePath::new(alloc, high)?,
        anchors: FilePath::new(alloc, anchors)?,
    })
}

/// `audit PROOF ANCHORS HISTORY ..`
#[tactic(auto, unfolding(crate::specs::CommandLine::audit))]
fn audit(alloc: Global, mut words: Words<'_>) -> Result<Command, Stop>
    ensures { MakesCommand (forms.audit (map string_bytes words.entry.left.now)) result }
{
    let proof = words.path()?;
    let anchors = words.path()?;
    let one = words.path()?;
    let more = words.paths(MOST_HISTORIES - 1)?;
    let histories = paths_of(alloc, one, more)?;
    Ok(audit_of(alloc, proof, anchors, histories)?)
}

/// The command that audits the proof of this path under the anchors of that one, over these histories.
fn audit_of(
    alloc: Global,
    proof: &str,
    anchors: &str,
    histories: Sequence<FilePath>,
) -> Result<Command, NoMemory>
    ensures { IfOk result (λ command. command ≡ Command.Audit proof.now anchors.now histories) }
{
    Ok(Command::Audit {
        proof: FilePath::new(alloc, proof)?,
        anchors: FilePath::new(alloc, anchors)?,
        histories,
    })
}

/// `atlas NAME POS FILE ..`
#[tactic(auto, unfolding(crate::specs::CommandLine::atlas))]
fn atlas(alloc: Global, mut words: Words<'_>) -> Result<Command, Stop>
    ensures { MakesCommand (forms.atlas (map string_bytes words.entry.left.now)) result }
{
    let name = words.name()?;
    let pos = words.number(1, LAST_STEP)?;
    let one = words.path()?;
    let more = words.paths(MOST_RECEIPT_FILES - 1)?;
    let files = paths_of(alloc, one, more)?;
    Ok(Command::Atlas { name, pos, files })
}

/// `accuse PROOF PROOF`, and else `accuse PROOF PROOF LINK`
#[tactic(auto, unfolding(crate::specs::CommandLine::accuse))]
fn accuse(alloc: Global, mut words: Words<'_>) -> Result<Command, Stop>
    ensures { MakesCommand (forms.accuse (map string_bytes words.entry.left.now)) result }
{
    let first = words.path()?;
    let second = words.path()?;
    match accuse_two(alloc, first, second, words) {
        Err(Stop::At { left }) => or_further(left, accuse_linked(alloc, first, second, words)),
        done => done,
    }
}

/// No more words, behind `accuse PROOF PROOF`
#[tactic(auto, unfolding(crate::specs::CommandLine::accuse_two))]
fn accuse_two(alloc: Global, first: &str, second: &str, words: Words<'_>) -> Result<Command, Stop>
    ensures { MakesCommand (forms.accuse_two first.now second.now (map string_bytes words.entry.left.now)) result }
{
    words.end()?;
    Ok(Command::Accuse {
        first: FilePath::new(alloc, first)?,
        second: FilePath::new(alloc, second)?,
        link: None,
    })
}

/// `LINK`, behind `accuse PROOF PROOF`
#[tactic(auto, unfolding(crate::specs::CommandLine::accuse_linked))]
fn accuse_linked(
    alloc: Global,
    first: &str,
    second: &str,
    mut words: Words<'_>,
) -> Result<Command, Stop>
    ensures { MakesCommand (forms.accuse_linked first.now second.now (map string_bytes words.entry.left.now)) result }
{
    let link = words.path()?;
    words.end()?;
    Ok(Command::Accuse {
        first: FilePath::new(alloc, first)?,
        second: FilePath::new(alloc, second)?,
        link: Some(FilePath::new(alloc, link)?),
    })
}

/// `checkfork FILE ANCHORS`
#[tactic(auto, unfolding(crate::specs::CommandLine::check_fork))]
fn check_fork(alloc: Global, mut words: Words<'_>) -> Result<Command, Stop>
    ensures { MakesCommand (forms.check_fork (map string_bytes words.entry.left.now)) result }
{
    let file = words.path()?;
    let anchors = words.path()?;
    words.end()?;
    let file = FilePath::new(alloc, file)?;
    let anchors = FilePath::new(alloc, anchors)?;
    Ok(Command::CheckFork { file, anchors })
}

/// `adopt HISTORY ANCHORS PROOF ..`
#[tactic(auto, unfolding(crate::specs::CommandLine::adopt))]
fn adopt(alloc: Global, mut words: Words<'_>) -> Result<Command, Stop>
    ensures { MakesCommand (forms.adopt (map string_bytes words.entry.left.now)) result }
{
    let history = words.path()?;
    let anchors = words.path()?;
    let proof = words.path()?;
    let others = words.paths(MOST_ADOPTING - 1)?;
    let mut more = Sequence::new(alloc);
    push_paths(alloc, &mut more, others)?;
    Ok(adopt_of(alloc, history, anchors, proof, more)?)
}

/// The command that takes over the history of this path under the anchors of that one, as far as these proofs show it.
fn adopt_of(
    alloc: Global,
    history: &str,
    anchors: &str,
    proof: &str,
    more: Sequence<FilePath>,
) -> Result<Command, NoMemory>
    ensures { IfOk result (λ command. command ≡ Command.Adopt history.now anchors.now proof.now more) }
{
    Ok(Command::Adopt {
        history: FilePath::new(alloc, history)?,
        anchors: FilePath::new(alloc, anchors)?,
        proof: FilePath::new(alloc, proof)?,
        more,
    })
}
