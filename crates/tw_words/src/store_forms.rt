// The forms of `init`, `append`, `thread`, `receive`, `prove`, `map`, `export`, `watch`, `offer` and `heads`, behind their first
// word; those over files are in file_forms.rt and reach_forms.rt, those of a script's `prove` line in tw_script. A step of a peer is
// one from 1 to 2^40 - 1 by its form; which steps of its own there are, the service tells.

ghost use Rattle.std.specs.Prelude.{map};
ghost use Rattle.std.specs.String.{string_bytes};
ghost use Rattle.tw_words.specs.CommandLine as forms;
ghost use Rattle.tw_words.specs.Forms.{form_named};
ghost use Rattle.tw_words.specs.Takings.{MakesCommand, MakesNamed};

use crate::command::Command;
use crate::cursor::{Stop, Words};
use std::alloc::Global;
use tw_base::limits::LAST_STEP;
use tw_text::FilePath;

/// The command of the form over a store that the word names, of the words behind it; None where it names none of them.
pub(crate) fn store_command(
    alloc: Global,
    word: &str,
    behind: Words<'_>,
) -> Option<Result<Command, Stop>>
    ensures { MakesNamed (form_named forms.store_commands word.now) (map string_bytes behind.entry.left.now) result }
{
    match word {
        "init" => Some(init(behind)),
        "append" => Some(append(alloc, behind)),
        "thread" => Some(thread(behind)),
        "receive" => Some(receive(alloc, behind)),
        "prove" => Some(prove(behind)),
        "map" => Some(map(behind)),
        "export" => Some(export(behind)),
        "watch" => Some(watch(behind)),
        "offer" => Some(offer(alloc, behind)),
        "heads" => Some(heads(behind)),
        _ => None,
    }
}

/// `init DIR NAME`
#[tactic(auto, unfolding(crate::specs::CommandLine::init))]
fn init(mut words: Words<'_>) -> Result<Command, Stop>
    ensures { MakesCommand (forms.init (map string_bytes words.entry.left.now)) result }
{
    words.path()?;
    let name = words.name()?;
    words.end()?;
    Ok(Command::Init { name })
}

/// `append DIR FILE [TIME]`
#[tactic(auto, unfolding(crate::specs::CommandLine::append))]
fn append(alloc: Global, mut words: Words<'_>) -> Result<Command, Stop>
    ensures { MakesCommand (forms.append (map string_bytes words.entry.left.now)) result }
{
    words.path()?;
    let file = words.path()?;
    let time = words.maybe_time()?;
    let file = FilePath::new(alloc, file)?;
    Ok(Command::Append { file, time })
}

/// `thread DIR SINCE`
#[tactic(auto, unfolding(crate::specs::CommandLine::thread))]
fn thread(mut words: Words<'_>) -> Result<Command, Stop>
    ensures { MakesCommand (forms.thread (map string_bytes words.entry.left.now)) result }
{
    words.path()?;
    let since = words.number(0, u64::MAX)?;
    words.end()?;
    Ok(Command::Thread { since })
}

/// `receive DIR FILE [TIME]`
#[tactic(auto, unfolding(crate::specs::CommandLine::receive))]
fn receive(alloc: Global, mut words: Words<'_>) -> Result<Command, Stop>
    ensures { MakesCommand (forms.receive (map string_bytes words.entry.left.now)) result }
{
    words.path()?;
    let file = words.path()?;
    let time = words.maybe_time()?;
    let file = FilePath::new(alloc, file)?;
    Ok(Command::Receive { file, time })
}

/// `prove DIR event`, `thread`, `absent` or `link`, each with what its kind has
#[tactic(auto, unfolding(crate::specs::CommandLine::prove, crate::specs::Forms::next))]
fn prove(mut words: Words<'_>) -> Result<Command, Stop>
    ensures { MakesCommand (forms.prove (map string_bytes words.entry.left.now)) result }
{
    words.path()?;
    let Some((kind, left)) = words.left.split_first() else {
        return Err(words.stop());
    };
    match kind.as_str() {
        "event" => prove_event(Words { left }),
        "thread" => prove_thread(Words { left }),
        "absent" => prove_absent(Words { left }),
        "link" => prove_link(Words { left }),
        _ => Err(words.stop()),
    }
}

/// `STEP INDEX [TOP]`
#[tactic(auto, unfolding(crate::specs::CommandLine::prove_event))]
fn prove_event(mut words: Words<'_>) -> Result<Command, Stop>
    ensures { MakesCommand (forms.prove_event (map string_bytes words.entry.left.now)) result }
{
    let step = words.number(0, u64::MAX)?;
    let index = words.number(0, u64::MAX)?;
    let top = words.maybe_number()?;
    Ok(Command::ProveEvent { step, index, top })
}

/// `STEP PEER K [TOP]`
#[tactic(auto, unfolding(crate::specs::CommandLine::prove_thread))]
fn prove_thread(mut words: Words<'_>) -> Result<Command, Stop>
    ensures { MakesCommand (forms.prove_thread (map string_bytes words.entry.left.now)) result }
{
    let step = words.number(0, u64::MAX)?;
    let peer = words.name()?;
    let k = words.number(1, LAST_STEP)?;
    let top = words.maybe_number()?;
    Ok(Command::ProveThread { step, peer, k, top })
}

/// `STEP PEER K [TOP]`
#[tactic(auto, unfolding(crate::specs::CommandLine::prove_absent))]
fn prove_absent(mut words: Words<'_>) -> Result<Command, Stop>
    ensures { MakesCommand (forms.prove_absent (map string_bytes words.entry.left.now)) result }
{
    let step = words.number(0, u64::MAX)?;
    let peer = words.name()?;
    let k = words.number(1, LAST_STEP)?;
    let top = words.maybe_number()?;
    Ok(Command::ProveAbsent { step, peer, k, top })
}

/// `STEP [TOP]`
#[tactic(auto, unfolding(crate::specs::CommandLine::prove_link))]
fn prove_link(mut words: Words<'_>) -> Result<Command, Stop>
    ensures { MakesCommand (forms.prove_link (map string_bytes words.entry.left.now)) result }
{
    let step = words.number(0, u64::MAX)?;
    let top = words.maybe_number()?;
    Ok(Command::ProveLink { step, top })
}

/// `map DIR low` or `high`, each with what its bound has
#[tactic(auto, unfolding(crate::specs::CommandLine::map, crate::specs::Forms::next))]
fn map(mut words: Words<'_>) -> Result<Command, Stop>
    ensures { MakesCommand (forms.map (map string_bytes words.entry.left.now)) result }
{
    words.path()?;
    let Some((bound, left)) = words.left.split_first() else {
        return Err(words.stop());
    };
    match bound.as_str() {
        "low" => map_low(Words { left }),
        "high" => map_high(Words { left }),
        _ => Err(words.stop()),
    }
}

/// `STEP PEER [TOP]`
#[tactic(auto, unfolding(crate::specs::CommandLine::map_low))]
fn map_low(mut words: Words<'_>) -> Result<Command, Stop>
    ensures { MakesCommand (forms.map_low (map string_bytes words.entry.left.now)) result }
{
    let step = words.number(0, u64::MAX)?;
    let peer = words.name()?;
    let top = words.maybe_number()?;
    Ok(Command::MapLow { step, peer, top })
}

/// `POS PEER [TOP]`
#[tactic(auto, unfolding(crate::specs::CommandLine::map_high))]
fn map_high(mut words: Words<'_>) -> Result<Command, Stop>
    ensures { MakesCommand (forms.map_high (map string_bytes words.entry.left.now)) result }
{
    let pos = words.number(1, LAST_STEP)?;
    let peer = words.name()?;
    let top = words.maybe_number()?;
    Ok(Command::MapHigh { pos, peer, top })
}

/// `export DIR`
#[tactic(auto, unfolding(crate::specs::CommandLine::export))]
fn export(mut words: Words<'_>) -> Result<Command, Stop>
    ensures { MakesCommand (forms.export (map string_bytes words.entry.left.now)) result }
{
    words.path()?;
    words.end()?;
    Ok(Command::Export)
}

/// `watch DIR NAME`
#[tactic(auto, unfolding(crate::specs::CommandLine::watch))]
fn watch(mut words: Words<'_>) -> Result<Command, Stop>
    ensures { MakesCommand (forms.watch (map string_bytes words.entry.left.now)) result }
{
    words.path()?;
    let name = words.name()?;
    words.end()?;
    Ok(Command::Watch { name })
}

/// `offer DIR FILE`
#[tactic(auto, unfolding(crate::specs::CommandLine::offer))]
fn offer(alloc: Global, mut words: Words<'_>) -> Result<Command, Stop>
    ensures { MakesCommand (forms.offer (map string_bytes words.entry.left.now)) result }
{
    words.path()?;
    let file = words.path()?;
    words.end()?;
    let file = FilePath::new(alloc, file)?;
    Ok(Command::Offer { file })
}

/// `heads DIR`
#[tactic(auto, unfolding(crate::specs::CommandLine::heads))]
fn heads(mut words: Words<'_>) -> Result<Command, Stop>
    ensures { MakesCommand (forms.heads (map string_bytes words.entry.left.now)) result }
{
    words.path()?;
    words.end()?;
    Ok(Command::Heads)
}
