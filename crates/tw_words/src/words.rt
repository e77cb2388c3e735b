// Reading the words of the command line as a command, by the form that the first one names; timeweave/src/words.rt reads the
// words themselves.

ghost use Rattle.std.specs.Prelude.{◌≡◌, map, IfNone, IfOk, IfSome, IsErrAnd, MatchResult};
ghost use Rattle.std.specs.String.{string_bytes};
ghost use Rattle.tw_words.specs.CommandLine.{IsBadWord, command_of, commands};
ghost use Rattle.tw_words.specs.Forms.{choose_form};
ghost use Rattle.tw_words.specs.Ranges.{IsWithinRanges};
ghost use Rattle.tw_words.specs.Takings.{MakesCommand};

use crate::command::Command;
use crate::cursor::{Stop, Words};
use crate::file_forms::file_command;
use crate::reach_forms::reach_command;
use crate::store_forms::store_command;
use std::alloc::Global;

/// Why words are no command.
#[derive(Clone, Copy, PartialEq, Eq, Debug, Drop)]
pub enum WordFault {
    /// No form of the command line goes on at this word, counted from 1. It is one more than there
    /// are words where words are missing.
    BadWord { number: u64 },
    /// There was no memory for the command.
    NoMemory,
}

/// The command that the words have a form of. NoMemory never comes where they have none.
pub fn read_words(alloc: Global, words: &[String]) -> Result<Command, WordFault>
    // Words that have a form are the command of that form.
    ensures form { IfSome (command_of (map string_bytes words.now)) (λ command. MatchResult result (λ c. c ≡ command) (λ e. e ≡ WordFault.NoMemory)) }
    // The numbers of a command lie in the ranges that its form has for them.
    ensures ranges { IfOk result IsWithinRanges }
    // Of words that have none the fault names the first word at which no form goes on.
    ensures no_form { IfNone (command_of (map string_bytes words.now)) (IsErrAnd result (IsBadWord (map string_bytes words.now))) }
{
    match command(alloc, Words { left: words }) {
        Ok(command) => Ok(command),
        Err(Stop::NoMemory) => Err(WordFault::NoMemory),
        Err(Stop::At { left }) => Err(WordFault::BadWord {
            number: (words.len() - left) as u64 + 1,
        }),
    }
}

/// The command of the form that the first word names.
#[tactic(auto, unfolding(crate::specs::Forms::next))]
fn command(alloc: Global, words: Words<'_>) -> Result<Command, Stop>
    ensures { MakesCommand (choose_form commands (map string_bytes words.entry.left.now)) result }
{
    let Some((word, left)) = words.left.split_first() else {
        return Err(words.stop());
    };
    let (word, behind) = (word.as_str(), Words { left });
    if let Some(made) = store_command(alloc, word, behind) {
        return made;
    }
    if let Some(made) = file_command(alloc, word, behind) {
        return made;
    }
    match reach_command(alloc, word, behind) {
        Some(made) => made,
        None => Err(words.stop()),
    }
}
