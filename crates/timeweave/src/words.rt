// Reading the arguments of the program, each a word of the command line; tw_words/src/words.rt makes a command of them.

ghost use Rattle.std.specs.Option.{option_map};
ghost use Rattle.std.specs.Prelude.{◌<◌, ◌≤◌, ◌^◌, ℕ, List, Option, length, map, string_bytes, IfOk, IfSome};
ghost use Rattle.timeweave.specs.Arguments.{AreWordsRead, Fills, IsTextRead, IsWordRead};

use std::alloc::Global;
use std::env::{Env, FillError};
use tw_base::NoMemory;

/// The words that a program was started with, its own name first.
pub trait Arguments {
    /// The words; none where they aren't told.
    ghost told: { Self → Option (List (List ℕ)) };

    /// Puts the word of this number at the buffer's front, and answers its length.
    fn fill(&self, number: usize, into: &mut [u8]) -> Result<usize, FillError>
        ensures bound { IfOk result (λ n. n ≤ length into.new) }
        ensures word { IfSome (told self.now) (λ words. Fills words number into.new result) };
}

/// Those of the system. It tells nothing of them: that they are as `Arguments` says is trusted.
#[derive(Drop)]
pub struct SystemArguments<'a, R> {
    pub rt: &'a R,
}

impl<R: Env> Arguments for SystemArguments<'_, R> {
    ghost use Rattle.std.specs.Prelude.{None};

    ghost told = { λ _. None };

    fn fill(&self, number: usize, into: &mut [u8]) -> Result<usize, FillError> {
        self.rt.arg(number, into)
    }
}

/// The words after the program's own name. A word that isn't UTF-8 is given as the empty word, which
/// stands in no command.
pub fn read_arguments<A: Arguments>(alloc: Global, arguments: &A) -> Result<Vec<String>, NoMemory>
    ensures { IfOk result (λ read. IfSome (A.told arguments.now) (λ words. length words < 2 ^ 64 → AreWordsRead words (map string_bytes read.items))) }
{
    let mut words = Vec::new(alloc);
    for number in 1..usize::MAX {
        match read_argument(alloc, arguments, number)? {
            Some(word) => words.push(word)?,
            None => return Ok(words),
        }
    }
    Ok(words)
}

/// The argument of this number, if there is one: read into a buffer of 256 bytes, which is doubled until it fits.
fn read_argument<A: Arguments>(
    alloc: Global,
    arguments: &A,
    number: usize,
) -> Result<Option<String>, NoMemory>
    ensures { IfOk result (λ word. IfSome (A.told arguments.now) (λ words. IsWordRead words number (option_map string_bytes word))) }
{
    let mut size = 256usize;
    for _ in 0..usize::BITS {
        let mut bytes = Vec::new(alloc);
        bytes.resize(size, 0u8)?;
        match arguments.fill(number, bytes.as_mut_slice()) {
            Ok(length) => {
                bytes.truncate(length);
                return Ok(Some(text_of(alloc, bytes)));
            }
            Err(FillError::NotPresent) => return Ok(None),
            Err(FillError::TooLong) => size = size.saturating_add(size),
        }
    }
    Err(NoMemory)
}

/// The bytes as text, and the empty text where they aren't UTF-8.
fn text_of(alloc: Global, bytes: Vec<u8>) -> String
    ensures { IsTextRead bytes.items (string_bytes result) }
{
    match String::from_utf8(bytes) {
        Ok(text) => text,
        Err(_) => String::new(alloc),
    }
}
