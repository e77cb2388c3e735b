// What one word of a script's line can say beyond a name: a number, bytes, and what a crash leaves.

ghost use Rattle.std.specs.Prelude.{◌≡◌};
ghost use Rattle.std.specs.Str.{bytes_eq};
ghost use Rattle.tw_script.specs.LineWords.{bytes_value, choice_value};
ghost use Rattle.tw_script.specs.Takings.{ReadsWords};

use crate::line::CrashChoice;
use crate::stop::Stop;
use hex::FromHexError;
use std::alloc::Global;
use tw_base::Bytes;

/// The bytes that the word is: two hexadecimal digits of either case for each, and `-` for none.
pub(crate) fn bytes_of(alloc: Global, word: &[u8]) -> Result<Bytes, Stop>
    ensures { ReadsWords (bytes_value word.now) (λ bytes. bytes) result }
{
    if is(word, b"-") {
        return Ok(Bytes::new(alloc));
    }
    if word.is_empty() {
        return Err(Stop::NotAllowed);
    }
    match hex::decode(alloc, word) {
        Ok(bytes) => Ok(Bytes::from_vec(bytes)),
        Err(FromHexError::OutOfMemory) => Err(Stop::NoMemory),
        Err(_) => Err(Stop::NotAllowed),
    }
}

/// What the word says that a crash leaves.
pub(crate) fn choice_of(word: &[u8]) -> Option<CrashChoice>
    ensures { result ≡ choice_value word.now }
{
    if is(word, b"0") {
        Some(CrashChoice::Old)
    } else if is(word, b"1") {
        Some(CrashChoice::New)
    } else if is(word, b"2") {
        Some(CrashChoice::Zeros)
    } else if is(word, b"3") {
        Some(CrashChoice::Ones)
    } else {
        None
    }
}

/// Whether the word is this one.
pub(crate) fn is(word: &[u8], other: &[u8]) -> bool
    ensures { result ≡ bytes_eq word.now other.now }
{
    word == other
}
