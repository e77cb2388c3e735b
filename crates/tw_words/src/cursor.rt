// Walking over the words of a command line: each is read once, as the value that a form has at its place.

ghost use Rattle.std.specs.Prelude.{◌≡◌, ◌≤◌, ℕ, List, Err, IfOk, IfSome, map, length};
ghost use Rattle.std.specs.String.{string_bytes};
ghost use Rattle.tw_base.specs.declared.kinds.limits.TheConstants.{LAST_TIME};
ghost use Rattle.tw_words.specs.Forms.{Form, count_paths as count_paths_of, digest_value, either, maybe_number, name_value, no_words, number_value, path_value, paths};
ghost use Rattle.tw_words.specs.declared.cursor.Stop.TheVariants as Stop;
ghost use Rattle.tw_words.specs.Takings.{MakesCommand, ReadsWords, TakesWords};

use crate::command::Command;
use tw_base::limits::LAST_TIME;
use tw_base::{Digest, Name, NoMemory};
use tw_text::{ClaimedTime, read_digest, read_number};

/// Why a form makes no command of words.
#[derive(Clone, Copy, Debug, Drop)]
pub enum Stop {
    /// It doesn't go on at the word from which on so many are left; none where words are missing.
    At { left: usize },
    /// There was no memory for the command.
    NoMemory,
}

impl From<NoMemory> for Stop {
    ghost from_gives = { λ _ stop. stop ≡ Stop.NoMemory };

    fn from(_refused: NoMemory) -> Self {
        Stop::NoMemory
    }
}

/// What the second of two forms answers, where the first stopped with so many words left.
pub(crate) fn or_further(left: usize, second: Result<Command, Stop>) -> Result<Command, Stop>
    ensures { (one other : Form) (words : List (List ℕ)) → one words ≡ Err left → MakesCommand (other words) second → MakesCommand (either one other words) result }
{
    match second {
        Err(Stop::At { left: other }) => Err(Stop::At {
            left: left.min(other),
        }),
        done => done,
    }
}

/// The words that are left.
#[derive(Clone, Copy, Drop)]
pub struct Words<'a> {
    pub left: &'a [String],
}

impl<'a> Words<'a> {
    /// Takes a path: any word of at least one byte.
    #[tactic(auto, unfolding(crate::specs::Forms::next))]
    pub fn path(&mut self) -> Result<&'a str, Stop>
        ensures { TakesWords path_value (λ path. path.now) (map string_bytes self.old.left.now) (map string_bytes self.new.left.now) result }
    {
        let Some((word, words)) = self.left.split_first() else {
            return Err(self.stop());
        };
        if word.is_empty() {
            return Err(self.stop());
        }
        self.left = words;
        Ok(word.as_str())
    }

    /// Takes the name of a service.
    #[tactic(auto, unfolding(crate::specs::Forms::next))]
    pub fn name(&mut self) -> Result<Name, Stop>
        ensures { TakesWords name_value (λ name. name) (map string_bytes self.old.left.now) (map string_bytes self.new.left.now) result }
    {
        let Some((word, words)) = self.left.split_first() else {
            return Err(self.stop());
        };
        let Some(name) = Name::read(word.as_bytes()) else {
            return Err(self.stop());
        };
        self.left = words;
        Ok(name)
    }

    /// Takes a number within the range.
    #[tactic(auto, unfolding(crate::specs::Forms::next))]
    pub fn number(&mut self, least: u64, most: u64) -> Result<u64, Stop>
        ensures takes { TakesWords (number_value least most) (λ n. n) (map string_bytes self.old.left.now) (map string_bytes self.new.left.now) result }
        ensures range { IfOk result (λ n. (least ≤ n) × (n ≤ most)) }
    {
        let Some((word, words)) = self.left.split_first() else {
            return Err(self.stop());
        };
        let Some(number) = number_within(word.as_bytes(), least, most) else {
            return Err(self.stop());
        };
        self.left = words;
        Ok(number)
    }

    /// Takes a digest in hexadecimal digits of either case.
    #[tactic(auto, unfolding(crate::specs::Forms::next))]
    pub fn digest(&mut self) -> Result<Digest, Stop>
        ensures { TakesWords digest_value (λ digest. digest) (map string_bytes self.old.left.now) (map string_bytes self.new.left.now) result }
    {
        let Some((word, words)) = self.left.split_first() else {
            return Err(self.stop());
        };
        let Some(digest) = read_digest(word.as_bytes()) else {
            return Err(self.stop());
        };
        self.left = words;
        Ok(digest)
    }

    /// That there are no more words.
    #[tactic(auto, unfolding(crate::specs::Forms::no_words))]
    pub fn end(&self) -> Result<(), Stop>
        ensures { ReadsWords (no_words (map string_bytes self.now.left.now)) (λ done. done) result }
    {
        if self.left.is_empty() {
            Ok(())
        } else {
            Err(self.stop())
        }
    }

    /// One more word, which is a number of 64 bits, or none.
    #[tactic(auto, unfolding(crate::specs::Forms::maybe_number))]
    pub fn maybe_number(&mut self) -> Result<Option<u64>, Stop>
        ensures { ReadsWords (maybe_number 0xffff_ffff_ffff_ffff (map string_bytes self.old.left.now)) (λ number. number) result }
    {
        if self.left.is_empty() {
            return Ok(None);
        }
        let number = self.number(0, u64::MAX)?;
        self.end()?;
        Ok(Some(number))
    }

    /// One more word, which is a time, or none.
    #[tactic(auto, unfolding(crate::specs::Forms::maybe_number))]
    pub fn maybe_time(&mut self) -> Result<Option<ClaimedTime>, Stop>
        ensures { ReadsWords (maybe_number LAST_TIME (map string_bytes self.old.left.now)) (λ time. time) result }
    {
        if self.left.is_empty() {
            return Ok(None);
        }
        let seconds = self.number(0, LAST_TIME)?;
        self.end()?;
        Ok(Some(ClaimedTime::new(seconds)))
    }

    /// The words, all of them paths, and at most so many.
    #[tactic(auto, unfolding(crate::specs::Forms::paths))]
    pub fn paths(&self, most: usize) -> Result<&'a [String], Stop>
        ensures { ReadsWords (paths most (map string_bytes self.now.left.now)) (λ words. map string_bytes words.now) result }
    {
        let taken = most.min(count_paths(self.left));
        if taken == self.left.len() {
            Ok(self.left)
        } else {
            Err(Stop::At {
                left: self.left.len() - taken,
            })
        }
    }

    /// That no form goes on at the first of the words.
    pub fn stop(&self) -> Stop
        ensures { result ≡ Stop.At (length self.now.left.now) }
    {
        Stop::At {
            left: self.left.len(),
        }
    }
}

/// How many words, from the first on, are paths.
fn count_paths(words: &[String]) -> usize
    ensures count { result ≡ count_paths_of (map string_bytes words.now) }
    ensures within { result ≤ length words.now }
{
    for (i, word) in words.iter().enumerate() {
        if word.is_empty() {
            return i;
        }
    }
    words.len()
}

/// The number that the text is, if it is one within the range.
pub fn number_within(text: &[u8], least: u64, most: u64) -> Option<u64>
    ensures value { result ≡ number_value least most text.now }
    ensures range { IfSome result (λ n. (least ≤ n) × (n ≤ most)) }
{
    read_number(text).filter(|n| least <= *n && *n <= most)
}
