// Going over the words of a line: each is read once, as the value that a form has at its place; tw_words/src/cursor.rt goes so
// over those of a command line.

ghost use Rattle.std.specs.Prelude.{◌≡◌, ◌≤◌, ◌∷◌, [], IfOk, MatchOption};
ghost use Rattle.tw_script.specs.LineForms.{all_values, any_number_value, maybe_number, no_words};
ghost use Rattle.tw_script.specs.LineWords.{bytes_value, choice_value};
ghost use Rattle.tw_script.specs.Takings.{ReadsWords, TakesWords, words_left};
ghost use Rattle.tw_words.specs.Forms.{name_value, number_value};

use crate::line::CrashChoice;
use crate::parts::Parts;
use crate::stop::Stop;
use crate::word_values::{bytes_of, choice_of};
use std::alloc::Global;
use tw_base::{Bytes, EventList, Name, Sequence};
use tw_words::number_within;

/// The words that are left of a line, which are its parts between blanks.
pub type Words<'a> = Parts<'a>;

impl<'a> Parts<'a> {
    /// Takes a word.
    pub fn word(&mut self) -> Option<&'a [u8]>
        ensures { MatchOption result
            (words_left self.old.more self.old.text.now ≡ [])
            (λ word. words_left self.old.more self.old.text.now ≡ word.now ∷ words_left self.new.more self.new.text.now) }
    {
        self.next(b' ')
    }

    /// Takes a name.
    #[tactic(auto, unfolding(crate::specs::LineForms::next))]
    pub fn name(&mut self) -> Result<Name, Stop>
        ensures { TakesWords name_value (λ name. name)
            (words_left self.old.more self.old.text.now) (words_left self.new.more self.new.text.now) result }
    {
        let Some(word) = self.word() else {
            return Err(Stop::NotAllowed);
        };
        match Name::read(word) {
            Some(name) => Ok(name),
            None => Err(Stop::NotAllowed),
        }
    }

    /// Takes a number within the range.
    #[tactic(auto, unfolding(crate::specs::LineForms::next))]
    pub fn number(&mut self, least: u64, most: u64) -> Result<u64, Stop>
        ensures takes { TakesWords (number_value least most) (λ n. n)
            (words_left self.old.more self.old.text.now) (words_left self.new.more self.new.text.now) result }
        ensures range { IfOk result (λ n. (least ≤ n) × (n ≤ most)) }
    {
        let Some(word) = self.word() else {
            return Err(Stop::NotAllowed);
        };
        match number_within(word, least, most) {
            Some(number) => Ok(number),
            None => Err(Stop::NotAllowed),
        }
    }

    /// Takes bytes.
    #[tactic(auto, unfolding(crate::specs::LineForms::next))]
    pub fn bytes(&mut self, alloc: Global) -> Result<Bytes, Stop>
        ensures { TakesWords bytes_value (λ bytes. bytes)
            (words_left self.old.more self.old.text.now) (words_left self.new.more self.new.text.now) result }
    {
        let Some(word) = self.word() else {
            return Err(Stop::NotAllowed);
        };
        bytes_of(alloc, word)
    }

    /// Takes what a crash leaves.
    #[tactic(auto, unfolding(crate::specs::LineForms::next))]
    pub fn choice(&mut self) -> Result<CrashChoice, Stop>
        ensures { TakesWords choice_value (λ choice. choice)
            (words_left self.old.more self.old.text.now) (words_left self.new.more self.new.text.now) result }
    {
        let Some(word) = self.word() else {
            return Err(Stop::NotAllowed);
        };
        match choice_of(word) {
            Some(choice) => Ok(choice),
            None => Err(Stop::NotAllowed),
        }
    }

    /// That there are no more words.
    #[tactic(auto, unfolding(crate::specs::LineForms::no_words))]
    pub fn end(&mut self) -> Result<(), Stop>
        ensures { ReadsWords (no_words (words_left self.old.more self.old.text.now)) (λ done. done) result }
    {
        match self.word() {
            Some(_) => Err(Stop::NotAllowed),
            None => Ok(()),
        }
    }

    /// One more word, which is a number of 64 bits, or none.
    #[tactic(auto, unfolding(crate::specs::LineForms::maybe_number, crate::specs::LineForms::next))]
    pub fn maybe_number(&mut self) -> Result<Option<u64>, Stop>
        ensures { ReadsWords (maybe_number (words_left self.old.more self.old.text.now)) (λ number. number) result }
    {
        let Some(word) = self.word() else {
            return Ok(None);
        };
        let Some(number) = number_within(word, 0, u64::MAX) else {
            return Err(Stop::NotAllowed);
        };
        self.end()?;
        Ok(Some(number))
    }

    /// The words, all of them bytes.
    pub fn all_bytes(&mut self, alloc: Global) -> Result<EventList, Stop>
        ensures { ReadsWords (all_values bytes_value (words_left self.old.more self.old.text.now)) (λ events. events) result }
    {
        let mut events = EventList::new(alloc);
        while let Some(word) = self.word() {
            events.push(bytes_of(alloc, word)?)?;
        }
        Ok(events)
    }

    /// The words, all of them numbers of 64 bits.
    pub fn all_numbers(&mut self, alloc: Global) -> Result<Sequence<u64>, Stop>
        ensures { ReadsWords (all_values any_number_value (words_left self.old.more self.old.text.now)) (λ numbers. numbers) result }
    {
        let mut numbers = Sequence::new(alloc);
        while let Some(word) = self.word() {
            let Some(number) = number_within(word, 0, u64::MAX) else {
                return Err(Stop::NotAllowed);
            };
            numbers.push(number)?;
        }
        Ok(numbers)
    }
}
