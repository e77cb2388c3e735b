// Going over the parts of a text, between separators: the lines of a script, and the words of a line. tw_msg/src/split.rt only
// splits at the first separator.

ghost use Rattle.std.specs.Prelude.{◌≡◌, ◌==◌, ◌∷◌, [], true, MatchOption};
ghost use Rattle.tw_script.specs.Takings.{parts_left};

use tw_msg::first_place;

/// What is left of a text, of which parts were taken from the front.
#[derive(Clone, Copy, Drop)]
pub struct Parts<'a> {
    /// What is behind the separators that were met.
    pub text: &'a [u8],
    /// Whether a part is left: the last one may have no bytes.
    pub more: bool,
}

impl<'a> Parts<'a> {
    /// All parts of the text.
    pub fn new(text: &'a [u8]) -> Parts<'a>
        ensures text { result.text.now ≡ text.now }
        ensures more { result.more ≡ true }
    {
        Parts { text, more: true }
    }

    /// Takes the next part: what is before the first separator, or all that is left where there is none.
    pub fn next(&mut self, separator: u8) -> Option<&'a [u8]>
        ensures { MatchOption result
            (parts_left (λ b. b == separator) self.old.more self.old.text.now ≡ [])
            (λ part. parts_left (λ b. b == separator) self.old.more self.old.text.now
            ≡ part.now ∷ parts_left (λ b. b == separator) self.new.more self.new.text.now) }
    {
        if !self.more {
            return None;
        }
        let text = self.text;
        match first_place(text, separator) {
            Some(i) => {
                self.text = &text[i + 1..];
                Some(&text[..i])
            }
            None => {
                self.more = false;
                Some(text)
            }
        }
    }
}
