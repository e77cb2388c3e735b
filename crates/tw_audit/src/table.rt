// The texts that a `Finder` took, each once, by their digests, and the pair of two that clash.

ghost use Rattle.std.specs.Prelude.{◌≡◌, ◌≢◌, ◌↔◌, ◌+◌, ◌≤◌, ℕ, List, [], ◌∷◌, ◌++◌, length, slice_range, IfOk, IsErr, IsTrue, OnOk};
ghost use Rattle.std.specs.Int.{from_be_bytes, w64};
ghost use Rattle.std.specs.Option.{option_map};
ghost use Rattle.tw_base.specs.kinds.Clash.{clash_pair};
ghost use Rattle.tw_audit.specs.Tables.{GivesDigests, HasTaken, IsInside, Took, kept, pair_kept, place_in_table, text_at as text_of_place, words_of};

use std::alloc::Global;
use std::collections::BTreeMap;
use tw_base::{Bytes, Digest, NoMemory};

/// Where a text stands in the arena.
#[derive(Clone, Copy, Drop)]
pub(crate) struct Place {
    pub(crate) start: usize,
    pub(crate) end: usize,
}

/// Two different texts of one digest, the earlier one first.
#[derive(Drop)]
pub(crate) struct TextPair {
    pub(crate) one: Bytes,
    pub(crate) other: Bytes,
}

/// The first text of each digest, in one arena of bytes, until a text clashes with one of them; from then on
/// only that pair counts.
#[derive(Drop)]
pub(crate) struct Table {
    pub(crate) alloc: Global,
    pub(crate) arena: Vec<u8>,
    pub(crate) places: BTreeMap<[u64; 4], Place>,
    pub(crate) found: Option<TextPair>,
    /// There was no memory for one of the texts.
    pub(crate) spent: bool,
}

/// The number that eight of a digest's bytes are.
pub(crate) fn word(digest: &Digest, at: usize) -> u64
    requires { at ≤ 24 }
    ensures { result ≡ from_be_bytes w64 (slice_range digest.now at (at + 8)) }
{
    let mut bytes = [0; 8];
    bytes.copy_from_slice(&digest.0[at..at + 8]);
    u64::from_be_bytes(bytes)
}

/// The digest as four numbers, which a map compares faster than 32 bytes.
fn words(digest: &Digest) -> [u64; 4]
    ensures { result ≡ words_of digest.now }
{
    [
        word(digest, 0),
        word(digest, 8),
        word(digest, 16),
        word(digest, 24),
    ]
}

impl Table {
    /// A table that took no text. Takes no memory.
    pub(crate) fn new(alloc: Global) -> Self
        ensures { (dig : List ℕ → List ℕ) → HasTaken dig [] result }
    {
        Table {
            alloc,
            arena: Vec::new(alloc),
            places: BTreeMap::new(alloc),
            found: None,
            spent: false,
        }
    }

    /// The text at the place; none where the arena has no such place.
    fn text_at(&self, place: Place) -> &[u8]
        ensures { place.start ≤ place.end → place.end ≤ length self.now.arena.items → result.now ≡ text_of_place self.now.arena.items place }
    {
        match self.arena.get(place.start..place.end) {
            None => &[],
            Some(text) => text,
        }
    }

    /// Where the text with this digest's words stands, if one is kept.
    fn place(&self, words: &[u64; 4]) -> Option<Place>
        ensures { result ≡ place_in_table self.now words.now }
    {
        self.places.get(words).copied()
    }

    /// Whether this is the text at the place.
    fn has_text(&self, place: Place, text: &[u8]) -> bool
        ensures { IsInside self.now.arena.items place → IsTrue result ↔ (text_of_place self.now.arena.items place ≡ text.now) }
    {
        self.text_at(place) == text
    }

    /// Puts a text at the arena's end; after want of memory all is as before.
    fn add(&mut self, text: &[u8]) -> Result<Place, NoMemory>
        ensures arena { OnOk result (self.new.arena.items ≡ self.old.arena.items ++ text.now) }
        ensures place { IfOk result (λ p. (p.start ≡ length self.old.arena.items) × (p.end ≡ length self.old.arena.items + length text.now)) }
        ensures others { (self.new.places ≡ self.old.places) × (self.new.found ≡ self.old.found) × (self.new.spent ≡ self.old.spent) }
    {
        let start = self.arena.len();
        self.arena.extend_from_slice(text)?;
        Ok(Place {
            start,
            end: self.arena.len(),
        })
    }

    /// Keeps the first text of a digest, of which these are the words.
    fn keep(&mut self, words: [u64; 4], text: &[u8]) -> Result<(), NoMemory>
        ensures taken { OnOk result ((dig : List ℕ → List ℕ) (texts : List (List ℕ)) → GivesDigests dig → words ≡ words_of (dig text.now) → self.old.found ≡ None →
            kept self.old (dig text.now) ≡ None → HasTaken dig texts self.old → HasTaken dig (texts ++ text.now ∷ []) self.new) }
        ensures spent { self.new.spent ≡ self.old.spent }
    {
        let place = self.add(text)?;
        self.places.insert(words, place)?;
        Ok(())
    }

    /// Keeps the one at this place and the text that clashes with it.
    fn pair(&mut self, one: Place, text: &[u8]) -> Result<(), NoMemory>
        ensures taken { OnOk result ((dig : List ℕ → List ℕ) (texts : List (List ℕ)) → self.old.found ≡ None →
            kept self.old (dig text.now) ≡ Some (text_of_place self.old.arena.items one) → text_of_place self.old.arena.items one ≢ text.now → IsInside self.old.arena.items one →
            HasTaken dig texts self.old → HasTaken dig (texts ++ text.now ∷ []) self.new) }
        ensures spent { self.new.spent ≡ self.old.spent }
    {
        let one = Bytes::from_slice(self.alloc, self.text_at(one))?;
        let other = Bytes::from_slice(self.alloc, text)?;
        self.found = Some(TextPair { one, other });
        Ok(())
    }

    /// Takes a text of this digest, where none clashed so far.
    fn look(&mut self, digest: &Digest, text: &[u8]) -> Result<(), NoMemory>
        ensures taken { OnOk result ((dig : List ℕ → List ℕ) (texts : List (List ℕ)) → GivesDigests dig → digest.now ≡ dig text.now → self.old.found ≡ None →
            HasTaken dig texts self.old → HasTaken dig (texts ++ text.now ∷ []) self.new) }
        ensures spent { self.new.spent ≡ self.old.spent }
    {
        let words = words(digest);
        match self.place(&words) {
            None => self.keep(words, text),
            Some(first) => {
                if self.has_text(first, text) {
                    Ok(())
                } else {
                    self.pair(first, text)
                }
            }
        }
    }

    /// Takes a text of this digest: keeps it, where it is the first of that digest. Once two clash none is taken.
    pub(crate) fn take(&mut self, digest: &Digest, text: &[u8])
        ensures { (dig : List ℕ → List ℕ) (texts : List (List ℕ)) → GivesDigests dig → digest.now ≡ dig text.now → Took dig self.old texts →
            Took dig self.new (texts ++ text.now ∷ []) }
    {
        if self.found.is_some() {
            return;
        }
        if self.look(digest, text).is_err() {
            self.spent = true;
        }
    }

    /// The pair of the texts that were taken, if two of them clash; `NoMemory` where there was none for one of
    /// them. Takes no memory.
    pub(crate) fn into_pair(self) -> Result<Option<TextPair>, NoMemory>
        ensures pair { IfOk result (λ pair. (dig : List ℕ → List ℕ) (texts : List (List ℕ)) → Took dig self texts →
            option_map pair_kept pair ≡ clash_pair dig texts) }
        ensures memory { IsErr result ↔ IsTrue self.spent }
    {
        if self.spent {
            return Err(NoMemory);
        }
        Ok(self.found)
    }
}
