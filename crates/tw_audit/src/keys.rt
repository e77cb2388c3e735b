// The keys of the digests of texts, by which those of one digest are looked for.

ghost use Rattle.std.specs.Prelude.{◌≡◌, ◌⊎◌, ◌+◌, ◌<◌, ℕ, List, [], ◌∷◌, ◌++◌, length, slice_index_or, true, IfOk, IsTrue, OnOk, Some};
ghost use Rattle.std.specs.BTreeSet.{btree_set_len, contains as has_key};
ghost use Rattle.std.specs.Cmp.Lexicographic.{slice_cmp};
ghost use Rattle.std.specs.List.Sorted.{IsSorted};
ghost use Rattle.std.specs.Ordering.{nat_cmp};
ghost use Rattle.tw_audit.specs.KeyLists.{CoversClashes, HasKeys, TookKeys, digest_key, is_among_keys, known_at};

use crate::table::word;
use std::alloc::Global;
use std::collections::{BTreeMap, BTreeSet};
use tw_base::{Bytes, Digest, NoMemory};

/// The first seven bytes of a digest: of most texts an audit keeps no more, as it is to take little memory. Nobody finds
/// many texts that agree in them. (An archive's `Key` is another thing.)
pub(crate) type Key = [u8; 7];

/// How many texts are known at most. The first ones are the proof's, which stand in the histories once more (`hold` of
/// holding.rt).
const MOST_KNOWN: usize = 1024;

/// The key of a digest.
pub(crate) fn key(digest: &Digest) -> Key
    ensures { result ≡ digest_key digest.now }
{
    let mut key = [0; 7];
    key.copy_from_slice(&digest.0[0..7]);
    key
}

/// The key of each text that was taken, once where the text is known; the first texts are known.
#[derive(Drop)]
pub(crate) struct Keys {
    pub(crate) alloc: Global,
    pub(crate) keys: Vec<Key>,
    /// The texts that are known, by the number that their digest's first eight bytes are.
    pub(crate) known: BTreeMap<u64, Bytes>,
    /// There was no memory for one of the texts.
    pub(crate) spent: bool,
}

/// Keys that stand twice or more among those of texts.
#[derive(Drop)]
pub(crate) struct Repeated {
    pub(crate) keys: BTreeSet<Key>,
}

impl Keys {
    /// The keys of no text. Takes no memory.
    pub(crate) fn new(alloc: Global) -> Self
        ensures { (dig : List ℕ → List ℕ) → HasKeys dig [] result }
    {
        Keys {
            alloc,
            keys: Vec::new(alloc),
            known: BTreeMap::new(alloc),
            spent: false,
        }
    }

    /// Whether this text, of whose digest this is the number, is known.
    fn knows(&self, number: u64, text: &[u8]) -> bool
        ensures { IsTrue result → known_at self.now number ≡ Some text.now }
    {
        match self.known.get(&number) {
            None => false,
            Some(known) => known.as_slice() == text,
        }
    }

    /// Knows this text, of this number, from now on, if there is room for one more.
    fn learn(&mut self, number: u64, text: &[u8]) -> Result<(), NoMemory>
        ensures known { OnOk result ((k : ℕ) → (known_at self.new k ≡ known_at self.old k) ⊎ (known_at self.new k ≡ Some text.now)) }
        ensures keys { self.new.keys ≡ self.old.keys }
        ensures spent { self.new.spent ≡ self.old.spent }
    {
        if self.known.len() >= MOST_KNOWN {
            return Ok(());
        }
        let text = Bytes::from_slice(self.alloc, text)?;
        self.known.insert(number, text)?;
        Ok(())
    }

    /// Adds the key of a text.
    fn add(&mut self, key: Key, number: u64, text: &[u8]) -> Result<(), NoMemory>
        ensures taken { OnOk result ((dig : List ℕ → List ℕ) (texts : List (List ℕ)) → key ≡ digest_key (dig text.now) → HasKeys dig texts self.old →
            HasKeys dig (texts ++ text.now ∷ []) self.new) }
        ensures spent { self.new.spent ≡ self.old.spent }
    {
        self.keys.push(key)?;
        self.learn(number, text)
    }

    /// Takes a text of this digest: keeps its key, unless the text is known.
    pub(crate) fn take(&mut self, digest: &Digest, text: &[u8])
        ensures { (dig : List ℕ → List ℕ) (texts : List (List ℕ)) → digest.now ≡ dig text.now → TookKeys dig self.old texts →
            TookKeys dig self.new (texts ++ text.now ∷ []) }
    {
        let number = word(digest, 0);
        if self.knows(number, text) {
            return;
        }
        if self.add(key(digest), number, text).is_err() {
            self.spent = true;
        }
    }

    /// The keys that stand twice. Any two texts that were taken, differ and have one digest have one of them; `NoMemory`
    /// where there was none for one of the texts, or for the keys.
    pub(crate) fn into_repeated(self, alloc: Global) -> Result<Repeated, NoMemory>
        ensures { IfOk result (λ repeated. (dig : List ℕ → List ℕ) (texts : List (List ℕ)) → TookKeys dig self texts →
            CoversClashes dig texts repeated) }
    {
        if self.spent {
            return Err(NoMemory);
        }
        let mut keys = self.keys;
        keys.sort_unstable();
        let repeated = repeated_of(alloc, keys.as_slice())?;
        Ok(repeated)
    }
}

/// Of keys in their order those that stand twice or more.
fn repeated_of(alloc: Global, keys: &[Key]) -> Result<Repeated, NoMemory>
    ensures { IfOk result (λ repeated. (i : ℕ) → i + 1 < length keys.now → slice_index_or keys.now i [] ≡ slice_index_or keys.now (i + 1) [] →
        has_key (slice_cmp nat_cmp) repeated.keys (slice_index_or keys.now (i + 1) []) ≡ true) }
{
    let mut repeated = Repeated {
        keys: BTreeSet::new(alloc),
    };
    for i in 1..keys.len() {
        repeated.note(&keys[i - 1], &keys[i])?;
    }
    Ok(repeated)
}

impl Repeated {
    /// Notes the key, where it is that before it.
    fn note(&mut self, before: &Key, key: &Key) -> Result<(), NoMemory>
        ensures same { OnOk result (before.now ≡ key.now → has_key (slice_cmp nat_cmp) self.new.keys key.now ≡ true) }
        ensures kept { OnOk result ((k : List ℕ) → has_key (slice_cmp nat_cmp) self.old.keys k ≡ true → has_key (slice_cmp nat_cmp) self.new.keys k ≡ true) }
    {
        if before == key {
            self.keys.insert(*key)?;
        }
        Ok(())
    }

    /// Whether the key of this digest is among them.
    pub(crate) fn has(&self, digest: &Digest) -> bool
        ensures { result ≡ is_among_keys self.now digest.now }
    {
        self.keys.contains(&key(digest))
    }
}
