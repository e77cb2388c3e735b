// A transcript that keeps the keys of texts, for the first pass over them; that of the second pass is in `finder.rt`.

ghost use Rattle.std.specs.Prelude.{ℕ, List, []};
ghost use Rattle.tw_audit.specs.KeyLists.{TookKeys};

use crate::keys::Keys;
use std::alloc::Global;
use std::marker::PhantomData;
use tw_base::{Digest, Hasher, Transcript};

/// A transcript that keeps the key of each text that it doesn't know.
#[derive(Drop)]
pub(crate) struct KeyTranscript<H> {
    pub(crate) keys: Keys,
    pub(crate) hasher: PhantomData<H>,
}

impl<H: Hasher> Transcript for KeyTranscript<H> {
    ghost use Rattle.tw_audit.specs.KeyLists.{TookKeys};

    ghost dig = { H.dig };

    ghost took = { λ transcript texts. TookKeys H.dig transcript.keys texts };

    fn digest(&mut self, text: &[u8]) -> Digest {
        let digest = H::digest(text);
        self.keys.take(&digest, text);
        digest
    }

    ghost size = { H.size };

    ghost bytes = { H.bytes };
}

impl<H: Hasher> KeyTranscript<H> {
    /// A transcript that took no text. Takes no memory.
    pub(crate) fn new(alloc: Global) -> Self
        ensures { TookKeys H.dig result.keys [] }
    {
        KeyTranscript {
            keys: Keys::new(alloc),
            hasher: PhantomData,
        }
    }

    /// Makes room for the keys of so many texts, if there is memory for them: then none is taken for twice as many.
    pub(crate) fn reserve(&mut self, count: usize)
        ensures { (texts : List (List ℕ)) → TookKeys H.dig self.old.keys texts → TookKeys H.dig self.new.keys texts }
    {
        // Without it each key asks for its own.
        let _reserved = self.keys.keys.reserve_exact(count).is_ok();
    }
}
