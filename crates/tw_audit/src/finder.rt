// A transcript that finds the first text whose digest an earlier different one has, for the second pass over the texts; that
// of the first is in `key_transcript.rt`.

ghost use Rattle.std.specs.Prelude.{◌≡◌, ◌↔◌, ℕ, List, ◌++◌, IfOk, IsErr, IsTrue};
ghost use Rattle.std.specs.Option.{option_map};
ghost use Rattle.tw_base.specs.kinds.Clash.{clash_pair};
ghost use Rattle.tw_audit.specs.declared.keys.Repeated.{Repeated as RepeatedMeant};
ghost use Rattle.tw_audit.specs.KeyLists.{CoversClashes, key_front};
ghost use Rattle.tw_audit.specs.Tables.{TookBehind, pair_kept};

use crate::keys::Repeated;
use crate::table::{Table, TextPair};
use std::alloc::Global;
use std::marker::PhantomData;
use tw_base::{Digest, Hasher, NoMemory, Transcript};

/// A transcript that keeps each text whose key stands twice, once, by its digest.
#[derive(Drop)]
pub(crate) struct Finder<H> {
    pub(crate) repeated: Repeated,
    pub(crate) table: Table,
    pub(crate) hasher: PhantomData<H>,
}

impl<H: Hasher> Transcript for Finder<H> {
    ghost use Rattle.tw_audit.specs.Tables.{TookBehind};

    ghost dig = { H.dig };

    ghost took = { λ finder texts. TookBehind H.dig finder.repeated finder.table texts };

    fn digest(&mut self, text: &[u8]) -> Digest {
        let digest = H::digest(text);
        if self.repeated.has(&digest) {
            self.table.take(&digest, text);
        }
        digest
    }

    ghost size = { H.size };

    ghost bytes = { H.bytes };
}

impl<H: Hasher> Finder<H> {
    /// A finder that took no text, and keeps those of these keys. Takes no memory.
    pub(crate) fn new(alloc: Global, repeated: Repeated) -> Self
        ensures { TookBehind H.dig result.repeated result.table (key_front repeated) }
    {
        Finder {
            repeated,
            table: Table::new(alloc),
            hasher: PhantomData,
        }
    }

    /// The pair of the texts that were taken, if two of them clash and its keys are of all that do; `NoMemory` where there was
    /// none for one of them. Takes no memory.
    pub(crate) fn into_pair(self) -> Result<Option<TextPair>, NoMemory>
        ensures pair { IfOk result (λ pair. (repeated : RepeatedMeant) (texts : List (List ℕ)) → CoversClashes H.dig texts repeated →
            TookBehind H.dig self.repeated self.table (key_front repeated ++ texts) → option_map pair_kept pair ≡ clash_pair H.dig texts) }
        ensures memory { IsErr result ↔ IsTrue self.table.spent }
    {
        self.table.into_pair()
    }
}
