// Lists of labels on the heap, of which a proof knows that each label has 32 bytes; other lists on the heap are in `sequence.rt`.

ghost use Rattle.std.specs.Prelude.{◌≡◌, [], ◌∷◌, ◌++◌, length, IfOk, OnOk, OnErr};
ghost use Rattle.tw_base.specs.kinds.Digests.{AllDigests};

use crate::kinds::digest::{Digest, see_digest};
use crate::kinds::failure::NoMemory;
use std::alloc::Global;
use std::marker::Model;

/// A list of labels, which are digests, on the heap. Contracts see it as the list of their bytes.
#[derive(Drop, Debug)]
pub struct Labels {
    items: Vec<Digest>,
}

impl Model for Labels {
    ghost use Rattle.std.specs.Prelude.{ℕ, List};
    ghost use Rattle.tw_base.specs.kinds.Digests.{AllDigests};

    ghost Value = { List (List ℕ) };

    ghost view = { λ l. l.items.items };

    ghost invariant = { λ l. AllDigests l.items.items };
}

impl Labels {
    /// No labels. Takes no memory.
    pub fn new(alloc: Global) -> Self
        ensures { result ≡ [] }
    {
        Labels {
            items: Vec::new(alloc),
        }
    }

    /// No labels, with room for so many.
    pub fn with_capacity(alloc: Global, capacity: usize) -> Result<Self, NoMemory>
        ensures { IfOk result (λ labels. labels ≡ []) }
    {
        match Vec::with_capacity(alloc, capacity) {
            Ok(items) => Ok(Labels { items }),
            Err(_) => Err(NoMemory),
        }
    }

    /// The vector's labels. Takes no memory.
    pub fn from_vec(items: Vec<Digest>) -> Self
        ensures { result ≡ items.items }
    {
        see_sizes(items.as_slice());
        Labels { items }
    }

    /// The labels as a vector. Takes no memory.
    pub fn into_vec(self) -> Vec<Digest>
        ensures value { result.items ≡ self }
        ensures sizes { AllDigests self }
    {
        self.items
    }

    /// The labels.
    pub fn as_slice(&self) -> &[Digest]
        ensures value { result.now ≡ self.now }
        ensures sizes { AllDigests self.now }
    {
        self.items.as_slice()
    }

    /// The number of labels.
    pub fn len(&self) -> usize
        ensures { result ≡ length self.now }
    {
        self.items.len()
    }

    /// Appends the label; after want of memory the list is as before.
    pub fn push(&mut self, label: Digest) -> Result<(), NoMemory>
        ensures ok { OnOk result (self.new ≡ self.old ++ label ∷ []) }
        ensures err { OnErr result (self.new ≡ self.old) }
    {
        see_digest(&label);
        match self.items.push(label) {
            Ok(()) => Ok(()),
            Err(_) => Err(NoMemory),
        }
    }
}

/// Tells a proof that each digest has its 32 bytes.
#[tactic(auto, using(crate::proofs::lemmas::kinds::Joined::more))]
fn see_sizes(digests: &[Digest])
    ensures { AllDigests digests.now }
{
    for digest in digests {
        see_digest(digest);
    }
}
