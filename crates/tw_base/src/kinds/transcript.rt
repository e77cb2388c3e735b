// What takes the texts that are hashed, and a transcript that keeps none; those of an audit are in tw_audit.

ghost use Rattle.std.specs.Prelude.{◌≡◌, ℕ, List, [], ◌∷◌, length};
ghost use Rattle.tw_base.specs.kinds.Bytes.{AreBytes};
ghost use Rattle.tw_base.specs.kinds.Handing.{Hands};

use crate::kinds::digest::Digest;
use crate::kinds::hasher::Hasher;
use std::marker::PhantomData;

/// Hashes texts, and takes each in its order. What a transcript keeps of what it took is its own matter. Taking a text
/// never fails; a transcript that had no memory for one says so at its end.
pub trait Transcript {
    /// The digest of a text.
    ghost dig: { List ℕ → List ℕ };

    /// What it has kept agrees with its having taken just these texts, in this order.
    ghost took: { Self → List (List ℕ) → Type 0 };

    /// The digest of the text, which is taken.
    fn digest(&mut self, text: &[u8]) -> Digest
        // The digest is that of the function that the clauses speak of.
        ensures digest { result ≡ dig text.now }
        // The text is taken behind those before it.
        ensures took { Hands took self.old self.new (text.now ∷ []) };

    ghost size: { (text : List ℕ) → length (dig text) ≡ 32 };

    ghost bytes: { (text : List ℕ) → AreBytes (dig text) };
}

/// A transcript that keeps nothing, over a hasher.
#[derive(Drop)]
pub struct Unwritten<H> {
    hasher: PhantomData<H>,
}

impl<H: Hasher> Unwritten<H> {
    /// A transcript that keeps nothing.
    pub fn new() -> Self {
        Unwritten {
            hasher: PhantomData,
        }
    }
}

impl<H: Hasher> Transcript for Unwritten<H> {
    ghost dig = { H.dig };

    ghost took = { λ _ _. Unit {0} };

    fn digest(&mut self, text: &[u8]) -> Digest {
        H::digest(text)
    }

    ghost size = { H.size };

    ghost bytes = { H.bytes };
}
