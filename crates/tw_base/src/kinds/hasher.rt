// What a hasher is, and two of them: SHA-256, and a weak one for tests.

ghost use Rattle.std.specs.Prelude.{◌≡◌, ℕ, List, [], ◌∷◌, ◌++◌, ◌%◌, length, sum, replicate};
ghost use Rattle.sha2.specs.Sha256.{sha256};
ghost use Rattle.tw_base.specs.kinds.Bytes.{AreBytes};

use crate::kinds::digest::Digest;
use sha2::{Digest as _, Sha256};

/// A function from lists of bytes to digests. What is proved of histories holds for every hasher; the program uses [`Sha`].
pub trait Hasher {
    ghost dig: { List ℕ → List ℕ };

    /// The digest of the text. Takes no memory.
    fn digest(text: &[u8]) -> Digest
        // The digest is that of the function that the clauses speak of.
        ensures { result ≡ dig text.now };

    ghost size: { (text : List ℕ) → length (dig text) ≡ 32 };

    ghost bytes: { (text : List ℕ) → AreBytes (dig text) };
}

/// SHA-256 of FIPS 180-4.
pub struct Sha;

impl Hasher for Sha {
    ghost use Rattle.sha2.proofs.Facts256.{length-sha256};
    ghost use Rattle.tw_base.specs.kinds.HasherSteps.{bytes-sha256};

    ghost dig = { sha256 };

    fn digest(text: &[u8]) -> Digest {
        Digest(Sha256::digest(text))
    }

    ghost size = { length-sha256 };

    ghost bytes = { bytes-sha256 };
}

/// For tests, a digest with easy clashes: its first byte is the sum of the text's bytes modulo 256,
/// the other 31 are zero.
pub struct Weak;

impl Hasher for Weak {
    ghost use Rattle.tw_base.specs.kinds.HasherSteps.{bytes-weak};
    ghost use Rattle.tw_base.specs.kinds.Weak.{length-weak, weak};

    ghost dig = { weak };

    fn digest(text: &[u8]) -> Digest {
        let mut first = 0u8;
        for byte in text {
            first = first.wrapping_add(*byte);
        }
        let mut bytes = [0; 32];
        bytes[0] = first;
        Digest(bytes)
    }

    ghost size = { length-weak };

    ghost bytes = { bytes-weak };
}
