// Digests, and what tells a proof that one is 32 bytes.

ghost use Rattle.std.specs.Prelude.{◌≡◌, ◌↔◌, IsTrue};
ghost use Rattle.tw_base.specs.kinds.Bytes.{AreBytes, HasBytes};

use std::marker::Model;

/// The digest of a text: 32 bytes, as SHA-256 of FIPS 180-4 gives them. Contracts see it as the
/// list of its bytes.
#[derive(Clone, Copy, Default, PartialEq, Eq, Debug, Drop)]
pub struct Digest(pub [u8; 32]);

impl Model for Digest {
    ghost use Rattle.std.specs.Prelude.{◌≡◌, ℕ, List, length};

    ghost Value = { List ℕ };

    ghost view = { λ d. d.0 };

    ghost invariant = { λ d. length d.0 ≡ 32 };

    ghost inverse = { λ bytes. record { 0 = bytes } };
}

/// Tells a proof that bytes are below 256, by a call of which nothing else is wanted.
pub fn see_bytes(bytes: &[u8])
    ensures { AreBytes bytes.now }
{
    let _count = bytes.len();
}

/// Tells a proof that a digest is 32 bytes.
pub fn see_digest(digest: &Digest)
    ensures { HasBytes 32 digest.now }
{
    see_bytes(&digest.0);
}

/// Whether two digests are one.
pub fn is_same_digest(one: &Digest, other: &Digest) -> bool
    ensures { IsTrue result ↔ (one.now ≡ other.now) }
{
    *one == *other
}
