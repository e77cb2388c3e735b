// Digests of the weak hasher, whose first byte is the sum of the text.

use tw_base::Digest;

/// The digest of a text whose bytes' sum is this.
pub(crate) fn short(first: u8) -> Digest {
    let mut bytes = [0; 32];
    bytes[0] = first;
    Digest(bytes)
}
