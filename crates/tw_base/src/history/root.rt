// The root of an archive's tree in pages: its page and its label. (A store's root record is another thing.)

use crate::kinds::digest::Digest;

/// A version of an archive's tree in pages: the page of its root, 0 for the empty tree, and its
/// label.
#[derive(Clone, Copy, PartialEq, Eq, Debug, Drop)]
pub struct Root {
    pub page: u64,
    pub label: Digest,
}
