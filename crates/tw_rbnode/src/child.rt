// What stands at an empty place of a page's tree.

use tw_base::Digest;

/// The child at a place: in a leaf page page 0 and the label of the empty tree, else the page of a tree and its label.
#[derive(Clone, Copy, PartialEq, Eq, Default, Debug, Drop)]
pub struct Child {
    pub page: u64,
    pub label: Digest,
}
