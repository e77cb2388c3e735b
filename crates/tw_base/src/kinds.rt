// What every other room speaks of: bytes, lists, names, digests and hashers, the levels of links, limits, and answers without a value.

pub(crate) mod digest;
pub(crate) mod failing;
pub(crate) mod failure;
pub(crate) mod fixed_list;
pub(crate) mod hasher;
pub(crate) mod label_list;
// Public, so that other crates name its numbers by `limits`.
pub mod limits;
pub(crate) mod link_level;
pub(crate) mod name;
pub(crate) mod sequence;
pub(crate) mod transcript;
