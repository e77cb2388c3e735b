// Threads, and what an archive keeps of them.

ghost use Rattle.std.specs.Prelude.{◌≡◌};
ghost use Rattle.std.specs.Ordering.{is_lt};
ghost use Rattle.tw_base.specs.history.Entries.{key_cmp, key_of, of_peer};

use crate::kinds::digest::Digest;
use crate::kinds::name::Name;
use crate::kinds::sequence::Sequence;
use std::cmp::Ordering;

/// A thread: a service, one of its steps (0 to 2^40 - 1) and the authenticator of that step. An anchor is a thread that a verifier holds.
#[derive(Clone, Copy, PartialEq, Eq, Debug, Drop)]
pub struct Thread {
    pub from: Name,
    pub step: u64,
    pub auth: Digest,
}

/// A thread that an archive holds, and the number of the step that received it.
#[derive(Clone, Copy, PartialEq, Eq, Debug, Drop)]
pub struct Entry {
    pub thread: Thread,
    pub archived: u64,
}

/// Threads, in some order.
pub type Threads = Sequence<Thread>;

/// The entries of an archive, in some order.
pub type Entries = Sequence<Entry>;

/// What an archive is ordered by: name and then step.
#[derive(Clone, Copy, PartialEq, Eq, PartialOrd, Ord, Debug, Drop)]
pub struct Key {
    pub from: Name,
    pub step: u64,
}

/// Keys, in some order.
pub type KeyList = Sequence<Key>;

/// Where an event stands: the service, its step (from 1) and the index among the step's events
/// (from 0).
#[derive(Clone, Copy, PartialEq, Eq, Debug, Drop)]
pub struct Place {
    pub service: Name,
    pub step: u64,
    pub index: u32,
}

/// The order of two keys: by name and then step.
pub fn compare_keys(a: &Key, b: &Key) -> Ordering
    ensures { result ≡ key_cmp a.now b.now }
{
    a.cmp(b)
}

/// Whether the first key is below the second.
pub fn is_below(a: &Key, b: &Key) -> bool
    // The first key is below the second where it comes before it, by name and then step.
    ensures { result ≡ is_lt (key_cmp a.now b.now) }
{
    compare_keys(a, b) == Ordering::Less
}

/// The key of an entry.
pub fn entry_key(entry: &Entry) -> Key
    ensures { result ≡ key_of entry.now }
{
    Key {
        from: entry.thread.from,
        step: entry.thread.step,
    }
}

/// The entry, if it is of the peer.
pub fn entry_of_peer(entry: Option<Entry>, peer: &Name) -> Option<Entry>
    ensures { result ≡ of_peer peer.now entry }
{
    match entry {
        Some(entry) if entry.thread.from == *peer => Some(entry),
        _ => None,
    }
}
