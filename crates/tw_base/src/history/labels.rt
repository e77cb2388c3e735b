// The labels for those who only want them: each is that of `told_labels.rt`, told to a transcript that keeps nothing.

ghost use Rattle.std.specs.Prelude.{◌≡◌, ◌^◌, ◌<◌, ◌≤◌, length, IfSome};
ghost use Rattle.tw_base.specs.declared.kinds.limits.TheConstants.{MOST_EVENT_BYTES};
ghost use Rattle.tw_base.specs.kinds.Texts.{authenticator_text, datum_text, empty_tree_text, event_leaf_text, event_node_text, genesis_text, link_text, no_events_text, step_datum_text, timed_datum_text};
ghost use Rattle.tw_base.specs.history.Entries.{IsFit, entry_text};
ghost use Rattle.tw_base.specs.kinds.Bytes.{HasBytes};
ghost use Rattle.tw_base.specs.kinds.Digests.{AllDigests};

use crate::history::thread::Entry;
use crate::history::told_labels::{
    authenticator_told, datum_told, empty_tree_told, event_leaf_told, event_node_told,
    genesis_told, link_label_told, no_events_told, step_datum_told, timed_datum_told,
    tree_node_told,
};
use crate::kinds::digest::Digest;
use crate::kinds::hasher::Hasher;
use crate::kinds::name::Name;
use crate::kinds::transcript::Unwritten;

/// The authenticator of step 0 of the service.
pub fn genesis<H: Hasher>(name: &Name) -> Digest
    // The label is the digest of the text of the name.
    ensures { result ≡ H.dig (genesis_text name.now) }
{
    genesis_told(name, &mut Unwritten::<H>::new())
}

/// The label of the link of a step at a level (0 to 39); `below` is the authenticator of the step
/// that it leads to, `step - 2^level`.
pub fn link_label<H: Hasher>(step: u64, level: u8, datum: &Digest, below: &Digest) -> Digest
    // The label is the digest of the text of the link.
    ensures label { result ≡ H.dig (link_text step level datum.now below.now) }
    ensures datum_size { length datum.now ≡ 32 }
    ensures below_size { length below.now ≡ 32 }
{
    link_label_told(step, level, datum, below, &mut Unwritten::<H>::new())
}

/// The datum of a step without a time: over its event root, its archive's label and its count of
/// events.
pub fn datum<H: Hasher>(event_root: &Digest, archive_root: &Digest, count: u32) -> Digest
    // The label is the digest of the text of the datum.
    ensures label { result ≡ H.dig (datum_text event_root.now archive_root.now count) }
    ensures event_root_size { length event_root.now ≡ 32 }
    ensures archive_root_size { length archive_root.now ≡ 32 }
{
    datum_told(event_root, archive_root, count, &mut Unwritten::<H>::new())
}

/// The datum of a step with a time: over the same and the time in seconds that its maker claims.
pub fn timed_datum<H: Hasher>(
    event_root: &Digest,
    archive_root: &Digest,
    count: u32,
    time: u64,
) -> Digest
    // The label is the digest of the text of the datum with the time.
    ensures label { result ≡ H.dig (timed_datum_text event_root.now archive_root.now count time) }
    ensures event_root_size { length event_root.now ≡ 32 }
    ensures archive_root_size { length archive_root.now ≡ 32 }
    ensures time_size { time < 2 ^ 64 }
{
    timed_datum_told(
        event_root,
        archive_root,
        count,
        time,
        &mut Unwritten::<H>::new(),
    )
}

/// The datum of a step, which has a time or none.
pub fn step_datum<H: Hasher>(
    event_root: &Digest,
    archive_root: &Digest,
    count: u32,
    time: Option<u64>,
) -> Digest
    // The label is the digest of the text of the step's datum, with its time where it has one.
    ensures label { result ≡ H.dig (step_datum_text event_root.now archive_root.now count time) }
    ensures event_root_size { length event_root.now ≡ 32 }
    ensures archive_root_size { length archive_root.now ≡ 32 }
    ensures time_size { IfSome time (λ t. t < 2 ^ 64) }
{
    step_datum_told(
        event_root,
        archive_root,
        count,
        time,
        &mut Unwritten::<H>::new(),
    )
}

/// The authenticator of a step from 1 on, over the labels of its links from level 0 on, at most 40.
pub fn authenticator<H: Hasher>(step: u64, labels: &[Digest]) -> Digest
    requires { length labels.now ≤ 40 }
    // The label is the digest of the text of the step and the labels of its links.
    ensures label { result ≡ H.dig (authenticator_text step labels.now) }
    ensures sizes { AllDigests labels.now }
{
    authenticator_told(step, labels, &mut Unwritten::<H>::new())
}

/// The label of the empty tree, the archive of a service that has received no thread.
pub fn empty_tree<H: Hasher>() -> Digest
    // The label is the digest of the text of the empty archive.
    ensures { result ≡ H.dig empty_tree_text }
{
    empty_tree_told(&mut Unwritten::<H>::new())
}

/// The label of a tree that isn't empty, over the labels of its sides and the entry at its root.
pub fn tree_node<H: Hasher>(left: &Digest, entry: &Entry, right: &Digest) -> Digest
    // The label is the digest of the text of the node.
    ensures label { result ≡ H.dig (entry_text left.now entry.now right.now) }
    ensures left_size { HasBytes 32 left.now }
    ensures right_size { HasBytes 32 right.now }
    ensures fits { IsFit entry.now }
{
    tree_node_told(left, entry, right, &mut Unwritten::<H>::new())
}

/// The label of one event of at most 1,024 bytes: the leaf hash of RFC 6962, section 2.1.
pub fn event_leaf<H: Hasher>(event: &[u8]) -> Digest
    requires { length event.now ≤ MOST_EVENT_BYTES }
    // The label is the digest of the text of the event.
    ensures { result ≡ H.dig (event_leaf_text event.now) }
{
    event_leaf_told(event, &mut Unwritten::<H>::new())
}

/// The label of two parts of a list of events: the node hash of RFC 6962, section 2.1.
pub fn event_node<H: Hasher>(left: &Digest, right: &Digest) -> Digest
    // The label is the digest of the text of the two sides.
    ensures label { result ≡ H.dig (event_node_text left.now right.now) }
    ensures left_size { length left.now ≡ 32 }
    ensures right_size { length right.now ≡ 32 }
{
    event_node_told(left, right, &mut Unwritten::<H>::new())
}

/// The event root of a step with no events: the hash of an empty list of RFC 6962, section 2.1.
pub fn no_events<H: Hasher>() -> Digest
    // The label is the digest of the empty text.
    ensures { result ≡ H.dig no_events_text }
{
    no_events_told(&mut Unwritten::<H>::new())
}
