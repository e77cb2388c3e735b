// The labels: each is the digest of one text of `specs/kinds/Texts.antt`, which is handed on. None of them takes memory of its own.

ghost use Rattle.std.specs.Prelude.{◌≡◌, ℕ, ◌+◌, ◌*◌, ◌^◌, ◌<◌, ◌≤◌, List, [], ◌∷◌, ◌++◌, length, IfSome};
ghost use Rattle.std.specs.Int.{to_be_bytes, w32};
ghost use Rattle.arrayvec.specs.ArrayVec.{array_vec_len};
ghost use Rattle.tw_base.specs.declared.kinds.limits.TheConstants.{MOST_EVENT_BYTES};
ghost use Rattle.tw_base.specs.history.Entries.{IsFit, entry_text};
ghost use Rattle.tw_base.specs.kinds.Bytes.{HasBytes};
ghost use Rattle.tw_base.specs.kinds.Digests.{AllDigests};
ghost use Rattle.tw_base.specs.kinds.Texts.{authenticator_text, datum_text, empty_tree_text, event_leaf_text, event_node_text, genesis_text, link_text, no_events_text, step_datum_text, timed_datum_text};
ghost use Rattle.tw_base.specs.kinds.Handing.{Hands};

use crate::format::fixed::put_digest;
use crate::history::thread::Entry;
use crate::kinds::digest::{Digest, see_digest};
use crate::kinds::fixed_list::put;
use crate::kinds::name::Name;
use crate::kinds::transcript::Transcript;
use arrayvec::ArrayVec;

/// The authenticator of step 0 of the service.
#[tactic(auto, unfolding(crate::specs::kinds::Texts::genesis_text))]
pub fn genesis_told<T: Transcript>(name: &Name, texts: &mut T) -> Digest
    // The label is the digest of the text of the name, which is handed on.
    ensures label { result ≡ T.dig (genesis_text name.now) }
    ensures took { Hands T.took texts.old texts.new (genesis_text name.now ∷ []) }
{
    let mut text: ArrayVec<u8, 17> = ArrayVec::new();
    text.push(0x10);
    put(&mut text, name.as_bytes());
    texts.digest(text.as_slice())
}

/// The label of the link of a step at a level (0 to 39); `below` is the authenticator of the step
/// that it leads to, `step - 2^level`.
#[tactic(auto, unfolding(crate::specs::kinds::Texts::link_text))]
pub fn link_label_told<T: Transcript>(
    step: u64,
    level: u8,
    datum: &Digest,
    below: &Digest,
    texts: &mut T,
) -> Digest
    // The label is the digest of the text of the link, which is handed on.
    ensures label { result ≡ T.dig (link_text step level datum.now below.now) }
    ensures took { Hands T.took texts.old texts.new (link_text step level datum.now below.now ∷ []) }
    ensures datum_size { length datum.now ≡ 32 }
    ensures below_size { length below.now ≡ 32 }
{
    let mut text: ArrayVec<u8, 74> = ArrayVec::new();
    text.push(0x11);
    put(&mut text, &step.to_be_bytes());
    text.push(level);
    put(&mut text, &datum.0);
    put(&mut text, &below.0);
    texts.digest(text.as_slice())
}

/// Puts what the datum of each step holds at the text's end: its event root, its archive's label and
/// its count of events.
fn put_held<const N: usize>(
    text: &mut ArrayVec<u8, N>,
    event_root: &Digest,
    archive_root: &Digest,
    count: u32,
)
    requires { array_vec_len text.old + 68 ≤ N }
    ensures event_root_size { length event_root.now ≡ 32 }
    ensures archive_root_size { length archive_root.now ≡ 32 }
    ensures items { text.new.items ≡ text.old.items ++ (event_root.now ++ (archive_root.now ++ to_be_bytes w32 count)) }
    ensures len { array_vec_len text.new ≡ array_vec_len text.old + 68 }
{
    put(text, &event_root.0);
    put(text, &archive_root.0);
    put(text, &count.to_be_bytes());
}

/// The datum of a step without a time.
#[tactic(auto, unfolding(crate::specs::kinds::Texts::datum_text))]
pub(crate) fn datum_told<T: Transcript>(
    event_root: &Digest,
    archive_root: &Digest,
    count: u32,
    texts: &mut T,
) -> Digest
    ensures label { result ≡ T.dig (datum_text event_root.now archive_root.now count) }
    ensures took { Hands T.took texts.old texts.new (datum_text event_root.now archive_root.now count ∷ []) }
    ensures event_root_size { length event_root.now ≡ 32 }
    ensures archive_root_size { length archive_root.now ≡ 32 }
{
    let mut text: ArrayVec<u8, 69> = ArrayVec::new();
    text.push(0x13);
    put_held(&mut text, event_root, archive_root, count);
    texts.digest(text.as_slice())
}

/// The datum of a step with a time.
#[tactic(auto, unfolding(crate::specs::kinds::Texts::timed_datum_text))]
pub(crate) fn timed_datum_told<T: Transcript>(
    event_root: &Digest,
    archive_root: &Digest,
    count: u32,
    time: u64,
    texts: &mut T,
) -> Digest
    ensures label { result ≡ T.dig (timed_datum_text event_root.now archive_root.now count time) }
    ensures took { Hands T.took texts.old texts.new (timed_datum_text event_root.now archive_root.now count time ∷ []) }
    ensures event_root_size { length event_root.now ≡ 32 }
    ensures archive_root_size { length archive_root.now ≡ 32 }
{
    let mut text: ArrayVec<u8, 77> = ArrayVec::new();
    text.push(0x16);
    put_held(&mut text, event_root, archive_root, count);
    put(&mut text, &time.to_be_bytes());
    texts.digest(text.as_slice())
}

/// The datum of a step, which has a time or none: over its event root, its archive's label, its count
/// of events, and the time in seconds that its maker claims, if any.
pub fn step_datum_told<T: Transcript>(
    event_root: &Digest,
    archive_root: &Digest,
    count: u32,
    time: Option<u64>,
    texts: &mut T,
) -> Digest
    // The label is the digest of the text of the step's datum, with its time where it has one; the text is handed on.
    ensures label { result ≡ T.dig (step_datum_text event_root.now archive_root.now count time) }
    ensures took { Hands T.took texts.old texts.new (step_datum_text event_root.now archive_root.now count time ∷ []) }
    ensures event_root_size { length event_root.now ≡ 32 }
    ensures archive_root_size { length archive_root.now ≡ 32 }
    ensures time_size { IfSome time (λ t. t < 2 ^ 64) }
{
    match time {
        None => datum_told(event_root, archive_root, count, texts),
        Some(time) => timed_datum_told(event_root, archive_root, count, time, texts),
    }
}

/// The authenticator of a step from 1 on, over the labels of its links from level 0 on, at most 40.
#[tactic(auto, using(crate::proofs::lemmas::kinds::Joined::more), unfolding(crate::specs::kinds::Texts::authenticator_text))]
pub fn authenticator_told<T: Transcript>(step: u64, labels: &[Digest], texts: &mut T) -> Digest
    requires { length labels.now ≤ 40 }
    // The label is the digest of the text of the step and the labels of its links, which is handed on.
    ensures label { result ≡ T.dig (authenticator_text step labels.now) }
    ensures took { Hands T.took texts.old texts.new (authenticator_text step labels.now ∷ []) }
    ensures sizes { AllDigests labels.now }
{
    let mut text: ArrayVec<u8, 1290> = ArrayVec::new();
    text.push(0x12);
    put(&mut text, &step.to_be_bytes());
    text.push(labels.len() as u8);
    for label in labels {
        put_digest(&mut text, label);
    }
    texts.digest(text.as_slice())
}

/// The label of the empty tree, the archive of a service that has received no thread.
#[tactic(auto, unfolding(crate::specs::kinds::Texts::empty_tree_text))]
pub fn empty_tree_told<T: Transcript>(texts: &mut T) -> Digest
    // The label is the digest of the text of the empty archive, which is handed on.
    ensures label { result ≡ T.dig empty_tree_text }
    ensures took { Hands T.took texts.old texts.new (empty_tree_text ∷ []) }
{
    texts.digest(&[0x14])
}

/// The label of a tree that isn't empty, over the labels of its sides and the entry at its root.
#[tactic(auto, unfolding(crate::specs::kinds::Texts::tree_node_text))]
pub fn tree_node_told<T: Transcript>(
    left: &Digest,
    entry: &Entry,
    right: &Digest,
    texts: &mut T,
) -> Digest
    // The label is the digest of the text of the node, which is handed on.
    ensures label { result ≡ T.dig (entry_text left.now entry.now right.now) }
    ensures took { Hands T.took texts.old texts.new (entry_text left.now entry.now right.now ∷ []) }
    ensures left_size { HasBytes 32 left.now }
    ensures right_size { HasBytes 32 right.now }
    ensures fits { IsFit entry.now }
{
    see_digest(left);
    see_digest(right);
    see_digest(&entry.thread.auth);
    let mut text: ArrayVec<u8, 129> = ArrayVec::new();
    text.push(0x15);
    put(&mut text, &left.0);
    put(&mut text, entry.thread.from.as_bytes());
    put(&mut text, &entry.thread.step.to_be_bytes());
    put(&mut text, &entry.thread.auth.0);
    put(&mut text, &entry.archived.to_be_bytes());
    put(&mut text, &right.0);
    texts.digest(text.as_slice())
}

/// The label of one event of at most 1,024 bytes: the leaf hash of RFC 6962, section 2.1.
#[tactic(auto, unfolding(crate::specs::kinds::Texts::event_leaf_text))]
pub fn event_leaf_told<T: Transcript>(event: &[u8], texts: &mut T) -> Digest
    requires { length event.now ≤ MOST_EVENT_BYTES }
    // The label is the digest of the text of the event, which is handed on.
    ensures label { result ≡ T.dig (event_leaf_text event.now) }
    ensures took { Hands T.took texts.old texts.new (event_leaf_text event.now ∷ []) }
{
    let mut text: ArrayVec<u8, 1025> = ArrayVec::new();
    text.push(0);
    put(&mut text, event);
    texts.digest(text.as_slice())
}

/// The label of two parts of a list of events: the node hash of RFC 6962, section 2.1.
#[tactic(auto, unfolding(crate::specs::kinds::Texts::event_node_text))]
pub fn event_node_told<T: Transcript>(left: &Digest, right: &Digest, texts: &mut T) -> Digest
    // The label is the digest of the text of the two sides, which is handed on.
    ensures label { result ≡ T.dig (event_node_text left.now right.now) }
    ensures took { Hands T.took texts.old texts.new (event_node_text left.now right.now ∷ []) }
    ensures left_size { length left.now ≡ 32 }
    ensures right_size { length right.now ≡ 32 }
{
    let mut text: ArrayVec<u8, 65> = ArrayVec::new();
    text.push(1);
    put(&mut text, &left.0);
    put(&mut text, &right.0);
    texts.digest(text.as_slice())
}

/// The event root of a step with no events: the hash of an empty list of RFC 6962, section 2.1.
#[tactic(auto, unfolding(crate::specs::kinds::Texts::no_events_text))]
pub fn no_events_told<T: Transcript>(texts: &mut T) -> Digest
    // The label is the digest of the empty text, which is handed on.
    ensures label { result ≡ T.dig no_events_text }
    ensures took { Hands T.took texts.old texts.new (no_events_text ∷ []) }
{
    texts.digest(&[])
}
