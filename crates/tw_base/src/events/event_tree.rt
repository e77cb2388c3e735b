// The laws of the event tree: its definitions are the equations of RFC 6962.

ghost use Rattle.std.specs.Prelude.{◌≡◌, ℕ, ◌-◌, ◌*◌, ◌^◌, ◌<◌, ◌≤◌, List, [], ◌∷◌, ◌++◌, length, slice_get, Some};
ghost use Rattle.tw_base.specs.events.EventTree.{audit_path, event_root, largest_power_below, left_half, right_half};
ghost use Rattle.tw_base.specs.events.AuditPath.{ChecksEvent, path_length};
ghost use Rattle.tw_base.specs.kinds.Digests.{AllDigests};
ghost use Rattle.tw_base.specs.kinds.Texts.{event_leaf_text, event_node_text, no_events_text};

use crate::kinds::hasher::Hasher;

/// The equations of RFC 6962, section 2.1: the hash of no event, of one, and of more, which are
/// split at the largest power of two below their number.
pub fn event_root_laws<H: Hasher>()
    // The root of no events is the digest of the empty text (RFC 6962, section 2.1).
    ensures none { event_root H.dig [] ≡ H.dig no_events_text }
    // The root of one event is that of its leaf.
    ensures one { (event : List ℕ) → event_root H.dig (event ∷ []) ≡ H.dig (event_leaf_text event) }
    // The root of more events is that of a node over the roots of its two halves.
    ensures more { (events : List (List ℕ)) → 1 < length events →
        event_root H.dig events ≡ H.dig (event_node_text (event_root H.dig (left_half events)) (event_root H.dig (right_half events))) }
    // The left half has the greatest power of two below their number.
    ensures split { (n : ℕ) → 1 < n → (level : ℕ) × (largest_power_below n ≡ 2 ^ level) × (2 ^ level < n) × (n ≤ 2 * 2 ^ level) }
    ensures size { (events : List (List ℕ)) → length (event_root H.dig events) ≡ 32 }
{}

/// The equations of RFC 6962, section 2.1.1: the path to the only event is empty, and one to an
/// event of either half ends in the root of the other half. Each label of it halves the count. The
/// path shows its event under the root.
pub fn audit_path_laws<H: Hasher>()
    // The audit path of a single event is empty (RFC 6962, section 2.1.1).
    ensures one { (event : List ℕ) → audit_path H.dig (event ∷ []) 0 ≡ [] }
    // The path of an event of the left half is its path there, and then the root of the right half.
    ensures left { (events : List (List ℕ)) (index : ℕ) → 1 < length events → index < largest_power_below (length events) →
        audit_path H.dig events index ≡ audit_path H.dig (left_half events) index ++ event_root H.dig (right_half events) ∷ [] }
    // The path of an event of the right half is its path there, and then the root of the left half.
    ensures right { (events : List (List ℕ)) (index : ℕ) → 1 < length events → largest_power_below (length events) ≤ index →
        audit_path H.dig events index ≡ audit_path H.dig (right_half events) (index - largest_power_below (length events)) ++ event_root H.dig (left_half events) ∷ [] }
    // A path has as many labels as count and index give.
    ensures size { (events : List (List ℕ)) (index : ℕ) → length (audit_path H.dig events index) ≡ path_length (length events) index }
    // Of at most 2^l events it has at most l.
    ensures few { (level count index : ℕ) → count ≤ 2 ^ level → path_length count index ≤ level }
    ensures digests { (events : List (List ℕ)) (index : ℕ) → AllDigests (audit_path H.dig events index) }
    // With its path each event checks under the root of its events.
    ensures checks { (events : List (List ℕ)) (index : ℕ) (event : List ℕ) → slice_get events index ≡ Some event →
        ChecksEvent H.dig (event_root H.dig events) (length events) index event (audit_path H.dig events index) }
{}
