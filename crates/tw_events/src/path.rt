// Making the audit path of an event; `check.rt` goes up one.

ghost use Rattle.std.specs.Prelude.{◌≡◌, ℕ, ◌<◌, ◌≤◌, List, ◌++◌, length, OnOk, IfOk, Some, slice_get};
ghost use Rattle.tw_base.specs.events.AuditPath.{ChecksEvent};
ghost use Rattle.tw_base.specs.events.EventTree.{audit_path, event_root as event_root_of};
ghost use Rattle.tw_base.specs.kinds.Lists.{Each};
ghost use Rattle.tw_base.specs.declared.kinds.limits.TheConstants.{MOST_EVENTS, MOST_EVENT_BYTES};

use crate::root::event_root;
use std::alloc::Global;
use tw_base::{Bytes, Hasher, Labels, NoMemory, left_count};

/// Appends the path of that index among these events, from the leaf upwards.
fn add_path<H: Hasher>(events: &[Bytes], index: usize, path: &mut Labels) -> Result<(), NoMemory>
    requires inside { index < length events.now }
    requires few { length events.now ≤ MOST_EVENTS }
    requires small { Each (λ event. length event ≤ MOST_EVENT_BYTES) events.now }
    ensures { OnOk result (path.new ≡ path.old ++ audit_path H.dig events.now index) }
{
    if events.len() == 1 {
        return Ok(());
    }
    let half = left_count(events.len());
    let (left, right) = events.split_at(half);
    if index < half {
        add_path::<H>(left, index, path)?;
        path.push(event_root::<H>(right))?;
    } else {
        add_path::<H>(right, index - half, path)?;
        path.push(event_root::<H>(left))?;
    }
    Ok(())
}

/// The audit path of the event at that index among at most 1,024 events, each of at most 1,024
/// bytes: RFC 6962, section 2.1.1. Its labels stand from the leaf upwards, and with them the event
/// checks under the root. Hashes each text at most once.
pub fn event_path<H: Hasher>(
    alloc: Global,
    events: &[Bytes],
    index: u32,
) -> Result<Labels, NoMemory>
    requires inside { index < length events.now }
    requires few { length events.now ≤ MOST_EVENTS }
    requires small { Each (λ event. length event ≤ MOST_EVENT_BYTES) events.now }
    // A path of an event is its audit path of RFC 6962.
    ensures path { IfOk result (λ path. path ≡ audit_path H.dig events.now index) }
    // With that path the event checks under the root of the events.
    ensures checks { IfOk result (λ path. (event : List ℕ) → slice_get events.now index ≡ Some event →
        ChecksEvent H.dig (event_root_of H.dig events.now) (length events.now) index event path) }
{
    let mut path = Labels::new(alloc);
    add_path::<H>(events, index as usize, &mut path)?;
    Ok(path)
}
