// Three events: their root and their paths.

ghost use Rattle.std.specs.Prelude.{◌≡◌, ◌+◌, ◌≤◌, length, OnOk, IfOk};
ghost use Rattle.tw_base.specs.kinds.Lists.{Each};
ghost use Rattle.tw_base.specs.declared.kinds.limits.TheConstants.{MOST_EVENT_BYTES};

use std::alloc::Global;
use std::test::Fail;
use tw_base::{Bytes, Digest, EventList, NoMemory, Sha, event_leaf, event_node};
use tw_events::{event_path, event_root};

/// The root of no events: the SHA-256 of no bytes.
const NO_EVENTS: [u8; 32] =
    *b"\xe3\xb0\xc4\x42\x98\xfc\x1c\x14\x9a\xfb\xf4\xc8\x99\x6f\xb9\x24\x27\xae\x41\xe4\x64\x9b\x93\x4c\xa4\x95\x99\x1b\x78\x52\xb8\x55";

/// Appends an event.
fn add_event(alloc: Global, events: &mut EventList, bytes: &[u8]) -> Result<(), NoMemory>
    requires short { length bytes.now ≤ MOST_EVENT_BYTES }
    requires small { Each (λ event. length event ≤ MOST_EVENT_BYTES) events.old }
    ensures len { OnOk result (length events.new ≡ length events.old + 1) }
    ensures small { Each (λ event. length event ≤ MOST_EVENT_BYTES) events.new }
{
    let mut event = Bytes::new(alloc);
    event.extend_from_slice(bytes)?;
    events.push(event)?;
    Ok(())
}

/// The event of no bytes, that of one byte 1, and that of two bytes 2.
fn three_events(alloc: Global) -> Result<EventList, NoMemory>
    ensures count { IfOk result (λ events. length events ≡ 3) }
    ensures small { IfOk result (λ events. Each (λ event. length event ≤ MOST_EVENT_BYTES) events) }
{
    let mut events = EventList::new(alloc);
    add_event(alloc, &mut events, b"")?;
    add_event(alloc, &mut events, &[1])?;
    add_event(alloc, &mut events, &[2, 2])?;
    Ok(events)
}

#[test]
fn root_and_paths_of_three_events(rt: HostRuntime) -> Result<(), Fail> {
    let events = three_events(rt.alloc())?;
    let first = event_leaf::<Sha>(b"");
    let second = event_leaf::<Sha>(&[1]);
    let third = event_leaf::<Sha>(&[2, 2]);
    let left = event_node::<Sha>(&first, &second);
    assert_eq!(rt;
        event_root::<Sha>(events.as_slice()),
        event_node::<Sha>(&left, &third)
    );
    let to_first = event_path::<Sha>(rt.alloc(), events.as_slice(), 0)?;
    assert_eq!(rt; to_first.as_slice(), [second, third].as_slice());
    let to_third = event_path::<Sha>(rt.alloc(), events.as_slice(), 2)?;
    assert_eq!(rt; to_third.as_slice(), [left].as_slice());
    Ok(())
}

#[test]
fn root_of_no_events(rt: HostRuntime) {
    let events = EventList::new(rt.alloc());
    assert_eq!(rt; event_root::<Sha>(events.as_slice()), Digest(NO_EVENTS));
}
