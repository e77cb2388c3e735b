// Public calls that nothing else makes, for whoever uses a crate alone, each once.

ghost use Rattle.std.specs.Prelude.{◌≡◌, IfOk, [], ◌∷◌};

use crate::skip_lists::{ARCHIVE, no_step};
use std::alloc::Global;
use std::test::Fail;
use tw_base::{Bytes, Digest, EventList, NoMemory, Sha, read_digest, read_number};
use tw_disk::{MemPages, Pages};
use tw_skiplist::{append, events};

#[test]
fn fields_at_a_place(rt: HostRuntime) {
    let bytes = [9; 40];
    assert_eq!(rt; read_number(&bytes, 2, 4, 0, 0xffff_ffff), Ok(0x0909_0909));
    assert_eq!(rt; read_number(&bytes, 2, 2, 0x0906, 0x0907), Err(3));
    assert_eq!(rt; read_number(&bytes, 38, 4, 0, 0xffff_ffff), Err(40));
    assert_eq!(rt; read_digest(&bytes, 8), Ok(Digest([9; 32])));
    assert_eq!(rt; read_digest(&bytes, 9), Err(40));
}

/// The events `9` and one of no bytes.
fn two_events(alloc: Global) -> Result<EventList, NoMemory>
    ensures { IfOk result (λ events. events ≡ (9 ∷ []) ∷ [] ∷ []) }
{
    let event = Bytes::from_slice(alloc, &[9])?;
    let mut events = EventList::new(alloc);
    events.push(event)?;
    events.push(Bytes::new(alloc))?;
    Ok(events)
}

/// The events of the first step of a history, which are these, read of its pages again.
fn events_again(alloc: Global) -> Result<EventList, Fail> {
    let given = two_events(alloc)?;
    let mut pages = MemPages::new(alloc)?;
    let first = no_step()?;
    if first.step >= 1000 || pages.used() >= 5000 {
        return Err("full")?;
    }
    let Ok(head) = append::<MemPages, Sha>(alloc, &mut pages, &first, &given, &ARCHIVE, None) else {
        return Err("not appended")?;
    };
    if head.step > 1000 {
        return Err("another step")?;
    }
    let Ok(events) = events::<MemPages, Sha>(alloc, &mut pages, &head, 1) else {
        return Err("no events")?;
    };
    Ok(events)
}

/// Whether they are these events.
fn are_two_events(events: &EventList) -> bool {
    match events.as_slice() {
        [first, second] => first.as_slice() == [9].as_slice() && second.as_slice().is_empty(),
        _ => false,
    }
}

#[test]
fn events_of_a_step(rt: HostRuntime) -> Result<(), Fail> {
    let events = events_again(rt.alloc())?;
    assert!(rt; are_two_events(&events));
    Ok(())
}
