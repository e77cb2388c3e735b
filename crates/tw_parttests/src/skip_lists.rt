// How many pages it costs to tell a step that lies deep below the head, where none is kept.

ghost use Rattle.std.specs.Prelude.{◌≡◌, ◌≤◌, ◌∷◌, [], IfOk};

use std::alloc::Global;
use std::test::Fail;
use tw_base::{Bytes, Digest, EventList, Name, NoMemory, Root, Sha, genesis};
use tw_disk::{MemPages, Pages};
use tw_skiplist::{Head, append, step};

/// The archive of each step: the empty tree, whose label nothing looks at.
pub(crate) const ARCHIVE: Root = Root {
    page: 0,
    label: Digest([7; 32]),
};

/// One event of one byte.
fn one_event(alloc: Global) -> Result<EventList, NoMemory>
    ensures { IfOk result (λ events. events ≡ (9 ∷ []) ∷ []) }
{
    let event = Bytes::from_slice(alloc, &[9])?;
    let mut events = EventList::new(alloc);
    events.push(event)?;
    Ok(events)
}

/// The head of a history of no step, of the service `a`.
pub(crate) fn no_step() -> Result<Head, Fail> {
    let name = Name::read(b"a").ok_or("no name")?;
    Ok(Head {
        step: 0,
        auth: genesis::<Sha>(&name),
        page: 0,
    })
}

/// Appends a step of one event.
fn add(alloc: Global, pages: &mut MemPages, head: &Head) -> Result<Head, Fail>
    ensures { IfOk result (λ new. new.step ≤ 1000) }
{
    let events = one_event(alloc)?;
    if head.step >= 1000 || pages.used() >= 5000 {
        return Err("full")?;
    }
    match append::<MemPages, Sha>(alloc, pages, head, &events, &ARCHIVE, None) {
        Ok(new) => Ok(new),
        Err(_) => Err("not appended")?,
    }
}

/// A history of a thousand steps.
fn thousand_steps(alloc: Global, pages: &mut MemPages) -> Result<Head, Fail>
    ensures { IfOk result (λ last. last.step ≤ 1000) }
{
    let mut last = add(alloc, pages, &no_step()?)?;
    for _ in 1..1000 {
        let next = add(alloc, pages, &last)?;
        last = next;
    }
    if last.step != 1000 {
        return Err("another number of steps")?;
    }
    Ok(last)
}

/// Whether step 1 is told.
fn is_first_told(alloc: Global, pages: &mut MemPages, head: &Head) -> bool
    requires { head.now.step ≤ 1000 }
{
    step::<MemPages, Sha>(alloc, pages, head, 1).is_ok()
}

// The greedy path from 1,000 down to 1 has 15 steps: 1000, 992, 960, 896, 768, and the powers of two from 512 on.
#[test]
fn the_first_of_a_thousand_steps_is_told_by_fifteen_pages(rt: HostRuntime) -> Result<(), Fail> {
    let mut pages = MemPages::new(rt.alloc())?;
    let head = thousand_steps(rt.alloc(), &mut pages)?;
    let start = pages.reads();
    assert!(rt; is_first_told(rt.alloc(), &mut pages, &head));
    assert_eq!(rt; pages.reads(), start.saturating_add(15));
    Ok(())
}
