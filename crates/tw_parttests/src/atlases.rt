// An atlas of three hops, which is checked as it is planned: the call that checks one is for whoever is handed an atlas, and no command
// makes it.

use std::alloc::Global;
use tw_atlas::limits::MOST_RECEIPTS;
use tw_atlas::{Atlas, atlas_laws, check_atlas, plan};
use tw_base::{Hop, HopList, Name};

/// A service with a name of one letter, a step of it, the service that recorded that, and its step.
const HOPS: [(u8, u64, u8, u64); 3] = [(b'a', 3, b'b', 5), (b'b', 4, b'c', 9), (b'b', 6, b'c', 7)];

/// These hops.
fn hops(alloc: Global) -> Option<HopList> {
    let mut hops = HopList::new(alloc);
    for (from, step, by, archived) in HOPS {
        let hop = Hop {
            from: Name::read(&[from])?,
            step,
            by: Name::read(&[by])?,
            archived,
        };
        hops.push(hop).ok()?;
    }
    Some(hops)
}

/// Their atlas from step 2 of `a`.
fn planned(alloc: Global, hops: &HopList) -> Option<Atlas> {
    atlas_laws();
    if hops.len() as u64 > MOST_RECEIPTS {
        return None;
    }
    plan(alloc, hops, &Name::read(b"a")?, 2).ok()
}

/// Whether it passes as one from this step of `a`.
fn passes(alloc: Global, step: u64) -> Option<bool> {
    let hops = hops(alloc)?;
    let atlas = planned(alloc, &hops)?;
    Some(check_atlas(&hops, &Name::read(b"a")?, step, &atlas))
}

#[test]
fn an_atlas_passes_from_its_own_step_alone(rt: HostRuntime) {
    assert_eq!(rt; passes(rt.alloc(), 2), Some(true));
    assert_eq!(rt; passes(rt.alloc(), 4), Some(false));
}
