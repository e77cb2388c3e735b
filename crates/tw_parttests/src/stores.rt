// A store of two pages on a disk in memory: its generation, its slot and its device calls.

use std::alloc::Global;
use std::test::Fail;
use tw_disk::{MemDisk, Pages};
use tw_pages::Store;

/// A store over a disk in memory.
type Kept = Store<MemDisk>;

/// A new store, with a root record of one byte.
fn made(alloc: Global) -> Option<Kept> {
    match Kept::init(alloc, MemDisk::new(alloc), &[1]) {
        Ok(store) => Some(store),
        Err((_, _)) => None,
    }
}

/// The store on this disk.
fn opened(alloc: Global, disk: MemDisk) -> Option<Kept> {
    match Kept::open(alloc, disk) {
        Ok(store) => Some(store),
        Err((_, _)) => None,
    }
}

/// Stages two pages, and commits them with another root record.
fn commit_two(store: &mut Kept) -> Option<()> {
    for byte in [7, 8] {
        if store.used() >= (1 << 48) - 4 {
            return None;
        }
        let _ = store.stage(&[byte; 4096]).ok()?;
    }
    if store.generation() >= (1 << 48) - 1 {
        return None;
    }
    store.commit(&[2]).ok()
}

/// The numbers of the store: its generation, its slot, and how many pages it has.
fn numbers(store: &Kept) -> (u64, u8, u64) {
    (store.generation(), store.slot(), store.used())
}

#[test]
fn two_pages_are_committed_by_eight_device_calls(rt: HostRuntime) -> Result<(), Fail> {
    let mut store = made(rt.alloc()).ok_or("no store")?;
    assert_eq!(rt; numbers(&store), (1, 0, 4));
    commit_two(&mut store).ok_or("not committed")?;
    assert_eq!(rt; numbers(&store), (2, 1, 6));
    let disk = store.close();
    assert_eq!(rt; disk.device_calls(), 18);
    let store = opened(rt.alloc(), disk).ok_or("not opened")?;
    assert_eq!(rt; numbers(&store), (2, 1, 6));
    assert!(rt; store.root() == [2].as_slice());
    Ok(())
}
