// What of kept pages no clause says: that a page is read once from the inner pages, and again once they were lent.

use crate::shelves::{last_byte, stage_byte};
use std::alloc::Global;
use std::test::Fail;
use tw_cache::Cached;
use tw_disk::{MemDisk, MemPages, Pages};
use tw_pages::Store;

/// Two pages over a list in memory, each full of its own number.
fn cached_pages(alloc: Global) -> Result<Cached<MemPages>, Fail> {
    let pages = MemPages::new(alloc)?;
    let mut pages = Cached::new(alloc, pages).map_err(|(_pages, none)| none)?;
    stage_byte(&mut pages, 4)?;
    stage_byte(&mut pages, 5)?;
    Ok(pages)
}

#[test]
fn a_page_read_twice_is_read_once_below(rt: HostRuntime) -> Result<(), Fail> {
    let mut pages = cached_pages(rt.alloc())?;
    assert_eq!(rt; last_byte(&mut pages, 5)?, Some(5));
    assert_eq!(rt; last_byte(&mut pages, 5)?, Some(5));
    assert_eq!(rt; pages.kept(), 1);
    assert_eq!(rt; pages.close().reads(), 1);
    Ok(())
}

#[test]
fn what_is_kept_is_forgotten_where_the_inner_pages_are_lent(rt: HostRuntime) -> Result<(), Fail> {
    let mut pages = cached_pages(rt.alloc())?;
    assert_eq!(rt; last_byte(&mut pages, 5)?, Some(5));
    assert_eq!(rt; stage_byte(pages.inner_mut(), 6)?, 6);
    assert_eq!(rt; last_byte(&mut pages, 5)?, Some(5));
    assert_eq!(rt; last_byte(&mut pages, 6)?, Some(6));
    assert_eq!(rt; pages.close().reads(), 3);
    Ok(())
}

/// A new store in memory, behind a cache.
fn cached_store(alloc: Global) -> Option<Cached<Store<MemDisk>>> {
    let store = Store::init(alloc, MemDisk::new(alloc), &[1]).ok()?;
    Cached::new(alloc, store).ok()
}

/// Commits this byte as the root record of the store behind the cache.
fn commit_byte(pages: &mut Cached<Store<MemDisk>>, byte: u8) -> bool {
    let store = pages.inner_mut();
    store.generation() < (1 << 48) - 1 && store.commit(&[byte]).is_ok()
}

#[test]
fn a_page_staged_through_the_cache_is_committed_behind_it(rt: HostRuntime) -> Result<(), Fail> {
    let mut pages = cached_store(rt.alloc()).ok_or("no store")?;
    assert_eq!(rt; stage_byte(&mut pages, 7)?, 4);
    assert!(rt; commit_byte(&mut pages, 2));
    assert_eq!(rt; last_byte(&mut pages, 4)?, Some(7));
    let disk = pages.close().close();
    let mut store = Store::open(rt.alloc(), disk).map_err(|(_disk, _fault)| "no store")?;
    assert_eq!(rt; last_byte(&mut store, 4)?, Some(7));
    Ok(())
}
