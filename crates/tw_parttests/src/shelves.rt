// What of a shelf no clause says: that a page on it is read once, and kept for as long as is said.

use std::test::Fail;
use tw_base::{Failed, NoMemory};
use tw_disk::{MemPages, Pages, Shelf, Shelved};

/// Stages a page full of this byte, where there is a number left for it.
pub(crate) fn stage_byte<P: Pages>(pages: &mut P, byte: u8) -> Result<u64, NoMemory> {
    if pages.used() >= (1 << 48) - 4 {
        return Err(NoMemory);
    }
    pages.stage(&[byte; 4096])
}

/// The last byte of a page; none where the list has no such page.
pub(crate) fn last_byte<P: Pages>(pages: &mut P, page: u64) -> Result<Option<u8>, Failed> {
    if page < 4 || page >= pages.used() {
        return Ok(None);
    }
    let mut into = [0; 4096];
    pages.read(page, &mut into)?;
    Ok(Some(into[4095]))
}

/// Whether each of these pages reads as the byte of its number.
fn are_right(near: &mut impl Pages, pages: &[u8]) -> bool {
    for page in pages {
        if last_byte(near, *page as u64) != Ok(Some(*page)) {
            return false;
        }
    }
    true
}

/// Stages the pages from 4 on, each full of its own number.
fn stage_all(near: &mut impl Pages) -> Result<(), NoMemory> {
    for byte in 4..69 {
        stage_byte(near, byte)?;
    }
    Ok(())
}

/// Whether the pages 4 to 67 read so.
fn are_all_right(near: &mut impl Pages) -> bool {
    for page in 4u8..68 {
        if !are_right(near, &[page]) {
            return false;
        }
    }
    true
}

#[test]
fn the_page_used_longest_ago_makes_room_for_the_65th(rt: HostRuntime) -> Result<(), Fail> {
    let mut pages = MemPages::new(rt.alloc())?;
    let mut shelf = Shelf::new(rt.alloc());
    let mut near = Shelved::over(&mut pages, &mut shelf);
    stage_all(&mut near)?;
    assert!(rt; are_all_right(&mut near));
    assert!(rt; are_right(&mut near, &[4, 68, 4, 5]));
    assert_eq!(rt; pages.reads(), 66);
    assert_eq!(rt; shelf.len(), 64);
    Ok(())
}

#[test]
fn a_failed_read_is_tried_again(rt: HostRuntime) -> Result<(), Fail> {
    let mut pages = MemPages::new(rt.alloc())?;
    stage_byte(&mut pages, 4)?;
    pages.fail(1)?;
    let mut shelf = Shelf::new(rt.alloc());
    let mut near = Shelved::over(&mut pages, &mut shelf);
    assert_eq!(rt; last_byte(&mut near, 4), Err(Failed));
    assert_eq!(rt; last_byte(&mut near, 4)?, Some(4));
    assert_eq!(rt; last_byte(&mut near, 4)?, Some(4));
    assert_eq!(rt; pages.reads(), 2);
    Ok(())
}
