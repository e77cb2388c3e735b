// Disks that are files, where the file is cut, ends within a page, or is only read. Each fact stands in a function that answers yes or no,
// since a test of few facts is quick to prove.

use crate::folders::{make_folder, remove_folder, size_of, write_file};
use tw_disk::Disk;
use tw_hostio::{Access, FileDisk, HostFile};

// Writes a page full of this byte, and tells whether that went well.
fn put(disk: &mut FileDisk<HostFile<HostRuntime>>, page: u64, byte: u8) -> bool {
    match disk.pages() {
        Ok(count) if page <= count => disk.write(page, &[byte; 4096]).is_ok(),
        _ => false,
    }
}

// Whether the page is there, and begins and ends with this byte.
fn is_page(disk: &mut FileDisk<HostFile<HostRuntime>>, page: u64, byte: u8) -> bool {
    let mut into = [0; 4096];
    match disk.pages() {
        Ok(count) if page < count => {
            disk.read(page, &mut into).is_ok() && into[0] == byte && into[4095] == byte
        }
        _ => false,
    }
}

// Whether the disk has so many pages.
fn has_pages(disk: &mut FileDisk<HostFile<HostRuntime>>, pages: u64) -> bool {
    disk.pages() == Ok(pages)
}

// The first disk's count stands where the file was cut; a read of a page that is gone is a fault.
#[test]
fn a_file_that_was_cut(rt: HostRuntime) {
    let path = "tw_runtests_cut/disk";
    assert!(rt; make_folder(&rt, "tw_runtests_cut"));
    let mut disk = FileDisk::new(&rt, path, Access::Write);
    assert!(rt; put(&mut disk, 0, 5));
    assert!(rt; put(&mut disk, 1, 6));
    assert!(rt; write_file(&rt, path, &[9; 4096 + 100]));
    assert!(rt; has_pages(&mut disk, 2));
    assert!(rt; is_page(&mut disk, 0, 9));
    assert!(rt; !is_page(&mut disk, 1, 6));
    assert!(rt; remove_folder(&rt, "tw_runtests_cut"));
}

// The bytes of half a page at its end are no page, and are written over.
#[test]
fn a_file_that_ends_within_a_page(rt: HostRuntime) {
    let path = "tw_runtests_half/disk";
    assert!(rt; make_folder(&rt, "tw_runtests_half"));
    assert!(rt; write_file(&rt, path, &[9; 4096 + 100]));
    let mut disk = FileDisk::new(&rt, path, Access::Write);
    assert!(rt; has_pages(&mut disk, 1));
    assert!(rt; is_page(&mut disk, 0, 9));
    assert!(rt; put(&mut disk, 1, 4));
    assert!(rt; is_page(&mut disk, 1, 4));
    assert!(rt; size_of(&rt, path) == Some(2 * 4096));
    assert!(rt; remove_folder(&rt, "tw_runtests_half"));
}

// Two read at once, and neither writes.
#[test]
fn a_disk_that_is_read(rt: HostRuntime) {
    let path = "tw_runtests_read/disk";
    assert!(rt; make_folder(&rt, "tw_runtests_read"));
    assert!(rt; write_file(&rt, path, &[9; 4096]));
    let mut one = FileDisk::new(&rt, path, Access::Read);
    let mut other = FileDisk::new(&rt, path, Access::Read);
    assert!(rt; is_page(&mut one, 0, 9));
    assert!(rt; is_page(&mut other, 0, 9));
    assert!(rt; !put(&mut one, 1, 5));
    assert!(rt; other.barrier().is_ok());
    assert!(rt; size_of(&rt, path) == Some(4096));
    assert!(rt; remove_folder(&rt, "tw_runtests_read"));
}
