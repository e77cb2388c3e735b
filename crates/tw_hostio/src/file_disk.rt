// A disk over one file; `tw_disk` has disks in memory.

ghost use Rattle.std.specs.Prelude.{◌≡◌, ◌<◌, ◌≤◌, ◌+◌, ◌*◌, ◌/◌, ◌^◌, ℕ, List, length, take, drop, None, Ok, false, IfOk, IfSome, OnOk, OnErr, MatchOption};
ghost use Rattle.std.specs.Option.{option_map, IsSomeAnd};
ghost use Rattle.tw_base.specs.declared.kinds.limits.TheConstants.{PAGE_SIZE};
ghost use Rattle.tw_base.specs.kinds.Faults.{Rose};
ghost use Rattle.tw_disk.specs.Disk.{grown};
ghost use Rattle.tw_hostio.specs.FileBytes.{put_bytes, TornBytes};
ghost use Rattle.tw_hostio.specs.FileDisk.{file_disk_view, IsCountOf};
ghost use Rattle.tw_hostio.specs.FileDiskSteps.{count_of-prop, told_page_count, told_file_pages, pages_on};
ghost use Rattle.tw_hostio.specs.PageFile.{OnlyBytes, FollowsByWrite, KeepsOutcomes, FileTimeGoesOn, IsSameFile, IsAbsent};

use crate::access::Access;
use crate::file_stage::FileStage;
use crate::host_file::HostFile;
use crate::page_file::PageFile;
use crate::transfers::{count_pages, place_of, read_page, write_page};
use std::fs::File;
use std::rt::Files;
use tw_base::{Failed, Page};
use tw_disk::Disk;

/// A disk over a file, which is opened at the first call that needs it.
///
/// Page n is the file's bytes from 4,096 n on; bytes behind the last whole page are none. Where the file tells its bytes, these pages are
/// the disk's content, told from the beginning. The file's length is asked for once, at the first good `pages`; good writes behind the
/// last page are counted from then on. One that failed may have added a page, so `pages` fails from then on.
///
/// An error of the file, or its end within a page, counts as a fault. A file that isn't there and is only to be read has no pages, and
/// a write to a file that is only to be read counts a fault.
#[derive(Drop)]
pub struct FileDisk<F: PageFile> {
    file: F,
    count: Option<u64>,
    in_doubt: bool,
    faults: u64,
    ghost counted: { IsCountOf (F.PageFile.view file).bytes count in_doubt } by { count_of-prop (F.PageFile.view file).bytes count in_doubt },
}

impl<F: PageFile> FileDisk<F> {
    ghost use Rattle.tw_hostio.specs.Under.{file_under, disk_faults};

    /// The disk over this file. It makes no call yet.
    pub fn over(file: F) -> Self
        ensures file { file_under result ≡ file }
        ensures faults { disk_faults result ≡ 0 }
    {
        FileDisk {
            file,
            count: None,
            in_doubt: false,
            faults: 0,
        }
    }

    /// The file under it.
    pub fn file(&self) -> &F
        ensures { result.now ≡ file_under self.now }
    {
        &self.file
    }
}

impl<'a, R: Files<File = File> + Alloc> FileDisk<HostFile<'a, R>> {
    /// The disk over the file of this path. No file is opened yet. It tells no content.
    pub fn new(rt: &'a R, path: &'a str, access: Access) -> Self {
        FileDisk::over(HostFile::new(rt, path, access))
    }
}

/// Counts a fault.
fn count_fault(faults: &mut u64) -> Failed
    ensures rose { Rose faults.old faults.new }
    ensures later { faults.old ≤ faults.new }
{
    *faults = faults.saturating_add(1);
    Failed
}

/// The page count after a good write of this page.
fn count_after(count: Option<u64>, page: u64) -> Option<u64>
    requires { page + 1 < 2 ^ 64 }
    ensures { result ≡ grown page count }
{
    match count {
        Some(count) => Some(count.max(page + 1)),
        None => None,
    }
}

/// Whether the page count is in doubt after a write of this page that failed: it was before, or the page was behind the last one.
fn is_in_doubt(in_doubt: bool, count: Option<u64>, page: u64) -> bool
    ensures { result ≡ false → (in_doubt ≡ false) × IfSome count (λ n. page < n) }
{
    match count {
        Some(count) => in_doubt || count <= page,
        None => in_doubt,
    }
}

/// Opens the file where it isn't open yet, and tells how far it is.
fn open<F: PageFile>(file: &mut F) -> Result<FileStage, Failed>
    ensures reached { IfOk result (λ stage. (F.view file.new).stage ≡ stage) }
    ensures absent { result ≡ Ok FileStage.Closed → IfSome (F.view file.old).bytes (IsAbsent (F.view file.old)) }
    ensures same { IsSameFile (F.view file.old) (F.view file.new) }
{
    match file.open() {
        Ok(stage) => Ok(stage),
        Err(_) => Err(Failed),
    }
}

/// Counts the whole pages of the file, which has none where it isn't there.
fn pages_of<F: PageFile>(file: &mut F) -> Result<u64, Failed>
    ensures count { IfOk result (λ n. IfSome (F.view file.old).bytes (λ bytes. n ≡ length bytes / PAGE_SIZE)) }
    ensures same { IsSameFile (F.view file.old) (F.view file.new) }
{
    match open(file)? {
        FileStage::Closed => Ok(0),
        FileStage::Locked | FileStage::Named => count_pages(file),
    }
}

/// Reads a page whole.
fn read_from<F: PageFile>(file: &mut F, page: u64, into: &mut Page) -> Result<(), Failed>
    ensures bytes { OnOk result (IfSome (F.view file.old).bytes (λ bytes. (PAGE_SIZE * page + PAGE_SIZE ≤ length bytes)
        × (into.new ≡ take PAGE_SIZE (drop (PAGE_SIZE * page) bytes)))) }
    ensures same { IsSameFile (F.view file.old) (F.view file.new) }
{
    let place = place_of(page)?;
    match open(file)? {
        FileStage::Closed => Err(Failed),
        FileStage::Locked | FileStage::Named => read_page(file, place, into),
    }
}

/// Writes a page whole; an error where the file is only to be read.
fn write_to<F: PageFile>(file: &mut F, page: u64, from: &Page) -> Result<(), Failed>
    requires { IfSome (F.view file.old).bytes (λ bytes. PAGE_SIZE * page ≤ length bytes) }
    ensures fits { OnOk result (page + 1 < 2 ^ 64) }
    ensures written { OnOk result ((F.view file.new).bytes ≡ option_map (put_bytes (PAGE_SIZE * page) from.now) (F.view file.old).bytes) }
    ensures torn { MatchOption (F.view file.old).bytes ((F.view file.new).bytes ≡ None) (λ bytes. IsSomeAnd (F.view file.new).bytes (TornBytes (PAGE_SIZE * page) PAGE_SIZE bytes)) }
    ensures crash { FollowsByWrite (PAGE_SIZE * page) PAGE_SIZE (F.view file.old).may_leave (F.view file.new).may_leave }
    ensures time { FileTimeGoesOn (F.view file.old) (F.view file.new) }
{
    let place = place_of(page)?;
    match open(file)? {
        FileStage::Closed | FileStage::Locked => Err(Failed),
        FileStage::Named => write_page(file, place, from),
    }
}

/// Makes stable what was written to the file; nothing where it isn't there.
fn sync<F: PageFile>(file: &mut F) -> Result<(), Failed>
    ensures durable { OnOk result (IfSome (F.view file.old).bytes (λ bytes. OnlyBytes bytes (F.view file.new).may_leave)) }
    ensures bytes { (F.view file.new).bytes ≡ (F.view file.old).bytes }
    ensures crash { KeepsOutcomes (F.view file.new).may_leave (F.view file.old).may_leave }
    ensures nothing_stable { OnErr result (KeepsOutcomes (F.view file.old).may_leave (F.view file.new).may_leave) }
    ensures time { FileTimeGoesOn (F.view file.old) (F.view file.new) }
{
    match open(file)? {
        FileStage::Closed => Ok(()),
        FileStage::Locked | FileStage::Named => match file.sync() {
            Ok(()) => Ok(()),
            Err(_) => Err(Failed),
        },
    }
}

impl<F: PageFile> Disk for FileDisk<F> {
    ghost view = { λ disk. file_disk_view (F.PageFile.view disk.file) disk.count disk.faults };

    ghost count_is_told = { λ disk c is. told_page_count (F.PageFile.view disk.file).bytes disk.count c is };

    ghost as_it_reads = { λ disk c is. told_file_pages (F.PageFile.view disk.file).bytes (F.PageFile.view disk.file).may_leave (F.PageFile.as_it_reads disk.file) c is };

    ghost counts_now = { λ disk t c le left. pages_on (F.PageFile.view disk.file).may_leave ((F.PageFile.view disk.file).left_since t) c (λ b. F.PageFile.counts_now disk.file t b le) left };

    ghost only_now = { λ disk c left. pages_on ((F.PageFile.view disk.file).left_since (F.PageFile.view disk.file).moment) (F.PageFile.view disk.file).may_leave c (F.PageFile.only_now disk.file) left };

    fn pages(&mut self) -> Result<u64, Failed> {
        if self.in_doubt {
            return Err(count_fault(&mut self.faults));
        }
        if let Some(count) = self.count {
            return Ok(count);
        }
        match pages_of(&mut self.file) {
            Ok(count) => {
                self.count = Some(count);
                Ok(count)
            }
            Err(Failed) => Err(count_fault(&mut self.faults)),
        }
    }

    fn read(&mut self, page: u64, into: &mut Page) -> Result<(), Failed> {
        match read_from(&mut self.file, page, into) {
            Ok(()) => Ok(()),
            Err(Failed) => Err(count_fault(&mut self.faults)),
        }
    }

    fn write(&mut self, page: u64, from: &Page) -> Result<(), Failed> {
        match write_to(&mut self.file, page, from) {
            Ok(()) => {
                self.count = count_after(self.count, page);
                Ok(())
            }
            Err(Failed) => {
                self.in_doubt = is_in_doubt(self.in_doubt, self.count, page);
                Err(count_fault(&mut self.faults))
            }
        }
    }

    fn barrier(&mut self) -> Result<(), Failed> {
        match sync(&mut self.file) {
            Ok(()) => Ok(()),
            Err(Failed) => Err(count_fault(&mut self.faults)),
        }
    }
}
