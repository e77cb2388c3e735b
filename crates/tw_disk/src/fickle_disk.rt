// A disk that isn't honest, for tests: its reads contradict each other.

ghost use Rattle.std.specs.Prelude.{◌≡◌, ◌↔◌, ◌⊎◌, ◌<◌, ◌-◌, Some, IfOk, IfSome, OnOk, IsOk, IsErr, IsTrue};
ghost use Rattle.std.specs.Option.{IsSomeAnd};
ghost use Rattle.tw_base.specs.kinds.Faults.{HasCause};
ghost use Rattle.tw_base.specs.kinds.PlannedFailures.{fails_next};
ghost use Rattle.tw_disk.specs.Disk.{IsSameDisk};
ghost use Rattle.tw_disk.specs.DiskSteps.{no_content};
ghost use Rattle.tw_disk.specs.FickleDisk.{GivesAll, disk_under, fickle_disk_view, honest_reads};
ghost use Rattle.tw_disk.specs.Image.{page_at};
ghost use Rattle.tw_disk.specs.MemDisk.{failing_reads_of, is_stopped, pages_of};

use crate::disk::Disk;
use crate::memory_disk::MemDisk;
use tw_base::{Failed, Page};

/// What a read gives in place of the page that is asked.
#[derive(Clone, Copy, Drop)]
enum Given {
    /// That page.
    Asked,
    /// That page with one byte changed.
    Changed,
    /// Another page, or by chance that one.
    Other,
    /// Such a page with one byte changed.
    OtherChanged,
}

/// A disk over a disk in memory that gives other bytes at each read, from a number of reads on; until then it gives what was written.
///
/// What each read from then on gives follows from the seed: the page that is asked or any other one, with one byte changed or as it is. The
/// page count alone is told, and is right; neither what reads give nor what a crash may leave is told. A call fails only where one of the
/// disk in memory under it does: where that is planned or it is stopped, and a write or barrier for want of memory, too.
#[derive(Drop)]
pub struct FickleDisk {
    inner: MemDisk,
    honest: u64,
    seed: u64,
}

impl FickleDisk {
    /// The disk over the pages of this one, which is honest for so many reads more. It takes no memory.
    pub fn new(inner: MemDisk, honest: u64, seed: u64) -> FickleDisk
        ensures under { disk_under result ≡ inner }
        ensures honest { honest_reads result ≡ honest }
    {
        FickleDisk {
            inner,
            honest,
            seed,
        }
    }

    /// The next number of the sequence, below 2^31, as `Draws` of tw_generate makes them.
    fn draw(&mut self) -> u64
        ensures inner { self.new.inner ≡ self.old.inner }
        ensures honest { self.new.honest ≡ self.old.honest }
    {
        self.seed = self
            .seed
            .wrapping_mul(6364136223846793005)
            .wrapping_add(1442695040888963407);
        self.seed >> 33
    }

    /// What the next read gives.
    fn next(&mut self) -> Given
        ensures inner { self.new.inner ≡ self.old.inner }
        ensures honest { self.new.honest ≡ self.old.honest - 1 }
        ensures asked { 0 < self.old.honest → result ≡ Given.Asked }
    {
        if self.honest > 0 {
            self.honest -= 1;
            return Given::Asked;
        }
        match self.draw() % 3 {
            0 => Given::Changed,
            1 => Given::Other,
            _ => Given::OtherChanged,
        }
    }

    /// The page that is read where this one, of so many, is asked.
    fn page_for(&mut self, given: Given, page: u64, count: u64) -> u64
        requires { page < count }
        ensures below { result < count }
        ensures inner { self.new.inner ≡ self.old.inner }
        ensures honest { self.new.honest ≡ self.old.honest }
        ensures asked { given ≡ Given.Asked → result ≡ page }
    {
        match given {
            Given::Asked | Given::Changed => page,
            Given::Other | Given::OtherChanged => self.draw() % count,
        }
    }

    /// Changes one byte, where one is to be changed.
    fn spoil(&mut self, given: Given, bytes: &mut Page)
        ensures inner { self.new.inner ≡ self.old.inner }
        ensures honest { self.new.honest ≡ self.old.honest }
        ensures asked { given ≡ Given.Asked → bytes.new ≡ bytes.old }
    {
        let place = (self.draw() % 4096) as usize;
        match given {
            Given::Asked | Given::Other => (),
            Given::Changed | Given::OtherChanged => bytes[place] ^= 1,
        }
    }
}

impl Disk for FickleDisk {
    ghost view = { fickle_disk_view };

    ghost count_is_told = { λ disk c is. no_content c _ is };

    ghost as_it_reads = { λ disk c is. no_content c _ is };

    ghost counts_now = { λ disk t c le left. left };

    ghost only_now = { λ disk c left. left };

    fn pages(&mut self) -> Result<u64, Failed>
        ensures told { IfOk result (λ n. (fickle_disk_view self.new).count ≡ Some n) }
        ensures kept { IfSome (fickle_disk_view self.old).count (λ n. (fickle_disk_view self.new).count ≡ Some n) }
        ensures same { IsSameDisk (fickle_disk_view self.old) (fickle_disk_view self.new) }
        // A failed call is counted as a fault, as the disk model asks of each call.
        ensures cause { HasCause (fickle_disk_view self.old).faults (fickle_disk_view self.new).faults result }

        // A page count fails where that is planned on the disk under it and where that is stopped, and nowhere else.
        ensures fails { IsErr result ↔ (IsTrue (fails_next (failing_reads_of (disk_under self.old))) ⊎ IsTrue (is_stopped (disk_under self.old))) }
        // Where nothing is planned and it isn't stopped, that stays so.
        ensures gives { GivesAll self.old → GivesAll self.new }
        ensures honest { honest_reads self.new ≡ honest_reads self.old }
    {
        self.inner.pages()
    }

    fn read(&mut self, page: u64, into: &mut Page) -> Result<(), Failed>
        requires { IsSomeAnd (fickle_disk_view self.old).count (λ n. page < n) }
        ensures bytes { OnOk result (IfSome (fickle_disk_view self.old).content (λ c. into.new ≡ page_at c page)) }
        ensures count { (fickle_disk_view self.new).count ≡ (fickle_disk_view self.old).count }
        ensures same { IsSameDisk (fickle_disk_view self.old) (fickle_disk_view self.new) }
        // A failed call is counted as a fault, as the disk model asks of each call.
        ensures cause { HasCause (fickle_disk_view self.old).faults (fickle_disk_view self.new).faults result }

        // As long as it is honest, a read gives what was written.
        ensures asked { OnOk result (0 < honest_reads self.old → into.new ≡ page_at (pages_of (disk_under self.old)) page) }
        // Each read that doesn't fail uses up one of those for which it is honest.
        ensures honest { OnOk result (honest_reads self.new ≡ honest_reads self.old - 1) }
        // A read never fails where nothing is planned on the disk under it and that isn't stopped; and that stays so.
        ensures gives { GivesAll self.old → IsOk result × GivesAll self.new }
    {
        let count = self.inner.pages()?;
        let given = self.next();
        let from = self.page_for(given, page, count);
        self.inner.read(from, into)?;
        self.spoil(given, into);
        Ok(())
    }

    fn write(&mut self, page: u64, from: &Page) -> Result<(), Failed> {
        self.inner.write(page, from)
    }

    fn barrier(&mut self) -> Result<(), Failed> {
        self.inner.barrier()
    }
}
