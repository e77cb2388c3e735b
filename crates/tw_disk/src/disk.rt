// A disk of pages: what reads give, how many pages there are, and what a crash may leave.
ghost use Rattle.std.specs.Prelude.{◌≡◌, ◌⊎◌, ◌<◌, ◌≤◌, ℕ, List, length, Option, Some, None, IfOk, IfSome, OnOk, OnErr, MatchOption};
ghost use Rattle.std.specs.Option.{option_map, IsSomeAnd};
ghost use Rattle.tw_disk.specs.Image.{Image, Torn, put, page_at};
ghost use Rattle.tw_base.specs.kinds.Faults.{HasCause};
ghost use Rattle.tw_disk.specs.Disk.{grown, KeepsRoom, FollowsByStep, Only, DiskView, IsSameDisk, TimeGoesOn};

use tw_base::{Failed, Page};

/// A block device with pages of 4,096 bytes, numbered from 0.
///
/// Each call answers `Ok`, or `Failed` where the count of faults rose in it. A barrier makes the writes before it stable. After a crash:
///
/// 1. each page written since the last good barrier may hold any bytes;
/// 2. the other pages hold what they held;
/// 3. the page count lies between the count at the last good barrier and the last count.
///
/// A write that failed leaves its page with any bytes, now and after a crash, and at the count it may or may not have added the page.
/// A barrier that failed changes nothing that reads give and makes nothing stable.
///
/// A disk that can't say what it holds, such as one over a real file, tells no content and no image; its calls keep their causes.
pub trait Disk {
    /// What the disk tells of itself.
    ghost view: { Self → DiskView };

    /// The number of pages. It changes nothing.
    fn pages(&mut self) -> Result<u64, Failed>
        // The number of pages that is answered is then told.
        ensures told { IfOk result (λ n. (view self.new).count ≡ Some n) }
        ensures kept { IfSome (view self.old).count (λ n. (view self.new).count ≡ Some n) }
        // Counting pages leaves the disk the same, and what a crash may leave.
        ensures same { IsSameDisk (view self.old) (view self.new) }
        // A call fails only where the count of faults rose.
        ensures cause { HasCause (view self.old).faults (view self.new).faults result };

    /// Gives the bytes of a page below the told count. It changes nothing; after `Failed` the array may hold anything.
    fn read(&mut self, page: u64, into: &mut Page) -> Result<(), Failed>
        requires { IsSomeAnd (view self.old).count (λ n. page < n) }
        // A read gives the page that the told content has.
        ensures bytes { OnOk result (IfSome (view self.old).content (λ c. into.new ≡ page_at c page)) }
        ensures count { (view self.new).count ≡ (view self.old).count }
        // Reading leaves the disk the same, and what a crash may leave.
        ensures same { IsSameDisk (view self.old) (view self.new) }
        // A call fails only where the count of faults rose.
        ensures cause { HasCause (view self.old).faults (view self.new).faults result };

    /// Writes a page that is at most the told count; a write at the count adds a page.
    fn write(&mut self, page: u64, from: &Page) -> Result<(), Failed>
        requires { IsSomeAnd (view self.old).count (λ n. page ≤ n) }

        // After `Ok` the page reads as written, and the others as before.
        ensures written { OnOk result ((view self.new).content ≡ option_map (put page from.now) (view self.old).content) }
        // Whatever the answer, the other pages read as before; after a failure the page may hold any bytes.
        ensures torn { MatchOption (view self.old).content ((view self.new).content ≡ None) (λ c. IsSomeAnd (view self.new).content (Torn page c)) }
        // After `Ok` a page at the count is one page more.
        ensures grown { OnOk result ((view self.new).count ≡ grown page (view self.old).count) }
        ensures count { ((view self.new).count ≡ (view self.old).count) ⊎ ((view self.new).count ≡ grown page (view self.old).count) }
        ensures room { KeepsRoom (view self.old).count (view self.new).count }

        // Whatever a crash may leave after a write is something that it might have left before, with any bytes in that
        // page and perhaps one page more.
        ensures crash { FollowsByStep (Torn page) (view self.old).may_leave (view self.new).may_leave }
        // A crash since an earlier moment might have left what it might have left before the write, or what it may
        // leave now.
        ensures time { TimeGoesOn (view self.old) (view self.new) }
        // A call fails only where the count of faults rose.
        ensures cause { HasCause (view self.old).faults (view self.new).faults result };

    /// Makes stable what was written. After `Failed` nothing is more stable than before.
    fn barrier(&mut self) -> Result<(), Failed>
        // After a good barrier a crash leaves nothing but what reads give.
        ensures durable { OnOk result (IfSome (view self.old).content (λ c. Only c (view self.new).may_leave)) }
        ensures count { (view self.new).count ≡ (view self.old).count }
        // A barrier changes nothing that reads give.
        ensures content { (view self.new).content ≡ (view self.old).content }
        // A crash leaves nothing that it might not have left before the barrier.
        ensures crash { (c : Image) → (view self.new).may_leave c → (view self.old).may_leave c }
        // A failed barrier makes nothing stable.
        ensures nothing_stable { OnErr result ((c : Image) → (view self.old).may_leave c → (view self.new).may_leave c) }
        ensures time { TimeGoesOn (view self.old) (view self.new) }
        // A call fails only where the count of faults rose.
        ensures cause { HasCause (view self.old).faults (view self.new).faults result };

    /// A disk that tells its content tells its page count.
    ghost count_is_told: { (disk : Self) (c : Image) → (view disk).content ≡ Some c → (view disk).count ≡ Some (length c) };

    /// A disk as it reads is one of its images.
    ghost as_it_reads: { (disk : Self) (c : Image) → (view disk).content ≡ Some c → (view disk).may_leave c };

    /// This moment is one of those since an earlier one.
    ghost counts_now: { (disk : Self) (t : ℕ) (c : Image) → t ≤ (view disk).moment → (view disk).may_leave c → (view disk).left_since t c };

    /// Since this moment there is no other.
    ghost only_now: { (disk : Self) (c : Image) → (view disk).left_since (view disk).moment c → (view disk).may_leave c };
}
