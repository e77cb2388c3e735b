// A disk in memory, which fails, stops and crashes where that is planned, for tests and scripts; a real one is in
// `tw_hostio`.
ghost use Rattle.std.specs.Prelude.{◌≡◌, ◌⊎◌, ◌↔◌, ◌<◌, ◌≤◌, ◌+◌, ◌-◌, ◌^◌, ◌++◌, ◌∷◌, [], ℕ, min, length, Some, None, false, vec_len, OnOk, OnErr, IsOk, IsErr, IsTrue};
ghost use Rattle.tw_disk.specs.Image.{put, page_at};
ghost use Rattle.tw_base.specs.kinds.Faults.{HasCause, Rose};
ghost use Rattle.tw_base.specs.kinds.PlannedFailures.{fails_next, after_call};
ghost use Rattle.tw_disk.specs.Model.{Write, Barrier, IsImage, Since};
ghost use Rattle.tw_disk.specs.KeptCalls.{earlier, calls_of, written_of, AllFit, Gains};
ghost use Rattle.tw_disk.specs.MemDiskSteps.{all_fit-prop};

use crate::call::Call;
use crate::crash::leave;
use crate::disk::Disk;
use crate::kept_page::KeptPage;
use std::alloc::Global;
use std::mem;
use tw_base::{Failed, FailingCalls, NoMemory, Page};

/// A disk in memory, which tells its content and keeps all its writes and barriers since it was made or crashed.
///
/// Of each write it keeps the bytes that the write replaced, so what every read since then gave, and what each crash since then might have
/// left, follows from what it keeps; each page that was written is held once for what reads give and once for each write that replaced it,
/// without the zeros at its end.
/// A write or barrier that finds no memory counts a fault and answers `Failed`, and changes nothing; so does one that would be
/// number 2^64 of those that were kept ever, crashes or not. Their number is the moment.
#[derive(Drop)]
pub struct MemDisk {
    pages: Vec<KeptPage>,
    calls: Vec<Call>,
    crashed_at: u64,
    failing: FailingCalls,
    failing_reads: FailingCalls,
    made: u64,
    reads: u64,
    stop: Option<u64>,
    is_stopped: bool,
    faults: u64,
    alloc: Global,
    ghost counted: { crashed_at + length calls.items < 2 ^ 64 },
    ghost calls_fit: { AllFit calls.items pages.items } by { all_fit-prop calls.items pages.items },
}

// Writes over a page that is there, and keeps what it held; or does neither where there is no memory.
fn overwrite(
    calls: &mut Vec<Call>,
    pages: &mut Vec<KeptPage>,
    alloc: Global,
    place: usize,
    from: &Page,
) -> Result<(), NoMemory>
    requires { place < vec_len pages.old }
    ensures gains { OnOk result (Gains (Write place from.now) calls.old.items pages.old.items calls.new.items pages.new.items) }
    ensures pages { OnOk result (pages.new.items ≡ put place from.now pages.old.items) }
    ensures calls_err { OnErr result (calls.new.items ≡ calls.old.items) }
    ensures pages_err { OnErr result (pages.new.items ≡ pages.old.items) }
{
    let kept = KeptPage::of(alloc, from)?;
    calls.reserve(1)?;
    let before = mem::replace(&mut pages[place], kept);
    calls.push_reserved(Call::Overwrite {
        page: place as u64,
        before,
    });
    Ok(())
}

// Adds a page, or does nothing where there is no memory.
fn append(
    calls: &mut Vec<Call>,
    pages: &mut Vec<KeptPage>,
    alloc: Global,
    from: &Page,
) -> Result<(), NoMemory>
    ensures gains { OnOk result (Gains (Write (length pages.old.items) from.now) calls.old.items pages.old.items calls.new.items pages.new.items) }
    ensures pages { OnOk result (pages.new.items ≡ put (length pages.old.items) from.now pages.old.items) }
    ensures calls_err { OnErr result (calls.new.items ≡ calls.old.items) }
    ensures pages_err { OnErr result (pages.new.items ≡ pages.old.items) }
{
    let page = pages.len() as u64;
    let kept = KeptPage::of(alloc, from)?;
    calls.reserve(1)?;
    pages.push(kept)?;
    calls.push_reserved(Call::Append { page });
    Ok(())
}

// Sees that one call more can be counted, after those up to the last crash and those kept since.
fn see_countable(crashed_at: u64, calls: &Vec<Call>) -> Result<(), NoMemory>
    ensures { OnOk result (crashed_at + length calls.now.items + 1 < 2 ^ 64) }
{
    if calls.len() as u64 >= u64::MAX - crashed_at {
        return Err(NoMemory);
    }
    Ok(())
}

// Makes a write and keeps it, or does neither where there is no memory or the call can't be counted.
fn keep_write(
    crashed_at: u64,
    calls: &mut Vec<Call>,
    pages: &mut Vec<KeptPage>,
    alloc: Global,
    page: u64,
    from: &Page,
) -> Result<(), NoMemory>
    requires { page ≤ vec_len pages.old }
    ensures counted { OnOk result (crashed_at + length calls.old.items + 1 < 2 ^ 64) }
    ensures gains { OnOk result (Gains (Write page from.now) calls.old.items pages.old.items calls.new.items pages.new.items) }
    ensures pages { OnOk result (pages.new.items ≡ put page from.now pages.old.items) }
    ensures calls_err { OnErr result (calls.new.items ≡ calls.old.items) }
    ensures pages_err { OnErr result (pages.new.items ≡ pages.old.items) }
{
    see_countable(crashed_at, calls)?;
    let place = page as usize;
    if place < pages.len() {
        overwrite(calls, pages, alloc, place, from)
    } else {
        append(calls, pages, alloc, from)
    }
}

// Keeps a good barrier, or nothing where there is no memory or the call can't be counted.
fn keep_barrier(crashed_at: u64, calls: &mut Vec<Call>) -> Result<(), NoMemory>
    ensures counted { OnOk result (crashed_at + length calls.old.items + 1 < 2 ^ 64) }
    ensures ok { OnOk result (calls.new.items ≡ calls.old.items ++ Call.Barrier ∷ []) }
    ensures err { OnErr result (calls.new.items ≡ calls.old.items) }
{
    see_countable(crashed_at, calls)?;
    calls.push(Call::Barrier)?;
    Ok(())
}

// Counts a device call, and tells whether it is to fail. A stop that has begun goes on.
fn is_to_fail(
    failing: &mut FailingCalls,
    made: &mut u64,
    stop: Option<u64>,
    is_stopped: &mut bool,
) -> bool
    ensures made { made.new ≡ min (made.old + 1) (2 ^ 64 - 1) }
    ensures counted { failing.new ≡ after_call failing.old }
    ensures stopped { IsTrue is_stopped.new ↔ (IsTrue is_stopped.old ⊎ (stop ≡ Some made.new)) }
    ensures fails { (IsTrue (fails_next failing.old) ⊎ IsTrue is_stopped.new) → IsTrue result }
{
    *made = made.saturating_add(1);
    if stop == Some(*made) {
        *is_stopped = true;
    }
    failing.count_call() || *is_stopped
}

// Counts a fault.
fn count_fault(faults: &mut u64) -> Failed
    ensures later { faults.old ≤ faults.new }
    ensures rose { Rose faults.old faults.new }
{
    *faults = faults.saturating_add(1);
    Failed
}

// The answer of a call that took effect: Failed, counting a fault, where it is to fail.
fn answer(faults: &mut u64, is_to_fail: bool) -> Result<(), Failed>
    ensures fails { IsOk result ↔ (is_to_fail ≡ false) }
    ensures cause { HasCause faults.old faults.new result }
{
    if is_to_fail {
        return Err(count_fault(faults));
    }
    Ok(())
}

impl MemDisk {
    ghost use Rattle.tw_disk.specs.Image.{Image};
    ghost use Rattle.tw_disk.specs.Disk.{IsAtRest, LeavesOnly};
    ghost use Rattle.tw_disk.specs.MemDisk.{pages_of, device_calls_of, state_of, mem_disk_view, made_of, disk_reads, failing_calls, failing_reads_of, stop_of, is_stopped, IsPlanned, IsSameMemDisk};
    ghost use Rattle.tw_disk.specs.Model.{outcome};

    /// A disk without a page. It takes no memory yet.
    pub fn new(alloc: Global) -> Self
        ensures pages { pages_of result ≡ [] }
        ensures calls { device_calls_of result ≡ [] }
        ensures moment { (mem_disk_view result).moment ≡ 0 }
        ensures faults { (mem_disk_view result).faults ≡ 0 }
        ensures made { made_of result ≡ 0 }
        ensures reads { disk_reads result ≡ 0 }
        ensures plans { IsPlanned result [] [] None }
        ensures runs { is_stopped result ≡ false }
    {
        MemDisk {
            pages: Vec::new(alloc),
            calls: Vec::new(alloc),
            crashed_at: 0,
            failing: FailingCalls::new(alloc),
            failing_reads: FailingCalls::new(alloc),
            made: 0,
            reads: 0,
            stop: None,
            is_stopped: false,
            faults: 0,
            alloc,
        }
    }

    /// The number of device calls, which are the writes and barriers, since it was made, failed ones among them.
    /// It stands still at 2^64 - 1.
    pub fn device_calls(&self) -> u64
        ensures { result ≡ made_of self.now }
    {
        self.made
    }

    /// The number of calls of `read` since it was made, failed ones among them. It stands still at 2^64 - 1.
    pub fn reads(&self) -> u64
        ensures { result ≡ disk_reads self.now }
    {
        self.reads
    }

    /// Whether it is stopped: from the write or barrier on at which it was to stop, until a crash.
    pub fn is_stopped(&self) -> bool
        ensures { result ≡ is_stopped self.now }
    {
        self.is_stopped
    }

    /// Makes the k-th write or barrier from now on fail, beside those that are to fail already; 1 is the next, and 0 is none.
    /// A write that fails so may be found done all the same.
    pub fn fail(&mut self, k: u64) -> Result<(), NoMemory>
        ensures planned { OnOk result (IsPlanned self.new (failing_calls self.old ++ k ∷ []) (failing_reads_of self.old) (stop_of self.old)) }
        ensures err { OnErr result (IsPlanned self.new (failing_calls self.old) (failing_reads_of self.old) (stop_of self.old)) }
        ensures same { IsSameMemDisk self.old self.new }
    {
        self.failing.add(k)
    }

    /// Makes the k-th call of `pages` and `read`, counted together, from now on fail, beside those that are to fail already; 1 is the
    /// next, and 0 is none.
    pub fn fail_read(&mut self, k: u64) -> Result<(), NoMemory>
        ensures planned { OnOk result (IsPlanned self.new (failing_calls self.old) (failing_reads_of self.old ++ k ∷ []) (stop_of self.old)) }
        ensures err { OnErr result (IsPlanned self.new (failing_calls self.old) (failing_reads_of self.old) (stop_of self.old)) }
        ensures same { IsSameMemDisk self.old self.new }
    {
        self.failing_reads.add(k)
    }

    /// Makes the k-th write or barrier from now on fail, and every later call of any kind; k is at least 1.
    ///
    /// A write at which the disk is stopped counts among the pages written since the last good barrier, with the bytes of that write.
    /// No clause says so, since one that finds no memory counts for nothing; scripts with `crash` lines show it.
    pub fn stop_at(&mut self, k: u64)
        requires { 1 ≤ k }
        ensures stop { IsPlanned self.new (failing_calls self.old) (failing_reads_of self.old) (Some (min (made_of self.old + k) (2 ^ 64 - 1))) }
        ensures same { IsSameMemDisk self.old self.new }
    {
        self.stop = Some(self.made.saturating_add(k));
    }

    /// Crashes: ends a stop, and leaves the outcome of this choice, which is at most 3. All of it is stable then.
    ///
    /// The pages written since the last good barrier have: 0 their old bytes, and the page count of that barrier holds; 1 their new bytes;
    /// 2 zeros; 3 bytes of the value 1. With 1 to 3 the last page count holds. It takes no memory.
    ///
    /// The clock goes on, and isn't set back: the moment is the same. Of the time before the crash the disk then tells no more than what
    /// was left in it: since each moment up to that of the crash, a crash may have left this image alone. So a run that ends in a crash
    /// leaves only what the disk might have left before it, and the next run begins at rest, at that moment.
    pub fn crash(&mut self, choice: u8)
        requires { choice ≤ 3 }

        // A crash of the disk in memory leaves one of the images that the model allows.
        ensures image { IsImage (state_of self.old) (pages_of self.new) }
        // The disk is then at rest, over an image that a crash might have left before.
        ensures rests { IsAtRest (mem_disk_view self.new) (mem_disk_view self.old).may_leave }
        // The clock of the disk in memory goes on through a crash.
        ensures moment { (mem_disk_view self.new).moment ≡ (mem_disk_view self.old).moment }
        // Since each moment up to the crash, a crash may have left only what this one left.
        ensures since { (t : ℕ) (c : Image) → t ≤ (mem_disk_view self.new).moment → (mem_disk_view self.new).left_since t c ↔ (c ≡ pages_of self.new) }
        // A crash leaves only images that a crash might have left before it.
        ensures leaves { LeavesOnly (mem_disk_view self.old) (mem_disk_view self.new) (mem_disk_view self.old).may_leave }
        // Which one it leaves, the choice that is handed in tells.
        ensures outcome { pages_of self.new ≡ outcome choice (state_of self.old) }
        ensures stable { device_calls_of self.new ≡ [] }
        ensures runs { is_stopped self.new ≡ false }
        ensures plans { IsPlanned self.new (failing_calls self.old) (failing_reads_of self.old) None }
        ensures counts { ((mem_disk_view self.new).faults ≡ (mem_disk_view self.old).faults) × (made_of self.new ≡ made_of self.old)
            × (disk_reads self.new ≡ disk_reads self.old) }
    {
        self.crashed_at += self.calls.len() as u64;
        leave(&mut self.pages, &mut self.calls, self.alloc, choice);
        self.calls.clear();
        self.stop = None;
        self.is_stopped = false;
    }
}

impl Disk for MemDisk {
    ghost use Rattle.tw_disk.specs.MemDiskSteps.{told_count, told_image, since_now, only_now};
    ghost use Rattle.std.specs.Prelude.{IfOk, IfSome, MatchOption};
    ghost use Rattle.std.specs.Option.{option_map, IsSomeAnd};
    ghost use Rattle.tw_disk.specs.Image.{Image, Torn};
    ghost use Rattle.tw_disk.specs.Disk.{grown, KeepsRoom, FollowsByStep, IsSameDisk, Only, TimeGoesOn};
    ghost use Rattle.tw_disk.specs.MemDisk.{mem_disk_view, made_of, disk_reads, failing_calls, failing_reads_of, stop_of, is_stopped, IsPlanned};

    ghost view = { mem_disk_view };

    ghost count_is_told = { λ disk c is. told_count disk.pages.items c is };

    ghost as_it_reads = { λ disk c is. told_image disk.calls.items disk.pages.items c disk.calls_fit is };

    ghost counts_now = { λ disk t c le image. since_now disk.crashed_at (earlier disk.calls.items disk.pages.items) (calls_of disk.calls.items disk.pages.items) t c le image };

    ghost only_now = { λ disk c since. only_now disk.crashed_at (earlier disk.calls.items disk.pages.items) (calls_of disk.calls.items disk.pages.items) c since };

    fn pages(&mut self) -> Result<u64, Failed>
        ensures told { IfOk result (λ n. (mem_disk_view self.new).count ≡ Some n) }
        ensures kept { IfSome (mem_disk_view self.old).count (λ n. (mem_disk_view self.new).count ≡ Some n) }
        ensures same { IsSameDisk (mem_disk_view self.old) (mem_disk_view self.new) }
        // A failed call is counted as a fault, as the disk model asks of each call.
        ensures cause { HasCause (mem_disk_view self.old).faults (mem_disk_view self.new).faults result }

        // A page count fails where that is planned and where the disk is stopped, and nowhere else.
        ensures fails { IsErr result ↔ (IsTrue (fails_next (failing_reads_of self.old)) ⊎ IsTrue (is_stopped self.old)) }
        // Counting pages counts as no read.
        ensures reads { disk_reads self.new ≡ disk_reads self.old }
        ensures calls { (made_of self.new ≡ made_of self.old) × (is_stopped self.new ≡ is_stopped self.old) }
        // The calls that are planned to fail are counted on by one.
        ensures plans { IsPlanned self.new (failing_calls self.old) (after_call (failing_reads_of self.old)) (stop_of self.old) }
    {
        if self.failing_reads.count_call() || self.is_stopped {
            return Err(count_fault(&mut self.faults));
        }
        Ok(self.pages.len() as u64)
    }

    fn read(&mut self, page: u64, into: &mut Page) -> Result<(), Failed>
        requires { IsSomeAnd (mem_disk_view self.old).count (λ n. page < n) }
        // A read gives the page of the content, as the disk model asks.
        ensures bytes { OnOk result (IfSome (mem_disk_view self.old).content (λ c. into.new ≡ page_at c page)) }
        ensures count { (mem_disk_view self.new).count ≡ (mem_disk_view self.old).count }
        ensures same { IsSameDisk (mem_disk_view self.old) (mem_disk_view self.new) }
        ensures cause { HasCause (mem_disk_view self.old).faults (mem_disk_view self.new).faults result }

        // A read fails where that is planned and where the disk is stopped, and nowhere else.
        ensures fails { IsErr result ↔ (IsTrue (fails_next (failing_reads_of self.old)) ⊎ IsTrue (is_stopped self.old)) }
        // Each read is counted.
        ensures reads { disk_reads self.new ≡ min (disk_reads self.old + 1) (2 ^ 64 - 1) }
        ensures calls { (made_of self.new ≡ made_of self.old) × (is_stopped self.new ≡ is_stopped self.old) }
        // The calls that are planned to fail are counted on by one.
        ensures plans { IsPlanned self.new (failing_calls self.old) (after_call (failing_reads_of self.old)) (stop_of self.old) }
    {
        self.reads = self.reads.saturating_add(1);
        if self.failing_reads.count_call() || self.is_stopped {
            return Err(count_fault(&mut self.faults));
        }
        self.pages[page as usize].give(into);
        Ok(())
    }

    fn write(&mut self, page: u64, from: &Page) -> Result<(), Failed>
        requires { IsSomeAnd (mem_disk_view self.old).count (λ n. page ≤ n) }
        // A write puts the page, as the disk model asks.
        ensures written { OnOk result ((mem_disk_view self.new).content ≡ option_map (put page from.now) (mem_disk_view self.old).content) }
        ensures torn { MatchOption (mem_disk_view self.old).content ((mem_disk_view self.new).content ≡ None) (λ c. IsSomeAnd (mem_disk_view self.new).content (Torn page c)) }
        ensures grown { OnOk result ((mem_disk_view self.new).count ≡ grown page (mem_disk_view self.old).count) }
        ensures count { ((mem_disk_view self.new).count ≡ (mem_disk_view self.old).count) ⊎ ((mem_disk_view self.new).count ≡ grown page (mem_disk_view self.old).count) }
        ensures room { KeepsRoom (mem_disk_view self.old).count (mem_disk_view self.new).count }
        // What a crash may leave after it is as the disk model has it.
        ensures crash { FollowsByStep (Torn page) (mem_disk_view self.old).may_leave (mem_disk_view self.new).may_leave }
        ensures time { TimeGoesOn (mem_disk_view self.old) (mem_disk_view self.new) }
        ensures cause { HasCause (mem_disk_view self.old).faults (mem_disk_view self.new).faults result }

        // A write fails where that is planned and where the disk is stopped; want of memory makes it fail too.
        ensures fails { (IsTrue (fails_next (failing_calls self.old)) ⊎ IsTrue (is_stopped self.new)) → IsErr result }
        // The disk stops at the call that it was planned to stop at, and stays stopped.
        ensures stopped { IsTrue (is_stopped self.new) ↔ (IsTrue (is_stopped self.old) ⊎ (stop_of self.old ≡ Some (made_of self.new))) }
        // Each call is counted.
        ensures counted { made_of self.new ≡ min (made_of self.old + 1) (2 ^ 64 - 1) }
        ensures reads { disk_reads self.new ≡ disk_reads self.old }
        // The calls that are planned to fail are counted on by one.
        ensures plans { IsPlanned self.new (after_call (failing_calls self.old)) (failing_reads_of self.old) (stop_of self.old) }
    {
        let was_stopped = self.is_stopped;
        let fails = is_to_fail(
            &mut self.failing,
            &mut self.made,
            self.stop,
            &mut self.is_stopped,
        );
        if was_stopped {
            return Err(count_fault(&mut self.faults));
        }
        match keep_write(
            self.crashed_at,
            &mut self.calls,
            &mut self.pages,
            self.alloc,
            page,
            from,
        ) {
            Ok(()) => answer(&mut self.faults, fails),
            Err(_) => Err(count_fault(&mut self.faults)),
        }
    }

    fn barrier(&mut self) -> Result<(), Failed>
        // After a good barrier a crash leaves nothing but what reads give, as the disk model asks.
        ensures durable { OnOk result (IfSome (mem_disk_view self.old).content (λ c. Only c (mem_disk_view self.new).may_leave)) }
        ensures count { (mem_disk_view self.new).count ≡ (mem_disk_view self.old).count }
        ensures content { (mem_disk_view self.new).content ≡ (mem_disk_view self.old).content }
        ensures crash { (c : Image) → (mem_disk_view self.new).may_leave c → (mem_disk_view self.old).may_leave c }
        ensures nothing_stable { OnErr result ((c : Image) → (mem_disk_view self.old).may_leave c → (mem_disk_view self.new).may_leave c) }
        ensures time { TimeGoesOn (mem_disk_view self.old) (mem_disk_view self.new) }
        ensures cause { HasCause (mem_disk_view self.old).faults (mem_disk_view self.new).faults result }

        // A barrier fails where that is planned and where the disk is stopped; want of memory makes it fail too.
        ensures fails { (IsTrue (fails_next (failing_calls self.old)) ⊎ IsTrue (is_stopped self.new)) → IsErr result }
        // The disk stops at the call that it was planned to stop at, and stays stopped.
        ensures stopped { IsTrue (is_stopped self.new) ↔ (IsTrue (is_stopped self.old) ⊎ (stop_of self.old ≡ Some (made_of self.new))) }
        // Each call is counted.
        ensures counted { made_of self.new ≡ min (made_of self.old + 1) (2 ^ 64 - 1) }
        ensures reads { disk_reads self.new ≡ disk_reads self.old }
        // The calls that are planned to fail are counted on by one.
        ensures plans { IsPlanned self.new (after_call (failing_calls self.old)) (failing_reads_of self.old) (stop_of self.old) }
    {
        let fails = is_to_fail(
            &mut self.failing,
            &mut self.made,
            self.stop,
            &mut self.is_stopped,
        );
        if fails {
            return Err(count_fault(&mut self.faults));
        }
        match keep_barrier(self.crashed_at, &mut self.calls) {
            Ok(()) => Ok(()),
            Err(_) => Err(count_fault(&mut self.faults)),
        }
    }
}
