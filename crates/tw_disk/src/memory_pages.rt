// A list of pages in memory with no disk and no store below, for tests and for the program `tree_pages`.
ghost use Rattle.std.specs.Prelude.{◌≡◌, ◌↔◌, ◌<◌, ◌≤◌, ◌+◌, ◌-◌, ◌^◌, ◌++◌, ◌∷◌, [], ℕ, min, length, drop, replicate, Some, IfOk, OnOk, OnErr, IsOk, IsErr, IsTrue};
ghost use Rattle.tw_base.specs.kinds.PlannedFailures.{fails_next, after_call};
ghost use Rattle.tw_base.specs.declared.kinds.limits.TheConstants.{PAGE_SIZE};
ghost use Rattle.tw_disk.specs.declared.limits.TheConstants.{FIRST_PAGE, NUMBER_LIMIT};

use crate::limits::FIRST_PAGE;
use crate::pages::Pages;
use std::alloc::Global;
use tw_base::limits::PAGE_SIZE;
use tw_base::{Failed, FailingCalls, NoMemory, Page};

/// Pages in memory, which tell their list and count their reads.
#[derive(Drop)]
pub struct MemPages {
    pages: Vec<Page>,
    failing: FailingCalls,
    reads: u64,
    faults: u64,
    ghost four: { FIRST_PAGE ≤ length pages.items },
}

impl MemPages {
    ghost use Rattle.tw_disk.specs.MemPages.{all_pages_of, page_reads, failing_pages, faults_of};

    /// Four pages of zeros.
    pub fn new(alloc: Global) -> Result<MemPages, NoMemory>
        ensures pages { IfOk result (λ p. all_pages_of p ≡ replicate FIRST_PAGE (replicate PAGE_SIZE 0)) }
        ensures reads { IfOk result (λ p. page_reads p ≡ 0) }
        ensures faults { IfOk result (λ p. faults_of p ≡ 0) }
        ensures failing { IfOk result (λ p. failing_pages p ≡ []) }
    {
        let pages = Vec::from_slice(alloc, &[[0; PAGE_SIZE]; FIRST_PAGE as usize])?;
        Ok(MemPages {
            pages,
            failing: FailingCalls::new(alloc),
            reads: 0,
            faults: 0,
        })
    }

    /// The number of calls of `read` since it was made, failed ones among them. It stands still at 2^64 - 1.
    pub fn reads(&self) -> u64
        ensures { result ≡ page_reads self.now }
    {
        self.reads
    }

    /// Makes the k-th read from now on fail, beside those that are to fail already; 1 is the next, and 0 is none.
    pub fn fail(&mut self, k: u64) -> Result<(), NoMemory>
        ensures planned { OnOk result (failing_pages self.new ≡ failing_pages self.old ++ k ∷ []) }
        ensures err { OnErr result (failing_pages self.new ≡ failing_pages self.old) }
        ensures same { (all_pages_of self.new ≡ all_pages_of self.old)
            × (faults_of self.new ≡ faults_of self.old) × (page_reads self.new ≡ page_reads self.old) }
    {
        self.failing.add(k)
    }
}

impl Pages for MemPages {
    ghost use Rattle.std.specs.Option.{option_map};
    ghost use Rattle.tw_disk.specs.Image.{Image, page_at};
    ghost use Rattle.tw_base.specs.kinds.Faults.{HasCause};
    ghost use Rattle.tw_disk.specs.Pages.{OnlyReads};
    ghost use Rattle.tw_disk.specs.MemPages.{mem_list, mem_count, page_reads, failing_pages, faults_of, mem_pages_view, IsSame, ArePagesUnbroken};
    ghost use Rattle.tw_disk.specs.MemPagesSteps.{told_used};

    ghost view = { mem_pages_view };

    ghost same = { IsSame };

    ghost told_count = { λ p pages is. told_used p.pages.items pages p.four is };

    ghost from_first = { λ p. p.four };

    ghost same_itself = { λ _. tt };

    ghost same_on = { λ _ _ _ _ _. tt };

    fn used(&self) -> u64 {
        self.pages.len() as u64
    }

    fn read(&mut self, page: u64, into: &mut Page) -> Result<(), Failed>
        requires low { FIRST_PAGE ≤ page }
        requires below { page < mem_count self.old }
        // Reads of pages in memory give the pages.
        ensures page { OnOk result ((pages : Image) → mem_list self.old ≡ Some pages
            → into.new ≡ page_at pages (page - FIRST_PAGE)) }
        ensures kept { OnlyReads mem_pages_view IsSame self.old self.new (IsOk result) }
        ensures cause { HasCause (faults_of self.old) (faults_of self.new) result }

        // A read of pages in memory fails where that is planned, and nowhere else.
        ensures fails { IsErr result ↔ IsTrue (fails_next (failing_pages self.old)) }
        // Each read is counted.
        ensures reads { page_reads self.new ≡ min (page_reads self.old + 1) (2 ^ 64 - 1) }
        // The calls that are planned to fail are counted on by one.
        ensures plans { failing_pages self.new ≡ after_call (failing_pages self.old) }
    {
        self.reads = self.reads.saturating_add(1);
        if self.failing.count_call() {
            self.faults = self.faults.saturating_add(1);
            return Err(Failed);
        }
        *into = self.pages[page as usize];
        Ok(())
    }

    fn stage(&mut self, page: &Page) -> Result<u64, NoMemory>
        requires { mem_count self.old < NUMBER_LIMIT - FIRST_PAGE }
        ensures number { IfOk result (λ n. n ≡ mem_count self.old) }
        ensures list { OnOk result (mem_list self.new ≡ option_map (λ pages. pages ++ page.now ∷ []) (mem_list self.old)) }
        ensures used { OnOk result (mem_count self.new ≡ mem_count self.old + 1) }
        ensures list_err { OnErr result (mem_list self.new ≡ mem_list self.old) }
        ensures used_err { OnErr result (mem_count self.new ≡ mem_count self.old) }
        ensures same { IsSame self.old self.new }
        ensures unbroken { ArePagesUnbroken self.old → ArePagesUnbroken self.new }
        ensures faults { faults_of self.new ≡ faults_of self.old }
        ensures kept { (failing_pages self.new ≡ failing_pages self.old) × (page_reads self.new ≡ page_reads self.old) }
    {
        let number = self.pages.len() as u64;
        self.pages.push(*page)?;
        Ok(number)
    }
}
