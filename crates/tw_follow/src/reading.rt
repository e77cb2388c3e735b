// Reading a follower's list of heads from its pages, from the last one down; one page is read in `head_page.rt`.

ghost use Rattle.std.specs.Prelude.{◌≡◌, ◌<◌, IfOk};
ghost use Rattle.tw_disk.specs.Answers.{ReadsPages};
ghost use Rattle.tw_disk.specs.WalkFaults.{walk_faults};
ghost use Rattle.tw_follow.specs.HeadLists.{RiseTo};
ghost use Rattle.tw_follow.specs.HeadPages.{earlier_page, found_heads, heads_below, last_head_page, page_of_head};
ghost use Rattle.tw_follow.specs.Refusals.{follower_refusals};

use crate::head_page::{HeadPage, read_head_page};
use crate::root::RootRecord;
use std::alloc::Global;
use tw_base::limits::PAGE_SIZE;
use tw_base::{FollowRefusal, Thread, Threads, see_name};
use tw_disk::{Pages, WalkFault, read_page};

/// Reads the page of a head.
#[tactic(auto, unfolding(crate::specs::HeadPages::page_of_head))]
fn read_head<P: Pages>(pages: &mut P, page: u64) -> Result<HeadPage, WalkFault>
    ensures reads { ReadsPages walk_faults P.view P.same pages.old pages.new (λ p. p) result (λ ps. page_of_head ps page) }
    ensures below { IfOk result (λ p. p.before < page) }
    ensures some { IfOk result (λ p. 0 < p.step) }
{
    let mut bytes = [0; PAGE_SIZE];
    read_page(pages, page, &mut bytes)?;
    match read_head_page(page, &bytes) {
        Some(found) => Ok(found),
        None => Err(WalkFault::BadPage { page }),
    }
}

/// Reads the page of the last head, which is the record's.
#[tactic(auto, unfolding(crate::specs::HeadPages::last_head_page))]
fn read_last<P: Pages>(pages: &mut P, root: &RootRecord) -> Result<HeadPage, WalkFault>
    ensures reads { ReadsPages walk_faults P.view P.same pages.old pages.new (λ p. p) result (λ ps. last_head_page ps root.now) }
    ensures step { IfOk result (λ p. p.step ≡ root.now.head.step) }
{
    let found = read_head(pages, root.page)?;
    if found.step == root.head.step && found.auth == root.head.auth {
        Ok(found)
    } else {
        Err(WalkFault::BadPage { page: root.page })
    }
}

/// Reads the page of an earlier head, whose step lies below `above`.
#[tactic(auto, unfolding(crate::specs::HeadPages::earlier_page))]
fn read_earlier<P: Pages>(pages: &mut P, page: u64, above: u64) -> Result<HeadPage, WalkFault>
    ensures reads { ReadsPages walk_faults P.view P.same pages.old pages.new (λ p. p) result (λ ps. earlier_page ps page above) }
    ensures below { IfOk result (λ p. p.before < page) }
    ensures some { IfOk result (λ p. (0 < p.step) × (p.step < above)) }
{
    let found = read_head(pages, page)?;
    if found.step < above {
        Ok(found)
    } else {
        Err(WalkFault::BadPage { page })
    }
}

/// Reads the heads below the last one, whose page is told, each page once; and answers all, oldest first.
#[tactic(auto, using(crate::proofs::Walks::heads_go_on))]
fn read_below<P: Pages>(
    alloc: Global,
    pages: &mut P,
    last: &HeadPage,
    head: &Thread,
) -> Result<Threads, FollowRefusal>
    requires step { last.now.step ≡ head.now.step }
    requires some { 0 < head.now.step }
    ensures reads { ReadsPages follower_refusals P.view P.same pages.old pages.new (λ heads. heads) result (λ ps. heads_below ps last.now head.now) }
    ensures rises { IfOk result (RiseTo head.now) }
{
    let mut heads = Threads::new(alloc);
    heads.push(*head)?;
    let mut page = last.before;
    let mut above = last.step;
    while page != 0 {
        let found = read_earlier(pages, page, above)?;
        heads.push(Thread {
            from: head.from,
            step: found.step,
            auth: found.auth,
        })?;
        page = found.before;
        above = found.step;
    }
    heads.reverse();
    see_name(&head.from);
    Ok(heads)
}

/// Reads the heads of the record's list, oldest first.
#[tactic(auto, unfolding(crate::specs::HeadPages::found_heads))]
pub(crate) fn read_heads<P: Pages>(
    alloc: Global,
    pages: &mut P,
    root: &RootRecord,
) -> Result<Threads, FollowRefusal>
    ensures reads { ReadsPages follower_refusals P.view P.same pages.old pages.new (λ heads. heads) result (λ ps. found_heads ps root.now) }
    ensures rises { IfOk result (RiseTo root.now.head) }
{
    if root.head.step == 0 {
        see_name(&root.head.from);
        return Ok(Threads::new(alloc));
    }
    let last = read_last(pages, root)?;
    read_below(alloc, pages, &last, &root.head)
}
