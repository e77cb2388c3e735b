// Walking down the links that step pages have, from a head to a step; `collecting.rt` makes a path of such a way.

ghost use Rattle.std.specs.Prelude.{◌≡◌, suc, ◌<◌, ◌≤◌, ◌^◌, length, IfOk};
ghost use Rattle.tw_base.specs.kinds.Levels.{top_level};
ghost use Rattle.tw_disk.specs.Answers.{ReadsPages};
ghost use Rattle.tw_disk.specs.WalkFaults.{walk_faults};
ghost use Rattle.tw_steppage.specs.StepPages.{HasRanges};
ghost use Rattle.tw_skiplist.specs.StepPagesRead.{page_of_step};
ghost use Rattle.tw_skiplist.specs.Walks.{link_in, walk};

use crate::records::link_at;
use crate::step_page::read_step_page;
use tw_base::limits::PAGE_SIZE;
use tw_base::power_of_two;
use tw_disk::{Pages, WalkFault, read_page};
use tw_skipproof::next_hop;
use tw_steppage::{StepPage, StepRef};

/// Reads the page of a step (below 2^40).
#[tactic(auto, unfolding(crate::specs::StepPagesRead::page_of_step))]
pub(crate) fn read_step<P: Pages>(
    pages: &mut P,
    page: u64,
    step: u64,
) -> Result<StepPage, WalkFault>
    requires { step < 2 ^ 40 }
    ensures reads { ReadsPages walk_faults P.view P.same pages.old pages.new (λ p. (p.fields, p.links.items)) result
        (λ ps. page_of_step ps page step) }
    ensures link_count { IfOk result (λ s. length s.links.items ≡ suc (top_level step)) }
    ensures ranges { IfOk result (λ s. HasRanges s.fields) }
{
    let mut bytes = [0; PAGE_SIZE];
    read_page(pages, page, &mut bytes)?;
    match read_step_page(page, step, &bytes) {
        Some(found) => Ok(found),
        None => Err(WalkFault::BadPage { page }),
    }
}

/// The link of a level that the page of a step (below 2^40) has.
pub(crate) fn follow<P: Pages>(
    pages: &mut P,
    link: &StepRef,
    at: u64,
    level: u8,
) -> Result<StepRef, WalkFault>
    requires step { at < 2 ^ 40 }
    requires level { level ≤ top_level at }
    ensures reads { ReadsPages walk_faults P.view P.same pages.old pages.new (λ l. l) result
        (λ ps. link_in ps link.now.page at level) }
{
    let page = read_step(pages, link.page, at)?;
    Ok(link_at(page.links.as_slice(), level))
}

/// Walks from the first link, which leads to the step `from` (below 2^40), down the greedy path to the
/// link that leads to the step `to`. It reads the pages of the steps above `to`.
#[tactic(auto, using(crate::proofs::WalkLaws::walks))]
pub(crate) fn descend<P: Pages>(
    pages: &mut P,
    first: &StepRef,
    from: u64,
    to: u64,
) -> Result<StepRef, WalkFault>
    requires below { to ≤ from }
    requires step { from < 2 ^ 40 }
    ensures reads { ReadsPages walk_faults P.view P.same pages.old pages.new (λ l. l) result
        (λ ps. walk ps first.now from to) }
{
    let mut link = *first;
    let mut at = from;
    while at > to {
        let level = next_hop(at, to);
        link = follow(pages, &link, at, level)?;
        at -= power_of_two(level);
    }
    Ok(link)
}
