// What a proof needs, collected on the way down pages. `walking.rt` only walks; a path in memory is in tw_history/src/path_links.rt.

ghost use Rattle.std.specs.Prelude.{◌≡◌, ◌<◌, ◌≤◌, ◌^◌, length, IfOk};
ghost use Rattle.tw_base.specs.kinds.Levels.{top_level};
ghost use Rattle.tw_skipproof.specs.Paths.{HasShape};
ghost use Rattle.tw_disk.specs.Answers.{ReadsPages};
ghost use Rattle.tw_skiplist.specs.ListFaults.{list_faults};
ghost use Rattle.tw_skiplist.specs.Infos.{IsInfoTold};
ghost use Rattle.tw_skiplist.specs.Walks.{collected, hop_in, info_in};

use crate::fault::ListFault;
use crate::info::StepInfo;
use crate::records::{info_of_page, link_at, link_of_page};
use crate::walking::read_step;
use std::alloc::Global;
use tw_base::{Hasher, power_of_two};
use tw_disk::Pages;
use tw_skipproof::{Link, LinkList, next_hop};
use tw_steppage::StepRef;

/// A link of a path, and where it leads. (The hops of a proof are received threads.)
#[derive(Drop)]
pub(crate) struct Hop {
    pub link: Link,
    pub next: StepRef,
}

// The record of a step's link of this level, and where the link leads.
fn hop_at<P: Pages, H: Hasher>(
    alloc: Global,
    pages: &mut P,
    link: &StepRef,
    at: u64,
    level: u8,
) -> Result<Hop, ListFault>
    requires step { at < 2 ^ 40 }
    requires level { level ≤ top_level at }
    ensures reads { ReadsPages list_faults P.view P.same pages.old pages.new (λ x. x) result
        (λ ps. hop_in H.dig ps link.now.page at level) }
    ensures others { IfOk result (λ hop. length hop.link.others ≡ top_level at) }
{
    let page = read_step(pages, link.page, at)?;
    let next = link_at(page.links.as_slice(), level);
    let link = link_of_page::<H>(alloc, at, &page, level)?;
    Ok(Hop { link, next })
}

/// The links of a path, and the link to its lower step.
#[derive(Drop)]
pub(crate) struct Collected {
    pub links: LinkList,
    pub last: StepRef,
}

/// Walks as `descend` does, and makes a path of it.
#[tactic(auto, using(crate::proofs::WalkLaws::collects))]
pub(crate) fn collect<P: Pages, H: Hasher>(
    alloc: Global,
    pages: &mut P,
    first: &StepRef,
    from: u64,
    to: u64,
) -> Result<Collected, ListFault>
    requires below { to ≤ from }
    requires step { from < 2 ^ 40 }
    ensures shape { IfOk result (λ c. HasShape c.links from to) }
    ensures reads { ReadsPages list_faults P.view P.same pages.old pages.new (λ x. x) result
        (λ ps. collected H.dig ps first.now from to) }
{
    let mut links = LinkList::new(alloc);
    let mut last = *first;
    let mut at = from;
    while at > to {
        let level = next_hop(at, to);
        let Hop { link, next } = hop_at::<P, H>(alloc, pages, &last, at, level)?;
        links.push(link)?;
        last = next;
        at -= power_of_two(level);
    }
    Ok(Collected { links, last })
}

/// What the page of a step from 1 on (below 2^40) tells of it.
#[tactic(auto, unfolding(crate::specs::Walks::info_in))]
pub(crate) fn read_info<P: Pages, H: Hasher>(
    alloc: Global,
    pages: &mut P,
    link: &StepRef,
    step: u64,
) -> Result<StepInfo, ListFault>
    requires { step < 2 ^ 40 }
    ensures reads { ReadsPages list_faults P.view P.same pages.old pages.new (λ x. x) result
        (λ ps. info_in H.dig ps link.now.page step) }
    ensures ranges { IfOk result (IsInfoTold step) }
{
    let page = read_step(pages, link.page, step)?;
    let info = info_of_page::<H>(alloc, link.page, step, &page)?;
    Ok(info)
}
