// What the pages of a history tell of a step, for services: the step, a path to it, what its proof needs, its events.

ghost use Rattle.std.specs.Prelude.{◌≡◌, ℕ, ◌*◌, ◌<◌, ◌≤◌, ◌^◌, length, IfOk};
ghost use Rattle.tw_base.specs.history.Limits.{MayRecord};
ghost use Rattle.tw_disk.specs.Answers.{ReadsPages, ReadsWhere};
ghost use Rattle.tw_skipproof.specs.Paths.{HasShape};
ghost use Rattle.tw_skiplist.specs.Infos.{IsInfoTold};
ghost use Rattle.tw_skiplist.specs.ListFaults.{NoStepUnless, list_faults};
ghost use Rattle.tw_skiplist.specs.Events.{events_of_info, events_told};
ghost use Rattle.tw_skiplist.specs.Readings.{found_events, found_link, found_proof, found_skip_path, found_step, found_way};
ghost use Rattle.tw_skiplist.specs.Walks.{head_ref};

use crate::collecting::{Collected, collect, read_info};
use crate::event_pages::read_from;
use crate::fault::ListFault;
use crate::head::Head;
use crate::info::{EventsAt, StepInfo, StepLink, StepProof};
use crate::walking::descend;
use std::alloc::Global;
use tw_base::limits::LAST_STEP;
use tw_base::{EventList, Hasher};
use tw_disk::Pages;
use tw_skipproof::Path;
use tw_steppage::StepRef;

// The link that the head is.
fn link_to_head(head: &Head) -> StepRef
    ensures { result ≡ head_ref head.now }
{
    StepRef {
        page: head.page,
        auth: head.auth,
    }
}

/// The step i of the history whose head is given (a step below 2^40). It is reached by the links of
/// the greedy path; a test shows that each page is read once.
///
/// NoStep exactly where i isn't within 1 and the head's step. Where the pages are told, BadPage tells
/// the first page of the way that isn't the page of its step; it never comes where they keep
/// a history under the head.
#[tactic(auto, unfolding(crate::specs::Readings::found_step))]
pub fn step<P: Pages, H: Hasher>(
    alloc: Global,
    pages: &mut P,
    head: &Head,
    i: u64,
) -> Result<StepInfo, ListFault>
    requires { head.now.step ≤ LAST_STEP }
    // Over told pages the answer is what is found in them, whatever they keep, `NoStep`, a disk fault and want of
    // memory excepted: what the page tells of the step to which the walk from the head leads, or `BadPage` with the
    // first page met that isn't of its kind. Over any pages, told or not, `NoStep` comes exactly where there is no such
    // step; reading changes nothing of what the pages tell; and `DiskFault` comes only where the count of faults rose.
    ensures reads { ReadsWhere list_faults P.view P.same pages.old pages.new (λ x. x) result
        (NoStepUnless result head.now.step ((1 ≤ i) × (i ≤ head.now.step)))
        (λ ps. found_step H.dig ps head.now i) }
    // Over any pages, told or not, what is told is of the step asked for, with at most 1,024 events, and a time and a
    // thread's step of at most 2^40 - 1.
    ensures ranges { IfOk result (IsInfoTold i) }
{
    let last = head.step;
    if i == 0 || i > last {
        return Err(ListFault::NoStep { last });
    }
    let link = descend(pages, &link_to_head(head), last, i)?;
    read_info::<P, H>(alloc, pages, &link, i)
}

// Where the info tells that the step's events stand.
fn at_of(info: &StepInfo) -> EventsAt
    ensures { result ≡ events_told info.now }
{
    EventsAt {
        step: info.step,
        page: info.page,
        count: info.count,
        stream: info.stream,
    }
}

// The way from the step n down to the step i, of the history whose head is given.
#[tactic(auto, unfolding(crate::specs::Readings::found_way))]
fn way_to<P: Pages, H: Hasher>(
    alloc: Global,
    pages: &mut P,
    head: &Head,
    n: u64,
    i: u64,
) -> Result<Collected, ListFault>
    requires short { head.now.step ≤ LAST_STEP }
    requires there { n ≤ head.now.step }
    requires order { i ≤ n }
    ensures reads { ReadsPages list_faults P.view P.same pages.old pages.new (λ x. x) result
        (λ ps. found_way H.dig ps head.now n i) }
    ensures bound { IfOk result (λ way. (digits : ℕ) → n < 2 ^ digits → length way.links ≤ 2 * digits) }
    ensures shape { IfOk result (λ way. HasShape way.links n i) }
{
    let middle = descend(pages, &link_to_head(head), head.step, n)?;
    let way = collect::<P, H>(alloc, pages, &middle, n, i)?;
    Ok(way)
}

/// The path from the step n down to the step i, of the history whose head is given (a step below
/// 2^40), and the authenticator of the step i. It is reached by the links of the greedy path; a test
/// shows that each page is read once. Over any pages it has at most twice as many links as n has binary
/// digits, and where the pages are told its links are the records of those that the way from n to i
/// follows, and the authenticator is the one that the last of them leads to.
///
/// NoStep exactly where i <= n <= the head's step doesn't hold; i may be 0. Where the pages are told,
/// BadPage tells the first page that isn't the page of its step, of the steps above n on the way from
/// the head to n and of those above i from there on: the page of i isn't asked for. It never comes
/// where the pages keep a history under the head.
#[tactic(auto, unfolding(crate::specs::Readings::found_link))]
pub fn link<P: Pages, H: Hasher>(
    alloc: Global,
    pages: &mut P,
    head: &Head,
    n: u64,
    i: u64,
) -> Result<StepLink, ListFault>
    requires { head.now.step ≤ LAST_STEP }
    // Over told pages the answer is what is found in them, whatever they keep, `NoStep`, a disk fault and want of
    // memory excepted: the records of the links that the walk from the head follows from the upper step down to the
    // lower one, and the authenticator that the last of them leads to, or `BadPage` with the first page met that isn't
    // of its kind. Of the lower step's page nothing is asked. Over any pages, told or not, `NoStep` comes exactly
    // where the steps asked for aren't there, or not in their order; reading changes nothing of what the pages tell;
    // and `DiskFault` comes only where the count of faults rose.
    ensures reads { ReadsWhere list_faults P.view P.same pages.old pages.new (λ x. x) result
        (NoStepUnless result head.now.step ((i ≤ n) × (n ≤ head.now.step)))
        (λ ps. found_link H.dig ps head.now n i) }
    // Over any pages, told or not, a path has at most twice as many links as its upper step has binary digits.
    ensures bound { IfOk result (λ link. (digits : ℕ) → n < 2 ^ digits → length link.path.links ≤ 2 * digits) }
    // The path has the links of the greedy path, each with its number of labels.
    ensures shape { IfOk result (λ link. HasShape link.path.links n i) }
{
    let last = head.step;
    if i > n || n > last {
        return Err(ListFault::NoStep { last });
    }
    let Collected { links, last } = way_to::<P, H>(alloc, pages, head, n, i)?;
    Ok(StepLink {
        path: Path { links },
        auth: last.auth,
    })
}

/// The path alone that `link` answers, with its faults.
#[tactic(auto, unfolding(crate::specs::Readings::found_skip_path))]
pub fn path<P: Pages, H: Hasher>(
    alloc: Global,
    pages: &mut P,
    head: &Head,
    n: u64,
    i: u64,
) -> Result<Path, ListFault>
    requires { head.now.step ≤ LAST_STEP }
    // Over told pages the answer is what is found in them, whatever they keep, `NoStep`, a disk fault and want of
    // memory excepted: the records of the links that the walk from the head follows from the upper step down to the
    // lower one, or `BadPage` with the first page met that isn't of its kind. Of the lower step's page nothing is
    // asked. Over any pages, told or not, `NoStep` comes exactly where the steps asked for aren't there, or
    // not in their order; reading changes nothing of what the pages tell; and `DiskFault` comes only where the count of
    // faults rose.
    ensures reads { ReadsWhere list_faults P.view P.same pages.old pages.new (λ x. x) result
        (NoStepUnless result head.now.step ((i ≤ n) × (n ≤ head.now.step)))
        (λ ps. found_skip_path H.dig ps head.now n i) }
    // Over any pages, told or not, a path has at most twice as many links as its upper step has binary digits.
    ensures bound { IfOk result (λ path. (digits : ℕ) → n < 2 ^ digits → length path.links ≤ 2 * digits) }
    // The path has the links of the greedy path, each with its number of labels.
    ensures shape { IfOk result (λ path. HasShape path.links n i) }
{
    let StepLink { path, auth: _ } = link::<P, H>(alloc, pages, head, n, i)?;
    Ok(path)
}

/// What a proof of the step i under the top needs: the path from the top to the step, and the step.
/// They are reached by the links of the greedy path from the head (a step below 2^40) to the top, and
/// from there on; a test shows that each page is read once. Of the path the same holds as of `path`.
///
/// NoStep exactly where 1 <= i <= top <= the head's step doesn't hold. Where the pages are told,
/// BadPage tells the first page of the way that isn't the page of its step; it never comes where they
/// keep a history under the head.
#[tactic(auto, unfolding(crate::specs::Readings::found_proof))]
pub fn prove<P: Pages, H: Hasher>(
    alloc: Global,
    pages: &mut P,
    head: &Head,
    top: u64,
    i: u64,
) -> Result<StepProof, ListFault>
    requires { head.now.step ≤ LAST_STEP }
    // Over told pages the answer is what is found in them, whatever they keep, `NoStep`, a disk fault and want of
    // memory excepted: by the walk from the head, the path from the top down to the step and what the step's page
    // tells, or `BadPage` with the first page met that isn't of its kind. Over any pages, told or not, `NoStep` comes
    // exactly where the steps asked for aren't there, or not in their order; reading changes nothing of what the pages
    // tell; and `DiskFault` comes only where the count of faults rose.
    ensures reads { ReadsWhere list_faults P.view P.same pages.old pages.new (λ x. x) result
        (NoStepUnless result head.now.step ((1 ≤ i) × (i ≤ top) × (top ≤ head.now.step)))
        (λ ps. found_proof H.dig ps head.now top i) }
    // Over any pages, told or not, a path has at most twice as many links as its upper step has binary digits.
    ensures bound { IfOk result (λ proof. (digits : ℕ) → top < 2 ^ digits → length proof.path.links ≤ 2 * digits) }
    // The path has the links of the greedy path, each with its number of labels.
    ensures shape { IfOk result (λ proof. HasShape proof.path.links top i) }
    // What is told of the step is as at `step`.
    ensures ranges { IfOk result (λ proof. IsInfoTold i proof.info) }
{
    let last = head.step;
    if i == 0 || i > top || top > last {
        return Err(ListFault::NoStep { last });
    }
    let Collected { links, last } = way_to::<P, H>(alloc, pages, head, top, i)?;
    let info = read_info::<P, H>(alloc, pages, &last, i)?;
    Ok(StepProof {
        path: Path { links },
        info,
    })
}

/// The events of a step that `step` or `prove` told of the same pages, from its event pages alone.
/// Over any pages they are within the limits of a step, and as many as the info counts.
///
/// Where the pages are told, BadPage tells the step's page if the info has a stream longer than any
/// step's, else the first event page that isn't of its kind, or, if their stream spells no such
/// events, the last of them (the step's page if there is none). It never comes where the info is of
/// a step that the pages keep, and NoStep never comes.
pub fn events_of<P: Pages>(
    alloc: Global,
    pages: &mut P,
    info: &StepInfo,
) -> Result<EventList, ListFault>
    // Over told pages the answer is what is found in them, whatever they keep, a disk fault and want of memory
    // excepted: the events that the step's event pages spell, or `BadPage` with the first event page that isn't of its
    // kind, or with the last one of a stream that spells no such events (the step's page, where the stream has no
    // bytes), or with the step's page, where it is told a stream longer than any step's. Over any pages, told or not,
    // `NoStep` is never answered; reading changes nothing of what the pages tell; and `DiskFault` comes only where the
    // count of faults rose.
    ensures reads { ReadsPages list_faults P.view P.same pages.old pages.new (λ x. x) result
        (λ ps. events_of_info ps info.now) }
    // Over any pages, told or not, the events of a step are within the limits and as many as it counts.
    ensures counted { IfOk result (λ events. MayRecord events × (length events ≡ info.now.count)) }
{
    read_from(alloc, pages, &at_of(info))
}

/// The events of the step i of the history whose head is given (a step below 2^40), found as by
/// `step` and then `events_of`; a test shows that each page is read once.
///
/// NoStep exactly where i isn't within 1 and the head's step. BadPage comes as of these two, and
/// never where the pages keep a history under the head.
#[tactic(auto, unfolding(crate::specs::Readings::found_events))]
pub fn events<P: Pages, H: Hasher>(
    alloc: Global,
    pages: &mut P,
    head: &Head,
    i: u64,
) -> Result<EventList, ListFault>
    requires { head.now.step ≤ LAST_STEP }
    // Over told pages the answer is what is found in them, whatever they keep, `NoStep`, a disk fault and want of
    // memory excepted: the events of the step to which the walk from the head leads, or `BadPage` with the first page
    // met on the way that isn't of its kind, or with the one that the step's events fail at. Over any pages, told or not,
    // `NoStep` comes exactly where there is no such step; reading changes nothing of what the pages tell; and `DiskFault`
    // comes only where the count of faults rose.
    ensures reads { ReadsWhere list_faults P.view P.same pages.old pages.new (λ x. x) result
        (NoStepUnless result head.now.step ((1 ≤ i) × (i ≤ head.now.step)))
        (λ ps. found_events H.dig ps head.now i) }
{
    let info = step::<P, H>(alloc, pages, head, i)?;
    events_of(alloc, pages, &info)
}
