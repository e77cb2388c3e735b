// One more step behind the pages of a history, of events or of a thread: it is hashed, and its pages are staged.

ghost use Rattle.std.specs.Prelude.{◌≡◌, suc, ◌+◌, ◌-◌, ◌<◌, ◌≤◌, ◌^◌, length, IfOk};
ghost use Rattle.tw_base.specs.declared.history.content.Content.TheVariants.{Events, Received};
ghost use Rattle.tw_base.specs.history.Limits.{IsTimeWithinLimits, MayRecord};
ghost use Rattle.tw_base.specs.kinds.Levels.{top_level as top_level_of};
ghost use Rattle.tw_disk.specs.Answers.{AddsPages, ReadsPages};
ghost use Rattle.tw_disk.specs.Found.Found.{Is};
ghost use Rattle.tw_disk.specs.WalkFaults.{memory_alone, walk_faults};
ghost use Rattle.tw_skiplist.specs.Appended.{appended, new_step, next_at, put_behind};
ghost use Rattle.tw_skiplist.specs.Events.{piece_count};
ghost use Rattle.tw_skiplist.specs.ListFaults.{list_faults};
ghost use Rattle.tw_skiplist.specs.Walks.{all_links};

use crate::fault::ListFault;
use crate::head::Head;
use crate::pieces::{stage_pieces, stream_of};
use crate::records::labels_of;
use crate::walking::follow;
use arrayvec::ArrayVec;
use std::alloc::Global;
use tw_base::limits::LAST_STEP;
use tw_base::{
    Bytes, Digest, EventList, Hasher, NoMemory, Root, Thread, authenticator, no_events,
    power_of_two, step_datum, top_level,
};
use tw_disk::{Pages, WalkFault};
use tw_events::event_root;
use tw_steppage::limits::{MOST_LINKS, MOST_STREAM_BYTES};
use tw_steppage::{StepFields, StepRef, StreamRef, step_page};

// The step to which the link of a level below the step's top one leads; that step has a link of this level itself.
fn step_of_link(step: u64, level: u8) -> u64
    requires some { 0 < step }
    requires small { step < 2 ^ 40 }
    requires lower { level < top_level_of step }
    ensures value { result ≡ step - 2 ^ level }
    ensures there { level ≤ top_level_of result }
{
    step - power_of_two(level)
}

// The links of the step after `from`, the first of which leads to `from`. The page to which a link leads has the next one, so it reads
// a page for each but the last.
#[tactic(auto, using(crate::proofs::WalkLaws::links_go_on))]
fn gather<P: Pages>(
    pages: &mut P,
    first: &StepRef,
    from: u64,
) -> Result<ArrayVec<StepRef, 40>, WalkFault>
    requires step { from + 1 < 2 ^ 40 }
    ensures reads { ReadsPages walk_faults P.view P.same pages.old pages.new (λ l. l.items) result (λ ps. all_links ps
        (from + 1) first.now) }
    ensures count { IfOk result (λ l. length l.items ≡ suc (top_level_of (from + 1))) }
    ensures size { IfOk result (λ l. length l.items ≤ MOST_LINKS) }
{
    let step = from + 1;
    let top = top_level(step);
    let mut links: ArrayVec<StepRef, 40> = ArrayVec::new();
    let mut link = *first;
    for level in 0..top {
        links.push(link);
        link = follow(pages, &link, step_of_link(step, level), level)?;
    }
    links.push(link);
    Ok(links)
}

/// What one more step has for its page, besides its links: the stream of its events, which is empty
/// where it received a thread, their number and their root, the archive after it, the thread, if any,
/// and its time, if any.
#[derive(Drop)]
pub(crate) struct NewStep {
    pub stream: Bytes,
    pub count: u32,
    pub event_root: Digest,
    pub archive: Root,
    pub received: Option<Thread>,
    pub time: Option<u64>,
}

// What a step of these events has.
fn of_events<H: Hasher>(
    alloc: Global,
    events: &EventList,
    archive: &Root,
    time: Option<u64>,
) -> Result<NewStep, NoMemory>
    requires { MayRecord events.now }
    ensures step { IfOk result (λ new. new ≡ new_step H.dig (Events events.now) archive.now time) }
    ensures size { IfOk result (λ new. length new.stream ≤ MOST_STREAM_BYTES) }
{
    Ok(NewStep {
        stream: stream_of(alloc, events)?,
        count: events.len() as u32,
        event_root: event_root::<H>(events.as_slice()),
        archive: *archive,
        received: None,
        time,
    })
}

// What a step that received this thread has.
fn of_thread<H: Hasher>(
    alloc: Global,
    thread: &Thread,
    archive: &Root,
    time: Option<u64>,
) -> NewStep
    ensures step { result ≡ new_step H.dig (Received thread.now) archive.now time }
    ensures none { length result.stream ≡ 0 }
{
    NewStep {
        stream: Bytes::new(alloc),
        count: 0,
        event_root: no_events::<H>(),
        archive: *archive,
        received: Some(*thread),
        time,
    }
}

// The first event page of a stream of that many bytes, where so many pages are used.
fn first_page(used: u64, size: usize) -> u64
    ensures none { size ≡ 0 → result ≡ 0 }
    ensures some { 0 < size → result ≡ used }
{
    if size == 0 { 0 } else { used }
}

// Stages the event pages and the page of a step.
fn stage_step<P: Pages, H: Hasher>(
    pages: &mut P,
    step: u64,
    new: &NewStep,
    links: &[StepRef],
    labels: &[Digest],
) -> Result<Head, NoMemory>
    requires used { (P.view pages.old).used < 2 ^ 47 }
    requires size { length new.now.stream ≤ MOST_STREAM_BYTES }
    requires links { length links.now ≤ MOST_LINKS }
    requires labels { length labels.now ≤ MOST_LINKS }
    requires count { length links.now ≡ suc (top_level_of step) }
    ensures adds { AddsPages memory_alone P.view P.same pages.old pages.new (λ head. head) result (λ ps. Is
        (next_at H.dig ps step new.now links.now labels.now)) }
    ensures step { IfOk result (λ head. head.step ≡ step) }
    ensures page { IfOk result (λ head. (P.view pages.new).used ≡ head.page + 1) }
    ensures few { (P.view pages.new).used ≤ (P.view pages.old).used + piece_count (length new.now.stream) + 1 }
{
    let auth = authenticator::<H>(step, labels);
    let stream = new.stream.as_slice();
    let first = first_page(pages.used(), stream.len());
    stage_pieces(pages, step, stream)?;
    let fields = StepFields {
        count: new.count,
        stream: StreamRef {
            page: first,
            size: stream.len() as u32,
        },
        event_root: new.event_root,
        archive: new.archive,
        received: new.received,
        auth,
        time: new.time,
    };
    let page = pages.stage(&step_page(step, &fields, links))?;
    Ok(Head { step, auth, page })
}

// Puts a step behind the pages, with the links that they lead to from the head.
#[tactic(auto, unfolding(crate::specs::Appended::put_behind))]
fn add<P: Pages, H: Hasher>(pages: &mut P, head: &Head, new: &NewStep) -> Result<Head, ListFault>
    requires step { head.now.step < LAST_STEP }
    requires used { (P.view pages.old).used < 2 ^ 47 }
    requires size { length new.now.stream ≤ MOST_STREAM_BYTES }
    ensures adds { AddsPages list_faults P.view P.same pages.old pages.new (λ head. head) result
        (λ ps. put_behind H.dig ps head.now new.now) }
    ensures step { IfOk result (λ added. added.step ≡ head.now.step + 1) }
    ensures page { IfOk result (λ added. (P.view pages.new).used ≡ added.page + 1) }
    ensures few { (P.view pages.new).used ≤ (P.view pages.old).used + piece_count (length new.now.stream) + 1 }
{
    let first = StepRef {
        page: head.page,
        auth: head.auth,
    };
    let datum = step_datum::<H>(&new.event_root, &new.archive.label, new.count, new.time);
    let gathered = gather(pages, &first, head.step)?;
    let links = gathered.as_slice();
    let step = head.step + 1;
    let labelled = labels_of::<H>(step, &datum, links);
    let labels = labelled.as_slice();
    let added = stage_step::<P, H>(pages, step, new, links, labels)?;
    Ok(added)
}

/// Adds a step of these events, with this time or none, to the history whose head is given, and answers
/// the new head. The step's archive is the one that is handed in: that of the head's step, since events
/// change nothing of it. It stages the event pages and then the step page, at most 19 pages in all.
/// Where the pages are told, the step's links are those that they themselves lead to from the head, and
/// its authenticator is that of the links' labels.
///
/// Conditions: the head's step is below 2^40 - 1, fewer than 2^47 pages are used, and the events are
/// within the limits of a step: at most 1,024, each at most 1,024 bytes, together at most 65,536; a
/// time is at most 2^40 - 1. After a refusal pages of the call may stay staged, behind those that were
/// there. Where the pages are told, BadPage tells the page of a link that isn't the page of its step; it
/// never comes where they keep a history under the head. NoStep never comes.
pub fn append<P: Pages, H: Hasher>(
    alloc: Global,
    pages: &mut P,
    head: &Head,
    events: &EventList,
    archive: &Root,
    time: Option<u64>,
) -> Result<Head, ListFault>
    requires step { head.now.step < LAST_STEP }
    requires used { (P.view pages.old).used < 2 ^ 47 }
    requires limits { MayRecord events.now }
    requires time { IsTimeWithinLimits time }
    // Over told pages the answer is what is found in them, whatever they keep, a disk fault and want of memory
    // excepted: the pages then told have the step's event pages and its page behind the earlier ones, with the links
    // that these lead to from the head and the authenticator of their labels, and the answer is that step's head; or
    // `BadPage` tells the first page met for the links that isn't of its kind. Over any pages, told or not, `NoStep` is
    // never answered; pages are only added behind those that were there, which stay, also where it refuses; and
    // `DiskFault` comes only where the count of faults rose.
    ensures adds { AddsPages list_faults P.view P.same pages.old pages.new (λ new. new) result
        (λ ps. appended H.dig ps head.now (Events events.now) archive.now time) }
    // The new head's step is the next one.
    ensures step { IfOk result (λ new. new.step ≡ head.now.step + 1) }
    // The new head's page is the last one.
    ensures page { IfOk result (λ new. (P.view pages.new).used ≡ new.page + 1) }
    // At most 19 pages are staged.
    ensures few { (P.view pages.new).used ≤ (P.view pages.old).used + 19 }
{
    let new = of_events::<H>(alloc, events, archive, time)?;
    add::<P, H>(pages, head, &new)
}

/// Adds a step that received this thread, with this time or none, as `append` adds one of events. The
/// step's archive is the one that is handed in, which has the thread. It stages the step page, since a
/// thread has no event pages.
///
/// Conditions: the head's step is below 2^40 - 1, fewer than 2^47 pages are used, the thread's step is
/// from 1 on, and a time is at most 2^40 - 1. Faults are those of `append`, and NoMemory.
pub fn append_thread<P: Pages, H: Hasher>(
    alloc: Global,
    pages: &mut P,
    head: &Head,
    thread: &Thread,
    archive: &Root,
    time: Option<u64>,
) -> Result<Head, ListFault>
    requires step { head.now.step < LAST_STEP }
    requires used { (P.view pages.old).used < 2 ^ 47 }
    requires thread { (0 < thread.now.step) × (thread.now.step ≤ LAST_STEP) }
    requires time { IsTimeWithinLimits time }
    // Over told pages the answer is what is found in them, whatever they keep, a disk fault and want of memory
    // excepted: the pages then told have the page of a step that received the thread behind the earlier ones, with the
    // links that these lead to from the head and the authenticator of their labels, and the answer is that step's head;
    // or `BadPage` tells the first page met for the links that isn't of its kind. Over any pages, told or not, `NoStep`
    // is never answered; pages are only added behind those that were there, which stay, also where it refuses; and
    // `DiskFault` comes only where the count of faults rose.
    ensures adds { AddsPages list_faults P.view P.same pages.old pages.new (λ new. new) result
        (λ ps. appended H.dig ps head.now (Received thread.now) archive.now time) }
    // The new head's step is the next one.
    ensures step { IfOk result (λ new. new.step ≡ head.now.step + 1) }
    // The new head's page is the last one.
    ensures page { IfOk result (λ new. (P.view pages.new).used ≡ new.page + 1) }
    // One page is staged at most.
    ensures few { (P.view pages.new).used ≤ (P.view pages.old).used + 1 }
{
    let new = of_thread::<H>(alloc, thread, archive, time);
    add::<P, H>(pages, head, &new)
}
