// The records of all steps of a history, and their events as they stand, for the history's file; `records.rt` is for proofs.

ghost use Rattle.std.specs.Prelude.{◌≡◌, ◌≤◌, length, None, IfOk};
ghost use Rattle.tw_base.specs.kinds.Lists.{Each};
ghost use Rattle.tw_disk.specs.Answers.{ReadsPages};
ghost use Rattle.tw_steppage.specs.StepPages.{HasRanges};
ghost use Rattle.tw_skiplist.specs.ListFaults.{list_faults};
ghost use Rattle.tw_skiplist.specs.StepRecords.{copied_content, events_of_record, found_records};

use crate::event_pages::copy_from;
use crate::fault::ListFault;
use crate::head::Head;
use crate::info::EventsAt;
use crate::records::link_at;
use crate::walking::read_step;
use std::alloc::Global;
use tw_base::limits::LAST_STEP;
use tw_base::{Bytes, Sequence, put_last_bytes};
use tw_disk::Pages;
use tw_steppage::{StepFields, StepPage};

/// A step as its page records it: its number, its page, and the page's fields.
#[derive(Clone, Copy, Debug, Drop)]
pub struct StepRecord {
    pub step: u64,
    pub page: u64,
    pub fields: StepFields,
}

/// The records of the steps of the history whose head is given (a step below 2^40), the last one first.
/// Each step's page is read once, from the head down by the link of level 0, and nothing is hashed.
///
/// Where the pages are told, BadPage tells the first page of the way that isn't the page of its step; it
/// never comes where they keep a history under the head, and NoStep never comes.
#[tactic(auto, using(crate::proofs::RecordLaws::records_go_on))]
pub fn read_records<P: Pages>(
    alloc: Global,
    pages: &mut P,
    head: &Head,
) -> Result<Sequence<StepRecord>, ListFault>
    requires { head.now.step ≤ LAST_STEP }
    // Over told pages the answer is what is found in them, whatever they keep, a disk fault and want of memory
    // excepted: what the page of each step records, or `BadPage` with the first page met that isn't of its kind. Over
    // any pages, told or not, `NoStep` is never answered; reading changes nothing of what the pages tell; and
    // `DiskFault` comes only where the count of faults rose.
    ensures reads { ReadsPages list_faults P.view P.same pages.old pages.new (λ records. records) result
        (λ ps. found_records ps head.now) }
    // Over any pages, told or not, there is one record for each step.
    ensures count { IfOk result (λ records. length records ≡ head.now.step) }
    // Each has at most 1,024 events, and a time and a thread's step of at most 2^40 - 1.
    ensures ranges { IfOk result (λ records. Each (λ r. HasRanges r.fields) records) }
{
    let mut records = Sequence::new(alloc);
    let mut page = head.page;
    let mut step = head.step;
    while step > 0 {
        let StepPage { fields, links } = read_step(pages, page, step)?;
        let below = link_at(links.as_slice(), 0);
        records.push(StepRecord { step, page, fields })?;
        page = below.page;
        step -= 1;
    }
    Ok(records)
}

// Where the step of a record has its events.
fn events_at(recorded: &StepRecord) -> EventsAt
    ensures { result ≡ events_of_record recorded.now }
{
    EventsAt {
        step: recorded.step,
        page: recorded.page,
        count: recorded.fields.count,
        stream: recorded.fields.stream,
    }
}

/// Appends the events of the step of a record that received no thread, their number and each of them behind its length, as a history
/// file has them. They are read from its event pages, each once, and aren't kept beside.
///
/// Where the pages are told, BadPage tells of the event pages what it tells of them at `events_of`, and the step's own page, which
/// isn't read here, where it counts events and has no event page; it never comes where they keep the history of which `read_records`
/// told, and NoStep never comes. After a refusal something may have been appended.
#[tactic(auto, unfolding(tw_base::specs::format::Codecs::number_codec))]
pub fn copy_events<P: Pages>(
    pages: &mut P,
    recorded: &StepRecord,
    into: &mut Bytes,
) -> Result<(), ListFault>
    requires { recorded.now.fields.received ≡ None }
    // Over told pages what the step recorded, as it is found in them, is appended as its codec writes it, a disk fault and want of memory
    // excepted. Over any pages, told or not, `NoStep` is never answered; reading changes nothing of what the pages tell; and `DiskFault`
    // comes only where the count of faults rose.
    ensures reads { ReadsPages list_faults P.view P.same pages.old pages.new (λ _. into.new) result
        (λ ps. copied_content ps recorded.now into.old) }
{
    put_last_bytes(into, recorded.fields.count as u64, 4)?;
    copy_from(pages, &events_at(recorded), into)
}
