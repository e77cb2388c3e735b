// What a proof has of a step's page: a path's link, the opening, what is told of the step. `step_records.rt` is for a history's file.

ghost use Rattle.std.specs.Prelude.{◌≡◌, ℕ, suc, ◌+◌, ◌<◌, ◌≤◌, ◌^◌, ◌++◌, ◌∷◌, [], ◌==◌, List, length, remove, Some, IfOk, OnOk, if◌then◌else◌};
ghost use Rattle.tw_base.specs.kinds.Texts.{link_text};
ghost use Rattle.tw_steppage.specs.StepPages.{HasRanges, link_at_level};
ghost use Rattle.tw_skiplist.specs.Infos.{IsInfoTold};
ghost use Rattle.tw_skiplist.specs.Records.{info_record, link_record, opening_record, other_labels, page_datum, page_labels};

use crate::info::StepInfo;
use arrayvec::ArrayVec;
use std::alloc::Global;
use tw_base::{Digest, Hasher, Labels, NoMemory, link_label, step_datum};
use tw_skipproof::{Link, Opening};
use tw_steppage::limits::MOST_LINKS;
use tw_steppage::{StepPage, StepRef};

/// The link of this level.
pub(crate) fn link_at(links: &[StepRef], level: u8) -> StepRef
    requires { level < length links.now }
    ensures { result ≡ link_at_level links.now level }
{
    links[level as usize]
}

/// The labels of the links, over the step's datum.
#[tactic(auto, using(crate::proofs::Recording::labels_go_on))]
pub(crate) fn labels_of<H: Hasher>(
    step: u64,
    datum: &Digest,
    links: &[StepRef],
) -> ArrayVec<Digest, 40>
    requires { length links.now ≤ MOST_LINKS }
    ensures labels { result.items ≡ page_labels H.dig step datum.now links.now (length links.now) }
    ensures size { length result.items ≤ MOST_LINKS }
{
    let mut labels: ArrayVec<Digest, 40> = ArrayVec::new();
    for level in 0..links.len() {
        let link = link_at(links, level as u8);
        labels.push(link_label::<H>(step, level as u8, datum, &link.auth));
    }
    labels
}

// Appends the label of the link of this level, unless its level is the one left out.
fn push_other<H: Hasher>(
    labels: &mut Labels,
    step: u64,
    level: u8,
    without: u8,
    datum: &Digest,
    links: &[StepRef],
) -> Result<(), NoMemory>
    requires inside { level < length links.now }
    requires few { level < MOST_LINKS }
    ensures { OnOk result (labels.new ≡ (if level == without then labels.old else labels.old ++ H.dig
        (link_text step level datum.now (link_at_level links.now level).auth) ∷ [])) }
{
    if level == without {
        return Ok(());
    }
    let link = link_at(links, level);
    labels.push(link_label::<H>(step, level, datum, &link.auth))?;
    Ok(())
}

// The labels of the links but the one of the level left out.
fn labels_without<H: Hasher>(
    alloc: Global,
    step: u64,
    datum: &Digest,
    links: &[StepRef],
    without: u8,
) -> Result<Labels, NoMemory>
    requires { length links.now ≤ MOST_LINKS }
    ensures { IfOk result (λ labels. labels ≡ other_labels H.dig step datum.now links.now without) }
{
    let mut labels = Labels::with_capacity(alloc, links.len())?;
    for level in 0..links.len() {
        push_other::<H>(&mut labels, step, level as u8, without, datum, links)?;
    }
    Ok(labels)
}

fn datum_of<H: Hasher>(page: &StepPage) -> Digest
    ensures { result ≡ page_datum H.dig page.now.fields }
{
    let fields = &page.fields;
    step_datum::<H>(
        &fields.event_root,
        &fields.archive.label,
        fields.count,
        fields.time,
    )
}

/// The record that a path has of the step's link of this level.
pub(crate) fn link_of_page<H: Hasher>(
    alloc: Global,
    step: u64,
    page: &StepPage,
    level: u8,
) -> Result<Link, NoMemory>
    requires { length page.now.links.items ≤ MOST_LINKS }
    ensures { IfOk result (λ link. link ≡ link_record H.dig step page.now.fields page.now.links.items level) }
{
    let datum = datum_of::<H>(page);
    let others = labels_without::<H>(alloc, step, &datum, page.links.as_slice(), level)?;
    Ok(Link { datum, others })
}

fn opening_of_page<H: Hasher>(
    alloc: Global,
    step: u64,
    page: &StepPage,
) -> Result<Opening, NoMemory>
    requires some { 0 < length page.now.links.items }
    requires few { length page.now.links.items ≤ MOST_LINKS }
    ensures { IfOk result (λ opening. opening ≡ opening_record H.dig step page.now.fields page.now.links.items) }
{
    let datum = datum_of::<H>(page);
    let links = page.links.as_slice();
    let others = labels_without::<H>(alloc, step, &datum, links, 0)?;
    Ok(Opening {
        event_root: page.fields.event_root,
        archive_root: page.fields.archive.label,
        count: page.fields.count,
        time: page.fields.time,
        prev: link_at(links, 0).auth,
        others,
    })
}

/// What the page of this number tells of its step.
pub(crate) fn info_of_page<H: Hasher>(
    alloc: Global,
    number: u64,
    step: u64,
    page: &StepPage,
) -> Result<StepInfo, NoMemory>
    requires some { 0 < length page.now.links.items }
    requires few { length page.now.links.items ≤ MOST_LINKS }
    requires ranges { HasRanges page.now.fields }
    ensures info { IfOk result (λ info. info ≡ info_record H.dig number step page.now.fields page.now.links.items) }
    ensures ranges { IfOk result (IsInfoTold step) }
{
    let opening = opening_of_page::<H>(alloc, step, page)?;
    let fields = &page.fields;
    Ok(StepInfo {
        step,
        page: number,
        before: link_at(page.links.as_slice(), 0),
        event_root: fields.event_root,
        count: fields.count,
        time: fields.time,
        archive: fields.archive,
        received: fields.received,
        auth: fields.auth,
        opening,
        stream: fields.stream,
    })
}
