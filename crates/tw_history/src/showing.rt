// The proof of an event that a history in memory makes, for `show`; a service's are made of pages, in `tw_answers`.

ghost use Rattle.std.specs.Prelude.{◌≡◌, ◌^◌, ◌<◌, ◌≤◌, List, length, Some, IfOk, IfErr, OnOk};
ghost use Rattle.tw_skipproof.specs.declared.existence.ExistenceProof.{ExistenceProof};
ghost use Rattle.tw_base.specs.history.Auth.{auth};
ghost use Rattle.tw_base.specs.events.EventTree.{event_root as event_root_of};
ghost use Rattle.tw_base.specs.history.History.{events_at};
ghost use Rattle.tw_base.specs.history.Limits.{IsTimeWithinLimits};
ghost use Rattle.tw_base.specs.kinds.Lists.{Each};
ghost use Rattle.tw_base.specs.format.Formats.{Spells};
ghost use Rattle.tw_skipproof.specs.Acceptance.{IsAcceptedUnder};
ghost use Rattle.tw_skipproof.specs.Existence.{existence_layout};
ghost use Rattle.tw_skipproof.specs.HistoryProofs.{IsOpeningOf, IsPartOfHistory, MakesExistence};
ghost use Rattle.tw_history.specs.Tables.{IsInRange};
ghost use Rattle.tw_history.specs.PassSteps.{HasPassed, passed_events};
ghost use Rattle.tw_history.specs.Refusals.{RefusesEvent};
ghost use Rattle.tw_base.specs.declared.kinds.limits.TheConstants.{LAST_STEP, MOST_EVENTS, MOST_EVENT_BYTES};

use crate::fault::ShowFault;
use crate::history::History;
use crate::lookup::{content_at, content_behind, count_of_steps, time_behind};
use crate::pass::{Digests, auth_passed, begin_pass, pass_step, pass_steps};
use crate::path_links::links_upwards;
use crate::step_digests::{count_of_events, opening_with};
use std::alloc::Global;
use tw_base::{Bytes, Content, Digest, Hasher, NoMemory, Unwritten};
use tw_events::{event_part, root_over};
use tw_skipproof::{ExistenceProof, LinkList, Opening, Part, Path, write_existence};

/// The events of the content, where one has this index; else how many there are.
fn events_having(content: &Content, index: u32) -> Result<&[Bytes], u32>
    requires { IsInRange content.now }
    ensures events { IfOk result (λ events. (events.now ≡ passed_events content.now) × (index < length events.now)) }
    ensures ranges { IfOk result (λ events. (length events.now ≤ MOST_EVENTS) × Each (λ event. length event ≤ MOST_EVENT_BYTES) events.now) }
    ensures count { IfErr result (λ count. (count ≡ length (passed_events content.now)) × (count ≤ index)) }
{
    match content {
        Content::Events(events) => {
            let count = events.len() as u32;
            if index < count {
                Ok(events.as_slice())
            } else {
                Err(count)
            }
        }
        Content::Received(_) => Err(0),
    }
}

/// The events of the step, where the history has the step, and the step an event of this index.
fn events_to_show(history: &History, step: u64, index: u32) -> Result<&[Bytes], ShowFault>
    ensures step { OnOk result ((0 < step) × (step ≤ length history.now.steps)) }
    ensures events { IfOk result (λ events. (events.now ≡ events_at history.now step) × (index < length events.now)) }
    ensures ranges { IfOk result (λ events. (length events.now ≤ MOST_EVENTS) × Each (λ event. length event ≤ MOST_EVENT_BYTES) events.now) }
    ensures refused { IfErr result (RefusesEvent history.now step index) }
{
    match content_at(history, step) {
        None => Err(ShowFault::NoStep {
            last: count_of_steps(history),
        }),
        Some(content) => match events_having(content, index) {
            Ok(events) => Ok(events),
            Err(count) => Err(ShowFault::NoEvent { count }),
        },
    }
}

/// The opening of the step, of whose events this is the root, by a pass that ends behind it.
fn opening_of<H: Hasher>(
    alloc: Global,
    history: &History,
    step: u64,
    event_root: Digest,
    digests: &mut Digests,
    texts: &mut Unwritten<H>,
) -> Result<Opening, NoMemory>
    requires from_1 { 0 < step }
    requires inside { step ≤ length history.now.steps }
    requires begun { HasPassed H.dig history.now 0 digests.old }
    requires event_root { event_root ≡ event_root_of H.dig (events_at history.now step) }
    ensures opening { IfOk result (IsOpeningOf H.dig history.now step) }
    ensures time { IfOk result (λ opening. IsTimeWithinLimits opening.time) }
    ensures passed { OnOk result (HasPassed H.dig history.now step digests.new) }
{
    pass_steps(history, 0, step - 1, digests, texts)?;
    let prev = auth_passed(digests);
    let passed = pass_step(history, step - 1, event_root, digests, texts)?;
    let count = count_of_events(content_behind(history, step - 1));
    let time = time_behind(history, step - 1);
    opening_with(alloc, &passed, count, time, prev)
}

/// The step, of whose events this is the root, under the history's last step.
fn part_of<H: Hasher>(
    alloc: Global,
    history: &History,
    step: u64,
    event_root: Digest,
) -> Result<Part, NoMemory>
    requires from_1 { 0 < step }
    requires inside { step ≤ length history.now.steps }
    requires event_root { event_root ≡ event_root_of H.dig (events_at history.now step) }
    ensures part { IfOk result (IsPartOfHistory H.dig history.now step (length history.now.steps)) }
    ensures time { IfOk result (λ part. IsTimeWithinLimits part.opening.time) }
    ensures few { OnOk result (length history.now.steps ≤ LAST_STEP) }
{
    let top = count_of_steps(history);
    let mut texts = Unwritten::<H>::new();
    let mut digests = begin_pass(alloc, history, &mut texts)?;
    let opening = opening_of(alloc, history, step, event_root, &mut digests, &mut texts)?;
    let mut links = links_upwards(alloc, history, top, step, &mut digests, &mut texts)?;
    links.reverse();
    Ok(Part {
        service: history.name,
        step,
        top,
        path: Path {
            links: LinkList::from_vec(links),
        },
        opening,
    })
}

/// The bytes of the proof that the event of this index stands in the step, whose events these are.
fn written_existence<H: Hasher>(
    alloc: Global,
    history: &History,
    step: u64,
    events: &[Bytes],
    index: u32,
) -> Result<Bytes, NoMemory>
    requires from_1 { 0 < step }
    requires inside { step ≤ length history.now.steps }
    requires events { events.now ≡ events_at history.now step }
    requires index { index < length events.now }
    requires few { length events.now ≤ MOST_EVENTS }
    requires small { Each (λ event. length event ≤ MOST_EVENT_BYTES) events.now }
    ensures { IfOk result (MakesExistence H.dig history.now step index (length history.now.steps)) }
{
    let event = event_part::<H>(alloc, events, index)?;
    let event_root = root_over::<H>(&event, events.len() as u32);
    let at = part_of::<H>(alloc, history, step, event_root)?;
    let proof = ExistenceProof { at, event };
    write_existence(alloc, &proof)
}

/// The bytes of the proof that the event of this index, from 0 on, stands in this step of the
/// history, with the history's last step as its top. It is accepted under the history's
/// authenticator of that last step. NoStep comes exactly where the history has no such step, and
/// NoEvent where the step has no such event. Each text that the proof stands on is hashed once; the
/// memory is linear in the history.
pub fn show_event<H: Hasher>(
    alloc: Global,
    history: &History,
    step: u64,
    index: u32,
) -> Result<Bytes, ShowFault>
    // The proof made of an event of a history is the history's own, under its last step.
    ensures shown { IfOk result (MakesExistence H.dig history.now step index (length history.now.steps)) }
    // It is made only of a step that the history has.
    ensures inside { OnOk result ((0 < step) × (step ≤ length history.now.steps)) }
    // It is accepted under the history's authenticator of its last step.
    ensures accepted { IfOk result (λ bytes. (p : ExistenceProof) × Spells existence_layout bytes p
        × IsAcceptedUnder H.dig (auth H.dig history.now (length history.now.steps)) p) }
    // It is refused only where there is no such step, or no such event in it, and tells the last step, or the number of
    // the step's events; by `inside` and `shown` it is refused wherever that is so, want of memory excepted.
    ensures refused { IfErr result (RefusesEvent history.now step index) }
{
    let events = events_to_show(history, step, index)?;
    match written_existence::<H>(alloc, history, step, events, index) {
        Ok(bytes) => Ok(bytes),
        Err(NoMemory) => Err(ShowFault::NoMemory),
    }
}
