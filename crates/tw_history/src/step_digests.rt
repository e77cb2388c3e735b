// The digests of a step's authenticator, and its link and its opening; tw_skiplist/src/records.rt makes these of a step's page.

ghost use Rattle.std.specs.Prelude.{◌≡◌, ℕ, suc, ◌<◌, ◌≤◌, List, ◌∷◌, drop, length, map, remove, IfOk};
ghost use Rattle.tw_base.specs.history.Auth.{link_texts};
ghost use Rattle.tw_base.specs.events.EventTree.{event_root as event_root_of, event_texts};
ghost use Rattle.tw_base.specs.kinds.Levels.{top_level as top_level_of};
ghost use Rattle.tw_base.specs.kinds.Texts.{step_datum_text};
ghost use Rattle.tw_history.specs.Tables.{IsInRange};
ghost use Rattle.tw_history.specs.PassSteps.{passed_events};
ghost use Rattle.tw_base.specs.declared.kinds.limits.TheConstants.{LAST_STEP};
ghost use Rattle.tw_base.specs.kinds.Handing.{Hands};
ghost use Rattle.tw_history.specs.Links.{AreReached};

use crate::links::link_labels;
use arrayvec::ArrayVec;
use std::alloc::Global;
use tw_base::{Content, Digest, Labels, NoMemory, Transcript, no_events_told, step_datum_told};
use tw_events::event_root_told;
use tw_skipproof::{Link, Opening};

/// The digests that the authenticator of a step is made of: the root of its events, the label of
/// its archive, its datum, and the labels of its links from level 0 on.
#[derive(Drop)]
pub(crate) struct StepDigests {
    pub(crate) event_root: Digest,
    pub(crate) archive_root: Digest,
    pub(crate) datum: Digest,
    pub(crate) labels: ArrayVec<Digest, 40>,
}

/// The root of the content's events.
pub(crate) fn root_of_events<T: Transcript>(content: &Content, texts: &mut T) -> Digest
    requires { IsInRange content.now }
    ensures root { result ≡ event_root_of T.dig (passed_events content.now) }
    ensures took { Hands T.took texts.old texts.new (event_texts T.dig (passed_events content.now)) }
{
    match content {
        Content::Events(events) => event_root_told(events.as_slice(), texts),
        Content::Received(_) => no_events_told(texts),
    }
}

/// The number of the content's events.
pub(crate) fn count_of_events(content: &Content) -> u32
    requires { IsInRange content.now }
    ensures value { result ≡ length (passed_events content.now) }
{
    match content {
        Content::Events(events) => events.len() as u32,
        Content::Received(_) => 0,
    }
}

/// The digests of a step with this root and count of events, this label of its archive and this time,
/// if any, over the authenticators that its links lead to.
pub(crate) fn digests_of_step<T: Transcript>(
    step: u64,
    event_root: Digest,
    archive_root: Digest,
    count: u32,
    time: Option<u64>,
    latest: &[Digest; 40],
    texts: &mut T,
) -> StepDigests
    requires from_1 { 0 < step }
    requires step { step ≤ LAST_STEP }
    ensures event_root { result.event_root ≡ event_root }
    ensures archive_root { result.archive_root ≡ archive_root }
    ensures datum { result.datum ≡ T.dig (step_datum_text result.event_root result.archive_root count time) }
    ensures labels { (earlier : List (List ℕ)) → AreReached step earlier latest.now →
        result.labels.items ≡ map T.dig (link_texts T.dig result.datum earlier step (suc (top_level_of step))) }
    ensures took { (earlier : List (List ℕ)) → AreReached step earlier latest.now → Hands T.took texts.old texts.new
        (step_datum_text result.event_root result.archive_root count time ∷ link_texts T.dig result.datum earlier step (suc (top_level_of step))) }
{
    let datum = step_datum_told(&event_root, &archive_root, count, time, texts);
    let labels = link_labels(step, &datum, latest, texts);
    StepDigests {
        event_root,
        archive_root,
        datum,
        labels,
    }
}

/// The link of a path that leaves the step at this level.
pub(crate) fn link_at(alloc: Global, digests: &StepDigests, level: u8) -> Result<Link, NoMemory>
    requires { level < length digests.now.labels.items }
    ensures { IfOk result (λ link. (link.datum ≡ digests.now.datum) × (link.others ≡ remove digests.now.labels.items level)) }
{
    let mut others = Vec::from_slice(alloc, digests.labels.as_slice())?;
    others.remove(level as usize);
    Ok(Link {
        datum: digests.datum,
        others: Labels::from_vec(others),
    })
}

/// The opening of the step, with its count of events, its time, if any, and the authenticator of the
/// step before it.
pub(crate) fn opening_with(
    alloc: Global,
    digests: &StepDigests,
    count: u32,
    time: Option<u64>,
    prev: Digest,
) -> Result<Opening, NoMemory>
    requires { 0 < length digests.now.labels.items }
    ensures digests { IfOk result (λ o. (o.event_root ≡ digests.now.event_root) × (o.archive_root ≡ digests.now.archive_root)
        × (o.others ≡ drop 1 digests.now.labels.items)) }
    ensures given { IfOk result (λ o. (o.count ≡ count) × (o.time ≡ time) × (o.prev ≡ prev)) }
{
    let others = Vec::from_slice(alloc, &digests.labels.as_slice()[1..])?;
    Ok(Opening {
        event_root: digests.event_root,
        archive_root: digests.archive_root,
        count,
        time,
        prev,
        others: Labels::from_vec(others),
    })
}
