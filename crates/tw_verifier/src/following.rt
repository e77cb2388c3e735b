// The stage behind a segment of a proof that comes in pieces. A segment without bytes is passed over.
#![tactic(auto)]

ghost use Rattle.std.specs.Prelude.{◌≡◌, ℕ, ◌<◌, ◌≤◌, List, length, IfOk};
ghost use Rattle.tw_base.specs.declared.kinds.limits.TheConstants.{LAST_STEP, MOST_EVENTS, MOST_EVENT_BYTES};
ghost use Rattle.tw_base.specs.declared.history.thread.Thread.{Thread as Anchor};
ghost use Rattle.tw_verifier.specs.declared.stage.Stage.TheVariants.{Done};
ghost use Rattle.tw_verifier.specs.declared.stage.Way.TheVariants.{Link};
ghost use Rattle.tw_verifier.specs.Chaining.{behind_chain as behind_chain_of};
ghost use Rattle.tw_verifier.specs.Stages.{behind_before, behind_first, behind_event as behind_event_of, behind_link as behind_link_of, behind_opening as behind_opening_of, behind_part, behind_path as behind_path_of, behind_second, behind_tree as behind_tree_of, chain_with, least_of, least_opened, nodes_of, path_of, rest};

use crate::chain::Chain;
use crate::judgement::Judgement;
use crate::stage::{
    Asked, Climb, EventAt, Further, Goal, HopBind, HopCount, HopEntry, Linking, Onward, Opens,
    PathSoFar, Reached, Role, Seconded, Shower, Stage, Under, Way,
};
use std::alloc::Global;
use tw_base::{EventPart, Hasher, NoMemory, Thread, TreeProof};
use tw_chain::{AbsenceProof, HopPart, LinkProof, Tail, ThreadProof};
use tw_skipproof::{ExistenceProof, LinkList, Opening, Part, Path};

/// Behind a chain: a hop's entry, or the step of the first event.
pub(crate) fn behind_chain(onward: Onward) -> Stage
    ensures { (dig : List ℕ → List ℕ) (anchors : List Anchor) → rest dig anchors result ≡ behind_chain_of dig anchors onward.chain.value }
{
    if onward.chain.more > 0 {
        return Stage::Entry(Shower::Behind(Further { onward }));
    }
    Stage::Tail(onward)
}

/// Behind the second event and, where there is a hop, the opening of the step before it.
fn behind_start<H: Hasher>(
    alloc: Global,
    anchors: &[Thread],
    head: Reached,
    event: EventPart,
    before: Option<Opening>,
    hops: HopCount,
) -> Result<Stage, NoMemory>
    requires { length event.event ≤ MOST_EVENT_BYTES }
    ensures { IfOk result (λ stage. rest H.dig anchors.now stage ≡ behind_before H.dig anchors.now head.part event hops.count before) }
{
    let chain = Chain::begin::<H>(alloc, head.part, event, before, hops.count, anchors);
    let chain = Box::new(alloc, chain)?;
    Ok(behind_chain(Onward { chain }))
}

/// Behind the second event.
fn behind_seconded<H: Hasher>(
    alloc: Global,
    anchors: &[Thread],
    head: Reached,
    event: EventPart,
    hops: HopCount,
) -> Result<Stage, NoMemory>
    requires { length event.event ≤ MOST_EVENT_BYTES }
    ensures { IfOk result (λ stage. rest H.dig anchors.now stage ≡ behind_second H.dig anchors.now hops.count head.part event) }
{
    if hops.count > 0 {
        return Ok(Stage::Opening(Opens::Before(Seconded { head, event, hops })));
    }
    behind_start::<H>(alloc, anchors, head, event, None, hops)
}

/// The judgement of a proof with its first event.
fn closed<H: Hasher>(onward: Onward, at: Reached, event: EventPart) -> Judgement
    requires { length event.event ≤ MOST_EVENT_BYTES }
    ensures { (anchors : List Anchor) → rest H.dig anchors (Done result) ≡ behind_first H.dig anchors onward.chain.value at.part event }
{
    let Part {
        step,
        path,
        opening,
        ..
    } = at.part;
    let tail = Tail {
        step,
        path,
        opening,
        event,
    };
    Box::into_inner(onward.chain).close::<H>(tail)
}

/// Behind an event.
pub(crate) fn behind_event<H: Hasher>(
    alloc: Global,
    anchors: &[Thread],
    role: Role,
    at: Reached,
    event: EventPart,
) -> Result<Stage, NoMemory>
    requires { length event.event ≤ MOST_EVENT_BYTES }
    ensures { IfOk result (λ stage. rest H.dig anchors.now stage ≡ behind_event_of H.dig anchors.now role at.part event) }
{
    match role {
        Role::Only => {
            let proof = ExistenceProof { at: at.part, event };
            Ok(Stage::Done(Judgement::of_event::<H>(alloc, proof, anchors)))
        }
        Role::Second(hops) => behind_seconded::<H>(alloc, anchors, at, event, hops),
        Role::First(onward) => Ok(Stage::Done(closed::<H>(onward, at, event))),
    }
}

/// Behind the opening of a part.
fn behind_reached(goal: Goal, at: Reached) -> Stage
    requires { least_of goal ≤ at.part.opening.count }
    ensures { (dig : List ℕ → List ℕ) (anchors : List Anchor) → rest dig anchors result ≡ behind_part dig anchors goal at.part }
{
    match goal {
        Goal::Event(role) => Stage::Event(EventAt { role, at }),
        Goal::Archived => Stage::Entry(Shower::At(at)),
        Goal::Absent => Stage::Key(at),
    }
}

/// Behind a hop with its path and, where another hop follows, its opening.
fn behind_hop<H: Hasher>(
    alloc: Global,
    anchors: &[Thread],
    bound: HopBind,
    links: LinkList,
    opening: Option<Opening>,
) -> Result<Stage, NoMemory>
    ensures { IfOk result (λ stage. rest H.dig anchors.now stage ≡ behind_chain_of H.dig anchors.now
        (chain_with H.dig anchors.now bound.hop.further.onward.chain.value bound.hop.entry bound.shown bound.bind links opening)) }
{
    let HopBind { hop, shown, bind } = bound;
    let HopEntry { further, entry } = hop;
    let part = HopPart {
        entry,
        shown,
        bind,
        link: Path { links },
        opening,
    };
    let chain = Box::into_inner(further.onward.chain).with_hop::<H>(part, anchors)?;
    let chain = Box::new(alloc, chain)?;
    Ok(behind_chain(Onward { chain }))
}

/// Behind the path of a hop.
fn behind_link<H: Hasher>(
    alloc: Global,
    anchors: &[Thread],
    bound: HopBind,
    links: LinkList,
) -> Result<Stage, NoMemory>
    ensures { IfOk result (λ stage. rest H.dig anchors.now stage ≡ behind_link_of H.dig anchors.now
        bound.hop.further.onward.chain.value bound.hop.entry bound.shown bound.bind links) }
{
    if bound.hop.further.onward.chain.more > 1 {
        return Ok(Stage::Opening(Opens::Hop { hop: bound, links }));
    }
    behind_hop::<H>(alloc, anchors, bound, links, None)
}

/// The judgement of a proof of a step's authenticator, of which all was taken.
fn linked<H: Hasher>(
    alloc: Global,
    anchors: &[Thread],
    linking: Linking,
    links: LinkList,
) -> Judgement
    ensures { rest H.dig anchors.now (Done result) ≡ behind_path_of H.dig anchors.now (Link linking) links }
{
    let Linking {
        service,
        step,
        top,
        auth,
    } = linking;
    let proof = LinkProof {
        service,
        step,
        top,
        auth,
        path: Path { links },
    };
    Judgement::of_link::<H>(alloc, proof, anchors)
}

/// Behind a path.
fn behind_path<H: Hasher>(
    alloc: Global,
    anchors: &[Thread],
    way: Way,
    links: LinkList,
) -> Result<Stage, NoMemory>
    ensures { IfOk result (λ stage. rest H.dig anchors.now stage ≡ behind_path_of H.dig anchors.now way links) }
{
    match way {
        Way::Part { goal, under } => Ok(Stage::Opening(Opens::Part { goal, under, links })),
        Way::Bind(bound) => behind_link::<H>(alloc, anchors, bound, links),
        Way::Link(linking) => Ok(Stage::Done(linked::<H>(alloc, anchors, linking, links))),
    }
}

/// Behind these links, which lead down to this step: the next link, or what stands behind the path.
pub(crate) fn along_path<H: Hasher>(
    alloc: Global,
    anchors: &[Thread],
    way: Way,
    links: LinkList,
    at: u64,
    to: u64,
) -> Result<Stage, NoMemory>
    requires { at ≤ LAST_STEP }
    ensures { IfOk result (λ stage. rest H.dig anchors.now stage ≡ path_of links at to (behind_path_of H.dig anchors.now way)) }
{
    if at > to {
        return Ok(Stage::Path(PathSoFar { way, links, at, to }));
    }
    behind_path::<H>(alloc, anchors, way, links)
}

/// A part with its opening.
fn reached(under: Under, links: LinkList, opening: Opening) -> Reached
    requires { opening.count ≤ MOST_EVENTS }
    ensures { result.part ≡ record { service = under.service; step = under.step; top = under.top; path = record { links = links }; opening = opening } }
{
    let Under { service, step, top } = under;
    let part = Part {
        service,
        step,
        top,
        path: Path { links },
        opening,
    };
    Reached { part }
}

/// Behind an opening.
pub(crate) fn behind_opening<H: Hasher>(
    alloc: Global,
    anchors: &[Thread],
    opens: Opens,
    opening: Opening,
) -> Result<Stage, NoMemory>
    requires least { least_opened opens ≤ opening.count }
    requires few { opening.count ≤ MOST_EVENTS }
    ensures { IfOk result (λ stage. rest H.dig anchors.now stage ≡ behind_opening_of H.dig anchors.now opens opening) }
{
    match opens {
        Opens::Part { goal, under, links } => {
            Ok(behind_reached(goal, reached(under, links, opening)))
        }
        Opens::Before(seconded) => {
            let Seconded { head, event, hops } = seconded;
            behind_start::<H>(alloc, anchors, head, event, Some(opening), hops)
        }
        Opens::Hop { hop, links } => behind_hop::<H>(alloc, anchors, hop, links, Some(opening)),
    }
}

/// Behind a tree proof.
fn behind_tree<H: Hasher>(
    alloc: Global,
    anchors: &[Thread],
    asked: Asked,
    shown: TreeProof,
) -> Stage
    ensures { rest H.dig anchors.now result ≡ behind_tree_of H.dig anchors.now asked shown }
{
    match asked {
        Asked::Archived { at, entry } => {
            let proof = ThreadProof {
                at: at.part,
                entry,
                shown,
            };
            Stage::Done(Judgement::of_thread::<H>(alloc, proof, anchors))
        }
        Asked::Absent { at, key } => {
            let proof = AbsenceProof {
                at: at.part,
                key,
                shown,
            };
            Stage::Done(Judgement::of_absence::<H>(alloc, proof, anchors))
        }
        Asked::Hop(hop) => Stage::Bind { hop, shown },
    }
}

/// Behind a tree proof so far: so many nodes, or what stands behind it.
pub(crate) fn along_tree<H: Hasher>(
    alloc: Global,
    anchors: &[Thread],
    asked: Asked,
    shown: TreeProof,
    more: u8,
) -> Stage
    ensures { rest H.dig anchors.now result ≡ nodes_of H.dig anchors.now (behind_tree_of H.dig anchors.now asked) shown more }
{
    if more > 0 {
        return Stage::Nodes(Climb { asked, shown, more });
    }
    behind_tree::<H>(alloc, anchors, asked, shown)
}
