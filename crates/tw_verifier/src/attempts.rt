// What is found in the bytes held of a kind, a head, a link, an opening or an event; `tree_attempts.rt` has the other segments.
#![tactic(auto)]

ghost use Rattle.std.specs.Prelude.{◌≡◌, ℕ, ◌≤◌, List, [], ◌∷◌, ◌++◌, length, take, IfOk};
ghost use Rattle.tw_base.specs.declared.kinds.limits.TheConstants.{LAST_STEP, MOST_HOPS};
ghost use Rattle.tw_base.specs.declared.history.thread.Thread.{Thread as Anchor};
ghost use Rattle.tw_base.specs.format.Formats.{Format};
ghost use Rattle.tw_pieces.specs.Resuming.{Attempts, StandsBehind};
ghost use Rattle.tw_skipproof.specs.declared.path.Link.{Link as AnyLink};
ghost use Rattle.tw_verifier.specs.declared.judgement.Judgement.{Judgement as AnyJudgement};
ghost use Rattle.tw_skipproof.specs.Paths.{hop};
ghost use Rattle.tw_verifier.specs.declared.stage.Stage.TheVariants.{Begun, Counted, Event, Head, LinkHead, Opening, Path};
ghost use Rattle.tw_verifier.specs.Stages.{behind_kind as behind_kind_of, behind_path, behind_second, event_stage, head_stage, least_opened, path_of, rest, step_opened};

use crate::following::{along_path, behind_event, behind_opening};
use crate::heads::{take_kind_head, take_link_head, take_part_head};
use crate::stage::{EventAt, Goal, HopCount, Opens, PathSoFar, Role, Stage, Way};
use std::alloc::Global;
use tw_base::limits::MOST_HOPS;
use tw_base::{Hasher, NoMemory, ReadFault, Thread, take_number};
use tw_pieces::{Attempt, event_until, link_until, missed, opening_until};
use tw_skipproof::{Link, LinkList, next_step, take_event, take_link, take_opening};

/// Behind the kind.
fn behind_kind(kind: u64) -> Stage
    ensures { (dig : List ℕ → List ℕ) (anchors : List Anchor) → rest dig anchors result ≡ behind_kind_of dig anchors kind }
{
    if kind == 1 {
        return Stage::Head(Goal::Event(Role::Only));
    }
    if kind == 2 {
        return Stage::Counted;
    }
    if kind == 3 {
        return Stage::Head(Goal::Archived);
    }
    if kind == 4 {
        return Stage::Head(Goal::Absent);
    }
    Stage::LinkHead
}

/// Looks for the magic and the kind.
pub(crate) fn attempt_begun(held: &[u8]) -> Result<Attempt<Stage>, NoMemory>
    ensures { (dig : List ℕ → List ℕ) (anchors : List Anchor) → Attempts (rest dig anchors) Begun held.now result }
{
    let mut at = 0;
    match take_kind_head(held, &mut at) {
        Ok(kind) => Ok(Attempt::Ended {
            next: behind_kind(kind),
            size: at as usize,
        }),
        Err(fault) => missed(Stage::Begun, held, fault),
    }
}

/// Behind the number of hops.
fn behind_count(hops: u64) -> Stage
    requires { hops ≤ MOST_HOPS }
    ensures { (dig : List ℕ → List ℕ) (anchors : List Anchor) → rest dig anchors result ≡ head_stage 1 (event_stage (behind_second dig anchors hops)) }
{
    let hops = HopCount { count: hops as u8 };
    Stage::Head(Goal::Event(Role::Second(hops)))
}

/// Looks for the number of hops.
pub(crate) fn attempt_counted(held: &[u8]) -> Result<Attempt<Stage>, NoMemory>
    ensures { (dig : List ℕ → List ℕ) (anchors : List Anchor) → Attempts (rest dig anchors) Counted held.now result }
{
    let mut at = 0;
    match take_number(held, &mut at, 1, 0, MOST_HOPS) {
        Ok(hops) => Ok(Attempt::Ended {
            next: behind_count(hops),
            size: at as usize,
        }),
        Err(fault) => missed(Stage::Counted, held, fault),
    }
}

/// Looks for a service, its step and a top.
pub(crate) fn attempt_head<H: Hasher>(
    alloc: Global,
    anchors: &[Thread],
    goal: Goal,
    held: &[u8],
) -> Result<Attempt<Stage>, NoMemory>
    ensures { Attempts (rest H.dig anchors.now) (Head goal) held.now result }
{
    let mut at = 0;
    match take_part_head(held, &mut at) {
        Ok(under) => {
            let (step, top) = (under.step, under.top);
            let way = Way::Part { goal, under };
            let links = LinkList::new(alloc);
            let next = along_path::<H>(alloc, anchors, way, links, top, step)?;
            Ok(Attempt::Ended {
                next,
                size: at as usize,
            })
        }
        Err(fault) => missed(Stage::Head(goal), held, fault),
    }
}

/// Looks for a service, its step, a top and the step's authenticator.
pub(crate) fn attempt_link_head<H: Hasher>(
    alloc: Global,
    anchors: &[Thread],
    held: &[u8],
) -> Result<Attempt<Stage>, NoMemory>
    ensures { Attempts (rest H.dig anchors.now) LinkHead held.now result }
{
    let mut at = 0;
    match take_link_head(held, &mut at) {
        Ok(linking) => {
            let (step, top) = (linking.step, linking.top);
            let links = LinkList::new(alloc);
            let next = along_path::<H>(alloc, anchors, Way::Link(linking), links, top, step)?;
            Ok(Attempt::Ended {
                next,
                size: at as usize,
            })
        }
        Err(fault) => missed(Stage::LinkHead, held, fault),
    }
}

/// The links of a path that were taken so far, the step that they lead down to, and how many bytes the last ones had.
#[derive(Drop)]
struct LinksSoFar {
    links: LinkList,
    at: u64,
    size: usize,
}

/// Behind links that lead down to a step, the next ones of the path that are held whole.
fn take_links(
    alloc: Global,
    links: LinkList,
    from: u64,
    to: u64,
    held: &[u8],
) -> Result<LinksSoFar, NoMemory>
    requires { from ≤ LAST_STEP }
    ensures small { IfOk result (λ l. l.at ≤ LAST_STEP) }
    ensures within { IfOk result (λ l. l.size ≤ length held.now) }
    ensures behind { (next : List AnyLink → Format AnyJudgement) → IfOk result (λ l. StandsBehind (path_of links from to next) (take l.size held.now) (path_of l.links l.at to next)) }
{
    let mut links = links;
    let mut at = from;
    let mut size = 0;
    while at > to {
        let left = &held[size..];
        if left.len() < link_until(left, at) {
            break;
        }
        let mut place = 0;
        match take_link(alloc, left, &mut place, at) {
            Ok(link) => links.push(link)?,
            Err(ReadFault::NoMemory) => return Err(NoMemory),
            Err(ReadFault::Malformed { .. }) => break,
        }
        at = next_step(at, to);
        size += place as usize;
    }
    Ok(LinksSoFar { links, at, size })
}

/// Behind a link more and the next ones that are held whole, which have so many bytes. (`following.rt` has that behind a hop's path.)
fn behind_link<H: Hasher>(
    alloc: Global,
    anchors: &[Thread],
    path: PathSoFar,
    link: Link,
    held: &[u8],
) -> Result<(Stage, usize), NoMemory>
    ensures within { IfOk result (λ r. r.1 ≤ length held.now) }
    ensures behind { IfOk result (λ r. StandsBehind (path_of (path.links ++ link ∷ []) (hop path.at path.to) path.to (behind_path H.dig anchors.now path.way)) (take r.1 held.now) (rest H.dig anchors.now r.0)) }
{
    let PathSoFar {
        way,
        mut links,
        at,
        to,
    } = path;
    links.push(link)?;
    let LinksSoFar { links, at, size } = take_links(alloc, links, next_step(at, to), to, held)?;
    let stage = along_path::<H>(alloc, anchors, way, links, at, to)?;
    Ok((stage, size))
}

/// Looks for a link, where as many bytes are held as it has, and takes the next ones that are held whole with it.
pub(crate) fn attempt_link<H: Hasher>(
    alloc: Global,
    anchors: &[Thread],
    path: PathSoFar,
    held: &[u8],
) -> Result<Attempt<Stage>, NoMemory>
    ensures { Attempts (rest H.dig anchors.now) (Path path) held.now result }
{
    let until = link_until(held, path.at);
    if held.len() < until {
        return Ok(Attempt::Front {
            same: Stage::Path(path),
            until,
        });
    }
    let mut at = 0;
    match take_link(alloc, held, &mut at, path.at) {
        Ok(link) => {
            let size = at as usize;
            let (next, more) = behind_link::<H>(alloc, anchors, path, link, &held[size..])?;
            Ok(Attempt::Ended {
                next,
                size: size + more,
            })
        }
        Err(fault) => missed(Stage::Path(path), held, fault),
    }
}

/// The least count of events of the opening, and its step.
fn opened(opens: &Opens) -> (u64, u64)
    ensures least { result.0 ≡ least_opened opens.now }
    ensures step { result.1 ≡ step_opened opens.now }
    ensures least_few { result.0 ≤ 1 }
    ensures step_within { result.1 ≤ LAST_STEP }
{
    match opens {
        Opens::Part {
            goal: Goal::Event(_),
            under,
            ..
        } => (1, under.step),
        Opens::Part { under, .. } => (0, under.step),
        Opens::Before(seconded) => (0, seconded.head.part.step - 1),
        Opens::Hop { hop, .. } => (0, hop.hop.entry.thread.step),
    }
}

/// Looks for an opening, where it may end or break.
pub(crate) fn attempt_opening<H: Hasher>(
    alloc: Global,
    anchors: &[Thread],
    opens: Opens,
    held: &[u8],
) -> Result<Attempt<Stage>, NoMemory>
    ensures { Attempts (rest H.dig anchors.now) (Opening opens) held.now result }
{
    let (least, step) = opened(&opens);
    let until = opening_until(held, least, step);
    if held.len() < until {
        return Ok(Attempt::Front {
            same: Stage::Opening(opens),
            until,
        });
    }
    let mut at = 0;
    match take_opening(alloc, held, &mut at, least, step) {
        Ok(opening) => {
            let next = behind_opening::<H>(alloc, anchors, opens, opening)?;
            Ok(Attempt::Ended {
                next,
                size: at as usize,
            })
        }
        Err(fault) => missed(Stage::Opening(opens), held, fault),
    }
}

/// Looks for an event, where it may end or break.
pub(crate) fn attempt_event<H: Hasher>(
    alloc: Global,
    anchors: &[Thread],
    event_at: EventAt,
    held: &[u8],
) -> Result<Attempt<Stage>, NoMemory>
    ensures { Attempts (rest H.dig anchors.now) (Event event_at) held.now result }
{
    let count = event_at.at.part.opening.count;
    let until = event_until(held, count);
    if held.len() < until {
        return Ok(Attempt::Front {
            same: Stage::Event(event_at),
            until,
        });
    }
    let mut at = 0;
    match take_event(alloc, held, &mut at, count) {
        Ok(event) => {
            let EventAt { role, at: reached } = event_at;
            let next = behind_event::<H>(alloc, anchors, role, reached, event)?;
            Ok(Attempt::Ended {
                next,
                size: at as usize,
            })
        }
        Err(fault) => missed(Stage::Event(event_at), held, fault),
    }
}
