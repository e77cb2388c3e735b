// Joining proofs to one from event to event; the command is in tw_filecmd/src/joining.rt.

ghost use Rattle.std.specs.Prelude.{◌≡◌, [], ◌∷◌, None, Some, IfOk};
ghost use Rattle.std.specs.Option.{option_map};
ghost use Rattle.tw_join.specs.declared.joining.JoinFault.TheVariants.{NoMemory as WantedMemory};
ghost use Rattle.tw_chain.specs.declared.proof.Proof.TheVariants.{Archived, Exists, Linked};
ghost use Rattle.tw_join.specs.Joining.{Joins, hop_of as hop_of_joint, hops_before, is_key as is_key_of, is_link_of as is_link_of_thread, joined_of, wanted as wanted_of, with_part as with_part_more};
ghost use Rattle.tw_join.specs.Joining.Taken.{Hops, Nothing};
ghost use Rattle.tw_join.specs.TakenParts.{joint_of, joints_of, taken_of};

use crate::copying::{copy_event, copy_existence, copy_opening, copy_path, copy_tree_proof};
use std::alloc::Global;
use tw_base::limits::MOST_HOPS;
use tw_base::{Key, Name, NoMemory, Thread, entry_key};
use tw_chain::{HopPart, HopParts, LinkProof, PrecedenceProof, Proof, Tail, ThreadProof};
use tw_skipproof::{ExistenceProof, LinkList, Opening, Path};

/// Why proofs don't join.
#[derive(Debug, Drop)]
pub enum JoinFault {
    /// The part of this number, counted from 1, doesn't fit, or is missing behind all others.
    Gap { place: u64 },
    /// There is no memory for the proof.
    NoMemory,
}

impl From<NoMemory> for JoinFault {
    ghost from_gives = { λ _ fault. fault ≡ WantedMemory };

    fn from(_none: NoMemory) -> Self {
        JoinFault::NoMemory
    }
}

/// The parts of a hop.
#[derive(Drop)]
pub(crate) struct Joint<'a> {
    thread: &'a ThreadProof,
    link: Option<&'a LinkProof>,
}

/// The parts taken so far: none; the second event's and those of hops, in the order of the bytes; or
/// all, with the first event's.
#[derive(Drop)]
pub(crate) enum Taken<'a> {
    Nothing,
    Hops(&'a ExistenceProof, Vec<Joint<'a>>),
    Whole(&'a ExistenceProof, Vec<Joint<'a>>, &'a ExistenceProof),
}

/// The service and step whose archive shows the next hop, and which is the first event's top where
/// none follows.
fn wanted(second: &ExistenceProof, joints: &[Joint<'_>]) -> Key
    ensures { result ≡ wanted_of second.now (joints_of joints.now) }
{
    match joints.last() {
        None => Key {
            from: second.at.service,
            step: second.at.step.saturating_sub(1),
        },
        Some(joint) => entry_key(&joint.thread.entry),
    }
}

/// Whether the key is that of the service and step.
fn is_key(key: &Key, service: &Name, step: u64) -> bool
    ensures { result ≡ is_key_of key.now service.now step }
{
    key.from == *service && key.step == step
}

/// Whether the link is of the thread.
fn is_link_of(thread: &Thread, link: &LinkProof) -> bool
    ensures { result ≡ is_link_of_thread thread.now link.now }
{
    thread.from == link.service && thread.step == link.step && thread.auth == link.auth
}

/// The hops with these parts of one more.
fn with_joint<'a>(
    second: &'a ExistenceProof,
    mut joints: Vec<Joint<'a>>,
    joint: Joint<'a>,
) -> Result<Option<Taken<'a>>, NoMemory>
    ensures { IfOk result (λ next. option_map taken_of next
        ≡ Some (Hops second.now (joint_of joint.entry ∷ joints_of joints.entry.items))) }
{
    joints.push(joint)?;
    Ok(Some(Taken::Hops(second, joints)))
}

/// The hops with the last one linked, where it isn't yet and the link is of its thread.
fn with_link<'a>(
    second: &'a ExistenceProof,
    mut joints: Vec<Joint<'a>>,
    link: &'a LinkProof,
) -> Result<Option<Taken<'a>>, NoMemory>
    ensures { IfOk result (λ next. option_map taken_of next
        ≡ with_part_more (Hops second.now (joints_of joints.entry.items)) (Linked link.now)) }
{
    if let Some(joint) = joints.pop()
        && joint.link.is_none()
        && is_link_of(&joint.thread.entry.thread, link)
    {
        let linked = Joint {
            thread: joint.thread,
            link: Some(link),
        };
        return with_joint(second, joints, linked);
    }
    drop(joints);
    Ok(None)
}

/// What is taken with one part more, or none where the part doesn't fit.
fn with_part<'a>(
    alloc: Global,
    taken: Taken<'a>,
    part: &'a Proof,
) -> Result<Option<Taken<'a>>, NoMemory>
    ensures { IfOk result (λ next. option_map taken_of next ≡ with_part_more (taken_of taken.entry) part.now) }
{
    match taken {
        Taken::Nothing => Ok(with_second(alloc, part)),
        Taken::Hops(second, joints) => match part {
            Proof::Archived(thread) => with_thread(second, joints, thread),
            Proof::Linked(link) => with_link(second, joints, link),
            Proof::Exists(first) => Ok(with_first(second, joints, first)),
            Proof::Precedes(_) | Proof::Absent(_) => {
                drop(joints);
                Ok(None)
            }
        },
        whole => {
            drop(whole);
            Ok(None)
        }
    }
}

/// What is taken with this part as the first one, or none where it is no event's.
fn with_second(alloc: Global, part: &Proof) -> Option<Taken<'_>>
    ensures { option_map taken_of result ≡ with_part_more Nothing part.now }
{
    match part {
        Proof::Exists(second) => Some(Taken::Hops(second, Vec::new(alloc))),
        _ => None,
    }
}

/// The hops with that of one thread more, where it is wanted and they are few enough.
fn with_thread<'a>(
    second: &'a ExistenceProof,
    joints: Vec<Joint<'a>>,
    thread: &'a ThreadProof,
) -> Result<Option<Taken<'a>>, NoMemory>
    ensures { IfOk result (λ next. option_map taken_of next
        ≡ with_part_more (Hops second.now (joints_of joints.entry.items)) (Archived thread.now)) }
{
    let key = wanted(second, joints.as_slice());
    if joints.len() as u64 >= MOST_HOPS || !is_key(&key, &thread.at.service, thread.at.step) {
        drop(joints);
        return Ok(None);
    }
    with_joint(second, joints, Joint { thread, link: None })
}

/// All parts with the first event's, where that is under the step that is wanted.
fn with_first<'a>(
    second: &'a ExistenceProof,
    joints: Vec<Joint<'a>>,
    first: &'a ExistenceProof,
) -> Option<Taken<'a>>
    ensures { option_map taken_of result ≡ with_part_more (Hops second.now (joints_of joints.entry.items)) (Exists first.now) }
{
    let key = wanted(second, joints.as_slice());
    if is_key(&key, &first.at.service, first.at.top) {
        Some(Taken::Whole(second, joints, first))
    } else {
        drop(joints);
        None
    }
}

/// The hop of these parts, and the opening behind it.
fn hop_of(alloc: Global, joint: &Joint<'_>, behind: Option<Opening>) -> Result<HopPart, NoMemory>
    ensures { IfOk result (λ hop. hop ≡ hop_of_joint (joint_of joint.now) behind) }
{
    let (bind, link) = match joint.link {
        None => (
            0,
            Path {
                links: LinkList::new(alloc),
            },
        ),
        Some(link) => (link.top, copy_path(alloc, &link.path)?),
    };
    Ok(HopPart {
        entry: joint.thread.entry,
        shown: copy_tree_proof(alloc, &joint.thread.shown)?,
        bind,
        link,
        opening: behind,
    })
}

/// The opening before the hops of these parts, and the hops; each opening is that of the next thread's
/// proof.
fn hops_of(
    alloc: Global,
    mut joints: Vec<Joint<'_>>,
) -> Result<(Option<Opening>, HopParts), NoMemory>
    ensures { IfOk result (λ all. (all.0, all.1) ≡ hops_before (joints_of joints.entry.items) None []) }
{
    let mut before = None;
    let mut hops = HopParts::new(alloc);
    while let Some(joint) = joints.pop() {
        hops.push(hop_of(alloc, &joint, before)?)?;
        before = Some(copy_opening(alloc, &joint.thread.at.opening)?);
    }
    hops.reverse();
    Ok((before, hops))
}

/// The proof of all parts.
fn whole(
    alloc: Global,
    second: &ExistenceProof,
    joints: Vec<Joint<'_>>,
    first: &ExistenceProof,
) -> Result<PrecedenceProof, NoMemory>
    ensures { IfOk result (λ p. p ≡ joined_of second.now (joints_of joints.entry.items) first.now) }
{
    let (before, hops) = hops_of(alloc, joints)?;
    let tail = tail_of(alloc, first)?;
    let ExistenceProof { at: head, event } = copy_existence(alloc, second)?;
    Ok(PrecedenceProof {
        head,
        event,
        before,
        hops,
        tail,
    })
}

/// The tail of a proof, of that of the first event.
fn tail_of(alloc: Global, first: &ExistenceProof) -> Result<Tail, NoMemory>
    ensures { IfOk result (λ tail. tail ≡ (joined_of first.now [] first.now).tail) }
{
    Ok(Tail {
        step: first.at.step,
        path: copy_path(alloc, &first.at.path)?,
        opening: copy_opening(alloc, &first.at.opening)?,
        event: copy_event(alloc, &first.event)?,
    })
}

/// The proof from event to event that the parts join to, which are proofs of the other kinds, numbered
/// from 1: that of the second event; for each hop, backwards, that of its thread and, where the hop is
/// bound, that of the link; and that of the first event. Gap with the number of the first part that
/// doesn't fit, or of the one that is missing behind all.
pub fn join(alloc: Global, parts: &[Proof]) -> Result<Proof, JoinFault>
    // Parts join exactly to the proof that the definition makes of them; else the number of the first one that doesn't
    // fit is told, or one more than there are where one is missing.
    ensures { Joins parts.now result }
{
    let mut taken = Taken::Nothing;
    let mut place = 1;
    for part in parts {
        taken = match with_part(alloc, taken, part)? {
            Some(next) => next,
            None => return Err(JoinFault::Gap { place }),
        };
        place += 1;
    }
    match taken {
        Taken::Whole(second, joints, first) => {
            Ok(Proof::Precedes(whole(alloc, second, joints, first)?))
        }
        _ => Err(JoinFault::Gap { place }),
    }
}
