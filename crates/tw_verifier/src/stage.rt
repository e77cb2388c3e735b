// What a verifier in pieces has taken of a proof, by what follows.

ghost use Rattle.std.specs.Prelude.{◌+◌, ◌<◌, ◌≤◌, length};
ghost use Rattle.tw_base.specs.declared.kinds.limits.TheConstants.{LAST_STEP, MOST_EVENTS, MOST_EVENT_BYTES, MOST_HOPS};

use crate::chain::Chain;
use crate::judgement::Judgement;
use tw_base::{Digest, Entry, EventPart, Key, Name, TreeProof};
use tw_skipproof::{LinkList, Part};

/// How many hops a proof has.
#[derive(Drop)]
pub struct HopCount {
    pub count: u8,
    ghost few: { count ≤ MOST_HOPS },
}

/// A chain whose thread has a step that may be, and whose parts have numbers up to 65. It lies on the heap, so that a stage stays small.
#[derive(Drop)]
pub struct Onward {
    pub chain: Box<Chain>,
    ghost parts: { chain.value.part + chain.value.more ≤ 65 },
    ghost known: { chain.value.known.step ≤ LAST_STEP },
}

/// A chain behind which a hop follows.
#[derive(Drop)]
pub struct Further {
    pub onward: Onward,
    ghost some: { 0 < onward.chain.value.more },
}

/// The chain, and the entry of the hop that follows it.
#[derive(Drop)]
pub struct HopEntry {
    pub further: Further,
    pub entry: Entry,
    ghost step: { entry.thread.step ≤ LAST_STEP },
}

/// The same with the hop's tree proof and the step that binds its thread.
#[derive(Drop)]
pub struct HopBind {
    pub hop: HopEntry,
    pub shown: TreeProof,
    pub bind: u64,
    ghost bound: { bind ≤ LAST_STEP },
}

/// A step under a top, of which the path follows.
#[derive(Drop)]
pub struct Under {
    pub service: Name,
    pub step: u64,
    pub top: u64,
    ghost some: { 0 < step },
    ghost step_within: { step ≤ LAST_STEP },
    ghost top_within: { top ≤ LAST_STEP },
}

/// A step under a top, with its path and its opening.
#[derive(Drop)]
pub struct Reached {
    pub part: Part,
    ghost some: { 0 < part.step },
    ghost step_within: { part.step ≤ LAST_STEP },
    ghost top_within: { part.top ≤ LAST_STEP },
    ghost few: { part.opening.count ≤ MOST_EVENTS },
}

/// What an event is of.
#[derive(Drop)]
pub enum Role {
    /// A proof that it exists.
    Only,
    /// The second event of a proof from event to event, with so many hops.
    Second(HopCount),
    /// The first event, behind this chain.
    First(Onward),
}

/// What the part at hand is of: what follows its opening.
#[derive(Drop)]
pub enum Goal {
    /// An event.
    Event(Role),
    /// An entry that its archive has.
    Archived,
    /// A key of which its archive has no entry.
    Absent,
}

/// A part, of which an event follows.
#[derive(Drop)]
pub struct EventAt {
    pub role: Role,
    pub at: Reached,
    ghost events: { 1 ≤ at.part.opening.count },
}

/// A step that has an authenticator, under a top.
#[derive(Drop)]
pub struct Linking {
    pub service: Name,
    pub step: u64,
    pub top: u64,
    pub auth: Digest,
    ghost step_within: { step ≤ LAST_STEP },
    ghost top_within: { top ≤ LAST_STEP },
}

/// What the path at hand is of.
#[derive(Drop)]
pub enum Way {
    /// Of a part, down to the step whose opening follows.
    Part { goal: Goal, under: Under },
    /// Of a hop, from the bind down to the thread's step.
    Bind(HopBind),
    /// Of a proof of a step's authenticator.
    Link(Linking),
}

/// A path so far: its links, which lead down to this step, from where more lead down to the last one.
#[derive(Drop)]
pub struct PathSoFar {
    pub way: Way,
    pub links: LinkList,
    pub at: u64,
    pub to: u64,
    ghost below: { to < at },
    ghost within: { at ≤ LAST_STEP },
}

/// The second event, with a hop or more.
#[derive(Drop)]
pub struct Seconded {
    pub head: Reached,
    pub event: EventPart,
    pub hops: HopCount,
    ghost some: { 0 < hops.count },
    ghost size: { length event.event ≤ MOST_EVENT_BYTES },
}

/// What the opening at hand is of.
#[derive(Drop)]
pub enum Opens {
    /// Of the step of a part with these links.
    Part {
        goal: Goal,
        under: Under,
        links: LinkList,
    },
    /// Of the step before the second event's.
    Before(Seconded),
    /// Of the step of a hop's thread with these links, where another hop follows.
    Hop {
        hop: HopBind,
        links: LinkList,
    },
}

/// What shows the entry at hand.
#[derive(Drop)]
pub enum Shower {
    /// The archive of a part's step.
    At(Reached),
    /// The archive of the step to which a chain has come.
    Behind(Further),
}

/// What the tree proof at hand is of.
#[derive(Drop)]
pub enum Asked {
    Archived { at: Reached, entry: Entry },
    Absent { at: Reached, key: Key },
    Hop(HopEntry),
}

/// A tree proof so far, and how many nodes follow.
#[derive(Drop)]
pub struct Climb {
    pub asked: Asked,
    pub shown: TreeProof,
    pub more: u8,
    ghost some: { 0 < more },
}

/// What was taken of a proof that comes in pieces. What follows is a segment that has at most 108 bytes, or tells soon how many it has,
/// and then more segments.
#[derive(Drop)]
pub enum Stage {
    /// Nothing: the magic and the kind follow.
    Begun,
    /// The kind 2: the number of hops follows.
    Counted,
    /// A service, its step and a top follow.
    Head(Goal),
    /// A service, its step, a top and the step's authenticator follow.
    LinkHead,
    /// A link follows.
    Path(PathSoFar),
    /// An opening follows.
    Opening(Opens),
    /// An event follows.
    Event(EventAt),
    /// An entry follows.
    Entry(Shower),
    /// A key follows.
    Key(Reached),
    /// The number of the nodes of a tree proof follows and, of an entry, the labels of its node's sides.
    Tree(Asked),
    /// A node of a tree proof follows.
    Nodes(Climb),
    /// A hop's bind follows.
    Bind { hop: HopEntry, shown: TreeProof },
    /// The step of the first event follows.
    Tail(Onward),
    /// The whole proof.
    Done(Judgement),
}
