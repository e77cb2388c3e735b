// A proof from event to event of which the front was judged. A hop's checks stand here, over those of `tw_chain`.

ghost use Rattle.std.specs.Prelude.{◌≡◌, ℕ, ◌+◌, ◌-◌, ◌<◌, ◌≤◌, List, [], ◌∷◌, ◌++◌, length, IfOk, OnOk};
ghost use Rattle.std.specs.List.{flat_map};
ghost use Rattle.tw_base.specs.declared.kinds.limits.TheConstants.{LAST_STEP, MOST_EVENTS, MOST_EVENT_BYTES};
ghost use Rattle.tw_base.specs.declared.history.thread.Thread.{Thread as Anchor};
ghost use Rattle.tw_chain.specs.declared.proof.HopPart.{HopPart as AnyHop};
ghost use Rattle.tw_chain.specs.declared.proof.Tail.{Tail as AnyTail};
ghost use Rattle.tw_chain.specs.Accepting.{hop_from as hop_from_of};
ghost use Rattle.tw_chain.specs.Finding.{reason_with};
ghost use Rattle.tw_verifier.specs.Chaining.{chain_of, closed, with_hop as with_hop_of};
ghost use Rattle.tw_chain.specs.Checks.{bind_checks, hop_checks, opening_root};
ghost use Rattle.tw_chain.specs.Checks.Check.{AnswerOf, EventOf, InOrder, PathOf};
ghost use Rattle.tw_chain.specs.Checks.Upper.{Known};
ghost use Rattle.tw_chain.specs.Passing.{carried_by};
ghost use Rattle.tw_base.specs.declared.history.tree_proof.Ask.TheVariants.{Present};

use crate::judgement::{Judgement, seen};
use std::alloc::Global;
use tw_base::{
    Ask, Claim, Digest, EventPart, Hasher, Hop, HopList, NoMemory, Reason, Report, Seen, Thread,
    Threads,
};
use tw_chain::{
    HopPart, Tail, under_anchor, with_answer, with_event, with_link, with_opening, with_order,
    with_path, without_answer,
};
use tw_skipproof::{Opening, Part};

/// What the verifier holds of a proof from event to event between two of its hops: the thread that the hops come to and, where another
/// hop follows, the opening of its step, whose archive shows that hop; the number of the next part, and how many hops follow; the lowest
/// reason so far; the hops and the carried threads so far, in the order of the bytes; and the second event.
#[derive(Drop, Debug)]
pub struct Chain {
    pub known: Thread,
    pub opening: Option<Opening>,
    pub part: u8,
    pub more: u8,
    pub found: Option<Reason>,
    pub hops: HopList,
    pub carried: Threads,
    pub second: Seen,
}

/// The thread of the step before that of the head, whose opening has its authenticator.
fn start(head: &Part) -> Thread
    requires { 0 < head.now.step }
    ensures { result ≡ record { from = head.now.service; step = head.now.step - 1; auth = head.now.opening.prev } }
{
    Thread {
        from: head.service,
        step: head.step - 1,
        auth: head.opening.prev,
    }
}

/// What is found with the check that the archive of the opening has the entry of a hop. Where there is no opening, no tree proof passes.
fn with_entry<H: Hasher>(
    found: Option<Reason>,
    part: u8,
    opening: &Option<Opening>,
    hop: &HopPart,
) -> Option<Reason>
    ensures { (anchors : List Anchor) → result ≡ reason_with H.dig anchors found
        (AnswerOf part (opening_root opening.now) (Present hop.now.entry) hop.now.shown ∷ []) }
{
    match opening {
        None => without_answer(found, part),
        Some(opening) => {
            let ask = Ask::Present(hop.entry);
            with_answer::<H>(found, part, &opening.archive_root, &ask, &hop.shown)
        }
    }
}

/// What is found with the checks of the link that binds a hop's thread, where it is bound.
fn with_bind<H: Hasher>(
    found: Option<Reason>,
    part: u8,
    hop: &HopPart,
    anchors: &[Thread],
) -> Option<Reason>
    requires { hop.now.bind ≤ LAST_STEP }
    ensures { result ≡ reason_with H.dig anchors.now found (bind_checks part hop.now) }
{
    if hop.bind == 0 {
        return found;
    }
    with_link::<H>(found, part, &hop.entry.thread, hop.bind, &hop.link, anchors)
}

/// What is found with the checks of a hop that follows the chain.
fn with_hop_checks<H: Hasher>(
    found: Option<Reason>,
    part: u8,
    step: u64,
    opening: &Option<Opening>,
    hop: &HopPart,
    anchors: &[Thread],
) -> Option<Reason>
    requires step { hop.now.entry.thread.step ≤ LAST_STEP }
    requires bind { hop.now.bind ≤ LAST_STEP }
    ensures { result ≡ reason_with H.dig anchors.now found (hop_checks part step (opening_root opening.now) hop.now) }
{
    let found = with_order(found, hop.entry.archived, step);
    let found = with_entry::<H>(found, part, opening, hop);
    let found = with_bind::<H>(found, part, hop, anchors);
    with_opening::<H>(found, part, &hop.entry.thread, &hop.opening)
}

/// What is found with the checks of the first event, the top of whose step has a known authenticator.
fn with_first<H: Hasher>(
    found: Option<Reason>,
    part: u8,
    at: &Part,
    upper: &Digest,
    event: &EventPart,
) -> Option<Reason>
    requires step { at.now.step ≤ LAST_STEP }
    requires top { at.now.top ≤ LAST_STEP }
    requires few { at.now.opening.count ≤ MOST_EVENTS }
    requires small { length event.now.event ≤ MOST_EVENT_BYTES }
    ensures { (anchors : List Anchor) → result ≡ reason_with H.dig anchors found
        (InOrder at.now.step at.now.top ∷ PathOf part at.now (Known upper.now) ∷ EventOf part at.now.opening event.now ∷ []) }
{
    let found = with_order(found, at.step, at.top);
    let found = with_path::<H>(found, part, at, upper);
    with_event::<H>(found, part, &at.opening, event)
}

/// The hop to the archive of this service.
fn hop_from(by: &Thread, hop: &HopPart) -> Hop
    ensures { result ≡ hop_from_of by.now.from hop.now }
{
    Hop {
        from: hop.entry.thread.from,
        step: hop.entry.thread.step,
        by: by.from,
        archived: hop.entry.archived,
    }
}

/// Appends the thread of the hop where no link binds it.
fn carry(carried: &mut Threads, hop: &HopPart) -> Result<(), NoMemory>
    ensures { (part step : ℕ) (root : List ℕ) → OnOk result (carried.new ≡ carried.old ++ flat_map carried_by (hop_checks part step root hop.now)) }
{
    if hop.bind == 0 {
        carried.push(hop.entry.thread)?;
    }
    Ok(())
}

impl Chain {
    /// The chain of a proof with so many hops whose head is judged here: the second event's step under an anchor, the event and, where
    /// there is a hop, the opening of the step before.
    pub(crate) fn begin<H: Hasher>(
        alloc: Global,
        head: Part,
        event: EventPart,
        before: Option<Opening>,
        hops: u8,
        anchors: &[Thread],
    ) -> Self
        requires above { 0 < head.step }
        requires step { head.step ≤ LAST_STEP }
        requires top { head.top ≤ LAST_STEP }
        requires few { head.opening.count ≤ MOST_EVENTS }
        requires small { length event.event ≤ MOST_EVENT_BYTES }
        ensures { (hop_list : List AnyHop) (tail : AnyTail) → length hop_list ≡ hops →
            result ≡ chain_of H.dig anchors.now (record { head = head; event = event; before = before; hops = hop_list; tail = tail }) }
    {
        let known = start(&head);
        let found = under_anchor::<H>(&head, anchors);
        let found = with_event::<H>(found, 0, &head.opening, &event);
        let found = with_opening::<H>(found, 0, &known, &before);
        Chain {
            known,
            opening: before,
            part: 1,
            more: hops,
            found,
            hops: HopList::new(alloc),
            carried: Threads::new(alloc),
            second: seen(&head, event),
        }
    }

    /// The chain with a hop more, which is judged here.
    pub(crate) fn with_hop<H: Hasher>(
        self,
        hop: HopPart,
        anchors: &[Thread],
    ) -> Result<Self, NoMemory>
        requires more { 0 < self.more }
        requires parts { self.part + self.more ≤ 65 }
        requires step { hop.entry.thread.step ≤ LAST_STEP }
        requires bind { hop.bind ≤ LAST_STEP }
        ensures { IfOk result (λ chain. chain ≡ with_hop_of H.dig anchors.now self hop (self.more - 1)) }
    {
        let Chain {
            known,
            opening,
            part,
            more,
            found,
            mut hops,
            mut carried,
            second,
        } = self;
        let found = with_hop_checks::<H>(found, part, known.step, &opening, &hop, anchors);
        hops.push(hop_from(&known, &hop))?;
        carry(&mut carried, &hop)?;
        Ok(Chain {
            known: hop.entry.thread,
            opening: hop.opening,
            part: part + 1,
            more: more - 1,
            found,
            hops,
            carried,
            second,
        })
    }

    /// The judgement of the proof whose first event follows the chain, and is judged here.
    pub(crate) fn close<H: Hasher>(self, tail: Tail) -> Judgement
        requires known { self.known.step ≤ LAST_STEP }
        requires step { tail.step ≤ LAST_STEP }
        requires few { tail.opening.count ≤ MOST_EVENTS }
        requires small { length tail.event.event ≤ MOST_EVENT_BYTES }
        ensures { (anchors : List Anchor) → result ≡ closed H.dig anchors self [] tail }
    {
        let Tail {
            step,
            path,
            opening,
            event,
        } = tail;
        let Chain {
            known,
            part,
            found,
            mut hops,
            mut carried,
            second,
            ..
        } = self;
        let at = Part {
            service: known.from,
            step,
            top: known.step,
            path,
            opening,
        };
        let found = with_first::<H>(found, part, &at, &known.auth, &event);
        hops.reverse();
        carried.reverse();
        let claim = Claim::Precedes {
            first: seen(&at, event),
            second,
        };
        Judgement {
            found,
            report: Report {
                claim,
                hops,
                carried,
            },
        }
    }
}
