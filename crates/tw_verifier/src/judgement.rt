// What a verifier has found of a proof; how it is found of one without hops is told here, and of one with hops in `chain.rt`.

ghost use Rattle.std.specs.Prelude.{◌≡◌, ◌<◌, ◌≤◌, ◌^◌, [], length};
ghost use Rattle.tw_base.specs.declared.kinds.limits.TheConstants.{LAST_STEP, MOST_EVENTS, MOST_EVENT_BYTES};
ghost use Rattle.tw_chain.specs.declared.proof.Proof.TheVariants.{Absent, Archived, Exists, Linked};
ghost use Rattle.tw_chain.specs.Accepting.{seen_at};
ghost use Rattle.tw_chain.specs.Checks.{checks};
ghost use Rattle.tw_chain.specs.Finding.{found_in};
ghost use Rattle.tw_verifier.specs.Judgements.{judgement_of, verdict_of};

use std::alloc::Global;
use tw_base::{
    Ask, Claim, EventPart, Hasher, HopList, Place, Reason, Report, Seen, Thread, Threads,
};
use tw_chain::{
    AbsenceProof, LinkProof, ThreadProof, Verdict, found_of_thread, under_anchor, with_answer,
    with_event, with_link,
};
use tw_skipproof::{ExistenceProof, Part};

/// The lowest reason against a proof but that threads are carried, where one stands, and the report of its claim.
#[derive(Drop, Debug)]
pub struct Judgement {
    pub found: Option<Reason>,
    pub report: Report,
}

impl Judgement {
    /// The verdict that it comes to: No with the lowest reason that was found; where none was, in the strict form No where threads are
    /// carried; else Yes.
    pub(crate) fn verdict(self, strict: bool) -> Verdict
        ensures { length self.report.carried < 2 ^ 8 → result ≡ verdict_of strict self }
    {
        let Judgement { found, report } = self;
        // A proof carries no more threads than it has hops, of which there are at most 64.
        let count = u8::try_from(report.carried.len()).unwrap_or(u8::MAX);
        match found {
            Some(reason) => Verdict::No(reason),
            None if strict && 0 < count => Verdict::No(Reason::Carried { count }),
            None => Verdict::Yes(report),
        }
    }
}

/// The event at its place, with the time that the opening of its step has.
pub(crate) fn seen(at: &Part, event: EventPart) -> Seen
    ensures { result ≡ seen_at at.now event }
{
    Seen {
        place: Place {
            service: at.service,
            step: at.step,
            index: event.index,
        },
        event: event.event,
        time: at.opening.time,
    }
}

/// What is found of a proof that no thread of a key was received.
fn found_of_absence<H: Hasher>(proof: &AbsenceProof, anchors: &[Thread]) -> Option<Reason>
    requires step { proof.now.at.step ≤ LAST_STEP }
    requires top { proof.now.at.top ≤ LAST_STEP }
    ensures { result ≡ found_in H.dig anchors.now (checks (Absent proof.now)) }
{
    let found = under_anchor::<H>(&proof.at, anchors);
    let ask = Ask::Absent(proof.key);
    with_answer::<H>(found, 0, &proof.at.opening.archive_root, &ask, &proof.shown)
}

impl Judgement {
    /// The judgement of a proof of a claim without hops.
    fn without_hops(alloc: Global, found: Option<Reason>, claim: Claim) -> Self
        ensures { result ≡ record { found = found; report = record { claim = claim; hops = []; carried = [] } } }
    {
        Judgement {
            found,
            report: Report {
                claim,
                hops: HopList::new(alloc),
                carried: Threads::new(alloc),
            },
        }
    }

    /// The judgement of a proof of an event.
    pub(crate) fn of_event<H: Hasher>(
        alloc: Global,
        proof: ExistenceProof,
        anchors: &[Thread],
    ) -> Self
        requires step { proof.at.step ≤ LAST_STEP }
        requires top { proof.at.top ≤ LAST_STEP }
        requires few { proof.at.opening.count ≤ MOST_EVENTS }
        requires small { length proof.event.event ≤ MOST_EVENT_BYTES }
        ensures { result ≡ judgement_of H.dig anchors.now (Exists proof) }
    {
        let ExistenceProof { at, event } = proof;
        let found = under_anchor::<H>(&at, anchors);
        let found = with_event::<H>(found, 0, &at.opening, &event);
        Self::without_hops(alloc, found, Claim::Exists(seen(&at, event)))
    }

    /// The judgement of a proof that a thread was received.
    pub(crate) fn of_thread<H: Hasher>(
        alloc: Global,
        proof: ThreadProof,
        anchors: &[Thread],
    ) -> Self
        requires step { proof.at.step ≤ LAST_STEP }
        requires top { proof.at.top ≤ LAST_STEP }
        ensures { result ≡ judgement_of H.dig anchors.now (Archived proof) }
    {
        let found = found_of_thread::<H>(&proof, anchors);
        let ThreadProof { at, entry, .. } = proof;
        let claim = Claim::Archived {
            service: at.service,
            step: at.step,
            entry,
        };
        Self::without_hops(alloc, found, claim)
    }

    /// The judgement of a proof that no thread of a key was received.
    pub(crate) fn of_absence<H: Hasher>(
        alloc: Global,
        proof: AbsenceProof,
        anchors: &[Thread],
    ) -> Self
        requires step { proof.at.step ≤ LAST_STEP }
        requires top { proof.at.top ≤ LAST_STEP }
        ensures { result ≡ judgement_of H.dig anchors.now (Absent proof) }
    {
        let found = found_of_absence::<H>(&proof, anchors);
        let AbsenceProof { at, key, .. } = proof;
        let claim = Claim::Absent {
            service: at.service,
            step: at.step,
            key,
        };
        Self::without_hops(alloc, found, claim)
    }

    /// The judgement of a proof of a step's authenticator.
    pub(crate) fn of_link<H: Hasher>(alloc: Global, proof: LinkProof, anchors: &[Thread]) -> Self
        requires { proof.top ≤ LAST_STEP }
        ensures { result ≡ judgement_of H.dig anchors.now (Linked proof) }
    {
        let LinkProof {
            service,
            step,
            top,
            auth,
            path,
        } = proof;
        let thread = Thread {
            from: service,
            step,
            auth,
        };
        let found = with_link::<H>(None, 0, &thread, top, &path, anchors);
        let claim = Claim::Linked {
            service,
            step,
            top,
            auth,
        };
        Self::without_hops(alloc, found, claim)
    }
}
