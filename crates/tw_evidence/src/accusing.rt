// Making evidence of a fork of two proofs, and of a link where their steps differ; `checking.rt` judges evidence, and the
// command is in tw_reachcmd/src/accusing.rt.

ghost use Rattle.std.specs.Prelude.{◌≡◌, ℕ, Ok, Err, IfErr, IfOk};
ghost use Rattle.tw_join.specs.declared.joining.JoinFault.TheVariants.{Gap};
ghost use Rattle.tw_evidence.specs.Accusing.{Accuses, IsComplete, is_link_between as is_link_of_both, linked_fork};

use crate::checking::in_order;
use crate::evidence::Evidence;
use std::alloc::Global;
use tw_base::{Digest, Thread};
use tw_chain::{LinkProof, ThreadProof};
use tw_join::JoinFault;
use tw_skipproof::{LinkList, Path};

/// Whether the link is of the threads' service, from the second one's step down to the first's.
fn is_link_between(lower: &Thread, upper: &Thread, link: &LinkProof) -> bool
    ensures { result ≡ is_link_of_both lower.now upper.now link.now }
{
    link.service == lower.from && link.step == lower.step && link.top == upper.step
}

/// The bottom and the path: those of the link, which is of the threads' service and steps; or, without
/// one, the second thread's authenticator and no links, where both threads are of one step.
fn linked(
    alloc: Global,
    lower: &Thread,
    upper: &Thread,
    link: Option<LinkProof>,
) -> Result<(Digest, Path), JoinFault>
    ensures ok { IfOk result (λ all. linked_fork lower.now upper.now link ≡ Ok (all.0, all.1)) }
    ensures err { IfErr result (λ fault. (place : ℕ) × (fault ≡ Gap place) × (linked_fork lower.now upper.now link ≡ Err place)) }
{
    match link {
        None if lower.step == upper.step => {
            let links = LinkList::new(alloc);
            Ok((upper.auth, Path { links }))
        }
        None => Err(JoinFault::Gap { place: 2 }),
        Some(link) if is_link_between(lower, upper, &link) => Ok((link.auth, link.path)),
        Some(_) => Err(JoinFault::Gap { place: 3 }),
    }
}

/// The evidence that the parts make. Parts that make none are given up by `drop`: those that go out of scope on many ways are
/// proved slowly (docs/proving.md).
fn evidence_of(
    alloc: Global,
    first: ThreadProof,
    second: ThreadProof,
    link: Option<LinkProof>,
) -> Result<Evidence, JoinFault>
    ensures { Accuses first second link result }
{
    if !in_order(&first.entry.thread, &second.entry.thread) {
        drop(first);
        drop(second);
        drop(link);
        return Err(JoinFault::Gap { place: 2 });
    }
    match linked(alloc, &first.entry.thread, &second.entry.thread, link) {
        Err(fault) => {
            drop(first);
            drop(second);
            Err(fault)
        }
        Ok((bottom, link)) => Ok(Evidence {
            first,
            second,
            bottom,
            link,
        }),
    }
}

/// The evidence that two proofs of received threads make, with a link from the second thread's step down
/// to the first's where the steps differ. The proofs and the link are its parts, numbered from 1: Gap with
/// 2 where the second thread is of another service or of an earlier step than the first, or of a later one
/// and there is no link; Gap with 3 where the link is of another service, step or top. Takes no memory, and
/// never answers `NoMemory`.
///
/// What is made of parts that were read has a spelling; and where both proofs are accepted under some
/// anchors, the bottom isn't the first thread's authenticator, and the path climbs, these bytes are
/// accepted there.
pub fn accuse(
    alloc: Global,
    first: ThreadProof,
    second: ThreadProof,
    link: Option<LinkProof>,
) -> Result<Evidence, JoinFault>
    // Two proofs and a link, or none, come exactly to the evidence that the definition makes of them; else the number of the
    // part that doesn't fit is told. `NoMemory` is never answered.
    ensures accused { Accuses first second link result }
    // The evidence that is made of parts which have a spelling has one; and where it shows a fork under some anchors, its bytes
    // are accepted under them, with that fork.
    ensures complete { IfOk result (IsComplete first second link) }
{
    evidence_of(alloc, first, second, link)
}
