// Whether two lines of a service are of one history, by the bytes of a link or without one, for `contradicting.rt`.

ghost use Rattle.std.specs.Prelude.{◌≡◌, ◌≤◌, Some, IfOk, IfSome};
ghost use Rattle.tw_base.specs.declared.kinds.limits.TheConstants.{LAST_STEP};
ghost use Rattle.tw_chain.specs.Proofs.{link_of as link_in};
ghost use Rattle.tw_contradict.specs.Facts.{earlier_thread, is_same_line as is_same, later as later_of};
ghost use Rattle.tw_contradict.specs.Linking.{IsJoining, joining_by};
ghost use Rattle.tw_contradict.specs.Verdicts.{leads_down as leads_between};
ghost use Rattle.tw_chain.specs.Finding.{climbs as path_climbs};

use crate::verdict::Joining;
use std::alloc::Global;
use tw_base::{Digest, Hasher, NoMemory, ReadFault, Thread, is_same_digest};
use tw_chain::{LinkProof, Proof, climbs, read_proof};

/// Whether both are one line.
fn is_same_line(one: &Thread, other: &Thread) -> bool
    ensures { result ≡ is_same one.now other.now }
{
    one.from == other.from && one.step == other.step && is_same_digest(&one.auth, &other.auth)
}

/// The line of the lower step.
fn earlier(one: &Thread, other: &Thread) -> Thread
    ensures { result ≡ earlier_thread one.now other.now }
{
    if one.step <= other.step { *one } else { *other }
}

/// The other line.
fn later(one: &Thread, other: &Thread) -> Thread
    ensures { result ≡ later_of one.now other.now }
{
    if one.step <= other.step { *other } else { *one }
}

/// Whether the path of the link climbs to this authenticator of its top.
fn climbs_to<H: Hasher>(link: &LinkProof, upper: &Digest) -> bool
    requires { link.now.top ≤ LAST_STEP }
    ensures { result ≡ path_climbs H.dig link.now.path.links link.now.top link.now.step link.now.auth (Some upper.now) }
{
    climbs::<H>(&link.path, link.top, link.step, &link.auth, upper)
}

/// Whether both lines are of the link's service, and it leads from the upper line down to the lower one.
fn leads_down<H: Hasher>(lower: &Thread, upper: &Thread, link: &LinkProof) -> bool
    requires { link.now.top ≤ LAST_STEP }
    ensures { result ≡ leads_between H.dig lower.now upper.now link.now }
{
    link.service == lower.from
        && link.service == upper.from
        && link.step == lower.step
        && link.top == upper.step
        && is_same_digest(&link.auth, &lower.auth)
        && climbs_to::<H>(link, &upper.auth)
}

/// Whether the lines are of one history, by the bytes of a link, or by none.
pub(crate) fn joining_of<H: Hasher>(
    alloc: Global,
    one: &Thread,
    other: &Thread,
    link: &[u8],
) -> Result<Joining, NoMemory>
    ensures { IfOk result (IsJoining H.dig one.now other.now link.now) }
{
    if link.is_empty() {
        let is_one = is_same_line(one, other);
        return Ok(if is_one {
            Joining::Joined
        } else {
            Joining::Apart
        });
    }
    match read_proof(alloc, link) {
        Ok(proof) => Ok(judge_link::<H>(one, other, link_of(proof))),
        Err(ReadFault::Malformed { .. }) => Ok(Joining::BadLink),
        Err(ReadFault::NoMemory) => Err(NoMemory),
    }
}

/// The link, where the proof is one.
fn link_of(proof: Proof) -> Option<LinkProof>
    ensures { result ≡ link_in proof }
{
    match proof {
        Proof::Linked(link) => Some(link),
        other => {
            drop(other);
            None
        }
    }
}

/// Whether the link that was read joins the lines.
fn judge_link<H: Hasher>(one: &Thread, other: &Thread, link: Option<LinkProof>) -> Joining
    requires { IfSome link (λ l. l.top ≤ LAST_STEP) }
    ensures { result ≡ joining_by H.dig one.now other.now link }
{
    match link {
        None => Joining::BadLink,
        Some(link) => {
            let lower = earlier(one, other);
            let upper = later(one, other);
            let is_led = leads_down::<H>(&lower, &upper, &link);
            drop(link);
            if is_led {
                Joining::Joined
            } else {
                Joining::BadLink
            }
        }
    }
}
