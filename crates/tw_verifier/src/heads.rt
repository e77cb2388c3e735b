// Reading how a proof, a part, a link's proof and a tree proof begin; tw_skipproof, tw_chain and tw_treeproof read each as a whole.
#![tactic(auto, unfolding(crate::specs::Seen::heads_seen))]

ghost use Rattle.std.specs.Prelude.{◌≤◌, length, IfOk};
ghost use Rattle.tw_base.specs.format.Taking.{Takes};
ghost use Rattle.tw_verifier.specs.declared.stage.Linking.{Linking as AnyLinking};
ghost use Rattle.tw_verifier.specs.declared.stage.Under.{Under as AnyUnder};
ghost use Rattle.tw_treeproof.specs.declared.limits.TheConstants.{MOST_ABOVE_ENTRY};
ghost use Rattle.tw_verifier.specs.Stages.{kind_head, link_head, part_head, present_head};

use crate::stage::{Linking, Under};
use tw_base::limits::LAST_STEP;
use tw_base::{Digest, ReadFault, take_digest, take_name, take_number, take_text};
use tw_chain::take_kind;
use tw_skipproof::PROOF_MAGIC;
use tw_treeproof::MOST_ABOVE_ENTRY;

/// Takes the magic and the kind.
pub(crate) fn take_kind_head(bytes: &[u8], at: &mut u64) -> Result<u64, ReadFault>
    requires { at.old ≤ length bytes.now }
    ensures { Takes kind_head (λ kind. kind) bytes.now at.old at.new result }
{
    take_text(bytes, at, &PROOF_MAGIC)?;
    take_kind(bytes, at)
}

/// Takes a service, its step and a top.
pub(crate) fn take_part_head(bytes: &[u8], at: &mut u64) -> Result<Under, ReadFault>
    requires { at.old ≤ length bytes.now }
    ensures { Takes part_head (λ (u : AnyUnder). (u.service, (u.step, u.top))) bytes.now at.old at.new result }
{
    let service = take_name(bytes, at)?;
    let step = take_number(bytes, at, 8, 1, LAST_STEP)?;
    let top = take_number(bytes, at, 8, 1, LAST_STEP)?;
    Ok(Under { service, step, top })
}

/// Takes a service, its step, which may be 0, a top and the step's authenticator.
pub(crate) fn take_link_head(bytes: &[u8], at: &mut u64) -> Result<Linking, ReadFault>
    requires { at.old ≤ length bytes.now }
    ensures { Takes link_head (λ (l : AnyLinking). (l.service, (l.step, (l.top, l.auth)))) bytes.now at.old at.new result }
{
    let service = take_name(bytes, at)?;
    let step = take_number(bytes, at, 8, 0, LAST_STEP)?;
    let top = take_number(bytes, at, 8, 1, LAST_STEP)?;
    let auth = take_digest(bytes, at)?;
    Ok(Linking {
        service,
        step,
        top,
        auth,
    })
}

/// Takes the number of the nodes above a node, and the labels of its sides.
pub(crate) fn take_present_head(
    bytes: &[u8],
    at: &mut u64,
) -> Result<(u64, (Digest, Digest)), ReadFault>
    requires { at.old ≤ length bytes.now }
    ensures takes { Takes present_head (λ t. t) bytes.now at.old at.new result }
    ensures range { IfOk result (λ t. t.0 ≤ MOST_ABOVE_ENTRY) }
{
    let more = take_number(bytes, at, 1, 0, MOST_ABOVE_ENTRY)?;
    let left = take_digest(bytes, at)?;
    let right = take_digest(bytes, at)?;
    Ok((more, (left, right)))
}
