// Copies of the pieces of proofs, of which a joined proof is made, since the parts stay the caller's; tw_adopt/src/front.rt
// copies steps.

ghost use Rattle.std.specs.Prelude.{◌≡◌, IfOk};

use std::alloc::Global;
use tw_base::{AncestorList, Bytes, EventPart, Labels, NoMemory, TreeProof};
use tw_skipproof::{ExistenceProof, Link, LinkList, Opening, Part, Path};

/// A copy of the labels.
fn copy_labels(alloc: Global, labels: &Labels) -> Result<Labels, NoMemory>
    ensures { IfOk result (λ copy. copy ≡ labels.now) }
{
    Ok(Labels::from_vec(Vec::from_slice(alloc, labels.as_slice())?))
}

/// A copy of the event with its audit path.
pub(crate) fn copy_event(alloc: Global, event: &EventPart) -> Result<EventPart, NoMemory>
    ensures { IfOk result (λ copy. copy ≡ event.now) }
{
    Ok(EventPart {
        index: event.index,
        event: Bytes::from_slice(alloc, event.event.as_slice())?,
        path: copy_labels(alloc, &event.path)?,
    })
}

/// A copy of the opening.
pub(crate) fn copy_opening(alloc: Global, opening: &Opening) -> Result<Opening, NoMemory>
    ensures { IfOk result (λ copy. copy ≡ opening.now) }
{
    Ok(Opening {
        event_root: opening.event_root,
        archive_root: opening.archive_root,
        count: opening.count,
        time: opening.time,
        prev: opening.prev,
        others: copy_labels(alloc, &opening.others)?,
    })
}

/// A copy of the path.
pub(crate) fn copy_path(alloc: Global, path: &Path) -> Result<Path, NoMemory>
    ensures { IfOk result (λ copy. copy ≡ path.now) }
{
    let mut links = LinkList::with_capacity(alloc, path.links.len())?;
    for link in path.links.as_slice() {
        links.push(Link {
            datum: link.datum,
            others: copy_labels(alloc, &link.others)?,
        })?;
    }
    Ok(Path { links })
}

/// A copy of the step under a top.
fn copy_part(alloc: Global, at: &Part) -> Result<Part, NoMemory>
    ensures { IfOk result (λ copy. copy ≡ at.now) }
{
    Ok(Part {
        service: at.service,
        step: at.step,
        top: at.top,
        path: copy_path(alloc, &at.path)?,
        opening: copy_opening(alloc, &at.opening)?,
    })
}

/// A copy of the proof that an event exists.
pub(crate) fn copy_existence(
    alloc: Global,
    proof: &ExistenceProof,
) -> Result<ExistenceProof, NoMemory>
    ensures { IfOk result (λ copy. copy ≡ proof.now) }
{
    Ok(ExistenceProof {
        at: copy_part(alloc, &proof.at)?,
        event: copy_event(alloc, &proof.event)?,
    })
}

/// A copy of the tree proof.
pub(crate) fn copy_tree_proof(alloc: Global, proof: &TreeProof) -> Result<TreeProof, NoMemory>
    ensures { IfOk result (λ copy. copy ≡ proof.now) }
{
    match proof {
        TreeProof::Present {
            left,
            right,
            ancestors,
        } => Ok(TreeProof::Present {
            left: *left,
            right: *right,
            ancestors: copy_ancestors(alloc, ancestors)?,
        }),
        TreeProof::Gap { ancestors } => Ok(TreeProof::Gap {
            ancestors: copy_ancestors(alloc, ancestors)?,
        }),
    }
}

/// A copy of the nodes.
fn copy_ancestors(alloc: Global, ancestors: &AncestorList) -> Result<AncestorList, NoMemory>
    ensures { IfOk result (λ copy. copy ≡ ancestors.now) }
{
    Ok(AncestorList::from_vec(Vec::from_slice(alloc, ancestors.as_slice())?))
}
