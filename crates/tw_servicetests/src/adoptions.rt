// Taking over a history under the weak hasher: `a` has two steps, each of one event of no bytes, of which `b` received the first at its
// step 1. The acceptance run tries proofs of every kind, altered histories and changed bytes under SHA-256.

use crate::making::{add, init};
use crate::worked::proved;
use std::alloc::Global;
use std::test::Fail;
use tw_adopt::{Adopted, ProofList, adopt};
use tw_base::{Bytes, Name, Weak};
use tw_history::{History, read_history, write_history};

/// The file of the history of `a`.
fn file(alloc: Global) -> Option<Bytes> {
    let mut service = init::<Weak>(alloc, b"a")?;
    add(alloc, &mut service, b"")?;
    add(alloc, &mut service, b"")?;
    service.export().ok()
}

/// The history of `a`.
fn history(alloc: Global) -> Option<History> {
    let file = file(alloc)?;
    read_history(alloc, file.as_slice()).ok()
}

/// What of the history is taken over by the proof of what `b` received.
fn adopted(alloc: Global, history: &History) -> Option<Adopted> {
    let (proof, anchor) = proved(alloc, b"b", b"")?;
    let mut proofs = ProofList::new(alloc);
    proofs.push(proof).ok()?;
    adopt::<Weak>(alloc, history, &[anchor], &proofs).ok()
}

/// The size of a history's file.
fn size(alloc: Global, history: &History) -> Option<usize> {
    Some(write_history(alloc, history).ok()?.len())
}

#[test]
fn a_history_is_taken_over_as_far_as_it_was_received(rt: HostRuntime) -> Result<(), Fail> {
    let history = history(rt.alloc()).ok_or("no history")?;
    let adopted = adopted(rt.alloc(), &history).ok_or("not taken over")?;
    assert_eq!(rt; adopted.upto, 1);
    assert_eq!(rt; adopted.archived, 1);
    assert_eq!(rt; Some(adopted.by), Name::read(b"b"));
    assert_eq!(rt; size(rt.alloc(), &adopted.history), Some(43));
    Ok(())
}
