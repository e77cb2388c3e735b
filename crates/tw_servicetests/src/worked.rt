// Two services under the weak hasher, whose authenticators are worked out by hand: what they tell, prove and receive, and evidence of a
// fork. labels.rt has the labels below these.

use crate::making::{add, init, told};
use crate::weak::short;
use std::alloc::Global;
use std::process::Abort;
use std::test::Fail;
use tw_base::{Bytes, Digest, Key, Name, Thread, Weak};
use tw_chain::{ThreadProof, Verdict};
use tw_evidence::{
    ForkVerdict, accuse, check_evidence, print_fork, read_thread_proof, write_evidence,
};
use tw_msg::{Receipt, read_receipt, write_receipt};
use tw_verifier::verify;

/// The authenticators of `a` at its steps 0, 1 and 2, of an event of no bytes and the event `hi`; and the proof of the first event
/// under step 2.
fn two_steps(alloc: Global) -> Option<([Digest; 3], Bytes)> {
    let mut service = init::<Weak>(alloc, b"a")?;
    let none = service.head().auth;
    let first = add(alloc, &mut service, b"")?;
    let second = add(alloc, &mut service, b"hi")?;
    let proof = service.prove_event(1, 0, 2).ok()?;
    Some(([none, first, second], proof))
}

#[test]
fn a_service_of_two_steps_proves_its_first_event_in_209_bytes(rt: HostRuntime) -> Result<(), Fail> {
    let (auths, proof) = two_steps(rt.alloc()).ok_or("no steps")?;
    assert!(rt; auths == [short(0x71), short(0xbf), short(0x5f)]);
    assert_eq!(rt; proof.len(), 209);
    Ok(())
}

/// The receipt of `b`, whose step 1 received step 1 of `a`.
fn receipt(alloc: Global) -> Option<Receipt> {
    let message = told::<Weak>(alloc, b"a", b"")?;
    let mut service = init::<Weak>(alloc, b"b")?;
    service.receive(message.as_slice()).ok()
}

/// The thread of a step of a service, under the weak hasher.
fn thread(name: &[u8], step: u64, auth: u8) -> Option<Thread> {
    let from = Name::read(name)?;
    let auth = short(auth);
    Some(Thread { from, step, auth })
}

#[test]
fn a_service_that_received_a_thread_tells_its_receipt(rt: HostRuntime) -> Result<(), Fail> {
    let receipt = receipt(rt.alloc()).ok_or("no receipt")?;
    assert_eq!(rt; Some(receipt.by), thread(b"b", 1, 0x0a));
    assert_eq!(rt; Some(receipt.thread), thread(b"a", 1, 0xbf));
    assert!(rt; read_receipt(&write_receipt(&receipt)) == Ok(receipt));
    Ok(())
}

/// Whether the proof of the event of `a`, which has no bytes and is the only one, is accepted under this authenticator.
fn is_accepted(alloc: Global, auth: u8) -> Option<bool> {
    let mut service = init::<Weak>(alloc, b"a")?;
    add(alloc, &mut service, b"")?;
    let proof = service.prove_event(1, 0, 1).ok()?;
    let anchor = thread(b"a", 1, auth)?;
    match verify::<Weak>(alloc, proof.as_slice(), &[anchor], false) {
        Ok(Verdict::Yes(_)) => Some(true),
        Ok(Verdict::No(_)) => Some(false),
        Err(_) => None,
    }
}

#[test]
fn the_least_proof_is_accepted_under_its_own_authenticator_alone(rt: HostRuntime) {
    assert_eq!(rt; is_accepted(rt.alloc(), 0xbf), Some(true));
    assert_eq!(rt; is_accepted(rt.alloc(), 0xbe), Some(false));
}

/// The bytes of the proof of a service of this name that its step 1 received a step 1 of `a` of this event, and its thread.
pub(crate) fn proved(alloc: Global, name: &[u8], event: &[u8]) -> Option<(Bytes, Thread)> {
    let message = told::<Weak>(alloc, b"a", event)?;
    let mut service = init::<Weak>(alloc, name)?;
    let _ = service.receive(message.as_slice()).ok()?;
    let key = Key {
        from: Name::read(b"a")?,
        step: 1,
    };
    let bytes = service.prove_thread(1, key, 1).ok()?;
    Some((bytes, service.head()))
}

/// That proof, and the thread.
fn shown(alloc: Global, name: &[u8], event: &[u8]) -> Option<(ThreadProof, Thread)> {
    let (bytes, thread) = proved(alloc, name, event)?;
    let proof = read_thread_proof(alloc, bytes.as_slice()).ok()?;
    Some((proof, thread))
}

/// What is told of the fork.
const FORK: &str =
    "accepted fork\nfirst a 1 bf00000000000000000000000000000000000000000000000000000000000000 beta 1\nsecond a 1 9000000000000000000000000000000000000000000000000000000000000000 gamma 1\n";

/// The evidence that `a` showed `beta` an event of no bytes as its step 1, and `gamma` the event `hi`; and the threads of both.
fn evidence(alloc: Global) -> Option<(Bytes, [Thread; 2])> {
    let (first, beta) = shown(alloc, b"beta", b"")?;
    let (second, gamma) = shown(alloc, b"gamma", b"hi")?;
    let evidence = accuse(alloc, first, second, None).ok()?;
    let bytes = write_evidence(alloc, &evidence).ok()?;
    Some((bytes, [beta, gamma]))
}

/// The verdict on bytes of evidence under these threads.
fn verdict_of(rt: &impl Abort, alloc: Global, bytes: &[u8], anchors: &[Thread]) -> ForkVerdict {
    check_evidence::<Weak>(alloc, bytes, anchors).expect(rt, "memory")
}

/// Whether this is what is told of the verdict.
fn tells(rt: &impl Abort, alloc: Global, verdict: &ForkVerdict, text: &str) -> bool {
    print_fork(alloc, verdict).expect(rt, "memory").as_slice() == text.as_bytes()
}

#[test]
fn evidence_of_two_first_steps(rt: HostRuntime) -> Result<(), Fail> {
    let (bytes, anchors) = evidence(rt.alloc()).ok_or("no evidence")?;
    assert_eq!(rt; bytes.len(), 568);
    let whole = verdict_of(&rt, rt.alloc(), bytes.as_slice(), &anchors);
    assert!(rt; tells(&rt, rt.alloc(), &whole, FORK));
    let short = bytes.as_slice().get(..567).ok_or("too short")?;
    let cut = verdict_of(&rt, rt.alloc(), short, &anchors);
    assert!(rt; tells(&rt, rt.alloc(), &cut, "rejected 1 Malformed 567\n"));
    Ok(())
}
