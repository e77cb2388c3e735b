// The worked proof of two events of two services, joined of its parts, and read in two pieces at each place and byte by byte: one verdict.

use crate::making::{add, init, told as message_of};
use std::alloc::Global;
use std::test::Fail;
use tw_base::{Bytes, Key, Name, NoMemory, Sequence, Sha, Thread};
use tw_chain::{Proof, Verdict, read_proof, write_proof};
use tw_disk::MemDisk;
use tw_join::join;
use tw_service::Service;
use tw_text::{print_rejected, print_report};
use tw_verifier::Verifier;

/// What is told of it.
const ACCEPTED: &str =
    "accepted precedes\nevent alpha 1 0 6869\nevent beta 2 0 -\nhop alpha 1 beta 1\ncarried alpha 1 770e004ce1ce29dbbb24abfe387108536604796e1179405c56ae855f8d223d10\n";

/// What is told of it with a byte more.
const REJECTED: &str = "rejected 1 Malformed 533\n";

/// A service.
type Kept = Service<MemDisk, Sha>;

/// The proof of the event `hi`, of which the only step of `alpha` is.
fn earlier(alloc: Global) -> Option<Bytes> {
    let mut alpha = init::<Sha>(alloc, b"alpha")?;
    add(alloc, &mut alpha, b"hi")?;
    alpha.prove_event(1, 0, 1).ok()
}

/// The service `beta`, whose step 1 received the step of `alpha`, and whose step 2 is of an event of no bytes.
fn beta(alloc: Global) -> Option<Kept> {
    let message = message_of::<Sha>(alloc, b"alpha", b"hi")?;
    let mut beta = init::<Sha>(alloc, b"beta")?;
    let _ = beta.receive(message.as_slice()).ok()?;
    add(alloc, &mut beta, b"")?;
    Some(beta)
}

/// The proofs of its event, and that it received the thread of `alpha`; and its own thread.
fn later(alloc: Global) -> Option<(Bytes, Bytes, Thread)> {
    let key = Key {
        from: Name::read(b"alpha")?,
        step: 1,
    };
    let mut beta = beta(alloc)?;
    let event = beta.prove_event(2, 0, 2).ok()?;
    let thread = beta.prove_thread(1, key, 1).ok()?;
    Some((event, thread, beta.head()))
}

/// Reads a proof, and puts it behind the others; tells whether it did.
fn read_behind(alloc: Global, proofs: &mut Sequence<Proof>, bytes: &Bytes) -> bool {
    match read_proof(alloc, bytes.as_slice()) {
        Ok(proof) => proofs.push(proof).is_ok(),
        Err(_) => false,
    }
}

/// The bytes of a proof. It is dropped by its name, so that the prover meets the drop in one place.
fn written(alloc: Global, proof: Proof) -> Option<Bytes> {
    let bytes = write_proof(alloc, &proof);
    drop(proof);
    bytes.ok()
}

/// The bytes of what these proofs join to.
fn joined(alloc: Global, proofs: &[Proof]) -> Option<Bytes> {
    match join(alloc, proofs) {
        Ok(proof) => written(alloc, proof),
        Err(_) => None,
    }
}

/// The bytes of the proof that the former event precedes the latter, and the thread of `beta`.
fn chain(alloc: Global) -> Option<(Bytes, Thread)> {
    let earlier = earlier(alloc)?;
    let (event, thread, head) = later(alloc)?;
    let mut proofs = Sequence::new(alloc);
    let are_read = read_behind(alloc, &mut proofs, &event)
        && read_behind(alloc, &mut proofs, &thread)
        && read_behind(alloc, &mut proofs, &earlier);
    let bytes = joined(alloc, proofs.as_slice());
    if are_read { Some((bytes?, head)) } else { None }
}

/// Those bytes with one more.
fn longer(alloc: Global) -> Option<(Bytes, Thread)> {
    let (mut bytes, head) = chain(alloc)?;
    bytes.push(0).ok()?;
    Some((bytes, head))
}

/// What is told of a verdict.
fn told(alloc: Global, verdict: Verdict) -> Result<Bytes, NoMemory> {
    match verdict {
        Verdict::Yes(report) => print_report(alloc, &report),
        Verdict::No(reason) => print_rejected(alloc, &reason),
    }
}

/// What is told of these pieces, one after another.
fn pieces_told(alloc: Global, anchor: &Thread, pieces: &[&[u8]]) -> Option<Bytes> {
    let mut verifier = Verifier::<Sha>::new(alloc, &[*anchor], false).ok()?;
    for piece in pieces {
        verifier.feed(piece).ok()?;
    }
    told(alloc, verifier.finish().ok()?).ok()
}

/// What is told of the bytes, one by one.
fn each_byte_told(alloc: Global, anchor: &Thread, bytes: &[u8]) -> Option<Bytes> {
    let mut verifier = Verifier::<Sha>::new(alloc, &[*anchor], false).ok()?;
    for byte in bytes {
        verifier.feed(&[*byte]).ok()?;
    }
    told(alloc, verifier.finish().ok()?).ok()
}

/// Whether that is this text.
fn is_text(told: Option<Bytes>, text: &str) -> bool {
    match told {
        Some(told) => told.as_slice() == text.as_bytes(),
        None => false,
    }
}

/// Whether that is told of the bytes in two pieces at each place, an empty one among them, and byte by byte.
fn is_told_of_each_cutting(
    alloc: Global,
    anchor: &Thread,
    bytes: &[u8],
    text: &str,
) -> Option<bool> {
    for place in 0..bytes.len() + 1 {
        let pieces = [bytes.get(..place)?, bytes.get(place..)?];
        if !is_text(pieces_told(alloc, anchor, &pieces), text) {
            return Some(false);
        }
    }
    Some(is_text(each_byte_told(alloc, anchor, bytes), text))
}

#[test]
fn each_cutting_has_one_verdict(rt: HostRuntime) -> Result<(), Fail> {
    let alloc = rt.alloc();
    let (longer, anchor) = longer(alloc).ok_or("no proof")?;
    assert_eq!(rt; longer.len(), 534);
    let bytes = longer.as_slice().get(..533).ok_or("too short")?;
    let accepted = is_told_of_each_cutting(alloc, &anchor, bytes, ACCEPTED);
    assert_eq!(rt; accepted, Some(true));
    let rejected = is_told_of_each_cutting(alloc, &anchor, longer.as_slice(), REJECTED);
    assert_eq!(rt; rejected, Some(true));
    Ok(())
}
