// A service over a disk whose reads contradict each other: each call is answered, or refused by a name that such reads may bring about. No
// fault of the disk and no want of memory comes of them.

use crate::making::{one_event, received, told};
use std::alloc::Global;
use tw_base::{EventList, Key, Name, Sha};
use tw_disk::{FickleDisk, MemDisk};
use tw_pages::StoreFault;
use tw_service::{Refusal, Service};

/// A service over such a disk.
type Fickle = Service<FickleDisk, Sha>;

/// How many seeds are tried.
const SEEDS: u64 = 10;

/// What refuses each of four calls; none where it is answered.
type Refusals = [Option<Refusal>; 4];

/// The disk of a service of two steps.
fn kept(alloc: Global) -> Option<MemDisk> {
    Some(received(alloc)?.close())
}

/// The service on that disk, which gives other bytes at each read once it is opened, after four reads.
fn opened(alloc: Global, seed: u64) -> Option<Fickle> {
    match Fickle::open(alloc, FickleDisk::new(kept(alloc)?, 4, seed)) {
        Ok(service) => Some(service),
        Err((_, _)) => None,
    }
}

/// What refuses the calls that add a step.
fn refusals_of_steps(service: &mut Fickle, events: &EventList, message: &[u8]) -> Refusals {
    [
        service.append(events).err(),
        service.append_at(events, 8).err(),
        service.receive(message).err(),
        service.receive_at(message, 9).err(),
    ]
}

/// What refuses the calls that prove something.
fn refusals_of_proofs(service: &mut Fickle, peer: Name) -> Refusals {
    let had = Key {
        from: peer,
        step: 1,
    };
    let missing = Key {
        from: peer,
        step: 2,
    };
    [
        service.prove_event(2, 0, 2).err(),
        service.prove_thread(2, had, 2).err(),
        service.prove_absent(2, missing, 2).err(),
        service.prove_link(1, 2).err(),
    ]
}

/// What refuses the calls that make a file or a message.
fn refusals_of_files(service: &mut Fickle, peer: Name) -> Refusals {
    [
        service.prove_low(2, peer, 2).err(),
        service.prove_high(1, peer, 2).err(),
        service.export().err(),
        service.thread_out(1).err(),
    ]
}

/// Whether such reads may bring this about.
fn is_named(refusal: &Option<Refusal>) -> bool {
    match refusal {
        None => true,
        Some(Refusal::BadPage { .. }) => true,
        Some(Refusal::NoEvent { .. }) | Some(Refusal::NoThread) | Some(Refusal::HasThread { .. }) =>
            true,
        Some(Refusal::Stale { .. })
        | Some(Refusal::Forked { .. })
        | Some(Refusal::BadLink { .. }) => true,
        Some(_) => false,
    }
}

/// Whether such reads may bring each of these about.
fn are_named(refusals: Option<Refusals>) -> bool {
    match refusals {
        Some(all) => is_named(&all[0])
            && is_named(&all[1])
            && is_named(&all[2])
            && is_named(&all[3]),
        None => false,
    }
}

/// What refuses the calls that add a step, on a service of its own.
fn steps(alloc: Global, seed: u64) -> Option<Refusals> {
    let events = one_event(alloc, &[9]).ok()?;
    let message = told::<Sha>(alloc, b"gamma", &[9])?;
    let mut service = opened(alloc, seed)?;
    Some(refusals_of_steps(&mut service, &events, message.as_slice()))
}

/// What refuses the calls that prove something, on a service of its own.
fn proofs(alloc: Global, seed: u64) -> Option<Refusals> {
    let mut service = opened(alloc, seed)?;
    Some(refusals_of_proofs(&mut service, Name::read(b"beta")?))
}

/// What refuses the calls that make a file or a message, on a service of its own.
fn files(alloc: Global, seed: u64) -> Option<Refusals> {
    let mut service = opened(alloc, seed)?;
    Some(refusals_of_files(&mut service, Name::read(b"beta")?))
}

#[test]
fn each_call_is_answered_or_refused_by_name(rt: HostRuntime) {
    for seed in 0..SEEDS {
        assert!(rt; are_named(steps(rt.alloc(), seed)));
        assert!(rt; are_named(proofs(rt.alloc(), seed)));
        assert!(rt; are_named(files(rt.alloc(), seed)));
    }
}

/// Why no service is opened on a disk that gives other bytes at each read.
fn fault_of_opening(alloc: Global, seed: u64) -> Option<StoreFault> {
    match Fickle::open(alloc, FickleDisk::new(kept(alloc)?, 0, seed)) {
        Ok(_) => None,
        Err((_, fault)) => Some(fault),
    }
}

/// Why none is made on it.
fn fault_of_making(alloc: Global, seed: u64) -> Option<StoreFault> {
    match Fickle::init(
        alloc,
        FickleDisk::new(kept(alloc)?, 0, seed),
        Name::read(b"alpha")?,
    ) {
        Ok(_) => None,
        Err((_, fault)) => Some(fault),
    }
}

/// Whether such reads may bring this about.
fn is_named_fault(fault: Option<StoreFault>) -> bool {
    matches!(
        fault,
        None | Some(StoreFault::Blank)
            | Some(StoreFault::NotAStore { .. })
            | Some(StoreFault::Taken)
    )
}

#[test]
fn a_store_is_opened_and_made_or_refused_by_name(rt: HostRuntime) {
    for seed in 0..SEEDS {
        assert!(rt; is_named_fault(fault_of_opening(rt.alloc(), seed)));
        assert!(rt; is_named_fault(fault_of_making(rt.alloc(), seed)));
    }
}
