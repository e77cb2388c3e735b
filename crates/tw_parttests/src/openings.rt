// The worked proof of one event, its opening and a path, by the readers and writers of each alone, which the program doesn't call.

use std::alloc::Global;
use std::test::Fail;
use tw_base::{Bytes, Digest, Labels, ReadFault, Sha};
use tw_chain::read_first;
use tw_skipproof::{
    LEAST_AUTHENTICATOR, LEAST_EXISTENCE, Link, LinkList, Opening, Path, check_opening,
    read_existence, read_opening, read_path, write_existence, write_opening, write_path,
};

/// The worked proof, written as it was read.
fn again(alloc: Global) -> Result<Bytes, ReadFault> {
    let proof = read_existence(alloc, &LEAST_EXISTENCE)?;
    Ok(write_existence(alloc, &proof)?)
}

/// The bytes of its opening.
fn opening_bytes(alloc: Global) -> Result<Bytes, ReadFault> {
    let proof = read_existence(alloc, &LEAST_EXISTENCE)?;
    Ok(write_opening(alloc, &proof.at.opening)?)
}

/// Its opening, read from these.
fn opening(alloc: Global) -> Result<Opening, ReadFault> {
    let bytes = opening_bytes(alloc)?;
    read_opening(alloc, bytes.as_slice(), 1)
}

#[test]
fn the_least_proof(rt: HostRuntime) -> Result<(), Fail> {
    let bytes = again(rt.alloc())?;
    assert!(rt; bytes.as_slice() == LEAST_EXISTENCE.as_slice());
    let opening = opening(rt.alloc())?;
    let least = Some(Digest(LEAST_AUTHENTICATOR));
    assert!(rt; check_opening::<Sha>(&opening, 1) == least);
    Ok(())
}

/// How many bytes the first proof has, at the front of these.
fn size_of_first(alloc: Global, bytes: &[u8]) -> Option<u64> {
    match read_first(alloc, bytes) {
        Ok((proof, size)) => {
            drop(proof);
            Some(size)
        }
        Err(_) => None,
    }
}

#[test]
fn a_proof_at_the_front_of_bytes(rt: HostRuntime) {
    assert_eq!(rt; size_of_first(rt.alloc(), &LEAST_EXISTENCE), Some(145));
}

#[test]
fn a_path(rt: HostRuntime) -> Result<(), Fail> {
    let mut others = Labels::new(rt.alloc());
    others.push(Digest([7; 32]))?;
    let datum = Digest([6; 32]);
    let mut links = LinkList::new(rt.alloc());
    links.push(Link { datum, others })?;
    let bytes = write_path(rt.alloc(), &Path { links })?;
    assert_eq!(rt; bytes.len(), 64);
    let path = read_path(rt.alloc(), bytes.as_slice(), 2, 1)?;
    assert_eq!(rt; path.links.len(), 1);
    Ok(())
}
