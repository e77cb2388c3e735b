// A proof held against a history: two texts of one digest, which the weak hasher has. The acceptance run has all other answers.

use std::alloc::Global;
use std::test::Fail;
use tw_audit::{Finding, audit};
use tw_base::{Bytes, Digest, Name, Thread, Weak};
use tw_history::{History, auth_of, read_history, show_event};

/// One step of the event `ab`, and one of the event `ba`, as a history file has them behind the first bytes of their number.
const AB: &[u8] = &[1, 1, 0, 0, 0, 1, 0, 0, 0, 2, b'a', b'b', 0, 0, 0, 0, 0, 0];

const BA: &[u8] = &[1, 1, 0, 0, 0, 1, 0, 0, 0, 2, b'b', b'a', 0, 0, 0, 0, 0, 0];

/// The history of the service `a` with these steps.
fn history_of(alloc: Global, steps: &[u8]) -> Result<History, Fail> {
    let mut file = Bytes::new(alloc);
    file.extend_from_slice(b"TWH1a")?;
    file.extend_from_slice(&[0; 22])?;
    file.extend_from_slice(steps)?;
    Ok(read_history(alloc, file.as_slice())?)
}

/// The authenticator of the step 1 of the history that has `ab`.
fn auth(alloc: Global) -> Result<Digest, Fail> {
    let history = history_of(alloc, AB)?;
    Ok(auth_of::<Weak>(alloc, &history, 1)?.ok_or("no step")?)
}

/// The proof of the event `ba`.
fn proof(alloc: Global) -> Result<Bytes, Fail> {
    let turned = history_of(alloc, BA)?;
    Ok(show_event::<Weak>(alloc, &turned, 1, 0)?)
}

/// What an audit of it finds by the history that has `ab`, whose authenticator is held.
fn found(alloc: Global) -> Result<Finding, Fail> {
    let anchor = Thread {
        from: Name::read(b"a").ok_or("no name")?,
        step: 1,
        auth: auth(alloc)?,
    };
    let proof = proof(alloc)?;
    let histories = [history_of(alloc, AB)?];
    Ok(audit::<Weak>(alloc, proof.as_slice(), &[anchor], &histories)?)
}

/// Whether it is that the texts of both events have the digest that begins so.
fn is_clash(found: &Finding, first: u8) -> bool {
    match found {
        Finding::Clash { one, other, digest } => {
            one.as_slice() == b"\0ab".as_slice()
                && other.as_slice() == b"\0ba".as_slice()
                && digest.0[0] == first
        }
        _ => false,
    }
}

#[test]
fn two_events_of_one_digest(rt: HostRuntime) -> Result<(), Fail> {
    assert_eq!(rt; auth(rt.alloc())?.0[0], 0x82);
    let found = found(rt.alloc())?;
    assert!(rt; is_clash(&found, 0xc3));
    Ok(())
}
