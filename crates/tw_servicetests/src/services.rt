// Services on a disk in memory: each call that the program makes by a question, whose whole answer is the reference's; and one that met
// a fault, or was stopped.

ghost use Rattle.std.specs.Prelude.{◌≤◌};

use crate::making::{init, one_event, open, received, told};
use std::alloc::Global;
use std::test::Fail;
use tw_base::{Bytes, EventList, Hasher, Key, Name, Sha, Weak};
use tw_disk::MemDisk;
use tw_msg::{Message, write_message};
use tw_service::{Refusal, Service};
use tw_text::read_digest;

/// A service over a disk in memory, whose answers are the reference's.
type Kept = Service<MemDisk, Sha>;

/// One of which the answers don't matter.
type Quick = Service<MemDisk, Weak>;

/// The SHA-256 of each answer of that service, as the reference gives it: the proofs of the event of step 2, of the thread, that there is
/// no thread of step 2 of `beta`, and of the authenticator of step 1, all under step 2.
const EVENT: &str = "e24ef03a9da9ef70c13969d57eaa94e81a26f98cd25b0400e9cee3f025ea5206";

const THREAD: &str = "a4d0cc93cd277c1a3a7581001c15d7c18d5204d206f5d79539cb9d617cb393f7";

const ABSENCE: &str = "f94a702164c4d4b248744c4f19f68b8e0bbc8f450f7794faa32a658d3a62677f";

const LINK: &str = "b6f0eec83b88679296faace7e83ec4874043fb0ca20cfaeaefb1183c63805686";

/// That of the low file of step 2, of the high file for step 1 of `beta`, of the history's file, and of the message since step 1.
const LOW: &str = "1ebd9d7086b746310235c2e139a19cab67525982af79492ce9c603a7c273a001";

const HIGH: &str = "e041c307fbe9a7000a3cdfae72f758a5457a2ff33a87c9792ddf4a155ae53efb";

const HISTORY: &str = "34db92e56ecb84c378068e4cf896c0082348f1f7ab5dd5b5c4f429cb47710eee";

const MESSAGE: &str = "b66050044cc4bc5e304c4c693ad200040fd835cb039778d8f2c24369aafe66ab";

/// Whether the answer is the one of this digest.
fn is_whole(answer: Result<Bytes, Refusal>, digest: &str) -> bool {
    match answer {
        Ok(bytes) => Some(Sha::digest(bytes.as_slice())) == read_digest(digest.as_bytes()),
        Err(_) => false,
    }
}

/// Whether it is that of the proof of the thread of `beta`.
fn is_thread_proved(service: &mut Kept, peer: Name) -> bool {
    let key = Key {
        from: peer,
        step: 1,
    };
    is_whole(service.prove_thread(2, key, 2), THREAD)
}

/// Whether it is that of the proof that there is no other.
fn is_absence_proved(service: &mut Kept, peer: Name) -> bool {
    let key = Key {
        from: peer,
        step: 2,
    };
    is_whole(service.prove_absent(2, key, 2), ABSENCE)
}

#[test]
fn each_proof_is_made(rt: HostRuntime) -> Result<(), Fail> {
    let peer = Name::read(b"beta").ok_or("no name")?;
    let mut service = received(rt.alloc()).ok_or("no service")?;
    assert!(rt; is_whole(service.prove_event(2, 0, 2), EVENT));
    assert!(rt; is_thread_proved(&mut service, peer));
    assert!(rt; is_absence_proved(&mut service, peer));
    assert!(rt; is_whole(service.prove_link(1, 2), LINK));
    Ok(())
}

/// The bytes of a message.
fn spelled(alloc: Global, message: Result<Message, Refusal>) -> Result<Bytes, Refusal> {
    Ok(write_message(alloc, &message?)?)
}

#[test]
fn each_file_is_made(rt: HostRuntime) -> Result<(), Fail> {
    let peer = Name::read(b"beta").ok_or("no name")?;
    let mut service = received(rt.alloc()).ok_or("no service")?;
    assert!(rt; is_whole(service.prove_low(2, peer, 2), LOW));
    assert!(rt; is_whole(service.prove_high(1, peer, 2), HIGH));
    assert!(rt; is_whole(service.export(), HISTORY));
    assert!(rt; is_whole(spelled(rt.alloc(), service.thread_out(1)), MESSAGE));
    Ok(())
}

/// A service without a step, on a disk of which this device call fails, after that of its opening.
fn failing(alloc: Global, call: u64) -> Option<Quick> {
    let mut disk = init::<Weak>(alloc, b"alpha")?.close();
    disk.fail(call.saturating_add(1)).ok()?;
    open::<Weak>(alloc, disk)
}

/// What refuses two calls of `receive` on it. (A step takes eight device calls.)
fn receipts_after_fault(alloc: Global, call: u64) -> Option<[Option<Refusal>; 2]> {
    let message = told::<Weak>(alloc, b"beta", &[9])?;
    let mut service = failing(alloc, call)?;
    let first = service.receive(message.as_slice()).err();
    let second = service.receive(message.as_slice()).err();
    Some([first, second])
}

#[test]
fn a_service_that_met_a_fault_is_to_be_opened_again(rt: HostRuntime) {
    for call in 1..9 {
        let answers = receipts_after_fault(rt.alloc(), call);
        assert!(rt; answers == Some([Some(Refusal::DiskFault), Some(Refusal::Reopen)]));
    }
}

/// What refuses two calls of `append` on a service whose third device call fails, after that of its opening; and the disk.
fn lines_after_fault(alloc: Global, events: &EventList) -> Option<([Option<Refusal>; 2], MemDisk)> {
    let mut service = failing(alloc, 3)?;
    let first = service.append(events).err();
    let second = service.append(events).err();
    Some(([first, second], service.close()))
}

/// How many steps the service on the disk has.
fn steps_on(alloc: Global, disk: MemDisk) -> Option<u64> {
    Some(open::<Weak>(alloc, disk)?.steps())
}

#[test]
fn an_append_whose_third_device_call_fails_makes_no_step(rt: HostRuntime) -> Result<(), Fail> {
    let events = one_event(rt.alloc(), &[9])?;
    let (answers, disk) = lines_after_fault(rt.alloc(), &events).ok_or("no service")?;
    assert!(rt; answers == [Some(Refusal::DiskFault), Some(Refusal::Reopen)]);
    assert_eq!(rt; steps_on(rt.alloc(), disk), Some(0));
    Ok(())
}

/// The disk of a service whose first `append` was stopped at this device call, after that of its opening, where a crash left the outcome
/// of this choice.
fn stopped(alloc: Global, call: u64, choice: u8) -> Option<MemDisk>
    requires { choice ≤ 3 }
{
    let events = one_event(alloc, &[9]).ok()?;
    let mut disk = init::<Weak>(alloc, b"alpha")?.close();
    disk.stop_at(call.saturating_add(1).max(1));
    let mut service = open::<Weak>(alloc, disk)?;
    let _ = service.append(&events);
    let mut disk = service.close();
    disk.crash(choice);
    Some(disk)
}

/// How many steps are left then.
fn left(alloc: Global, call: u64, choice: u8) -> Option<u64>
    requires { choice ≤ 3 }
{
    steps_on(alloc, stopped(alloc, call, choice)?)
}

#[test]
fn a_stopped_append_leaves_the_step_or_none(rt: HostRuntime) {
    for choice in 0u8..4 {
        for call in 1..7 {
            assert_eq!(rt; left(rt.alloc(), call, choice), Some(0));
        }
        for call in 7..9 {
            let left = left(rt.alloc(), call, choice);
            assert!(rt; left == Some(0) || left == Some(1));
        }
        assert_eq!(rt; left(rt.alloc(), 9, choice), Some(1));
    }
}

/// How many device calls the opening of this disk and an `append` on it make.
fn calls_on(alloc: Global, events: &EventList, disk: MemDisk) -> Option<u64> {
    let before = disk.device_calls();
    let mut service = open::<Weak>(alloc, disk)?;
    let _ = service.append(events).ok()?;
    Some(service.close().device_calls().saturating_sub(before))
}

#[test]
fn an_append_over_a_closed_gate_makes_six_device_calls(rt: HostRuntime) -> Result<(), Fail> {
    let events = one_event(rt.alloc(), &[9])?;
    for choice in 0u8..4 {
        let disk = stopped(rt.alloc(), 4, choice).ok_or("no service")?;
        // (the opening makes one)
        assert_eq!(rt; calls_on(rt.alloc(), &events, disk), Some(7));
    }
    Ok(())
}
