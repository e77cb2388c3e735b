// A follower of the service `a` under the weak hasher, on a disk in memory, by the call that takes a message as bytes: moved by one
// message, which is stopped at each of its device calls, and opened again.

ghost use Rattle.std.specs.Prelude.{◌≤◌};

use crate::making::told;
use crate::weak::short;
use std::alloc::Global;
use std::test::Fail;
use tw_base::{Digest, Name, Thread, Weak};
use tw_disk::MemDisk;
use tw_follow::Follower;

/// A follower over a disk in memory.
type Kept = Follower<MemDisk, Weak>;

// A new follower.
fn made(alloc: Global) -> Option<Kept> {
    match Kept::init(alloc, MemDisk::new(alloc), Name::read(b"a")?) {
        Ok(follower) => Some(follower),
        Err((_, _)) => None,
    }
}

// The follower on this disk.
fn opened(alloc: Global, disk: MemDisk) -> Option<Kept> {
    match Kept::open(alloc, disk) {
        Ok(follower) => Some(follower),
        Err((_, _)) => None,
    }
}

// Offers the message of step 1, of one event of no bytes, since step 0.
fn offered(alloc: Global, follower: &mut Kept) -> Option<Thread> {
    let message = told::<Weak>(alloc, b"a", b"")?;
    follower.offer(message.as_slice()).ok()
}

// The authenticators of a new follower's head and of the head that it is moved to, how many device calls the move makes, and the disk.
fn moved(alloc: Global) -> Option<(Digest, Digest, u64, MemDisk)> {
    let disk = made(alloc)?.close();
    let before = disk.device_calls().saturating_add(1);
    let mut follower = opened(alloc, disk)?;
    let first = follower.head().auth;
    let next = offered(alloc, &mut follower)?;
    let disk = follower.close();
    let calls = disk.device_calls().saturating_sub(before);
    Some((first, next.auth, calls, disk))
}

#[test]
fn a_head_is_moved_by_seven_device_calls(rt: HostRuntime) -> Result<(), Fail> {
    let (first, next, calls, disk) = moved(rt.alloc()).ok_or("not moved")?;
    assert_eq!(rt; first, short(0x71));
    assert_eq!(rt; next, short(0xbf));
    assert_eq!(rt; calls, 7);
    let follower = opened(rt.alloc(), disk).ok_or("not opened")?;
    assert_eq!(rt; follower.head().auth, short(0xbf));
    assert_eq!(rt; follower.head().step, 1);
    Ok(())
}

// The step of the head that is there where a move is stopped at this device call, and a crash leaves the outcome of the choice.
fn left(alloc: Global, call: u64, choice: u8) -> Option<u64>
    requires { choice ≤ 3 }
{
    let mut disk = made(alloc)?.close();
    disk.stop_at(call.saturating_add(1).max(1));
    let mut follower = opened(alloc, disk)?;
    let _ = offered(alloc, &mut follower);
    let mut disk = follower.close();
    disk.crash(choice);
    Some(opened(alloc, disk)?.head().step)
}

#[test]
fn a_stopped_move_leaves_the_head_or_the_next_one(rt: HostRuntime) {
    for choice in 0u8..4 {
        for call in 1..6 {
            assert_eq!(rt; left(rt.alloc(), call, choice), Some(0));
        }
        for call in 6..8 {
            let left = left(rt.alloc(), call, choice);
            assert!(rt; left == Some(0) || left == Some(1));
        }
        assert_eq!(rt; left(rt.alloc(), 8, choice), Some(1));
    }
}
