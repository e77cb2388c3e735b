// The entries that are inserted, and their keys.

ghost use Rattle.std.specs.Prelude.{IfSome};
ghost use Rattle.tw_base.specs.history.Limits.{IsEntryInRange};

use tw_base::limits::LAST_STEP;
use tw_base::{Entry, Hasher, Key, Name, Sha, Thread};

/// How many services there are.
pub const SERVICES: u64 = 7;

/// The service `p` with the digit `digit` modulo 7.
fn service(digit: u64) -> Option<Name> {
    Name::read(&[b'p', b'0' + (digit % SERVICES) as u8])
}

/// The key of this step of the service with this digit.
pub fn key(digit: u64, step: u64) -> Option<Key> {
    let from = service(digit)?;
    Some(Key { from, step })
}

/// The entry of this number that this step archived; none where one of them is no step that an entry may have.
pub fn entry(number: u64, archived: u64) -> Option<Entry>
    // Its steps are within 1 to 2^40 - 1.
    ensures { IfSome result IsEntryInRange }
{
    if number == 0 || number > LAST_STEP || archived == 0 || archived > LAST_STEP {
        return None;
    }
    let thread = Thread {
        from: service(number)?,
        step: number,
        auth: Sha::digest(&number.to_be_bytes()),
    };
    Some(Entry { thread, archived })
}
