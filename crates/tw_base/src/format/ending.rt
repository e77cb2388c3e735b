// How a reader ends that read bytes from the front: whether nothing follows, or where what it read ends.

ghost use Rattle.tw_base.specs.format.Formats.{IsFrontTo, IsWholeTo};

use crate::kinds::failure::ReadFault;

/// The answer for the whole bytes of a reader that read them from the front, up to a place: where bytes
/// follow, they are malformed at that place.
pub fn whole_to<T: Drop>(
    bytes: &[u8],
    after: u64,
    read: Result<T, ReadFault>,
) -> Result<T, ReadFault>
    // What was read of the front is the answer for all the bytes where none follow it; else the place of the first that
    // does is told.
    ensures { IsWholeTo bytes.now after read result }
{
    match read {
        Ok(_) if after < bytes.len() as u64 => Err(ReadFault::Malformed { place: after }),
        read => read,
    }
}

/// The answer for a front of the bytes: what was read there, and the place after it.
pub fn front_to<T: Drop>(after: u64, read: Result<T, ReadFault>) -> Result<(T, u64), ReadFault>
    // What was read of the front is answered with the place behind it.
    ensures { IsFrontTo after read result }
{
    match read {
        Ok(value) => Ok((value, after)),
        Err(fault) => Err(fault),
    }
}
