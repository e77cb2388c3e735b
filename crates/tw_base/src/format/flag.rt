// The byte whose highest bit alone may be set: by it an opening tells that its step has a time.

ghost use Rattle.std.specs.Prelude.{◌≡◌, ◌≤◌, ◌==◌, ◌||◌, length};
ghost use Rattle.tw_base.specs.format.Codecs.{flag_codec};
ghost use Rattle.tw_base.specs.format.Taking.{Takes};

use crate::kinds::failure::ReadFault;

/// Whether the byte is 0 or 128.
fn is_flag(b: u8) -> bool
    ensures { result ≡ (b == 0 || b == 128) }
{
    b == 0 || b == 128
}

/// Takes a byte that is 0 or 128: whether it is 128.
pub fn take_flag(bytes: &[u8], at: &mut u64) -> Result<bool, ReadFault>
    requires { at.old ≤ length bytes.now }
    // A byte that is 0 or 128 is taken at a place exactly as its codec reads it; else the place of the first bad byte
    // is told.
    ensures { Takes flag_codec (λ set. set) bytes.now at.old at.new result }
{
    let place = *at;
    if place == bytes.len() as u64 {
        return Err(ReadFault::Malformed { place });
    }
    let b = bytes[place as usize];
    if !is_flag(b) {
        return Err(ReadFault::Malformed { place });
    }
    *at += 1;
    Ok(b == 128)
}
