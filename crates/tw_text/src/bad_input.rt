// What is told of a named file that isn't what its command reads.

ghost use Rattle.std.specs.Prelude.{◌≡◌, IfOk};
ghost use Rattle.tw_text.specs.declared.refusal.BadInput.TheVariants.{BadByte, BadLine};

use crate::refusal::BadInput;
use std::alloc::Global;
use tw_base::{Bytes, NoMemory};

/// What is told of a file that is none of its format from this byte on.
pub fn bad_byte(alloc: Global, file: &str, place: u64) -> Result<BadInput, NoMemory>
    // It names the file and the place.
    ensures { IfOk result (λ bad. bad ≡ BadByte file.now place) }
{
    let file = Bytes::from_slice(alloc, file.as_bytes())?;
    Ok(BadInput::BadByte { file, place })
}

/// What is told of a file of lines with this first bad line.
pub fn bad_line(alloc: Global, file: &str, line: u64) -> Result<BadInput, NoMemory>
    // It names the file and the line.
    ensures { IfOk result (λ bad. bad ≡ BadLine file.now line) }
{
    let file = Bytes::from_slice(alloc, file.as_bytes())?;
    Ok(BadInput::BadLine { file, line })
}
