// Reading an input piece by piece, or whole.
ghost use Rattle.std.specs.Prelude.{◌≡◌, ◌<◌, ◌≤◌, ◌↔◌, ◌+◌, ◌*◌, ◌/◌, ℕ, List, vec_len, Ok, Err, true, false, IfOk, OnOk, OnErr};
ghost use Rattle.tw_base.specs.kinds.Faults.{Rose};
ghost use Rattle.tw_outside.specs.Files.{IsThere, IsFrontOfFile, IsReadTo};

use crate::inputs::Inputs;
use std::alloc::Global;
use tw_base::InputFault;

/// The size of a piece in bytes: one read asks for no more, and for none beyond the next multiple of it.
pub const PIECE: usize = 4096;

/// Reads what comes next of a file after the bytes read so far, by one read, and answers whether more may come.
/// `limit` is the number of bytes at which reading ends. The read ends with the piece of `PIECE` bytes that it begins in,
/// so a caller that has enough stops there, and asks for no byte of a later piece.
///
/// `Failed` comes only where the inputs failed, and `NoMemory` where there is none for the bytes. Then the bytes are those read before.
pub fn read_piece<I: Inputs>(
    inputs: &mut I,
    name: &str,
    limit: usize,
    all: &mut Vec<u8>,
) -> Result<bool, InputFault>
    requires ask { I.may_ask inputs.old name.now }
    requires room { vec_len all.old ≤ limit }
    ensures kept { I.told inputs.new ≡ I.told inputs.old }
    ensures same_names { (other : List ℕ) → I.may_ask inputs.new other ↔ I.may_ask inputs.old other }
    ensures later { I.faults inputs.old ≤ I.faults inputs.new }
    ensures failed { result ≡ Err InputFault.Failed → Rose (I.faults inputs.old) (I.faults inputs.new) }
    ensures err { OnErr result (all.new.items ≡ all.old.items) }

    ensures there { OnOk result (IsThere (I.told inputs.old) name.now) }
    ensures within { vec_len all.new ≤ limit }
    ensures piece { vec_len all.new ≤ PIECE * (vec_len all.old / PIECE + 1) }
    ensures front { IsFrontOfFile (I.told inputs.old) name.now all.old.items → IsFrontOfFile (I.told inputs.old) name.now all.new.items }
    ensures more { result ≡ Ok true → (vec_len all.old < vec_len all.new) × (vec_len all.new < limit) }
    ensures end { result ≡ Ok false → IsFrontOfFile (I.told inputs.old) name.now all.old.items → IsReadTo (I.told inputs.old) name.now limit all.new.items }
{
    let before = all.len();
    let room = (PIECE - before % PIECE).min(limit - before);
    let mut piece = [0u8; PIECE];
    let came = inputs.read(name, before as u64, &mut piece[..room])?;
    all.extend_from_slice(&piece[..came])?;
    Ok(came > 0 && all.len() < limit)
}

/// Reads the named file to its end, or to the limit, which is a number of bytes. Each byte is asked for once.
/// At the limit 0 the inputs are asked for no byte, but still whether the file is there.
///
/// `Failed` comes only where the inputs failed, as they do where the file isn't there. `NoMemory` comes where there is none for the bytes.
pub fn read_all<I: Inputs>(
    alloc: Global,
    inputs: &mut I,
    name: &str,
    limit: usize,
) -> Result<Vec<u8>, InputFault>
    requires { I.may_ask inputs.old name.now }
    ensures kept { I.told inputs.new ≡ I.told inputs.old }
    ensures same_names { (other : List ℕ) → I.may_ask inputs.new other ↔ I.may_ask inputs.old other }
    ensures later { I.faults inputs.old ≤ I.faults inputs.new }
    // It fails only where the count of faults rose.
    ensures failed { result ≡ Err InputFault.Failed → Rose (I.faults inputs.old) (I.faults inputs.new) }

    ensures there { OnOk result (IsThere (I.told inputs.old) name.now) }
    ensures within { IfOk result (λ all. vec_len all ≤ limit) }
    // Reading to the end gives the file's bytes up to the limit.
    ensures read { IfOk result (λ all. IsReadTo (I.told inputs.old) name.now limit all.items) }
{
    let mut all = Vec::new(alloc);
    while read_piece(inputs, name, limit, &mut all)? {}
    Ok(all)
}
