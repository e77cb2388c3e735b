// The command `join`, which joins the proofs of files; how proofs join is in `tw_join`.

ghost use Rattle.std.specs.Prelude.{◌≡◌, IfOk};
ghost use Rattle.tw_base.specs.kinds.Lists.{Each};
ghost use Rattle.tw_chain.specs.Proofs.{proof_bytes};
ghost use Rattle.tw_outside.specs.Asked.{asked};
ghost use Rattle.tw_filecmd.specs.Joining.{JoinComes, TellsJoined};

use crate::parts::read_parts;
use std::alloc::Global;
use tw_base::{Bytes, NoMemory};
use tw_chain::{Proof, write_proof};
use tw_join::{JoinFault, join};
use tw_outside::Inputs;
use tw_text::{CommandFault, FilePath};

/// What proofs join to.
#[derive(Drop, Debug)]
pub enum Joined {
    /// The bytes of the proof from event to event.
    Whole(Bytes),
    /// The part of this number, counted from 1, doesn't fit, or is missing behind all others.
    Unfit { place: u64 },
}

/// Joins the proofs of the named files to one from event to event. Each file is read before any of
/// them is judged, and the first that holds no proof is told before a part that doesn't fit. The
/// bytes of one file are held at a time, beside the proofs read before.
// It stays a call, so that other commands don't have its frame on the stack.
#[inline(never)]
pub fn join_files<I: Inputs>(
    alloc: Global,
    inputs: &mut I,
    files: &[FilePath],
) -> Result<Joined, CommandFault>
    requires { Each (I.may_ask inputs.old) files.now }
    // What `join` comes to is what its files and the count of faults allow: bytes that spell the proof that the files'
    // proofs join to, the number of the first part that doesn't fit, or a fault with its cause.
    ensures { JoinComes (asked (I.told inputs.old) (I.faults inputs.old) (I.faults inputs.new)) files.now result }
{
    let parts = read_parts(alloc, inputs, files)?;
    let joined = join(alloc, parts.as_slice());
    drop(parts);
    told(alloc, joined)
}

/// What the command tells of what the parts join to.
fn told(alloc: Global, joined: Result<Proof, JoinFault>) -> Result<Joined, CommandFault>
    ensures { TellsJoined joined result }
{
    match joined {
        Ok(proof) => Ok(Joined::Whole(written(alloc, proof)?)),
        Err(JoinFault::Gap { place }) => Ok(Joined::Unfit { place }),
        Err(JoinFault::NoMemory) => Err(CommandFault::NoMemory),
    }
}

/// The bytes of the proof, which is given up.
fn written(alloc: Global, proof: Proof) -> Result<Bytes, NoMemory>
    ensures { IfOk result (λ bytes. bytes ≡ proof_bytes proof) }
{
    let bytes = write_proof(alloc, &proof);
    drop(proof);
    bytes
}
