// The command `generate`, which plays three services by a number; tw_generate/src/generating.rt has the call.

ghost use Rattle.std.specs.Prelude.{◌≤◌};
ghost use Rattle.tw_app.specs.Generating.{GenerateComes};

use std::alloc::Global;
use tw_base::Bytes;
use tw_generate::{GenerateFault, Generated, generate};
use tw_text::CommandFault;

/// Plays so many rounds, at most 10,000, of three services on disks in memory, by this number, and answers the summary of what came of
/// them.
// It stays a call, so that other commands don't have its frame on the stack.
#[inline(never)]
pub(crate) fn generate_world(alloc: Global, number: u64, rounds: u64) -> Result<Bytes, CommandFault>
    requires { rounds ≤ 10000 }
    ensures { GenerateComes number rounds result }
{
    let Generated {
        text,
        alpha,
        beta,
        gamma,
    } = match generate(alloc, number, rounds) {
        Ok(made) => made,
        Err(GenerateFault::NoMemory) => return Err(CommandFault::NoMemory),
        Err(GenerateFault::TooMany) => unreachable!(),
    };
    drop(alpha);
    drop(beta);
    drop(gamma);
    Ok(text)
}
