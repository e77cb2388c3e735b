// The authenticator of one step of a history in memory, by a pass over the steps up to it; tests alone ask for it.

ghost use Rattle.std.specs.Prelude.{◌≡◌, ◌<◌, ◌≤◌, length, IfOk, MatchOption};
ghost use Rattle.tw_base.specs.history.Auth.{auth};

use crate::history::History;
use crate::lookup::count_of_steps;
use crate::pass::{auth_passed, begin_pass, pass_steps};
use std::alloc::Global;
use tw_base::{Digest, Hasher, NoMemory, Unwritten};

/// The authenticator of a step of the history, 0 for its beginning; None exactly where the step is
/// above the last. Each text that it stands on is hashed once; the memory is linear in the history.
pub fn auth_of<H: Hasher>(
    alloc: Global,
    history: &History,
    step: u64,
) -> Result<Option<Digest>, NoMemory>
    // The authenticator of a step of a history is the one of the definitions; none exactly where there is no such step.
    ensures authenticator { IfOk result (λ found. MatchOption found (length history.now.steps < step)
        (λ digest. (step ≤ length history.now.steps) × (digest ≡ auth H.dig history.now step))) }
{
    if step > count_of_steps(history) {
        return Ok(None);
    }
    let mut texts = Unwritten::<H>::new();
    let mut digests = begin_pass(alloc, history, &mut texts)?;
    pass_steps(history, 0, step, &mut digests, &mut texts)?;
    Ok(Some(auth_passed(&digests)))
}
