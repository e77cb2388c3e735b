// Why a call of the system gave no answer.

ghost use Rattle.std.specs.Prelude.{◌≡◌, ◌≤◌, Ok, IsErr, MatchResult};
ghost use Rattle.tw_base.specs.kinds.Faults.{Rose};

use std::io::{self, ErrorKind};

/// Why a call of the system gave no answer.
#[derive(Clone, Copy, PartialEq, Eq, Debug, Drop)]
pub enum CallFault {
    /// A signal interrupted it before it did anything, so it can be made again.
    Interrupted,
    /// It failed.
    Failure,
}

/// What a call of `std` answered.
pub(crate) fn answer_of<T>(answer: io::Result<T>) -> Result<T, CallFault>
    ensures { MatchResult answer (λ value. result ≡ Ok value) (λ error. IsErr result) }
{
    match answer {
        Ok(value) => Ok(value),
        Err(error) if error.kind() == ErrorKind::Interrupted => Err(CallFault::Interrupted),
        Err(_) => Err(CallFault::Failure),
    }
}

/// Counts a call that gave no answer, and tells its fault.
pub(crate) fn counted(faults: &mut u64, fault: CallFault) -> CallFault
    ensures later { faults.old ≤ faults.new }
    ensures rose { Rose faults.old faults.new }
    ensures same { result ≡ fault }
{
    *faults = faults.saturating_add(1);
    fault
}
