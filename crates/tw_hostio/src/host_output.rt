// Standard output as the output of a sink. A write makes one call of the system.

ghost use Rattle.std.specs.Prelude.{◌^◌, ◌-◌, None};

use crate::call_fault::{CallFault, answer_of};
use crate::output_stream::OutputStream;
use std::io::{self, Print, Write as _};

/// Standard output. It doesn't tell what it has taken.
#[derive(Drop)]
pub struct HostOutput<'a, R: Print> {
    rt: &'a R,
}

impl<'a, R: Print> HostOutput<'a, R> {
    /// Nothing is written yet.
    pub fn new(rt: &'a R) -> Self {
        HostOutput { rt }
    }
}

impl<R: Print> OutputStream for HostOutput<'_, R> {
    ghost taken = { λ _. None };

    ghost faults = { λ _. 2 ^ 64 - 1 };

    fn write_some(&mut self, piece: &[u8]) -> Result<usize, CallFault> {
        match answer_of(io::writer(self.rt).write(piece)) {
            Ok(0) if !piece.is_empty() => Err(CallFault::Failure),
            answer => answer,
        }
    }
}
