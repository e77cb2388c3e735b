// The files of this computer as input files. Each method makes one call of the system.

ghost use Rattle.std.specs.Prelude.{◌^◌, ◌-◌, None, is_some};

use crate::call_fault::{CallFault, answer_of};
use crate::input_file::InputFile;
use std::fs::{self, File};
use std::io::{Read as _, Seek as _, SeekFrom};
use std::rt::Files;

/// The files of this computer, by their paths. They don't tell what they hold, nor which of them is open.
#[derive(Drop)]
pub struct HostInput<'a, R: Files> {
    rt: &'a R,
    file: Option<File>,
}

impl<'a, R: Files> HostInput<'a, R> {
    /// No file is open.
    pub fn new(rt: &'a R) -> Self {
        HostInput { rt, file: None }
    }
}

impl<R: Files<File = File>> InputFile for HostInput<'_, R> {
    ghost told = { λ _. None };

    ghost stands = { λ input name place. is_some input.file };

    ghost faults = { λ _. 2 ^ 64 - 1 };

    fn open(&mut self, name: &str) -> Result<(), CallFault> {
        self.file = Some(answer_of(fs::open(self.rt, name))?);
        Ok(())
    }

    fn seek(&mut self, to: u64) -> Result<(), CallFault> {
        match &mut self.file {
            Some(file) => {
                answer_of(file.seek(SeekFrom::Start(to)))?;
                Ok(())
            }
            None => Err(CallFault::Failure),
        }
    }

    fn read_some(&mut self, into: &mut [u8]) -> Result<usize, CallFault> {
        match &mut self.file {
            Some(file) => answer_of(file.read(into)),
            None => Err(CallFault::Failure),
        }
    }

    fn close(&mut self) {
        self.file = None;
    }
}
