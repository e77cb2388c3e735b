// The file of a path as the file of a disk. Each method makes one call of the system; what opening is made of stands in `opening.rt`.

ghost use Rattle.std.specs.Prelude.{◌^◌, ◌-◌, None, Some, IfOk};
ghost use Rattle.tw_hostio.specs.HostFile.{host_stage, nothing_told};

use crate::access::Access;
use crate::call_fault::{CallFault, answer_of};
use crate::file_stage::FileStage;
use crate::opening::open_file;
use crate::page_file::PageFile;
use std::fs::File;
use std::io::ErrorKind;
use std::os::unix::fs::FileExt as _;
use std::rt::Files;

/// The file of a path, whose folder has to be there. It tells neither its bytes nor what a crash may leave of them.
///
/// By `Access::Write` the file is made where there is none, and its folder is synced as it is opened. By `Access::Read` one that isn't
/// there stays none. The file's advisory lock is held from the opening until the file is dropped, alone or together with others that
/// read, and is waited for. What isn't a regular file can't be opened.
///
/// That a file of the system is one as `PageFile` says, and that nobody writes it who doesn't take the lock, is trusted.
#[derive(Drop)]
pub struct HostFile<'a, R: Files> {
    rt: &'a R,
    path: &'a str,
    access: Access,
    file: Option<File>,
}

impl<'a, R: Files> HostFile<'a, R> {
    /// The file of this path. It isn't opened yet.
    pub fn new(rt: &'a R, path: &'a str, access: Access) -> Self {
        HostFile {
            rt,
            path,
            access,
            file: None,
        }
    }

    /// The file that was opened.
    fn opened(&self) -> Result<&File, CallFault> {
        match &self.file {
            Some(file) => Ok(file),
            None => Err(CallFault::Failure),
        }
    }
}

impl<R: Files<File = File> + Alloc> PageFile for HostFile<'_, R> {
    ghost view = { λ file. record { bytes = None; may_leave = λ _. ⊥; moment = 0; left_since = λ _ _. ⊥; stage = host_stage file.access file.file; faults = 2 ^ 64 - 1 } };

    ghost as_it_reads = { λ file bytes is. nothing_told bytes _ is };

    ghost counts_now = { λ file t bytes le left. left };

    ghost only_now = { λ file bytes left. left };

    fn open(&mut self) -> Result<FileStage, CallFault> {
        if self.file.is_none() {
            self.file = answer_of(open_file(self.rt, self.path, self.access))?;
        }
        match (self.access, &self.file) {
            (_, None) => Ok(FileStage::Closed),
            (Access::Read, Some(_)) => Ok(FileStage::Locked),
            (Access::Write, Some(_)) => Ok(FileStage::Named),
        }
    }

    fn len(&mut self) -> Result<u64, CallFault> {
        Ok(answer_of(self.opened()?.metadata())?.len())
    }

    fn read_some(&mut self, at: u64, into: &mut [u8]) -> Result<usize, CallFault> {
        answer_of(self.opened()?.read_at(into, at))
    }

    fn write_some(&mut self, at: u64, from: &[u8]) -> Result<usize, CallFault> {
        match answer_of(self.opened()?.write_at(from, at)) {
            Ok(0) if !from.is_empty() => Err(CallFault::Failure),
            answer => answer,
        }
    }

    /// Where the file is only read, its file system may be one that is never written. Linux then tells that it can't be synced, and
    /// nothing is to be made stable.
    fn sync(&mut self) -> Result<(), CallFault> {
        match (self.access, self.opened()?.sync_all()) {
            (Access::Read, Err(error)) if error.kind() == ErrorKind::InvalidInput => Ok(()),
            (_, answer) => answer_of(answer),
        }
    }
}
