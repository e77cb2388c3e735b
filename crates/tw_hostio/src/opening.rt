// Opening the file of a disk and taking its lock; what its pages hold is judged in tw_pages/src/open.rt.

use crate::access::Access;
use crate::again::again;
use std::fs::{self, File, OpenOptions};
use std::io::{self, ErrorKind};
use std::os::unix::fs::MetadataExt as _;
use std::path::Path;
use std::rt::Files;

/// Opens the file and takes its lock. None where it isn't there and is only to be read.
pub(crate) fn open_file<R: Files<File = File> + Alloc>(
    rt: &R,
    path: &str,
    access: Access,
) -> io::Result<Option<File>> {
    match access {
        Access::Read => open_to_read(rt, path),
        Access::Write => Ok(Some(open_to_write(rt, path)?)),
    }
}

/// Opens the file to read it, and waits while another program holds its lock to write. None where its folder has no such file.
/// What isn't a regular file is an error, and so is a file that lost its name to another one meanwhile.
fn open_to_read<R: Files<File = File>>(rt: &R, path: &str) -> io::Result<Option<File>> {
    refuse_others(rt, path)?;
    match fs::open(rt, path) {
        Ok(file) => {
            file.lock_shared()?;
            expect_named(rt, path, &file)?;
            Ok(Some(file))
        }
        Err(error) if error.kind() == ErrorKind::NotFound => {
            again(|| fs::metadata(rt, folder_of(path)))?;
            Ok(None)
        }
        Err(error) => Err(error),
    }
}

/// Opens the file to read and write it, made where there is none, and waits while another program holds its lock. Its folder
/// is synced each time, so that nothing is written into a file whose name a crash might still take away, as that of a copy; of
/// a symbolic link the folder of its target is synced too. What isn't a regular file is an error, and so is a file that lost
/// its name to another one meanwhile.
fn open_to_write<R: Files<File = File> + Alloc>(rt: &R, path: &str) -> io::Result<File> {
    refuse_others(rt, path)?;
    let file = OpenOptions::new()
        .read(true)
        .write(true)
        .create(true)
        .open(rt, path)?;
    file.lock()?;
    if again(|| fs::symlink_metadata(rt, path))?.is_symlink() {
        let target = again(|| fs::canonicalize(rt, path))?;
        sync_folder_of(rt, target.as_str())?;
    }
    sync_folder_of(rt, path)?;
    expect_named(rt, path, &file)?;
    Ok(file)
}

/// An error where something else than a regular file is at the path. So a device isn't opened, nor a pipe waited for.
fn refuse_others<R: Files<File = File>>(rt: &R, path: &str) -> io::Result<()> {
    match again(|| fs::metadata(rt, path)) {
        Ok(there) if there.is_file() => Ok(()),
        Ok(_) => Err(io::Error::from(ErrorKind::InvalidInput)),
        Err(error) if error.kind() == ErrorKind::NotFound => Ok(()),
        Err(error) => Err(error),
    }
}

/// An error where the open file isn't a regular one, or isn't the one at the path.
fn expect_named<R: Files<File = File>>(rt: &R, path: &str, file: &File) -> io::Result<()> {
    let opened = again(|| file.metadata())?;
    let named = again(|| fs::metadata(rt, path))?;
    if opened.is_file() && (named.dev(), named.ino()) == (opened.dev(), opened.ino()) {
        Ok(())
    } else {
        Err(io::Error::from(ErrorKind::NotFound))
    }
}

/// Makes the names in the folder stable that the file of this path lies in.
fn sync_folder_of<R: Files<File = File>>(rt: &R, path: &str) -> io::Result<()> {
    fs::open(rt, folder_of(path))?.sync_all()
}

/// The folder that the file of this path lies in.
fn folder_of(path: &str) -> &str {
    match Path::new(path).parent() {
        Some(folder) if !folder.as_str().is_empty() => folder.as_str(),
        _ => ".",
    }
}
