// Folders of the tests' own, and what lies in them.

use std::fs;

/// Makes this folder anew, and tells whether that went well.
pub(crate) fn make_folder(rt: &HostRuntime, folder: &str) -> bool {
    let _ = fs::remove_dir_all(rt, folder);
    fs::create_dir(rt, folder).is_ok()
}

/// Removes the folder with all that it holds, and tells whether that went well.
pub(crate) fn remove_folder(rt: &HostRuntime, folder: &str) -> bool {
    fs::remove_dir_all(rt, folder).is_ok()
}

/// Writes the file anew, and tells whether that went well.
pub(crate) fn write_file(rt: &HostRuntime, path: &str, bytes: &[u8]) -> bool {
    fs::write(rt, path, bytes).is_ok()
}

/// How many bytes the file has; none where it isn't there.
pub(crate) fn size_of(rt: &HostRuntime, path: &str) -> Option<u64> {
    match fs::metadata(rt, path) {
        Ok(metadata) => Some(metadata.len()),
        Err(_) => None,
    }
}
