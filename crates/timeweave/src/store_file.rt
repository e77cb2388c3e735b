// Which file the program opens for its words, and how; which command does what with its store is told in tw_app/src/store.rt.

ghost use Rattle.std.specs.Prelude.{◌≡◌, map, string_bytes, IfOk};
ghost use Rattle.timeweave.specs.StoreFiles.{IsStoreFile, file_access, store_path};

use std::alloc::Global;
use tw_app::{StoreAccess, store_of};
use tw_base::NoMemory;
use tw_hostio::Access;

/// The file of a store, and what the program may do with it.
#[derive(Drop)]
pub struct StoreFile {
    pub path: String,
    pub access: Access,
}

/// The file of the store that the words ask for, which don't hold the program's own name. Where they ask for none it has no
/// path, and no command makes a call of it.
pub fn file_of(alloc: Global, words: &[String]) -> Result<StoreFile, NoMemory>
    // It is the file `timeline.tw` of the words' folder, opened to be written exactly where their command writes the store.
    ensures { IfOk result (IsStoreFile (map string_bytes words.now)) }
{
    match store_of(alloc, words)? {
        Some(store) => Ok(StoreFile {
            path: path_of_store(alloc, store.folder)?,
            access: access_of(store.access),
        }),
        None => Ok(StoreFile {
            path: String::new(alloc),
            access: Access::Read,
        }),
    }
}

/// What the program may do with the file of a store, where a command does this with the store.
fn access_of(access: StoreAccess) -> Access
    ensures { result ≡ file_access access }
{
    match access {
        StoreAccess::Read => Access::Read,
        StoreAccess::Write => Access::Write,
    }
}

/// The path of the store in the folder.
fn path_of_store(alloc: Global, folder: &str) -> Result<String, NoMemory>
    ensures { IfOk result (λ path. string_bytes path ≡ store_path folder.now) }
{
    let mut path = String::new(alloc);
    path.push_str(folder)?;
    path.push_str("/timeline.tw")?;
    Ok(path)
}
