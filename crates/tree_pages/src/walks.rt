// The entries of a version as the calls of tw_rbtree find them: upwards, downwards, and by their keys.

use crate::entries::{SERVICES, key};
use crate::stop::Stop;
use crate::versions::Versions;
use std::alloc::Global;
use tw_base::{Entries, Entry, Key, Sha, entry_key};
use tw_disk::MemPages;
use tw_rbtree::{after, before, get};

/// The entries from the least one up, each found behind the one before; no entry has a step of 0, so the first is found, too.
pub fn from_least(alloc: Global, versions: &mut Versions) -> Result<Entries, Stop> {
    walk(alloc, versions, key(0, 0), true)
}

/// The entries from the greatest one down, each found before the one behind.
pub fn from_greatest(alloc: Global, versions: &mut Versions) -> Result<Entries, Stop> {
    walk(alloc, versions, key(SERVICES - 1, u64::MAX), false)
}

/// The entries above this key upwards, or those below it downwards.
fn walk(
    alloc: Global,
    versions: &mut Versions,
    start: Option<Key>,
    is_upwards: bool,
) -> Result<Entries, Stop> {
    let mut entries = Entries::new(alloc);
    let mut last = start.ok_or(Stop::BadLine)?;
    for _ in 0..u64::MAX {
        let found = if is_upwards {
            after::<MemPages, Sha>(&mut versions.pages, &versions.now.root, &last)?
        } else {
            before::<MemPages, Sha>(&mut versions.pages, &versions.now.root, &last)?
        };
        let Some(entry) = found else { break };
        entries.push(entry)?;
        last = entry_key(&entry);
    }
    Ok(entries)
}

/// Those that are found by the keys of these entries.
pub fn by_key(alloc: Global, versions: &mut Versions, entries: &[Entry]) -> Result<Entries, Stop> {
    let mut found = Entries::new(alloc);
    for entry in entries {
        let key = entry_key(entry);
        if let Some(entry) = get::<MemPages, Sha>(&mut versions.pages, &versions.now.root, &key)? {
            found.push(entry)?;
        }
    }
    Ok(found)
}
