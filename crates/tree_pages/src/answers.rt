// Doing what a line says, and the line that is printed of it.

use crate::command::Command;
use crate::digests::{bytes_of_page, digest_of_entries, digest_of_pages, digest_of_proof};
use crate::entries::key;
use crate::stop::Stop;
use crate::versions::Versions;
use crate::walks::{by_key, from_greatest, from_least};
use std::alloc::Global;
use tw_base::{Ask, Entry, Sha, TreeProof};
use tw_disk::{MemPages, Pages};
use tw_rbnode::{level, read_node};
use tw_rbtree::{TreeFault, get, path};

/// Does what the command says, and answers the line that is to be printed, if one is.
pub fn answer(alloc: Global, versions: &mut Versions, command: Command) -> Result<String, Stop> {
    match command {
        Command::Insert(number) => versions.insert(alloc, number)?,
        Command::At(number) => versions.look_at(number)?,
        Command::Root => return root(alloc, versions),
        Command::Pages => return pages(alloc, versions),
        Command::List => return list(alloc, versions),
        Command::Get(number) => return got(alloc, versions, number),
        Command::Present(number) => return present(alloc, versions, number),
        Command::Absent(step) => return absent(alloc, versions, step),
    }
    Ok(String::new(alloc))
}

/// The line of the version's root.
fn root(alloc: Global, versions: &mut Versions) -> Result<String, Stop> {
    let entries = versions.now.entries;
    let used = versions.pages.used();
    let page = versions.now.root.page;
    let level = level_of(versions, page)?;
    let label = hex::encode(alloc, versions.now.root.label.0)?;
    Ok(format!(in alloc; "root {entries} {used} {page} {level} {label}\n")?)
}

/// The level of a page; 0 of none.
fn level_of(versions: &mut Versions, page: u64) -> Result<u8, TreeFault> {
    if page == 0 {
        return Ok(0);
    }
    let bytes = bytes_of_page(&mut versions.pages, page)?;
    match read_node::<Sha>(&bytes, page) {
        Some(node) => Ok(level(&node)),
        None => Err(TreeFault::BadPage { page }),
    }
}

/// The line of all pages.
fn pages(alloc: Global, versions: &mut Versions) -> Result<String, Stop> {
    let digest = digest_of_pages(alloc, &mut versions.pages)?;
    Ok(format!(in alloc; "pages {digest}\n")?)
}

/// The line of what the version lists.
fn list(alloc: Global, versions: &mut Versions) -> Result<String, Stop> {
    let entries = from_least(alloc, versions)?;
    let count = entries.len();
    let up = digest_of_entries(alloc, entries.as_slice())?;
    let from_above = from_greatest(alloc, versions)?;
    let down = digest_of_entries(alloc, from_above.as_slice())?;
    let by_key = by_key(alloc, versions, entries.as_slice())?;
    let found = digest_of_entries(alloc, by_key.as_slice())?;
    Ok(format!(in alloc; "list {count} {up} {down} {found}\n")?)
}

/// The entry of this number, where the version has it.
fn entry_of(versions: &mut Versions, number: u64) -> Result<Option<Entry>, Stop> {
    let asked = key(number, number).ok_or(Stop::BadLine)?;
    Ok(get::<MemPages, Sha>(&mut versions.pages, &versions.now.root, &asked)?)
}

/// The line of the entry of this number.
fn got(alloc: Global, versions: &mut Versions, number: u64) -> Result<String, Stop> {
    let before = versions.pages.reads();
    let archived = match entry_of(versions, number)? {
        Some(entry) => entry.archived,
        None => 0,
    };
    let reads = versions.pages.reads().saturating_sub(before);
    Ok(format!(in alloc; "get {reads} {archived}\n")?)
}

/// The line of the proof of the entry of this number.
fn present(alloc: Global, versions: &mut Versions, number: u64) -> Result<String, Stop> {
    let entry = entry_of(versions, number)?.ok_or(Stop::Tree(TreeFault::Untrue))?;
    proof(alloc, versions, &Ask::Present(entry))
}

/// The line of the proof that the first service has no entry of this step.
fn absent(alloc: Global, versions: &mut Versions, step: u64) -> Result<String, Stop> {
    let asked = key(0, step).ok_or(Stop::BadLine)?;
    proof(alloc, versions, &Ask::Absent(asked))
}

/// The line of the proof of what is asked.
fn proof(alloc: Global, versions: &mut Versions, ask: &Ask) -> Result<String, Stop> {
    let shown = path::<MemPages, Sha>(alloc, &mut versions.pages, &versions.now.root, ask)?;
    let digest = digest_of_proof(alloc, &shown)?;
    let count = match shown {
        TreeProof::Present { ancestors, .. } | TreeProof::Gap { ancestors } => ancestors.len(),
    };
    Ok(format!(in alloc; "proof {count} {digest}\n")?)
}
