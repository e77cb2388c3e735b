// Pages, entries and proofs, by the SHA-256 of their bytes.

use crate::stop::Stop;
use hex::encode;
use sha2::{Digest as _, Sha256};
use std::alloc::Global;
use tw_base::limits::PAGE_SIZE;
use tw_base::{Bytes, Entry, Hasher, NoMemory, Page, Sha, TreeProof, put_entry};
use tw_disk::limits::FIRST_PAGE;
use tw_disk::{MemPages, Pages, WalkFault, read_page};
use tw_treeproof::put_tree_proof;

/// The bytes of the page of this number.
pub fn bytes_of_page(pages: &mut MemPages, page: u64) -> Result<Page, WalkFault> {
    let mut bytes = [0; PAGE_SIZE];
    read_page(pages, page, &mut bytes)?;
    Ok(bytes)
}

/// The SHA-256 of all pages from the first one that can be read, one after another.
pub fn digest_of_pages(alloc: Global, pages: &mut MemPages) -> Result<String, Stop> {
    let mut hasher = Sha256::new();
    for page in FIRST_PAGE..pages.used() {
        hasher.update(&bytes_of_page(pages, page)?);
    }
    Ok(encode(alloc, hasher.finalize())?)
}

/// The SHA-256 of the bytes of these entries.
pub fn digest_of_entries(alloc: Global, entries: &[Entry]) -> Result<String, Stop> {
    let mut bytes = Bytes::new(alloc);
    for entry in entries {
        put_entry(&mut bytes, entry)?;
    }
    Ok(encode(alloc, Sha::digest(bytes.as_slice()).0)?)
}

/// The SHA-256 of the bytes of a proof.
pub fn digest_of_proof(alloc: Global, proof: &TreeProof) -> Result<String, Stop> {
    let mut bytes = Bytes::new(alloc);
    put_tree_proof(&mut bytes, proof)?;
    Ok(encode(alloc, Sha::digest(bytes.as_slice()).0)?)
}
