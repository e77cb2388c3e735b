// What is numbered of a service's archive, step by step: its nodes in the file so far, and which of them is the root.

ghost use Rattle.std.specs.Prelude.{◌≡◌, ℕ, ◌+◌, ◌<◌, ◌^◌, MatchOption, OnOk, false, length, true};
ghost use Rattle.tw_export.specs.NodeNumbers.{are_known, no_archive, node_number_at, with_nodes, with_pages};
ghost use Rattle.tw_export.specs.Told.{archive_so_far, numbers_in};

use crate::nodes::are_numbered;
use crate::numbers::PageNumbers;
use std::alloc::Global;
use tw_base::NoMemory;
use tw_disk::limits::FIRST_PAGE;
use tw_rbtree::NewNode;

/// What is numbered so far: the pages, and how many nodes; and the number of the archive's root, and the page
/// behind that of the last step.
#[derive(Drop)]
pub(crate) struct ArchiveSoFar {
    pub pages: PageNumbers,
    pub count: u64,
    pub root: u64,
    pub since: u64,
}

/// Before the first step. Takes no memory.
pub(crate) fn empty_archive(alloc: Global) -> ArchiveSoFar
    ensures { archive_so_far result ≡ no_archive }
{
    ArchiveSoFar {
        pages: PageNumbers::new(alloc),
        count: 0,
        root: 0,
        since: FIRST_PAGE,
    }
}

/// The number of the page's root, where these nodes are numbered too, behind so many.
fn number_with(numbers: &PageNumbers, before: u64, nodes: &[NewNode], page: u64) -> Option<u64>
    requires { before + length nodes.now < 2 ^ 64 }
    ensures { result ≡ with_pages (numbers_in numbers.now) before nodes.now page }
{
    let mut number = before;
    for node in nodes {
        number += 1;
        if node.page != 0 && node.page == page {
            return Some(number);
        }
    }
    numbers.of(page)
}

/// The number of the root of this page, where these nodes are new; None where an older page at one of their
/// sides, or the root's page, has no number.
pub(crate) fn root_number(archive: &ArchiveSoFar, nodes: &[NewNode], page: u64) -> Option<u64>
    requires { archive.now.count + length nodes.now < 2 ^ 64 }
    ensures { MatchOption result (are_known (archive_so_far archive.now) nodes.now page ≡ false)
        (λ root. (are_known (archive_so_far archive.now) nodes.now page ≡ true) × (root ≡ node_number_at (with_pages (numbers_in archive.now.pages) archive.now.count nodes.now) page)) }
{
    if !are_numbered(&archive.pages, nodes) {
        return None;
    }
    let number = number_with(&archive.pages, archive.count, nodes, page);
    if page == 0 && number.is_none() {
        return Some(0);
    }
    number
}

/// Numbers the pages whose roots these nodes are, behind so many nodes.
fn put_pages(numbers: &mut PageNumbers, before: u64, nodes: &[NewNode]) -> Result<(), NoMemory>
    requires { before + length nodes.now < 2 ^ 64 }
    ensures { OnOk result ((page : ℕ) → numbers_in numbers.new page ≡ with_pages (numbers_in numbers.old) before nodes.now page) }
{
    let mut left = nodes.len();
    while left > 0 {
        let page = nodes[left - 1].page;
        if page != 0 {
            numbers.put(page, before + left as u64)?;
        }
        left -= 1;
    }
    Ok(())
}

/// The archive behind the step, which stands in the page `step`: with these nodes, and a root that stands in
/// the page `page` and has this number.
pub(crate) fn add_nodes(
    archive: &mut ArchiveSoFar,
    nodes: &[NewNode],
    page: u64,
    root: u64,
    step: u64,
) -> Result<(), NoMemory>
    requires count { archive.old.count + length nodes.now < 2 ^ 64 }
    requires step { step + 1 < 2 ^ 64 }
    requires root { root ≡ node_number_at (with_pages (numbers_in archive.old.pages) archive.old.count nodes.now) page }
    ensures { OnOk result (archive_so_far archive.new ≡ with_nodes (archive_so_far archive.old) nodes.now page step) }
{
    put_pages(&mut archive.pages, archive.count, nodes)?;
    archive.count += nodes.len() as u64;
    archive.root = root;
    archive.since = step + 1;
    Ok(())
}
