// An archive's tree in pages in memory: an insert that splits the root, and the root before it. Its pages are what the acceptance run
// compares, by the program `tree_pages`.

ghost use Rattle.std.specs.Prelude.{IfOk};
ghost use Rattle.tw_base.specs.history.Limits.{IsEntryInRange, IsStep};

use std::alloc::Global;
use std::test::Fail;
use tw_base::{Digest, Entry, Key, Name, Root, Sha, Thread, empty_tree};
use tw_disk::{MemPages, Pages};
use tw_rbtree::{TreeFault, fresh, get, insert};

/// The entry of a step of the service `a`, received at step 1.
fn entry(step: u64) -> Result<Entry, Fail>
    requires { IsStep step }
    ensures { IfOk result (λ entry. IsEntryInRange entry) }
{
    let from = Name::read(b"a").ok_or("no name")?;
    Ok(Entry {
        thread: Thread {
            from,
            step,
            auth: Digest([7; 32]),
        },
        archived: 1,
    })
}

/// The root of the tree with this entry more.
fn add(alloc: Global, pages: &mut MemPages, root: &Root, entry: Entry) -> Result<Root, TreeFault>
    requires { IsEntryInRange entry }
{
    if pages.used() >= 1 << 47 {
        return Err(TreeFault::NoMemory);
    }
    insert::<MemPages, Sha>(alloc, pages, root, entry)
}

/// The root of the tree with the entries of the steps up to this one, in order.
fn up_to(alloc: Global, pages: &mut MemPages, last: u8) -> Result<Root, Fail> {
    let mut root = Root {
        page: 0,
        label: empty_tree::<Sha>(),
    };
    for step in 1..=last {
        let next = add(alloc, pages, &root, entry(step as u64)?)?;
        root = next;
    }
    Ok(root)
}

/// The step of the key that is found, where there is one.
fn found(pages: &mut MemPages, root: &Root, step: u64) -> Result<Option<u64>, Fail> {
    let from = Name::read(b"a").ok_or("no name")?;
    let entry = get::<MemPages, Sha>(pages, root, &Key { from, step })?;
    Ok(entry.map(|entry| entry.thread.step))
}

/// Whether the tree has exactly the entries of the steps up to this one, of those up to 26, each found in two reads at most.
fn has_up_to(pages: &mut MemPages, root: &Root, last: u64) -> Result<bool, Fail> {
    for step in 0..27 {
        let wanted = if step == 0 || step > last {
            None
        } else {
            Some(step)
        };
        let reads = pages.reads();
        let is_found = found(pages, root, step)? == wanted;
        if !is_found || pages.reads().saturating_sub(reads) > 2 {
            return Ok(false);
        }
    }
    Ok(true)
}

#[test]
fn the_25th_key_splits_the_root(rt: HostRuntime) -> Result<(), Fail> {
    let mut pages = MemPages::new(rt.alloc())?;
    let old = up_to(rt.alloc(), &mut pages, 24)?;
    let since = pages.used();
    let new = add(rt.alloc(), &mut pages, &old, entry(25)?)?;
    assert_eq!(rt; pages.used(), since.saturating_add(3));
    let nodes = fresh::<MemPages, Sha>(rt.alloc(), &mut pages, &new, since)?;
    assert_eq!(rt; nodes.len(), 25);
    let last = nodes.as_slice().last().ok_or("no node")?;
    assert_eq!(rt; last.entry.thread.step, 13);
    assert_eq!(rt; last.page, new.page);
    Ok(())
}

#[test]
fn an_earlier_root_keeps_its_24_keys(rt: HostRuntime) -> Result<(), Fail> {
    let mut pages = MemPages::new(rt.alloc())?;
    let old = up_to(rt.alloc(), &mut pages, 24)?;
    let new = add(rt.alloc(), &mut pages, &old, entry(25)?)?;
    assert!(rt; has_up_to(&mut pages, &old, 24)?);
    assert!(rt; has_up_to(&mut pages, &new, 25)?);
    let again = add(rt.alloc(), &mut pages, &new, entry(25)?);
    assert_eq!(rt; again, Err(TreeFault::Present));
    Ok(())
}
