// The tree in memory of tw_tree, by the worked values of an archive of one thread, and what lies beside a key. What trees answer is what
// their clauses say of the sorted list.

ghost use Rattle.tw_base.specs.history.Tree.{IsRising, entries};
ghost use Rattle.tw_tree.specs.TreeMeaning.{meant_tree};

use crate::weak::short;
use std::alloc::Global;
use std::process::Abort;
use std::test::Fail;
use tw_base::{Bytes, Entry, Name, Thread, Weak, entry_key};
use tw_tree::{InsertFault, Tree, after, before, insert_plain, label, list, prove};
use tw_treeproof::{Ask, Shown, check, put_tree_proof, take_present};

/// The entry of a step of the service `a`, received at step 1.
fn entry_of(rt: &impl Abort, step: u64) -> Entry {
    Entry {
        thread: Thread {
            from: Name::read(b"a").expect(rt, "a name"),
            step,
            auth: short(0xbf),
        },
        archived: 1,
    }
}

/// That of its step 1.
fn only_entry(rt: &impl Abort) -> Entry {
    entry_of(rt, 1)
}

#[test]
fn the_label_of_an_only_entry(rt: HostRuntime) -> Result<(), Fail> {
    assert_eq!(rt; label::<Weak>(&Tree::empty()), short(0x14));
    let tree = Tree::branch(rt.alloc(), Tree::empty(), only_entry(&rt), Tree::empty())?;
    assert_eq!(rt; label::<Weak>(&tree), short(0x5f));
    assert_eq!(rt; list(rt.alloc(), &tree)?.len(), 1);
    Ok(())
}

/// The bytes of the tree's proof of its only entry.
fn spelled(rt: &impl Abort, alloc: Global) -> Result<Bytes, Fail> {
    let tree = insert_plain(alloc, &Tree::empty(), only_entry(rt))?;
    let proof = prove::<Weak>(alloc, &tree, &Ask::Present(only_entry(rt)))?;
    let mut bytes = Bytes::new(alloc);
    put_tree_proof(&mut bytes, &proof)?;
    Ok(bytes)
}

/// Whether they are no node above, and two empty places beside.
fn has_empty_sides(bytes: &[u8]) -> bool {
    bytes.len() == 65 && bytes[0] == 0 && bytes[1] == 0x14 && bytes[33] == 0x14
}

/// Whether they show the entry under the tree's label.
fn is_shown(rt: &impl Abort, alloc: Global, bytes: &[u8]) -> bool {
    match take_present(alloc, bytes, &mut 0) {
        Ok(read) => {
            check::<Weak>(&short(0x5f), &Ask::Present(only_entry(rt)), &read) == Shown::Present
        }
        Err(_) => false,
    }
}

#[test]
fn the_proof_of_an_only_entry(rt: HostRuntime) -> Result<(), Fail> {
    let bytes = spelled(&rt, rt.alloc())?;
    assert!(rt; has_empty_sides(bytes.as_slice()));
    assert!(rt; is_shown(&rt, rt.alloc(), bytes.as_slice()));
    Ok(())
}

/// The steps of the entries below and above the key of a step of `a`; 0 where there is none.
fn beside(rt: &impl Abort, tree: &Tree, step: u64) -> (u64, u64)
    requires { IsRising (entries (meant_tree tree.now)) }
{
    let key = entry_key(&entry_of(rt, step));
    (step_of(before(tree, &key)), step_of(after(tree, &key)))
}

/// The step of the entry.
fn step_of(entry: Option<Entry>) -> u64 {
    match entry {
        Some(entry) => entry.thread.step,
        None => 0,
    }
}

#[test]
fn entries_beside_a_key(rt: HostRuntime) -> Result<(), Fail> {
    let tree = insert_plain(rt.alloc(), &Tree::empty(), entry_of(&rt, 4))?;
    let tree = insert_plain(rt.alloc(), &tree, entry_of(&rt, 2))?;
    let tree = insert_plain(rt.alloc(), &tree, entry_of(&rt, 6))?;
    assert_eq!(rt; beside(&rt, &tree, 2), (0, 4));
    assert_eq!(rt; beside(&rt, &tree, 5), (4, 6));
    assert_eq!(rt; beside(&rt, &tree, 6), (4, 0));
    let again = insert_plain(rt.alloc(), &tree, entry_of(&rt, 6));
    assert!(rt; matches!(again, Err(InsertFault::Present)));
    Ok(())
}
