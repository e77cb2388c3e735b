// The proofs that a service makes of its pages that a step's archive holds a thread, or none of a key; `proving.rt` makes the others.

ghost use Rattle.std.specs.Prelude.{◌≡◌, ◌⊎◌, ◌≤◌, IfErr, IfOk, Some};
ghost use Rattle.tw_disk.specs.Answers.{ReadsOr, ReadsWhere};
ghost use Rattle.tw_answers.specs.Finds.{absence_bytes, absence_proof, entry_thread, found_absence_of, found_thread_of, thread_bytes, thread_proof, tree_shown};
ghost use Rattle.tw_answers.specs.Refusals.{IsFault, IsHasThread, IsNoThread, service_refusals};

use crate::proving::part_under;
use crate::refusal::refusal_of_tree;
use std::alloc::Global;
use tw_base::limits::LAST_STEP;
use tw_base::{Ask, Bytes, Entry, Hasher, Key, Name, NoMemory, Refusal, Root, TreeProof};
use tw_chain::{AbsenceProof, Proof, ThreadProof, write_proof};
use tw_disk::{Pages, Shelf, Shelved};
use tw_rbtree::{get, path};
use tw_skiplist::{Head, StepProof, prove};

/// An entry with its place in a tree.
#[derive(Drop)]
pub struct EntryShown {
    pub entry: Entry,
    pub tree: TreeProof,
}

/// The tree's own proof of what is asked. A call before told that it is so; where it isn't, pages that are
/// read don't fit one another. (Map files have such a proof, too, in tw_service.)
pub fn show<P: Pages, H: Hasher>(
    alloc: Global,
    pages: &mut P,
    root: &Root,
    ask: &Ask,
) -> Result<TreeProof, Refusal>
    ensures reads { ReadsWhere service_refusals P.view P.same pages.old pages.new (λ tree. tree) result (IfErr result IsFault)
        (λ ps. tree_shown H.dig ps root.now ask.now) }
{
    match path::<P, H>(alloc, pages, root, ask) {
        Ok(tree) => Ok(tree),
        Err(fault) => Err(refusal_of_tree(root, fault)),
    }
}

/// The entry with this place.
fn shown_as(entry: &Entry, tree: TreeProof) -> EntryShown
    ensures { result ≡ record { entry = entry.now; tree = tree } }
{
    EntryShown {
        entry: *entry,
        tree,
    }
}

/// An entry of the tree under the root, with its place.
fn show_entry<P: Pages, H: Hasher>(
    alloc: Global,
    pages: &mut P,
    root: &Root,
    entry: &Entry,
) -> Result<EntryShown, Refusal>
    ensures reads { ReadsOr service_refusals P.view P.same pages.old pages.new (λ x. x) result (IfErr result (λ refusal. IsFault refusal ⊎ IsNoThread refusal))
        (λ ps. entry_thread H.dig ps root.now (Some entry.now)) }
{
    let tree = show::<P, H>(alloc, pages, root, &Ask::Present(*entry))?;
    Ok(shown_as(entry, tree))
}

/// The entry of the key in the tree under the root, with its place, by two ways down.
#[tactic(auto, unfolding(crate::specs::Finds::found_thread_of))]
fn find_thread<P: Pages, H: Hasher>(
    alloc: Global,
    pages: &mut P,
    root: &Root,
    key: &Key,
) -> Result<EntryShown, Refusal>
    ensures reads { ReadsOr service_refusals P.view P.same pages.old pages.new (λ x. x) result (IfErr result (λ refusal. IsFault refusal ⊎ IsNoThread refusal))
        (λ ps. found_thread_of H.dig ps root.now key.now) }
{
    match get::<P, H>(pages, root, key)? {
        None => Err(Refusal::NoThread),
        Some(entry) => show_entry::<P, H>(alloc, pages, root, &entry),
    }
}

/// The entry of the key in the tree under the root, with its place; a page that is kept is read once.
fn show_thread<P: Pages, H: Hasher>(
    alloc: Global,
    pages: &mut P,
    root: &Root,
    key: &Key,
) -> Result<EntryShown, Refusal>
    ensures reads { ReadsOr service_refusals P.view P.same pages.old pages.new (λ x. x) result (IfErr result (λ refusal. IsFault refusal ⊎ IsNoThread refusal))
        (λ ps. found_thread_of H.dig ps root.now key.now) }
{
    let mut shelf = Shelf::new(alloc);
    let mut near = Shelved::over(pages, &mut shelf);
    find_thread::<Shelved<P>, H>(alloc, &mut near, root, key)
}

/// The place of the key in the tree under the root, which has no entry of it, by two ways down.
#[tactic(auto, unfolding(crate::specs::Finds::found_absence_of))]
fn find_absence<P: Pages, H: Hasher>(
    alloc: Global,
    pages: &mut P,
    root: &Root,
    key: &Key,
) -> Result<TreeProof, Refusal>
    ensures reads { ReadsOr service_refusals P.view P.same pages.old pages.new (λ x. x) result (IfErr result (λ refusal. IsFault refusal ⊎ IsHasThread refusal))
        (λ ps. found_absence_of H.dig ps root.now key.now) }
{
    match get::<P, H>(pages, root, key)? {
        Some(entry) => Err(Refusal::HasThread {
            archived: entry.archived,
        }),
        None => Ok(show::<P, H>(alloc, pages, root, &Ask::Absent(*key))?),
    }
}

/// The place of the key in the tree under the root, which has no entry of it; a page that is kept is read once.
fn show_absence<P: Pages, H: Hasher>(
    alloc: Global,
    pages: &mut P,
    root: &Root,
    key: &Key,
) -> Result<TreeProof, Refusal>
    ensures reads { ReadsOr service_refusals P.view P.same pages.old pages.new (λ x. x) result (IfErr result (λ refusal. IsFault refusal ⊎ IsHasThread refusal))
        (λ ps. found_absence_of H.dig ps root.now key.now) }
{
    let mut shelf = Shelf::new(alloc);
    let mut near = Shelved::over(pages, &mut shelf);
    find_absence::<Shelved<P>, H>(alloc, &mut near, root, key)
}

/// The bytes of the proof of an entry of the step's archive.
fn write_thread(
    alloc: Global,
    name: &Name,
    top: u64,
    proof: StepProof,
    shown: EntryShown,
) -> Result<Bytes, NoMemory>
    ensures { IfOk result (λ bytes. bytes ≡ thread_bytes name.now top proof shown) }
{
    let EntryShown { entry, tree } = shown;
    let at = part_under(name, top, proof);
    let proof = Proof::Archived(ThreadProof {
        at,
        entry,
        shown: tree,
    });
    let bytes = write_proof(alloc, &proof);
    // Dropped by its name, so that the prover meets the drop in one place.
    drop(proof);
    bytes
}

/// The bytes of the proof that the step's archive has no entry of the key.
fn write_absence(
    alloc: Global,
    name: &Name,
    key: &Key,
    top: u64,
    proof: StepProof,
    tree: TreeProof,
) -> Result<Bytes, NoMemory>
    ensures { IfOk result (λ bytes. bytes ≡ absence_bytes name.now key.now top proof tree) }
{
    let at = part_under(name, top, proof);
    let proof = Proof::Absent(AbsenceProof {
        at,
        key: *key,
        shown: tree,
    });
    let bytes = write_proof(alloc, &proof);
    // Dropped by its name, so that the prover meets the drop in one place.
    drop(proof);
    bytes
}

/// The bytes of the proof that the step's archive holds a thread of the key, under that top.
#[tactic(auto, unfolding(crate::specs::Finds::thread_proof))]
pub fn make_thread<P: Pages, H: Hasher>(
    alloc: Global,
    pages: &mut P,
    name: &Name,
    head: &Head,
    step: u64,
    key: &Key,
    top: u64,
) -> Result<Bytes, Refusal>
    requires short { head.now.step ≤ LAST_STEP }
    requires from { 1 ≤ step }
    requires order { step ≤ top }
    requires last { top ≤ head.now.step }
    ensures reads { ReadsOr service_refusals P.view P.same pages.old pages.new (λ bytes. bytes) result (IfErr result (λ refusal. IsFault refusal ⊎ IsNoThread refusal))
        (λ ps. thread_proof H.dig ps name.now head.now step key.now top) }
{
    let proof = prove::<P, H>(alloc, pages, head, top, step)?;
    let shown = show_thread::<P, H>(alloc, pages, &proof.info.archive, key)?;
    Ok(write_thread(alloc, name, top, proof, shown)?)
}

/// The bytes of the proof that the step's archive holds no thread of the key, under that top.
#[tactic(auto, unfolding(crate::specs::Finds::absence_proof))]
pub fn make_absence<P: Pages, H: Hasher>(
    alloc: Global,
    pages: &mut P,
    name: &Name,
    head: &Head,
    step: u64,
    key: &Key,
    top: u64,
) -> Result<Bytes, Refusal>
    requires short { head.now.step ≤ LAST_STEP }
    requires from { 1 ≤ step }
    requires order { step ≤ top }
    requires last { top ≤ head.now.step }
    ensures reads { ReadsOr service_refusals P.view P.same pages.old pages.new (λ bytes. bytes) result (IfErr result (λ refusal. IsFault refusal ⊎ IsHasThread refusal))
        (λ ps. absence_proof H.dig ps name.now head.now step key.now top) }
{
    let proof = prove::<P, H>(alloc, pages, head, top, step)?;
    let tree = show_absence::<P, H>(alloc, pages, &proof.info.archive, key)?;
    Ok(write_absence(alloc, name, key, top, proof, tree)?)
}
