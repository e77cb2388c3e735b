// Judging and archiving where pages of the archive's tree are kept on a shelf.

ghost use Rattle.std.specs.Prelude.{◌≡◌, ◌<◌, ◌≤◌, ◌+◌, ◌++◌, ◌^◌, IfOk, Some};
ghost use Rattle.tw_base.specs.history.Asking.{with_entry};
ghost use Rattle.tw_base.specs.history.Entries.{key_of};
ghost use Rattle.tw_base.specs.history.Limits.{IsEntryInRange};
ghost use Rattle.tw_base.specs.history.Tree.{Tree, entries};
ghost use Rattle.tw_archive.specs.Judging.{IsJudgementFor, found_judgement};
ghost use Rattle.tw_disk.specs.Keeping.{ArePagesOf};
ghost use Rattle.tw_disk.specs.Shelves.{kept_on};
ghost use Rattle.tw_disk.specs.Answers.{AddsBy, AnswersOr, ReadsPages};
ghost use Rattle.tw_disk.specs.Image.{Image};
ghost use Rattle.tw_disk.specs.WalkFaults.{walk_faults};
ghost use Rattle.tw_msg.specs.Messages.{IsLinked};
ghost use Rattle.tw_rbtree.specs.Answers.{NeverUntrue, found_insert};
ghost use Rattle.tw_rbtree.specs.FaultWords.{tree_faults};
ghost use Rattle.tw_rbtree.specs.Putting.{PutsIn};
ghost use Rattle.tw_rbtree.specs.Standing.{HasNamed, Named, StandsWith};
ghost use Rattle.tw_rbtree.specs.declared.limits.TheConstants.{MOST_STAGED};

use crate::judgement::Judgement;
use crate::judging::judge_in;
use std::alloc::Global;
use tw_base::{Entry, Hasher, Root};
use tw_disk::{Pages, Shelf, Shelved, WalkFault};
use tw_msg::Message;
use tw_rbtree::{TreeFault, insert};

/// Judges a message by the archive under the root, as `judge_in` does. A page that is on the shelf isn't read, and one that is read is
/// put there.
pub fn judge_near<P: Pages, H: Hasher>(
    pages: &mut P,
    shelf: &mut Shelf,
    root: &Root,
    message: &Message,
) -> Result<Judgement, WalkFault>
    requires linked { IsLinked message.now }
    requires shelf { ArePagesOf (P.view pages.old).list (kept_on shelf.old) }
    // With a shelf of its pages at hand, the judgement is what `judge_in` answers.
    ensures reads { ReadsPages walk_faults P.view P.same pages.old pages.new (λ j. j) result (λ ps. found_judgement H.dig ps root.now message.now) }
    // So are the steps and authenticators that it tells.
    ensures told { IfOk result (IsJudgementFor H.dig message.now) }
    // What is on the shelf are pages of the same list still.
    ensures shelf { ArePagesOf (P.view pages.new).list (kept_on shelf.new) }
{
    let mut near = Shelved::over(pages, shelf);
    judge_in::<Shelved<P>, H>(&mut near, root, message)
}

/// Puts the entry into the tree under the root, and answers the new root, as `tw_rbtree`'s `insert` does. A page that is on the shelf isn't
/// read, and one that is read is put there.
pub fn insert_near<P: Pages, H: Hasher>(
    alloc: Global,
    pages: &mut P,
    shelf: &mut Shelf,
    root: &Root,
    entry: Entry,
) -> Result<Root, TreeFault>
    requires used { (P.view pages.old).used < 2 ^ 47 }
    requires range { IsEntryInRange entry }
    requires shelf { ArePagesOf (P.view pages.old).list (kept_on shelf.old) }
    // With a shelf of its pages at hand, the answer of an insert is what `insert` answers.
    ensures adds { AddsBy tree_faults P.view P.same pages.old pages.new result (NeverUntrue result) (AnswersOr tree_faults (λ (_ : Root). tt))
        (λ ps. found_insert H.dig ps root.now (key_of entry)) }
    // So is the tree that the pages stand for then.
    ensures inserted { (ps : Image) → (P.view pages.old).list ≡ Some ps → (named : Named) → named.below ≤ (P.view pages.old).used →
        (t : Tree) → StandsWith H.dig (HasNamed named) ps root.now t →
        IfOk result (λ new. (now : Image) × (grown : Tree) × ((P.view pages.new).list ≡ Some now)
        × StandsWith H.dig (HasNamed named) now new grown × (entries grown ≡ with_entry (entries t) entry)) }
    // So are the pages that are staged.
    ensures put { (ps : Image) → (P.view pages.old).list ≡ Some ps → IfOk result (λ new. (more : Image) × ((P.view pages.new).list ≡ Some (ps ++ more))
        × PutsIn H.dig ps root.now entry more new) }
    ensures page { IfOk result (λ new. (P.view pages.new).used ≡ new.page + 1) }
    ensures more { IfOk result (λ new. (P.view pages.old).used < (P.view pages.new).used) }
    ensures few { (P.view pages.new).used ≤ (P.view pages.old).used + MOST_STAGED }
{
    let mut near = Shelved::over(pages, shelf);
    insert::<Shelved<P>, H>(alloc, &mut near, root, entry)
}
