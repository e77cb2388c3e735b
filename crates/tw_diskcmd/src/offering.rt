// The command `offer`, which offers a follower a message.

ghost use Rattle.std.specs.Prelude.{◌≡◌, ◌≤◌, ℕ, List, Option, Some, false};
ghost use Rattle.sha2.specs.Sha256.{sha256};
ghost use Rattle.tw_base.specs.format.Formats.{Spells};
ghost use Rattle.tw_base.specs.history.Limits.{IsThread};
ghost use Rattle.tw_disk.specs.Image.{Image};
ghost use Rattle.tw_follow.specs.Follows.{Follows, IsOver, disk_of, has_failed, pages_of, record_of};
ghost use Rattle.tw_follow.specs.HeadLists.{Kept};
ghost use Rattle.tw_follow.specs.Stands.{OpensWith};
ghost use Rattle.tw_msg.specs.Messages.{IsLinked, message_layout};
ghost use Rattle.tw_outside.specs.Asked.{asked};
ghost use Rattle.tw_diskcmd.specs.FollowerDisks.{IsFollower, IsImageOfHeads, IsLeft, ReadsAsHeads, SparesOtherThanFollower, found_disk};
ghost use Rattle.tw_diskcmd.specs.Offering.{IsNextBy, IsNextListBy, OfferComes, OfferLeaves, OfferedMessageComes};
ghost use Rattle.tw_pages.specs.Records.{written_record};
ghost use Rattle.tw_diskcmd.specs.Leaves.{WritesNothing};
ghost use Rattle.tw_diskcmd.specs.Steps.{AddsFrom, AddsTo};

use crate::follower_faults::fault_of_follower;
use crate::message_files::read_message_file;
use crate::store_faults::fault_of_store;
use crate::worked::Worked;
use std::alloc::Global;
use tw_base::{Sha, Thread};
use tw_disk::Disk;
use tw_follow::Follower;
use tw_msg::Message;
use tw_outside::Inputs;

/// Offers the message of the named file to the follower on the disk, and answers its head then, which is
/// the message's thread. The file is read and judged before the disk is touched.
// It stays a call, so that other commands don't have its frame on the stack.
#[inline(never)]
pub fn offer<D: Disk, I: Inputs>(
    alloc: Global,
    disk: D,
    inputs: &mut I,
    file: &str,
) -> Worked<D, Thread>
    requires { I.may_ask inputs.old file.now }
    // What `offer` comes to is what its file, the disk and the counts of faults allow: the head, or a fault with its
    // cause.
    ensures comes { OfferComes (asked (I.told inputs.old) (I.faults inputs.old) (I.faults inputs.new))
        (found_disk (D.view disk).content (D.view disk).faults (D.view result.disk).faults) file.now result.outcome }
    // It leaves the disk as is right for what it came to. So it does whatever the pages of the follower's store keep: after
    // the answer the disk rests with the record and pages that the message makes of those that it opened with, which are those of
    // its thread, with the page of that head behind the others, where it moves the head, and else the same; after a disk fault the
    // content is one of the two; and each image since is one that a crash might have left before, or opens so.
    ensures leaves { OfferLeaves D.view disk result.disk (I.told inputs.old) file.now result.outcome }
{
    match read_message_file(alloc, inputs, file) {
        Ok(message) => offer_message(alloc, disk, &message),
        Err(fault) => Worked {
            outcome: Err(fault),
            disk,
        },
    }
}

/// Offers the message to the follower on the disk.
fn offer_message<D: Disk>(alloc: Global, disk: D, message: &Message) -> Worked<D, Thread>
    requires linked { IsLinked message.now }
    requires thread { IsThread message.now.thread }
    ensures comes { (bytes : List ℕ) → Spells message_layout bytes message.now
        → OfferedMessageComes (found_disk (D.view disk).content (D.view disk).faults (D.view result.disk).faults) message.now result.outcome }
    ensures leaves { (bytes : List ℕ) → Spells message_layout bytes message.now
        → AddsTo IsImageOfHeads D.view disk result.disk (IsNextListBy message.now) (λ thread. IsNextListBy message.now) result.outcome }
    ensures unwritten { (bytes : List ℕ) → Spells message_layout bytes message.now → WritesNothing result.outcome → IsLeft D.view disk result.disk }
    ensures spares { SparesOtherThanFollower D.view disk result.disk }
    ensures writes { (bytes : List ℕ) → Spells message_layout bytes message.now
        → AddsTo IsFollower D.view disk result.disk (IsNextBy message.now) (λ thread. IsNextBy message.now) result.outcome }
{
    match Follower::<D, Sha>::open(alloc, disk) {
        Ok(follower) => offer_to(follower, message),
        Err((disk, fault)) => Worked {
            outcome: Err(fault_of_store(fault)),
            disk,
        },
    }
}

/// Offers the message to the follower, and gives its disk back.
fn offer_to<D: Disk>(follower: Follower<D, Sha>, message: &Message) -> Worked<D, Thread>
    requires whole { has_failed follower ≡ false }
    requires linked { IsLinked message.now }
    requires thread { IsThread message.now.thread }
    ensures comes { (bytes : List ℕ) → Spells message_layout bytes message.now → (found : Option Image) (before : ℕ)
        → ((image : Image) → found ≡ Some image → OpensWith sha256 image (record_of follower) (λ ps. pages_of D.view follower ≡ Some ps))
        → ((k : Kept) → ReadsAsHeads found k → Follows sha256 D.view follower k) → before ≤ (D.view (disk_of follower)).faults
        → OfferedMessageComes (found_disk found before (D.view result.disk).faults) message.now result.outcome }
    ensures leaves { (bytes : List ℕ) → Spells message_layout bytes message.now → (k : Kept) → Follows sha256 D.view follower k
        → AddsFrom IsImageOfHeads D.view (disk_of follower) result.disk (IsNextListBy message.now) (λ thread. IsNextListBy message.now) k result.outcome }
    ensures unwritten { (bytes : List ℕ) → Spells message_layout bytes message.now → WritesNothing result.outcome
        → IsLeft D.view (disk_of follower) result.disk }
    ensures writes { (bytes : List ℕ) → Spells message_layout bytes message.now → (ps : Image) → IsOver sha256 D.view follower ps
        → AddsFrom IsFollower D.view (disk_of follower) result.disk (IsNextBy message.now) (λ thread. IsNextBy message.now)
        (written_record (record_of follower) ps) result.outcome }
{
    let mut follower = follower;
    match follower.take(message) {
        Ok(head) => Worked {
            outcome: Ok(head),
            disk: follower.close(),
        },
        Err(refusal) => Worked {
            outcome: Err(fault_of_follower(refusal)),
            disk: follower.close(),
        },
    }
}
