// The laws of what commands come to over a follower's disk that tells its content, and of what they leave of it.

ghost use Rattle.std.specs.Prelude.{◌≡◌, ℕ, List, Option, Some, Result};
ghost use Rattle.tw_base.specs.declared.history.thread.Thread.{Thread};
ghost use Rattle.tw_disk.specs.Image.{Image};
ghost use Rattle.tw_msg.specs.declared.message.Message.{Message};
ghost use Rattle.tw_text.specs.declared.fault.CommandFault.{CommandFault};
ghost use Rattle.tw_diskcmd.specs.FollowerDisks.{IsLeft, KeepsPage, found_disk};
ghost use Rattle.tw_diskcmd.specs.Heads.{HeadsComes};
ghost use Rattle.tw_diskcmd.specs.Offering.{OfferedMessageComes};
ghost use Rattle.tw_diskcmd.specs.Comes.{TellsContent};

use tw_disk::Disk;

/// Over a disk that tells its content, what the offering of a message comes to is one thing: one head, one refusal, or
/// one reason why nothing is served; and so is what the telling of the heads comes to. A fault of the disk and want of
/// memory are excepted.
pub fn told_follower_laws()
    // Over a disk that tells its content, what `offer` comes to once its file was read is one thing: one head, one refusal
    // with its fields, or one reason of status 8 with its slot. So each of these comes exactly where it stands, but for a
    // disk fault, want of memory and status 4.
    ensures offering { (image : Image) (m : Message) (before after : ℕ) (one other : Result Thread CommandFault) → TellsContent one → TellsContent other →
        OfferedMessageComes (found_disk (Some image) before after) m one → OfferedMessageComes (found_disk (Some image) before after) m other → one ≡ other }
    // So is what `heads` comes to: the same lines, or one reason of status 8 with its slot or page.
    ensures listing { (image : Image) (before after : ℕ) (one other : Result (List ℕ) CommandFault) → TellsContent one → TellsContent other →
        HeadsComes (found_disk (Some image) before after) one → HeadsComes (found_disk (Some image) before after) other → one ≡ other }
{}

/// A disk that is left as it was keeps the list of heads that it stands for, and whatever record and pages it opens with.
pub fn idle_follower_laws<D: Disk>()
    // A run that leaves a disk as it was keeps the list of heads that the disk stood for: it stands for it still, for good,
    // and one at rest is still at rest. So it keeps the record and pages that the disk opened with, whatever they keep.
    ensures kept { (old new : D) → IsLeft D.view old new → KeepsPage D.view old new }
{}
