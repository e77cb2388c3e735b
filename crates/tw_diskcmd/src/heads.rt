// The command `heads`, which tells the heads of a follower.

ghost use Rattle.std.specs.Prelude.{◌≡◌, ◌≤◌, ◌++◌, ℕ, Option, Some, IfErr, IfOk, OnOk, false};
ghost use Rattle.sha2.specs.Sha256.{sha256};
ghost use Rattle.tw_disk.specs.Image.{Image};
ghost use Rattle.tw_follow.specs.Follows.{Follows, IsOver, disk_of, has_failed, head_of, pages_of, record_of};
ghost use Rattle.tw_follow.specs.HeadLists.{Kept};
ghost use Rattle.tw_follow.specs.Stands.{OpensWith};
ghost use Rattle.tw_pages.specs.Disks.{RestsAtState};
ghost use Rattle.tw_pages.specs.Records.{written_record};
ghost use Rattle.tw_text.specs.Lines.{anchor_text};
ghost use Rattle.tw_text.specs.declared.fault.CommandFault.TheVariants.{NoMemory as WantedMemory};
ghost use Rattle.tw_diskcmd.specs.FollowerDisks.{IsFollower, IsLeft, ReadsAsHeads, RestsAtHeads, found_disk};
ghost use Rattle.tw_diskcmd.specs.Heads.{HeadsComes, HeadsLeaves, ListsTo, head_lines};

use crate::follower_faults::fault_of_follower;
use crate::store_faults::fault_of_store;
use crate::worked::Worked;
use std::alloc::Global;
use tw_base::{Bytes, NoMemory, Sha, Thread};
use tw_disk::Disk;
use tw_follow::Follower;
use tw_text::{CommandFault, anchor_line};

/// Tells the heads of the follower on the disk, oldest first: the anchor line of each.
pub fn list_heads<D: Disk>(alloc: Global, disk: D) -> Worked<D, Bytes>
    // What `heads` comes to is what the disk and its count of faults allow: the lines, or a fault with its cause. Over
    // whatever disk, also one whose reads contradict each other, the lines are of heads of one service that rise, whichever
    // it is, or there are none.
    ensures comes { HeadsComes (found_disk (D.view disk).content (D.view disk).faults (D.view result.disk).faults) result.outcome }
    // It writes nothing. Where the heads are told, the disk stands for the list that it read as, at rest, and with whatever
    // record and pages: so no head that was told can be lost any more.
    ensures leaves { HeadsLeaves D.view disk result.disk result.outcome }
{
    match Follower::<D, Sha>::open(alloc, disk) {
        Ok(follower) => list_by(alloc, follower),
        Err((disk, fault)) => Worked {
            outcome: Err(fault_of_store(fault)),
            disk,
        },
    }
}

/// Tells the heads by the follower, and gives its disk back.
fn list_by<D: Disk>(alloc: Global, follower: Follower<D, Sha>) -> Worked<D, Bytes>
    requires { has_failed follower ≡ false }
    ensures comes { (found : Option Image) (before : ℕ)
        → ((image : Image) → found ≡ Some image → OpensWith sha256 image (record_of follower) (λ ps. pages_of D.view follower ≡ Some ps))
        → ((k : Kept) → ReadsAsHeads found k → Follows sha256 D.view follower k) → before ≤ (D.view (disk_of follower)).faults
        → HeadsComes (found_disk found before (D.view result.disk).faults) result.outcome }
    // Over whatever disk, the lines are of heads that rise to the follower's own.
    ensures rises { IfOk result.outcome (λ lines. ListsTo (head_of follower) lines) }
    ensures leaves { IsLeft D.view (disk_of follower) result.disk }
    ensures rests { (k : Kept) → Follows sha256 D.view follower k → RestsAtHeads D.view result.disk k }
    ensures over { (ps : Image) → IsOver sha256 D.view follower ps
        → RestsAtState IsFollower D.view result.disk (written_record (record_of follower) ps) }
{
    let mut follower = follower;
    match follower.heads() {
        Ok(heads) => Worked {
            outcome: print_heads(alloc, heads.as_slice()),
            disk: follower.close(),
        },
        Err(refusal) => Worked {
            outcome: Err(fault_of_follower(refusal)),
            disk: follower.close(),
        },
    }
}

/// The anchor lines of the heads.
fn print_heads(alloc: Global, heads: &[Thread]) -> Result<Bytes, CommandFault>
    ensures lines { IfOk result (λ lines. lines ≡ head_lines heads.now) }
    ensures memory { IfErr result (λ fault. fault ≡ WantedMemory) }
{
    let mut lines = Bytes::new(alloc);
    for head in heads {
        put_head(&mut lines, head)?;
    }
    Ok(lines)
}

/// Appends the anchor line of a head.
fn put_head(into: &mut Bytes, head: &Thread) -> Result<(), NoMemory>
    ensures { OnOk result (into.new ≡ into.old ++ anchor_text head.now) }
{
    let line = anchor_line(head);
    into.extend_from_slice(&line.bytes[..line.count as usize])?;
    Ok(())
}
