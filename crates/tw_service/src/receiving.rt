// Messages received: what becomes of them, and the receipts of threads that are known.

ghost use Rattle.std.specs.Prelude.{◌≡◌, ◌<◌, ◌≤◌, ℕ, IfErr, IfOk, IsErr, None};
ghost use Rattle.tw_base.specs.history.Limits.{IsStep};
ghost use Rattle.tw_disk.specs.Keeping.{ArePagesOf};
ghost use Rattle.tw_disk.specs.Shelves.{kept_on};
ghost use Rattle.tw_disk.specs.Answers.{ReadsOr, ReadsPages};
ghost use Rattle.tw_disk.specs.Found.Found.{Bad};
ghost use Rattle.tw_msg.specs.Messages.{IsLinked};
ghost use Rattle.tw_service.specs.Finds.{found_receipt, found_reception, receipt_of};
ghost use Rattle.tw_answers.specs.Limits.{clock_refusal};
ghost use Rattle.tw_base.specs.declared.history.refusal.Refusal.{Refusal as RefusalOf};
ghost use Rattle.tw_service.specs.Receiving.{TellsOfMessage, reception as reception_of};
ghost use Rattle.tw_answers.specs.Refusals.{IsFault, service_refusals};

use std::alloc::Global;
use tw_answers::{Refusal, RootRecord, archive_refusal};
use tw_archive::{Judgement, judge_near};
use tw_base::limits::LAST_STEP;
use tw_base::{Digest, Hasher, Thread};
use tw_disk::{Pages, Shelf};
use tw_msg::{Message, Receipt};
use tw_skiplist::{ListFault, step};

/// What becomes of a message.
#[derive(Clone, Copy, Drop)]
pub enum Reception {
    /// It is refused.
    Refuse(Refusal),
    /// Its thread is known: this step received it.
    Known { archived: u64 },
    /// The next step is to archive its thread.
    Archive,
}

/// What becomes of a message by its judgement, where there are so many steps, of which `clock` is the greatest time.
#[tactic(auto, unfolding(crate::specs::Receiving::reception))]
fn reception_by(
    judgement: &Judgement,
    steps: u64,
    clock: Option<u64>,
    time: Option<u64>,
) -> Reception
    requires { steps ≤ LAST_STEP }
    ensures answer { result ≡ reception_of steps clock time judgement.now }
    ensures room { result ≡ Reception.Archive → (steps < LAST_STEP) × (clock_refusal clock time ≡ None) }
{
    match *judgement {
        Judgement::Known { archived } => Reception::Known { archived },
        Judgement::Forked {
            step,
            kept,
            offered,
        } => Reception::Refuse(Refusal::Forked {
            step,
            kept,
            offered,
        }),
        Judgement::Stale { last } => Reception::Refuse(Refusal::Stale { last }),
        Judgement::BadLink { last, kept } => Reception::Refuse(Refusal::BadLink { last, kept }),
        Judgement::Accept => match archive_refusal(steps, clock, time) {
            Some(refusal) => Reception::Refuse(refusal),
            None => Reception::Archive,
        },
    }
}

/// What becomes of the message, at this time or none, by the archive and the table. The archive's pages that are read are put on the
/// shelf.
#[tactic(auto, unfolding(crate::specs::Finds::found_reception))]
pub(crate) fn receive_by<P: Pages, H: Hasher>(
    pages: &mut P,
    shelf: &mut Shelf,
    root: &RootRecord,
    message: &Message,
    time: Option<u64>,
) -> Result<Reception, Refusal>
    requires short { root.now.head.step ≤ LAST_STEP }
    requires linked { IsLinked message.now }
    requires shelf { ArePagesOf (P.view pages.old).list (kept_on shelf.old) }
    ensures shelf { ArePagesOf (P.view pages.new).list (kept_on shelf.new) }
    ensures reads { ReadsPages service_refusals P.view P.same pages.old pages.new (λ r. r) result
        (λ ps. found_reception H.dig ps root.now.name root.now.head root.now.archive root.now.time message.now time) }
    ensures room { IfOk result (λ r. r ≡ Reception.Archive → (root.now.head.step < LAST_STEP) × (clock_refusal root.now.time time ≡ None)) }
    ensures tells { IfOk result (λ r. (refusal : RefusalOf) → r ≡ Reception.Refuse refusal → TellsOfMessage H.dig root.now.head.step root.now.time time message.now refusal) }
    ensures known { IfOk result (λ r. (archived : ℕ) → r ≡ Reception.Known archived → IsStep archived) }
{
    let judgement = judge_near::<P, H>(pages, shelf, &root.archive, message)?;
    Ok(reception_by(&judgement, root.head.step, root.time, time))
}

/// The receipt by which the step of this authenticator tells that it received the thread.
pub(crate) fn receipt_by(root: &RootRecord, step: u64, auth: &Digest, thread: &Thread) -> Receipt
    ensures { result ≡ receipt_of root.now.name step auth.now thread.now }
{
    let by = Thread {
        from: root.name,
        step,
        auth: *auth,
    };
    Receipt {
        by,
        thread: *thread,
    }
}

/// What is told where the archive names a step above the last one, so that pages don't fit one another: the page of the last step, which
/// is read first.
fn last_page<P: Pages, H: Hasher>(
    alloc: Global,
    pages: &mut P,
    root: &RootRecord,
) -> Result<Receipt, Refusal>
    requires short { root.now.head.step ≤ LAST_STEP }
    ensures reads { ReadsOr service_refusals P.view P.same pages.old pages.new (λ receipt. receipt) result (IfErr result IsFault) (λ ps. Bad root.now.head.page) }
    ensures refused { IsErr result }
{
    match step::<P, H>(alloc, pages, &root.head, root.head.step) {
        Err(ListFault::DiskFault) => Err(Refusal::DiskFault),
        _ => Err(Refusal::BadPage {
            page: root.head.page,
        }),
    }
}

/// The receipt of the step that received the thread.
#[tactic(auto, unfolding(crate::specs::Finds::found_receipt))]
pub(crate) fn receipt_of_step<P: Pages, H: Hasher>(
    alloc: Global,
    pages: &mut P,
    root: &RootRecord,
    archived: u64,
    thread: &Thread,
) -> Result<Receipt, Refusal>
    requires short { root.now.head.step ≤ LAST_STEP }
    requires from { 1 ≤ archived }
    ensures reads { ReadsOr service_refusals P.view P.same pages.old pages.new (λ receipt. receipt) result (IfErr result IsFault)
        (λ ps. found_receipt H.dig ps root.now.name root.now.head archived thread.now) }
    ensures by { IfOk result (λ receipt. (receipt.thread ≡ thread.now) × (receipt.by.from ≡ root.now.name) × (receipt.by.step ≡ archived) × (archived ≤ root.now.head.step)) }
{
    if root.head.step < archived {
        return last_page::<P, H>(alloc, pages, root);
    }
    let info = step::<P, H>(alloc, pages, &root.head, archived)?;
    Ok(receipt_by(root, archived, &info.auth, thread))
}
