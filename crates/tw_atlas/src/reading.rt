// Reading files of receipts as the hops of an atlas; a single receipt is read in `tw_msg`.

ghost use Rattle.std.specs.Prelude.{◌≡◌, ◌≢◌, ◌+◌, ◌<◌, ◌≤◌, ◌^◌, ℕ, length, take, IfErr, OnErr, OnOk};
ghost use Rattle.tw_base.specs.format.Formats.{ReadsFrontAs};
ghost use Rattle.tw_msg.specs.Receipts.{receipt_layout};
ghost use Rattle.tw_atlas.specs.ReceiptFiles.{AddsHops, receipt_hop as receipt_hop_of};
ghost use Rattle.tw_atlas.specs.ReceiptSteps.{AddsNext, IsFaultLater, IsWithin};
ghost use Rattle.tw_atlas.specs.declared.limits.TheConstants.{MOST_RECEIPTS};

use crate::limits::MOST_RECEIPTS;
use std::alloc::Global;
use std::mem;
use tw_base::{Hop, HopList, ReadFault, front_to};
use tw_msg::{Receipt, take_receipt};

/// The hop that a receipt tells: from the thread's service and step to the recorder and its step.
pub fn receipt_hop(receipt: &Receipt) -> Hop
    ensures { result ≡ receipt_hop_of receipt.now }
{
    Hop {
        from: receipt.thread.from,
        step: receipt.thread.step,
        by: receipt.by.from,
        archived: receipt.by.step,
    }
}

/// Adds the hops of a file of receipts, which has any number of them, one after another, so that with
/// those of earlier files there are at most 4,096; equal receipts count each. Malformed exactly where the
/// bytes have no such form, with the place of the first byte at which no receipt goes on, or of the first
/// one behind so many receipts. A file that isn't read leaves the hops as they were.
pub fn add_hops(alloc: Global, bytes: &[u8], hops: &mut HopList) -> Result<(), ReadFault>
    requires { length hops.old ≤ MOST_RECEIPTS }
    // A file of receipts is read exactly where its bytes spell receipts, and not too many, with the hop of each; else the
    // place of the first bad byte is told.
    ensures adds { AddsHops bytes.now hops.old hops.new result }
    // Where it isn't read, the hops are as before.
    ensures kept { OnErr result (hops.new ≡ hops.old) }
    // There are at most 4,096 hops then.
    ensures few { length hops.new ≤ MOST_RECEIPTS }
{
    let count = hops.len();
    match add_all(bytes, hops) {
        Ok(()) => Ok(()),
        Err(fault) => {
            shorten(alloc, hops, count);
            Err(fault)
        }
    }
}

/// Leaves the first so many hops. Takes no memory.
fn shorten(alloc: Global, hops: &mut HopList, count: usize)
    ensures { hops.new ≡ take count hops.old }
{
    let mut items = mem::replace(hops, HopList::new(alloc)).into_vec();
    items.truncate(count);
    *hops = HopList::from_vec(items);
}

/// Adds the hop of each receipt of a file; where it isn't read, of those before the bad byte.
fn add_all(bytes: &[u8], hops: &mut HopList) -> Result<(), ReadFault>
    requires { length hops.old ≤ MOST_RECEIPTS }
    ensures adds { AddsHops bytes.now hops.old hops.new result }
    ensures front { take (length hops.old) hops.new ≡ hops.old }
    ensures few { length hops.new ≤ MOST_RECEIPTS }
{
    let size = bytes.len();
    let mut at: usize = 0;
    while at < size {
        match add_next(&bytes[at..], hops) {
            Ok(taken) => at += taken as usize,
            Err(fault) => return Err(later(fault, at as u64)),
        }
    }
    Ok(())
}

/// Adds the hop of the receipt at the front of the bytes, where there is room for one more, and answers
/// the receipt's size.
fn add_next(bytes: &[u8], hops: &mut HopList) -> Result<u64, ReadFault>
    ensures adds { AddsNext bytes.now hops.old hops.new result }
    ensures within { IfErr result (IsWithin (length bytes.now)) }
    ensures kept { OnErr result (hops.new ≡ hops.old) }
{
    if hops.len() as u64 >= MOST_RECEIPTS {
        return Err(ReadFault::Malformed { place: 0 });
    }
    let (receipt, size) = next_receipt(bytes)?;
    hops.push(receipt_hop(&receipt))?;
    Ok(size)
}

/// The receipt at the front of the bytes, and its size.
fn next_receipt(bytes: &[u8]) -> Result<(Receipt, u64), ReadFault>
    ensures reads { ReadsFrontAs (λ r. r) receipt_layout bytes.now result }
    ensures memory { IfErr result (λ fault. fault ≢ ReadFault.NoMemory) }
{
    let mut after = 0;
    let read = take_receipt(bytes, &mut after);
    front_to(after, read)
}

/// The fault, with its place counted from so many bytes before.
fn later(fault: ReadFault, at: u64) -> ReadFault
    requires { (most : ℕ) × IsWithin most fault × (at + most < 2 ^ 64) }
    ensures { IsFaultLater at fault result }
{
    match fault {
        ReadFault::Malformed { place } => ReadFault::Malformed { place: at + place },
        ReadFault::NoMemory => ReadFault::NoMemory,
    }
}
