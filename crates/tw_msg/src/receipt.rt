// Receipts, by which a service tells that it archived a thread.

ghost use Rattle.std.specs.Prelude.{◌≡◌, ◌≢◌, ℕ, ◌+◌, ◌≤◌, List, ◌++◌, length, IfErr, IfOk, Some};
ghost use Rattle.tw_base.specs.declared.history.thread.Thread.{Thread as ThreadOf};
ghost use Rattle.tw_base.specs.format.Codecs.{IsUnambiguous};
ghost use Rattle.tw_base.specs.format.Formats.{IsPlace, Spells, SpellsNothing};
ghost use Rattle.tw_base.specs.format.Taking.{Takes};
ghost use Rattle.tw_base.specs.history.History.{History, step_at, thread_of as thread_of_step};
ghost use Rattle.tw_base.specs.history.Limits.{IsStep, IsThread};
ghost use Rattle.tw_base.specs.history.Sound.{IsSound};
ghost use Rattle.tw_msg.specs.declared.receipt.Receipt.{Receipt};
ghost use Rattle.tw_msg.specs.HistoryMessages.{IsReceiptOf};
ghost use Rattle.tw_msg.specs.Receipts.{receipt_bytes, receipt_codec, receipt_layout};

use arrayvec::ArrayVec;
use tw_base::fixed::put_thread;
use tw_base::{Hasher, ReadFault, Thread, put, take_text, take_thread, whole_to};

/// How a receipt begins: the four bytes `TWR1`.
const MAGIC: [u8; 4] = [0x54, 0x57, 0x52, 0x31];

/// The number of a receipt's bytes: the four at its front, and 56 for each of two threads.
pub const RECEIPT_SIZE: usize = 116;

/// A service's word that a step of it archived a thread of another one.
#[derive(Clone, Copy, PartialEq, Eq, Debug, Drop)]
pub struct Receipt {
    /// The recorder, its step (1 to 2^40 - 1) that archived the thread, and its authenticator there.
    pub by: Thread,
    /// The thread that it archived.
    pub thread: Thread,
}

/// The bytes are no receipt. The place, counted from 0, is that of the first byte at which no receipt
/// goes on; where the bytes end too early, it is their length. (Reading a receipt takes no memory, so it is no `ReadFault`.)
#[derive(Clone, Copy, PartialEq, Eq, Debug, Drop)]
pub struct Malformed {
    pub place: u64,
}

/// Takes a receipt, 116 bytes. Malformed at the first byte at which no receipt goes on; then the place is
/// left anywhere. Takes no memory. (tw_atlas takes those of a file so.)
#[tactic(auto, unfolding(crate::specs::Receipts::receipt_codec, tw_base::specs::format::Seen::records))]
pub fn take_receipt(bytes: &[u8], at: &mut u64) -> Result<Receipt, ReadFault>
    requires { at.old ≤ length bytes.now }
    // A receipt is taken at a place exactly as its codec reads it; else the place of the first bad byte is told.
    ensures takes { Takes receipt_codec (λ r. r) bytes.now at.old at.new result }
    // `NoMemory` is never answered.
    ensures memory { IfErr result (λ fault. fault ≢ ReadFault.NoMemory) }
{
    take_text(bytes, at, &MAGIC)?;
    let by = take_thread(bytes, at)?;
    let thread = take_thread(bytes, at)?;
    Ok(Receipt { by, thread })
}

/// The receipt that the bytes spell, from first to last: the four bytes `TWR1`, the recorder's name in
/// 16 bytes, its step in eight and its authenticator there in 32, and the same of the thread. Takes no
/// memory.
pub fn read_receipt(bytes: &[u8]) -> Result<Receipt, Malformed>
    // Bytes are read as a receipt exactly where they spell one, with that receipt.
    ensures read { IfOk result (λ r. Spells receipt_layout bytes.now r) }
    // Exactly where they spell none they are refused, with the length of the longest front that some receipt begins with.
    ensures malformed { IfErr result (λ fault. SpellsNothing receipt_layout bytes.now × IsPlace receipt_layout bytes.now fault.place) }
{
    let mut at = 0;
    let read = take_receipt(bytes, &mut at);
    match whole_to(bytes, at, read) {
        Ok(receipt) => Ok(receipt),
        Err(ReadFault::Malformed { place }) => Err(Malformed { place }),
        Err(ReadFault::NoMemory) => unreachable!(),
    }
}

/// The bytes of the receipt.
#[tactic(auto, unfolding(crate::specs::Receipts::receipt_codec, tw_base::specs::format::Seen::records))]
fn written_receipt(receipt: &Receipt) -> [u8; RECEIPT_SIZE]
    ensures bytes { result ≡ receipt_bytes receipt.now }
    ensures fits { IsStep receipt.now.by.step → IsStep receipt.now.thread.step → receipt_codec.Fits receipt.now }
{
    let mut bytes: ArrayVec<u8, RECEIPT_SIZE> = ArrayVec::new();
    put(&mut bytes, &MAGIC);
    put_thread(&mut bytes, &receipt.by);
    put_thread(&mut bytes, &receipt.thread);
    match bytes.into_inner() {
        Ok(bytes) => bytes,
        Err(_) => unreachable!(),
    }
}

/// The bytes of the receipt, which spell it where both steps are within 1 to 2^40 - 1. Takes no memory.
pub fn write_receipt(receipt: &Receipt) -> [u8; RECEIPT_SIZE]
    // What is written of a receipt is its bytes in the format.
    ensures bytes { result ≡ receipt_bytes receipt.now }
    // The bytes that are written spell the receipt, where its steps are within their limits.
    ensures spelled { IsStep receipt.now.by.step → IsStep receipt.now.thread.step → Spells receipt_layout result receipt.now }
{
    written_receipt(receipt)
}

/// The words of receipts: each has one receipt, a receipt has one spelling, and no word is the front of
/// a longer one.
pub fn receipt_laws()
    // Bytes spell one receipt at most, a receipt has one spelling, and no receipt's bytes are the front of another's.
    ensures once { IsUnambiguous receipt_codec }
    // Both threads of a receipt that is spelled are of steps from 1 on, with authenticators of 32 bytes.
    ensures shape { (bytes : List ℕ) (r : Receipt) → Spells receipt_layout bytes r → IsThread r.by × IsThread r.thread }
    // What is written of two such threads spells their receipt.
    ensures word { (r : Receipt) → IsThread r.by → IsThread r.thread → Spells receipt_layout (receipt_bytes r) r }
    // A receipt has 116 bytes.
    ensures size { (bytes : List ℕ) (r : Receipt) → Spells receipt_layout bytes r → length bytes ≡ 116 }
{}

/// The receipt of a history's step that received a thread.
pub fn history_receipt_laws<H: Hasher>()
    // A history has a receipt of each step that received a thread.
    ensures there { (h : History) (step : ℕ) (t : ThreadOf) → thread_of_step (step_at h step) ≡ Some t → (r : Receipt) × IsReceiptOf H.dig h step r }
    // It has one at most.
    ensures one { (h : History) (step : ℕ) (r s : Receipt) → IsReceiptOf H.dig h step r → IsReceiptOf H.dig h step s → r ≡ s }
    // Where the history is sound, what is written of the receipt spells it.
    ensures spelled { (h : History) (step : ℕ) (r : Receipt) → IsSound h → IsReceiptOf H.dig h step r → Spells receipt_layout (receipt_bytes r) r }
{}
