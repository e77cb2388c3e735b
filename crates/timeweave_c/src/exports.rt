// The functions that C calls: each puts what a call of tw_judge tells into a buffer, but for that of the version.

ghost use Rattle.std.specs.Prelude.{◌≡◌, length, true, false};
ghost use Rattle.tw_text.specs.Faults.{fault_status as fault_status_of, fault_text};
ghost use Rattle.tw_text.specs.declared.fault.CommandFault.TheVariants.{NoMemory as WantedMemory};
ghost use Rattle.timeweave_c.specs.Answers.{IsContradictAnswer, IsForkAnswer, IsMapAnswer, IsReceiverAnswer, IsVerifierAnswer, version_text};
ghost use Rattle.timeweave_c.specs.Buffers.{put_in};

use crate::buffer::{put, tell};
use std::alloc::Global;
use tw_base::NoMemory;
use tw_judge::{judge, judge_contradiction, judge_fork, judge_maps, judge_receiver};
use tw_text::{CommandFault, fault_status, no_memory};

/// The name by which a bad line of the anchors is told.
const ANCHORS: &str = "anchors";

/// Judges the bytes of a proof under those of an anchors file, as the program's `verify` does; threads
/// that the proof carries are allowed. Answers the program's status: 0 accepted, 1 rejected, 6 no memory,
/// 9 a bad line in the anchors. The first bytes of the program's text, as many as have room, are put at
/// the front of `out`, and `text_size` is the size of the whole text.
#[unsafe(no_mangle)]
pub extern "C" fn timeweave_verify(
    alloc: Global,
    proof: &[u8],
    anchors: &[u8],
    out: &mut [u8],
    text_size: &mut usize,
) -> u32
    // The status and the text are those of the verdict on the proof's bytes under the anchors, with its theorem, or of the
    // first bad line, or of want of memory; as much of the text as has room stands at the buffer's front, all else of the buffer
    // is as it was, and the size told is that of the whole text.
    ensures { IsVerifierAnswer false proof.now anchors.now out.old out.new text_size.new result }
{
    answer(alloc, proof, anchors, false, out, text_size)
}

/// The same as the program's `strict` does: a proof that carries threads is rejected.
#[unsafe(no_mangle)]
pub extern "C" fn timeweave_strict(
    alloc: Global,
    proof: &[u8],
    anchors: &[u8],
    out: &mut [u8],
    text_size: &mut usize,
) -> u32
    // The same of the strict form, in which a proof that carries threads is rejected.
    ensures { IsVerifierAnswer true proof.now anchors.now out.old out.new text_size.new result }
{
    answer(alloc, proof, anchors, true, out, text_size)
}

/// Judges the bytes of a low and of a high map file under those of an anchors file, as the program's
/// `checkmap` does for files of these names. Answers the program's status: 0 accepted, 1 rejected, 6 no memory,
/// 9 a file that is no map file of its kind, or a bad line in the anchors. The text goes into the buffer as with
/// `timeweave_verify`.
#[unsafe(no_mangle)]
pub extern "C" fn timeweave_checkmap(
    alloc: Global,
    low: &[u8],
    high: &[u8],
    anchors: &[u8],
    out: &mut [u8],
    text_size: &mut usize,
) -> u32
    // The status and the text are those of what both map files tell under the anchors, with the bounds theorem, or of the first file
    // that isn't what it has to be, or of want of memory; the buffer and the size are as with a proof's text.
    ensures { IsMapAnswer (record { low = low.now; high = high.now; anchors = anchors.now }) out.old out.new text_size.new result }
{
    match judge_maps(alloc, "low", low, "high", high, ANCHORS, anchors) {
        Ok(told) => tell(told.status, told.text.as_slice(), out, text_size),
        Err(NoMemory) => tell_no_memory(out, text_size),
    }
}

/// Judges the bytes of the evidence of a fork under those of an anchors file, as the program's `checkfork`
/// does. Answers the program's status: 0 accepted, 1 rejected, 6 no memory, 9 a bad line in the anchors. The text
/// goes into the buffer as with `timeweave_verify`.
#[unsafe(no_mangle)]
pub extern "C" fn timeweave_checkfork(
    alloc: Global,
    evidence: &[u8],
    anchors: &[u8],
    out: &mut [u8],
    text_size: &mut usize,
) -> u32
    // The status and the text are those of the verdict on the evidence under the anchors, with its theorem, or of the first bad line,
    // or of want of memory; the buffer and the size are as with a proof's text.
    ensures { IsForkAnswer evidence.now anchors.now out.old out.new text_size.new result }
{
    match judge_fork(alloc, ANCHORS, evidence, anchors) {
        Ok(told) => tell(told.status, told.text.as_slice(), out, text_size),
        Err(NoMemory) => tell_no_memory(out, text_size),
    }
}

/// Tells whether two files contradict each other that are accepted, each under the anchors beside it: 0 they do,
/// 1 they don't, or one isn't accepted, or the link joins no such lines, 6 no memory, 9 a bad line in the anchors.
/// A link of no bytes is none. The text goes into the buffer as with `timeweave_verify`.
#[unsafe(no_mangle)]
pub extern "C" fn timeweave_contradict(
    alloc: Global,
    first: &[u8],
    first_anchors: &[u8],
    second: &[u8],
    second_anchors: &[u8],
    link: &[u8],
    out: &mut [u8],
    text_size: &mut usize,
) -> u32
    // The status and the text are those of the verdict on both files, each under its own anchors, and on the link, or of the first
    // bad line, or of want of memory; the buffer and the size are as with a proof's text. Status 0 comes exactly where both are
    // accepted, and what they say of one service breaks one of the rules, and a link with bytes joins their lines; no sound history
    // then has the later line, where they are one or the link joins them, and else none has both; or two different texts have one
    // digest.
    ensures { IsContradictAnswer (record {
      first = first.now;
      first_anchors = first_anchors.now;
      second = second.now;
      second_anchors = second_anchors.now;
      link = link.now;
    })
        out.old out.new text_size.new result }
{
    match judge_contradiction(alloc, first, first_anchors, second, second_anchors, link) {
        Ok(told) => tell(told.status, told.text.as_slice(), out, text_size),
        Err(NoMemory) => tell_no_memory(out, text_size),
    }
}

/// Tells whether the service that received both threads of the evidence of a fork broke a rule: 0 it did, 1 both
/// proofs break none, or one isn't accepted, or the link joins no such lines, or the bytes are no evidence, 6 no
/// memory, 9 a bad line in the anchors. A link of no bytes is none. The text goes into the buffer as with
/// `timeweave_verify`.
#[unsafe(no_mangle)]
pub extern "C" fn timeweave_receiver(
    alloc: Global,
    evidence: &[u8],
    anchors: &[u8],
    link: &[u8],
    out: &mut [u8],
    text_size: &mut usize,
) -> u32
    // The status and the text are those of the verdict on both proofs of the evidence as two files, each under the anchors, and on the
    // link, or of bytes that are no evidence, or of the first bad line, or of want of memory; the buffer and the size are as with a
    // proof's text.
    ensures { IsReceiverAnswer evidence.now anchors.now link.now out.old out.new text_size.new result }
{
    match judge_receiver(alloc, ANCHORS, evidence, anchors, link) {
        Ok(told) => tell(told.status, told.text.as_slice(), out, text_size),
        Err(NoMemory) => tell_no_memory(out, text_size),
    }
}

/// The library's version: its first bytes, as many as have room, are put at the front of `out`. Answers
/// the size of the whole.
#[unsafe(no_mangle)]
pub extern "C" fn timeweave_version(out: &mut [u8]) -> usize
    // The size told is that of the version.
    ensures size { result ≡ length version_text }
    // As much of the version as has room stands at the buffer's front, and all else of the buffer is as it was.
    ensures text { out.new ≡ put_in version_text out.old }
{
    let version = b"1.0.0";
    put(version, out);
    version.len()
}

/// Judges the proof; the text goes into the buffer.
fn answer(
    alloc: Global,
    proof: &[u8],
    anchors: &[u8],
    strict: bool,
    out: &mut [u8],
    text_size: &mut usize,
) -> u32
    ensures { IsVerifierAnswer strict proof.now anchors.now out.old out.new text_size.new result }
{
    match judge(alloc, ANCHORS, proof, anchors, strict) {
        Ok(told) => tell(told.status, told.text.as_slice(), out, text_size),
        Err(NoMemory) => tell_no_memory(out, text_size),
    }
}

/// Answers the status of want of memory; its text goes into the buffer.
fn tell_no_memory(out: &mut [u8], text_size: &mut usize) -> u32
    ensures status { result ≡ fault_status_of WantedMemory }
    ensures size { text_size.new ≡ length (fault_text WantedMemory) }
    ensures text { out.new ≡ put_in (fault_text WantedMemory) out.old }
{
    let status = fault_status(&CommandFault::NoMemory);
    tell(status, no_memory(), out, text_size)
}
