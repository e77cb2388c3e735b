// Reading low and high map files, for those who check them; they begin as proofs do, but with the kinds 6 and 7.
#![tactic(auto, unfolding(crate::specs::Seen::map_reading))]

ghost use Rattle.std.specs.Prelude.{◌≡◌, ◌-◌, ◌<◌, ◌≤◌, length, IfOk, nat_lt};
ghost use Rattle.tw_base.specs.declared.kinds.limits.TheConstants.{LAST_STEP};
ghost use Rattle.tw_base.specs.format.Codecs.{nothing, optional, present};
ghost use Rattle.tw_base.specs.format.Formats.{ReadsAs};
ghost use Rattle.tw_base.specs.format.Taking.{Takes};
ghost use Rattle.tw_tmap.specs.MapFiles.{high_codec, high_layout, low_codec, low_layout, low_part_codec};

use crate::map_file::{HighFile, LowFile, LowPart};
use std::alloc::Global;
use tw_base::limits::LAST_STEP;
use tw_base::{ReadFault, take_name, take_number, take_text, whole_to};
use tw_skipproof::{PROOF_MAGIC, take_opening, take_path};
use tw_treeproof::take_gap;

/// How a low file begins: the four bytes of each proof, and the kind 6.
pub(crate) const LOW_MAGIC: [u8; 5] = [
    PROOF_MAGIC[0],
    PROOF_MAGIC[1],
    PROOF_MAGIC[2],
    PROOF_MAGIC[3],
    6,
];

/// How a high file begins: the four bytes of each proof, and the kind 7.
pub(crate) const HIGH_MAGIC: [u8; 5] = [
    PROOF_MAGIC[0],
    PROOF_MAGIC[1],
    PROOF_MAGIC[2],
    PROOF_MAGIC[3],
    7,
];

/// Takes what a low file shows of the step before its own, from step 2 on: the path down to it, its opening, and the tree proof.
#[tactic(auto, unfolding(crate::specs::Seen::map_reading, tw_base::specs::format::Seen::choices))]
fn take_before(
    alloc: Global,
    bytes: &[u8],
    at: &mut u64,
    top: u64,
    step: u64,
) -> Result<Option<LowPart>, ReadFault>
    requires within { at.old ≤ length bytes.now }
    requires top { top ≤ LAST_STEP }
    requires step { step ≤ LAST_STEP }
    ensures { Takes (optional (nat_lt 1 step) (low_part_codec top (step - 1))) (λ p. p) bytes.now at.old at.new result }
{
    if step <= 1 {
        return Ok(None);
    }
    let path = take_path(alloc, bytes, at, top, step - 1)?;
    let opening = take_opening(alloc, bytes, at, 0, step - 1)?;
    let shown = take_gap(alloc, bytes, at)?;
    Ok(Some(LowPart {
        path,
        opening,
        shown,
    }))
}

/// Takes a low file.
fn take_low(alloc: Global, bytes: &[u8], at: &mut u64) -> Result<LowFile, ReadFault>
    requires { at.old ≤ length bytes.now }
    ensures { Takes low_codec (λ f. f) bytes.now at.old at.new result }
{
    take_text(bytes, at, &LOW_MAGIC)?;
    let service = take_name(bytes, at)?;
    let step = take_number(bytes, at, 8, 1, LAST_STEP)?;
    let peer = take_name(bytes, at)?;
    let top = take_number(bytes, at, 8, 1, LAST_STEP)?;
    let shown = take_before(alloc, bytes, at, top, step)?;
    Ok(LowFile {
        service,
        step,
        peer,
        top,
        shown,
    })
}

/// Takes a high file.
fn take_high(alloc: Global, bytes: &[u8], at: &mut u64) -> Result<HighFile, ReadFault>
    requires { at.old ≤ length bytes.now }
    ensures { Takes high_codec (λ f. f) bytes.now at.old at.new result }
{
    take_text(bytes, at, &HIGH_MAGIC)?;
    let service = take_name(bytes, at)?;
    let top = take_number(bytes, at, 8, 1, LAST_STEP)?;
    let peer = take_name(bytes, at)?;
    let step = take_number(bytes, at, 8, 1, LAST_STEP)?;
    let opening = take_opening(alloc, bytes, at, 0, top)?;
    let shown = take_gap(alloc, bytes, at)?;
    Ok(HighFile {
        service,
        top,
        peer,
        step,
        opening,
        shown,
    })
}

/// The low file that the bytes spell, from first to last. Malformed exactly where they spell none, with
/// the place of the first byte at which none goes on.
#[tactic(auto)]
pub fn read_low(alloc: Global, bytes: &[u8]) -> Result<LowFile, ReadFault>
    // Bytes are read as a low file exactly where they spell one, with that file; else the length of the longest front that
    // some low file begins with is told.
    ensures read { ReadsAs (λ f. f) low_layout bytes.now result }
    // Each file that is read has a spelling.
    ensures fits { IfOk result low_codec.Fits }
{
    let mut at = 0;
    let read = take_low(alloc, bytes, &mut at);
    whole_to(bytes, at, read)
}

/// The high file that the bytes spell, from first to last. Malformed exactly where they spell none, with
/// the place of the first byte at which none goes on.
#[tactic(auto)]
pub fn read_high(alloc: Global, bytes: &[u8]) -> Result<HighFile, ReadFault>
    // Bytes are read as a high file exactly where they spell one, with that file; else the length of the longest front that
    // some high file begins with is told.
    ensures read { ReadsAs (λ f. f) high_layout bytes.now result }
    // Each file that is read has a spelling.
    ensures fits { IfOk result high_codec.Fits }
{
    let mut at = 0;
    let read = take_high(alloc, bytes, &mut at);
    whole_to(bytes, at, read)
}
