// Writing low and high map files, for the services that give them (`tw_service`).
#![tactic(auto, unfolding(crate::specs::Seen::map_writing))]

ghost use Rattle.std.specs.Prelude.{◌≡◌, ℕ, ◌-◌, ◌++◌, IfOk, OnOk, nat_lt};
ghost use Rattle.tw_base.specs.format.Codecs.{optional};
ghost use Rattle.tw_base.specs.format.Formats.{Spells};
ghost use Rattle.tw_tmap.specs.MapFiles.{high_bytes, high_codec, high_layout, low_bytes, low_codec, low_layout, low_part_codec};

use crate::map_file::{HighFile, LowFile, LowPart};
use crate::reading::{HIGH_MAGIC, LOW_MAGIC};
use std::alloc::Global;
use tw_base::{Bytes, NoMemory, put_name, put_number, put_text};
use tw_skipproof::{put_opening, put_path};
use tw_treeproof::put_gap;

/// Appends what a low file shows of the step before its own: the path, the opening, and the tree proof of the peer's last thread.
fn put_low_part(into: &mut Bytes, part: &LowPart) -> Result<(), NoMemory>
    ensures { (top step : ℕ) → OnOk result (into.new ≡ into.old ++ (low_part_codec top step).write part.now) }
{
    put_path(into, &part.path)?;
    put_opening(into, &part.opening)?;
    put_gap(into, &part.shown)?;
    Ok(())
}

/// Appends the step before, from step 2 on.
#[tactic(auto, unfolding(tw_base::specs::format::Codecs::nothing, tw_base::specs::format::Codecs::present))]
fn put_before(into: &mut Bytes, file: &LowFile) -> Result<(), NoMemory>
    ensures { OnOk result (into.new ≡ into.old ++ (optional (nat_lt 1 file.now.step) (low_part_codec file.now.top (file.now.step - 1))).write file.now.shown) }
{
    if file.step <= 1 {
        return Ok(());
    }
    match &file.shown {
        Some(part) => put_low_part(into, part),
        None => Ok(()),
    }
}

/// Appends the low file.
fn put_low(into: &mut Bytes, file: &LowFile) -> Result<(), NoMemory>
    ensures { OnOk result (into.new ≡ into.old ++ low_bytes file.now) }
{
    put_text(into, &LOW_MAGIC)?;
    put_name(into, &file.service)?;
    put_number(into, file.step, 8)?;
    put_name(into, &file.peer)?;
    put_number(into, file.top, 8)?;
    put_before(into, file)?;
    Ok(())
}

/// Appends the high file.
fn put_high(into: &mut Bytes, file: &HighFile) -> Result<(), NoMemory>
    ensures { OnOk result (into.new ≡ into.old ++ high_bytes file.now) }
{
    put_text(into, &HIGH_MAGIC)?;
    put_name(into, &file.service)?;
    put_number(into, file.top, 8)?;
    put_name(into, &file.peer)?;
    put_number(into, file.step, 8)?;
    put_opening(into, &file.opening)?;
    put_gap(into, &file.shown)?;
    Ok(())
}

/// The bytes of the low file. They spell it where it has a spelling: where its numbers are in the format's
/// ranges, and it shows the step before exactly from step 2 on, with the links and labels of the steps.
#[tactic(auto)]
pub fn write_low(alloc: Global, file: &LowFile) -> Result<Bytes, NoMemory>
    // What is written of a low file is its bytes in the format.
    ensures bytes { IfOk result (λ bytes. bytes ≡ low_bytes file.now) }
    // The bytes that are written spell the file, where it has a spelling.
    ensures spelled { IfOk result (λ bytes. low_codec.Fits file.now → Spells low_layout bytes file.now) }
{
    let mut bytes = Bytes::new(alloc);
    put_low(&mut bytes, file)?;
    Ok(bytes)
}

/// The bytes of the high file. They spell it where it has a spelling: where its numbers are in the
/// format's ranges, and its opening has the labels of its top.
#[tactic(auto)]
pub fn write_high(alloc: Global, file: &HighFile) -> Result<Bytes, NoMemory>
    // What is written of a high file is its bytes in the format.
    ensures bytes { IfOk result (λ bytes. bytes ≡ high_bytes file.now) }
    // The bytes that are written spell the file, where it has a spelling.
    ensures spelled { IfOk result (λ bytes. high_codec.Fits file.now → Spells high_layout bytes file.now) }
{
    let mut bytes = Bytes::new(alloc);
    put_high(&mut bytes, file)?;
    Ok(bytes)
}
