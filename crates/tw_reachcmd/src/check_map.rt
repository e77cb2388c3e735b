// The command `checkmap`, which judges two map files; tw_judge/src/maps.rt judges their bytes for the library.

ghost use Rattle.std.specs.Prelude.{IfOk};
ghost use Rattle.tw_outside.specs.Asked.{asked};
ghost use Rattle.tw_reachcmd.specs.CheckMap.{CheckMapComes};
ghost use Rattle.tw_text.specs.Faults.{IsReadAs};
ghost use Rattle.tw_reachcmd.specs.ReadMaps.{AreMapsOf, MapsCome};
ghost use Rattle.tw_tmap.specs.MapFiles.{high_codec, high_layout, low_codec, low_layout};

use crate::anchors::anchors_of;
use crate::reading::read_both;
use std::alloc::Global;
use tw_base::{ReadFault, Sha};
use tw_filecmd::limits::FILE_READ;
use tw_outside::{Inputs, read_all};
use tw_text::{CommandFault, bad_byte};
use tw_tmap::{HighFile, LowFile, MapVerdict, check_map, read_high, read_low};

/// A low and a high map file that were read.
#[derive(Drop)]
struct MapFiles {
    low: LowFile,
    high: HighFile,
}

/// Judges the low and the high map file in the named files under the anchors of another one. All three are
/// read, in this order, before one is judged; then the grammar of each is, in the same order, and then
/// what both map files tell.
pub fn check_map_files<I: Inputs>(
    alloc: Global,
    inputs: &mut I,
    low: &str,
    high: &str,
    anchors: &str,
) -> Result<MapVerdict, CommandFault>
    requires low { I.may_ask inputs.old low.now }
    requires high { I.may_ask inputs.old high.now }
    requires anchors { I.may_ask inputs.old anchors.now }
    // What `checkmap` comes to is what its files and the count of faults allow: what is told of the map files under the
    // anchors, with the bounds theorem, or a fault with its cause.
    ensures { CheckMapComes (asked (I.told inputs.old) (I.faults inputs.old) (I.faults inputs.new)) low.now high.now anchors.now result }
{
    let (one, other) = read_both(alloc, inputs, low, high)?;
    let lines = read_all(alloc, inputs, anchors, FILE_READ)?;
    match maps_of(alloc, low, one.as_slice(), high, other.as_slice()) {
        Ok(maps) => judged(alloc, &maps, anchors, lines.as_slice()),
        Err(fault) => Err(fault),
    }
}

/// What is told of both map files under the anchors of these lines of the named file.
fn judged(
    alloc: Global,
    maps: &MapFiles,
    anchors: &str,
    lines: &[u8],
) -> Result<MapVerdict, CommandFault>
    requires low { low_codec.Fits maps.now.low }
    requires high { high_codec.Fits maps.now.high }
    ensures { MapsCome maps.now anchors.now lines.now result }
{
    match anchors_of(alloc, anchors, lines) {
        Ok(held) => Ok(check_map::<Sha>(&maps.low, &maps.high, held.as_slice())),
        Err(fault) => Err(fault),
    }
}

/// The map files that the bytes of two files spell, the low one first.
fn maps_of(
    alloc: Global,
    low: &str,
    low_bytes: &[u8],
    high: &str,
    high_bytes: &[u8],
) -> Result<MapFiles, CommandFault>
    ensures maps { AreMapsOf low.now low_bytes.now high.now high_bytes.now result }
    ensures low { IfOk result (λ maps. low_codec.Fits maps.low) }
    ensures high { IfOk result (λ maps. high_codec.Fits maps.high) }
{
    let low = low_of(alloc, low, low_bytes)?;
    match high_of(alloc, high, high_bytes) {
        Ok(high) => Ok(MapFiles { low, high }),
        Err(fault) => {
            drop(low);
            Err(fault)
        }
    }
}

/// The low map file that the bytes of the file spell.
fn low_of(alloc: Global, file: &str, bytes: &[u8]) -> Result<LowFile, CommandFault>
    ensures part { IsReadAs low_layout file.now bytes.now result }
    ensures fits { IfOk result low_codec.Fits }
{
    match read_low(alloc, bytes) {
        Ok(low) => Ok(low),
        Err(ReadFault::Malformed { place }) => Err(CommandFault::Unreadable(bad_byte(
            alloc, file, place,
        )?)),
        Err(ReadFault::NoMemory) => Err(CommandFault::NoMemory),
    }
}

/// The high map file that the bytes of the file spell.
fn high_of(alloc: Global, file: &str, bytes: &[u8]) -> Result<HighFile, CommandFault>
    ensures part { IsReadAs high_layout file.now bytes.now result }
    ensures fits { IfOk result high_codec.Fits }
{
    match read_high(alloc, bytes) {
        Ok(high) => Ok(high),
        Err(ReadFault::Malformed { place }) => Err(CommandFault::Unreadable(bad_byte(
            alloc, file, place,
        )?)),
        Err(ReadFault::NoMemory) => Err(CommandFault::NoMemory),
    }
}
