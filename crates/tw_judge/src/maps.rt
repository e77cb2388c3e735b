// What the library tells of two map files: the status and the text of the command `checkmap`, which is in
// tw_reachcmd/src/check_map.rt.

ghost use Rattle.std.specs.Prelude.{◌≡◌, ℕ, List, IfOk};
ghost use Rattle.tw_base.specs.format.Formats.{Spells};
ghost use Rattle.sha2.specs.Sha256.{sha256};
ghost use Rattle.tw_judge.specs.Maps.{AreMapsTold};
ghost use Rattle.tw_plain.specs.Maps.{IsPlainMap};
ghost use Rattle.tw_plain.specs.Plain.{file_lines};
ghost use Rattle.tw_tmap.specs.MapFiles.{high_codec, high_layout, low_codec, low_layout};
ghost use Rattle.tw_tmap.specs.Texts.{map_status, map_text};

use crate::told::{Told, tell_byte, tell_line};
use std::alloc::Global;
use tw_base::{NoMemory, ReadFault, Sha};
use tw_msg::{AnchorFault, read_anchors};
use tw_plain::plain_map_laws;
use tw_tmap::{HighFile, LowFile, MapVerdict, check_map, print_map, read_high, read_low};

/// Judges the bytes of a low and of a high map file under those of an anchors file, each with the name of
/// its file beside it. The status and the text are those of the program's `checkmap`: 0 with the bounds, 1
/// where the files don't fit each other, or with the lowest reason that stands, 9 with the first file that
/// isn't what it has to be. `NoMemory` where no memory was left.
pub fn judge_maps(
    alloc: Global,
    low_file: &str,
    low: &[u8],
    high_file: &str,
    high: &[u8],
    anchors_file: &str,
    anchors: &[u8],
) -> Result<Told, NoMemory>
    // What is told of two map files is the status and the text of what they tell under the anchors of the lines, with the
    // bounds theorem, where both are map files of their kinds and each line is good; else those of the first file that is none,
    // with its first bad byte, or else of the first bad line.
    ensures told { IfOk result (λ told. AreMapsTold (record { low = low.now; high = high.now; anchors = anchors.now })
        (record { low = low_file.now; high = high_file.now; anchors = anchors_file.now }) told.status told.text) }
    // Status 0, in the words of docs/theorem.md: the text is that of bounds, of the step and the peer that the first bytes of the
    // low file name. And in every list of sound histories that has each of the lines of the anchors file which is of the service
    // or of the peer, they are the bounds of its histories; or two different texts, both of bytes, of those that these histories
    // and checking both map files hash, have one SHA-256 digest.
    ensures plain { IfOk result (λ told. told.status ≡ 0 → IsPlainMap sha256 low.now high.now (file_lines anchors.now) told.text) }
{
    // By the laws of printed bounds.
    plain_map_laws::<Sha>();
    judge_low(alloc, low_file, low, high_file, high, anchors_file, anchors)
}

/// The same, by its first clause alone.
fn judge_low(
    alloc: Global,
    low_file: &str,
    low: &[u8],
    high_file: &str,
    high: &[u8],
    anchors_file: &str,
    anchors: &[u8],
) -> Result<Told, NoMemory>
    ensures { IfOk result (λ told. AreMapsTold (record { low = low.now; high = high.now; anchors = anchors.now })
        (record { low = low_file.now; high = high_file.now; anchors = anchors_file.now }) told.status told.text) }
{
    match read_low(alloc, low) {
        Ok(low) => {
            let told = judge_high(alloc, &low, high_file, high, anchors_file, anchors);
            drop(low);
            told
        }
        Err(ReadFault::Malformed { place }) => Ok(tell_byte(alloc, low_file, place)?),
        Err(ReadFault::NoMemory) => Err(NoMemory),
    }
}

/// Judges the bytes of a high map file beside a low one, under those of an anchors file.
fn judge_high(
    alloc: Global,
    low: &LowFile,
    high_file: &str,
    high: &[u8],
    anchors_file: &str,
    anchors: &[u8],
) -> Result<Told, NoMemory>
    requires { low_codec.Fits low.now }
    ensures { IfOk result (λ told. (low_bytes low_name : List ℕ) → Spells low_layout low_bytes low.now →
        AreMapsTold (record { low = low_bytes; high = high.now; anchors = anchors.now })
        (record { low = low_name; high = high_file.now; anchors = anchors_file.now }) told.status told.text) }
{
    match read_high(alloc, high) {
        Ok(high) => {
            let told = judge_files(alloc, low, &high, anchors_file, anchors);
            drop(high);
            told
        }
        Err(ReadFault::Malformed { place }) => Ok(tell_byte(alloc, high_file, place)?),
        Err(ReadFault::NoMemory) => Err(NoMemory),
    }
}

/// Judges both map files under the bytes of an anchors file.
fn judge_files(
    alloc: Global,
    low: &LowFile,
    high: &HighFile,
    anchors_file: &str,
    anchors: &[u8],
) -> Result<Told, NoMemory>
    requires low { low_codec.Fits low.now }
    requires high { high_codec.Fits high.now }
    ensures { IfOk result (λ told. (low_bytes low_name high_bytes high_name : List ℕ) → Spells low_layout low_bytes low.now →
        Spells high_layout high_bytes high.now → AreMapsTold (record { low = low_bytes; high = high_bytes; anchors = anchors.now })
        (record { low = low_name; high = high_name; anchors = anchors_file.now }) told.status told.text) }
{
    match read_anchors(alloc, anchors) {
        Ok(held) => {
            let verdict = check_map::<Sha>(low, high, held.as_slice());
            drop(held);
            Ok(tell_verdict(alloc, &verdict)?)
        }
        Err(AnchorFault::BadLine { line }) => Ok(tell_line(alloc, anchors_file, line)?),
        Err(AnchorFault::NoMemory) => Err(NoMemory),
    }
}

/// What is told of a verdict.
fn tell_verdict(alloc: Global, verdict: &MapVerdict) -> Result<Told, NoMemory>
    ensures status { IfOk result (λ told. told.status ≡ map_status verdict.now) }
    ensures text { IfOk result (λ told. told.text ≡ map_text verdict.now) }
{
    Ok(Told {
        status: status_of(verdict),
        text: print_map(alloc, verdict)?,
    })
}

/// The status of a verdict, as `answer_status` of tw_reachcmd has it.
fn status_of(verdict: &MapVerdict) -> u8
    ensures { result ≡ map_status verdict.now }
{
    match verdict {
        MapVerdict::Yes { .. } => 0,
        MapVerdict::No(_) | MapVerdict::Gap => 1,
    }
}
