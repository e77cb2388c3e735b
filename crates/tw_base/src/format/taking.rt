// The readers of fields at a place that moves: each takes the field that begins there, and leaves the place behind it.
// Where the bytes aren't that field they tell the first bad byte, and leave any place. Only those that are given an
// allocator take memory.
#![tactic(auto, unfolding(crate::specs::format::Seen::fields))]

ghost use Rattle.std.specs.Prelude.{◌≡◌, ◌≢◌, ◌^◌, ◌<◌, ◌≤◌, length, IfErr, IfOk};
ghost use Rattle.tw_base.specs.format.Codecs.{bytes_codec, digest_codec, labels_codec, name_codec, number_codec, sized_codec, text_codec};
ghost use Rattle.tw_base.specs.format.Taking.{Takes};

use crate::format::fields::{check_text, digest_at, read_digest, read_name, read_number};
use crate::kinds::digest::Digest;
use crate::kinds::failure::ReadFault;
use crate::kinds::label_list::Labels;
use crate::kinds::name::Name;
use crate::kinds::sequence::Bytes;
use std::alloc::Global;

/// Takes a number of `width` bytes (at most 8) within `least` and `most`.
pub fn take_number(
    bytes: &[u8],
    at: &mut u64,
    width: u8,
    least: u64,
    most: u64,
) -> Result<u64, ReadFault>
    requires within { at.old ≤ length bytes.now }
    requires width { width ≤ 8 }
    requires range { least ≤ most }
    requires fits { most < 256 ^ width }
    // A number is taken at a place exactly as its codec reads it, within its range; else the place of the first bad
    // byte is told.
    ensures takes { Takes (number_codec width least most) (λ n. n) bytes.now at.old at.new result }
    ensures range { IfOk result (λ n. (least ≤ n) × (n ≤ most)) }
    // `NoMemory` is never answered.
    ensures memory { IfErr result (λ fault. fault ≢ ReadFault.NoMemory) }
{
    match read_number(bytes, *at, width, least, most) {
        Ok(found) => {
            *at += width as u64;
            Ok(found)
        }
        Err(place) => Err(ReadFault::Malformed { place }),
    }
}

/// Takes a digest.
pub fn take_digest(bytes: &[u8], at: &mut u64) -> Result<Digest, ReadFault>
    requires { at.old ≤ length bytes.now }
    // A digest is taken at a place exactly as its codec reads it; else the place of the first bad byte is told.
    ensures takes { Takes digest_codec (λ d. d) bytes.now at.old at.new result }
    // `NoMemory` is never answered.
    ensures memory { IfErr result (λ fault. fault ≢ ReadFault.NoMemory) }
{
    match read_digest(bytes, *at) {
        Ok(found) => {
            *at += 32;
            Ok(found)
        }
        Err(place) => Err(ReadFault::Malformed { place }),
    }
}

/// Takes a service's name.
pub fn take_name(bytes: &[u8], at: &mut u64) -> Result<Name, ReadFault>
    requires { at.old ≤ length bytes.now }
    // A name is taken at a place exactly as its codec reads it; else the place of the first bad byte is told.
    ensures takes { Takes name_codec (λ n. n) bytes.now at.old at.new result }
    // `NoMemory` is never answered.
    ensures memory { IfErr result (λ fault. fault ≢ ReadFault.NoMemory) }
{
    match read_name(bytes, *at) {
        Ok(found) => {
            *at += 16;
            Ok(found)
        }
        Err(place) => Err(ReadFault::Malformed { place }),
    }
}

/// Takes the text.
pub fn take_text(bytes: &[u8], at: &mut u64, text: &[u8]) -> Result<(), ReadFault>
    requires { at.old ≤ length bytes.now }
    // Fixed bytes are taken at a place exactly as their codec reads them; else the place of the first bad byte is told.
    ensures takes { Takes (text_codec text.now) (λ _. text.now) bytes.now at.old at.new result }
    // `NoMemory` is never answered.
    ensures memory { IfErr result (λ fault. fault ≢ ReadFault.NoMemory) }
{
    match check_text(&bytes[*at as usize..], *at, text) {
        Ok(()) => {
            *at += text.len() as u64;
            Ok(())
        }
        Err(place) => Err(ReadFault::Malformed { place }),
    }
}

/// Takes so many bytes.
pub fn take_bytes(alloc: Global, bytes: &[u8], at: &mut u64, count: u64) -> Result<Bytes, ReadFault>
    requires { at.old ≤ length bytes.now }
    // So many bytes are taken at a place exactly as their codec reads them; else the place of the first bad byte is
    // told.
    ensures { Takes (bytes_codec count) (λ b. b) bytes.now at.old at.new result }
{
    let found = Bytes::from_slice(alloc, take_slice(bytes, at, count)?)?;
    Ok(found)
}

/// Takes the number of bytes, in `width` bytes (at most 8) and within `least` and `most`, and then
/// the bytes.
pub fn take_sized(
    alloc: Global,
    bytes: &[u8],
    at: &mut u64,
    width: u8,
    least: u64,
    most: u64,
) -> Result<Bytes, ReadFault>
    requires within { at.old ≤ length bytes.now }
    requires width { width ≤ 8 }
    requires range { least ≤ most }
    requires fits { most < 256 ^ width }
    // Bytes behind their length are taken at a place exactly as their codec reads them; else the place of the first bad
    // byte is told.
    ensures { Takes (sized_codec width least most) (λ b. b) bytes.now at.old at.new result }
{
    let size = take_number(bytes, at, width, least, most)?;
    take_bytes(alloc, bytes, at, size)
}

/// Takes so many digests. Room for them is taken once, where there are enough bytes.
pub fn take_labels(
    alloc: Global,
    bytes: &[u8],
    at: &mut u64,
    count: u64,
) -> Result<Labels, ReadFault>
    requires { at.old ≤ length bytes.now }
    // So many labels are taken at a place exactly as their codec reads them; else the place of the first bad byte is
    // told.
    ensures { Takes (labels_codec count) (λ ls. ls) bytes.now at.old at.new result }
{
    if (bytes.len() as u64 - *at) / 32 < count {
        return Err(ReadFault::Malformed {
            place: bytes.len() as u64,
        });
    }
    let mut labels = Labels::with_capacity(alloc, count as usize)?;
    for _i in 0..count {
        labels.push(digest_at(bytes, *at))?;
        *at += 32;
    }
    Ok(labels)
}

/// Takes so many bytes, where they stand.
pub fn take_slice<'a>(bytes: &'a [u8], at: &mut u64, count: u64) -> Result<&'a [u8], ReadFault>
    requires { at.old ≤ length bytes.now }
    // So many bytes are taken at a place, as a part of the bytes that are read, exactly as their codec reads them; else
    // the place of the first bad byte is told.
    ensures takes { Takes (bytes_codec count) (λ b. b.now) bytes.now at.old at.new result }
    // `NoMemory` is never answered.
    ensures memory { IfErr result (λ fault. fault ≢ ReadFault.NoMemory) }
{
    let start = *at;
    if bytes.len() as u64 - start < count {
        return Err(ReadFault::Malformed {
            place: bytes.len() as u64,
        });
    }
    *at += count;
    Ok(&bytes[start as usize..(start + count) as usize])
}
