// The fields at a place, for the readers that take them. Where no such field stands there, the answer is the place of
// the first byte that cannot stand there, or the length of bytes that end too early. Numbers are big-endian.

ghost use Rattle.std.specs.Prelude.{◌≡◌, ℕ, ◌+◌, ◌*◌, ◌^◌, ◌<◌, ◌≤◌, length, take, drop, ◌&&◌, ◌||◌, ◌==◌, IfOk, IfSome};
ghost use Rattle.std.specs.Int.{to_be_bytes, w64};
ghost use Rattle.tw_base.specs.format.Fields.{digest, high_after, low_after, name, number, text as fixed_text};
ghost use Rattle.tw_base.specs.format.Formats.{Gives, GivesFront, front, read_at};
ghost use Rattle.tw_base.specs.kinds.Names.{is_name_byte as is_name_byte_of};

use crate::kinds::digest::Digest;
use crate::kinds::name::{Name, is_name_byte};

/// The service's name at a place: 1 to 16 bytes of `a-z`, `0-9` and `-`, and then zeros to 16 bytes.
pub fn read_name(bytes: &[u8], at: u64) -> Result<Name, u64>
    requires { at ≤ length bytes.now }
    // A name is read from a place on exactly where the bytes there spell one; else the place of the first bad byte is
    // told.
    ensures read { Gives (λ n. n) result (at + 16) (read_at name bytes.now at) }
    ensures within { IfOk result (λ _. at + 16 ≤ length bytes.now) }
{
    let rest = &bytes[at as usize..];
    match check_name(rest, at) {
        Ok(()) => Ok(Name::from_bytes(first_16(rest))),
        Err(place) => Err(place),
    }
}

/// The number of `width` bytes (at most 8) at a place, from `least` to `most`.
pub fn read_number(bytes: &[u8], at: u64, width: u8, least: u64, most: u64) -> Result<u64, u64>
    requires width { width ≤ 8 }
    requires within { at ≤ length bytes.now }
    requires range { least ≤ most }
    requires fits { most < 256 ^ width }
    // A number is read from a place on exactly where the bytes there spell one within its range; else the place of the
    // first bad byte is told.
    ensures read { Gives (λ n. n) result (at + width) (read_at (number width least most) bytes.now at) }
    ensures within { IfOk result (λ _. at + width ≤ length bytes.now) }
    ensures range { IfOk result (λ n. (least ≤ n) × (n ≤ most)) }
{
    number_at(bytes, at as usize, width, least, most)
}

/// The digest at a place: 32 bytes, whatever they are.
pub fn read_digest(bytes: &[u8], at: u64) -> Result<Digest, u64>
    requires { at ≤ length bytes.now }
    // A digest is read from a place on exactly where 32 bytes stand there; else the place at which the bytes end is
    // told.
    ensures read { Gives (λ d. d) result (at + 32) (read_at digest bytes.now at) }
    ensures within { IfOk result (λ _. at + 32 ≤ length bytes.now) }
{
    if bytes.len() as u64 - at < 32 {
        return Err(bytes.len() as u64);
    }
    Ok(digest_at(bytes, at))
}

/// The digest at a place that has 32 bytes.
pub(crate) fn digest_at(bytes: &[u8], at: u64) -> Digest
    requires { at + 32 ≤ length bytes.now }
    ensures { Gives (λ d. d) (Ok result) (at + 32) (read_at digest bytes.now at) }
{
    match bytes[at as usize..].first_chunk::<32>() {
        Some(digest) => Digest(*digest),
        None => unreachable!(),
    }
}

/// The power of 256.
fn unit_of(width: u8) -> u64
    requires { width < 8 }
    ensures value { result ≡ 256 ^ width }
    ensures some { 0 < result }
{
    match width {
        0 => 1,
        1 => 0x100,
        2 => 0x1_0000,
        3 => 0x100_0000,
        4 => 0x1_0000_0000,
        5 => 0x100_0000_0000,
        6 => 0x1_0000_0000_0000,
        7 => 0x100_0000_0000_0000,
        _ => unreachable!(),
    }
}

/// The least that may follow the byte `b` of a number that is at least `least`.
#[tactic(auto, unfolding(crate::specs::format::Fields::low_after))]
fn low_of(unit: u64, b: u64, least: u64) -> u64
    requires { 0 < unit }
    ensures { result ≡ low_after unit b least }
{
    if b == least / unit { least % unit } else { 0 }
}

/// The most that may follow the byte `b` of a number that is at most `most`.
#[tactic(auto, unfolding(crate::specs::format::Fields::high_after))]
fn high_of(unit: u64, b: u64, most: u64) -> u64
    requires { 0 < unit }
    ensures { result ≡ high_after unit b most }
{
    if b == most / unit {
        most % unit
    } else {
        unit - 1
    }
}

/// The number that the eight bytes at a place are, where there are so many.
fn eight_at(bytes: &[u8], at: usize) -> Option<u64>
    requires { at ≤ length bytes.now }
    ensures { IfSome result (λ n. (at + 8 ≤ length bytes.now) × (to_be_bytes w64 n ≡ take 8 (drop at bytes.now))) }
{
    match bytes[at..].first_chunk::<8>() {
        Some(eight) => Some(u64::from_be_bytes(*eight)),
        None => None,
    }
}

/// The number at a place: eight bytes at once where they are within the range, and else byte by byte.
fn number_at(bytes: &[u8], at: usize, width: u8, least: u64, most: u64) -> Result<u64, u64>
    requires width { width ≤ 8 }
    requires within { at ≤ length bytes.now }
    requires range { least ≤ most }
    requires fits { most < 256 ^ width }
    ensures read { GivesFront (λ n. n) result (at + width) (front (number width least most) (drop at bytes.now) at) }
    ensures within { IfOk result (λ _. at + width ≤ length bytes.now) }
    ensures range { IfOk result (λ n. (least ≤ n) × (n ≤ most)) }
{
    if width == 8 {
        if let Some(found) = eight_at(bytes, at) {
            if least <= found && found <= most {
                return Ok(found);
            }
        }
    }
    number_by_bytes(bytes, at, width, least, most)
}

/// The number at a place, byte by byte.
fn number_by_bytes(bytes: &[u8], at: usize, width: u8, least: u64, most: u64) -> Result<u64, u64>
    requires width { width ≤ 8 }
    requires within { at ≤ length bytes.now }
    requires range { least ≤ most }
    requires fits { most < 256 ^ width }
    ensures read { GivesFront (λ n. n) result (at + width) (front (number width least most) (drop at bytes.now) at) }
    ensures within { IfOk result (λ _. at + width ≤ length bytes.now) }
    ensures range { IfOk result (λ n. (least ≤ n) × (n ≤ most)) }
{
    if width == 0 {
        return Ok(0);
    }
    if at == bytes.len() {
        return Err(at as u64);
    }
    let unit = unit_of(width - 1);
    let b = bytes[at] as u64;
    if b < least / unit || most / unit < b {
        return Err(at as u64);
    }
    let low = low_of(unit, b, least);
    let high = high_of(unit, b, most);
    match number_by_bytes(bytes, at + 1, width - 1, low, high) {
        Ok(rest) => Ok(b * unit + rest),
        Err(place) => Err(place),
    }
}

/// Ok where the bytes, the first of which has this place, begin with a name.
fn check_name(rest: &[u8], at: u64) -> Result<(), u64>
    requires { at + length rest.now < 2 ^ 64 }
    ensures read { GivesFront (λ _. take 16 rest.now) result (at + 16) (front name rest.now at) }
    ensures within { IfOk result (λ _. 16 ≤ length rest.now) }
{
    let mut letters = true;
    let mut zeros = false;
    for i in 0..16 {
        if i == rest.len() {
            return Err(at + i as u64);
        }
        let b = rest[i];
        if !may_stand(b, letters, zeros) {
            return Err(at + i as u64);
        }
        letters = b != 0;
        zeros = true;
    }
    Ok(())
}

/// Whether the byte may stand in a name where letters may come, or zeros.
fn may_stand(b: u8, letters: bool, zeros: bool) -> bool
    ensures { result ≡ ((letters && is_name_byte_of b) || (zeros && b == 0)) }
{
    letters && is_name_byte(b) || zeros && b == 0
}

/// The first 16 bytes.
fn first_16(bytes: &[u8]) -> [u8; 16]
    requires { 16 ≤ length bytes.now }
    ensures { result ≡ take 16 bytes.now }
{
    match bytes.first_chunk::<16>() {
        Some(first) => *first,
        None => unreachable!(),
    }
}

/// Ok where the bytes, the first of which has this place, begin with the text.
pub(crate) fn check_text(rest: &[u8], at: u64, text: &[u8]) -> Result<(), u64>
    requires { at + length rest.now < 2 ^ 64 }
    ensures read { GivesFront (λ _. text.now) result (at + length text.now) (front (fixed_text text.now) rest.now at) }
    ensures within { IfOk result (λ _. length text.now ≤ length rest.now) }
{
    for i in 0..text.len() {
        if i == rest.len() || rest[i] != text[i] {
            return Err(at + i as u64);
        }
    }
    Ok(())
}
