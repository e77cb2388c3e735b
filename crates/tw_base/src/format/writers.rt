// The writers of a file's fields that append to `Bytes` what the field's reader reads as the value; `fixed.rt` fills
// arrays, `page_bytes.rt` pages. Numbers are big-endian. After want of memory nothing was appended, but by
// `put_labels`.
#![tactic(auto, unfolding(crate::specs::format::Seen::fields))]

ghost use Rattle.std.specs.Prelude.{◌≡◌, ℕ, ◌-◌, ◌^◌, ◌<◌, ◌≤◌, ◌++◌, length, take, OnErr, OnOk};
ghost use Rattle.tw_base.specs.format.Codecs.{bytes_codec, digest_codec, labels_codec, name_codec, number_codec, sized_codec, text_codec};
ghost use Rattle.tw_base.specs.format.Fields.{number_bytes};
ghost use Rattle.tw_base.specs.format.Taking.{Puts};
ghost use Rattle.tw_base.specs.kinds.Texts.{joined};

use crate::kinds::digest::Digest;
use crate::kinds::failure::NoMemory;
use crate::kinds::label_list::Labels;
use crate::kinds::name::Name;
use crate::kinds::sequence::Bytes;

/// Appends the last `width` bytes (at most 8) of a number: all of it where it fits them.
pub fn put_last_bytes(into: &mut Bytes, value: u64, width: u8) -> Result<(), NoMemory>
    requires { width ≤ 8 }
    // The last bytes of a number are appended as its codec writes them, high byte first.
    ensures ok { OnOk result (into.new ≡ into.old ++ number_bytes width value) }
    ensures err { OnErr result (into.new ≡ into.old) }
{
    let bytes = value.to_be_bytes();
    into.extend_from_slice(&bytes[8 - width as usize..])
}

/// Appends a number that fits `width` bytes (at most 8).
pub fn put_number(into: &mut Bytes, value: u64, width: u8) -> Result<(), NoMemory>
    requires width { width ≤ 8 }
    requires fits { value < 256 ^ width }
    // A number within the range is appended as its codec writes it.
    ensures puts { Puts (number_codec width 0 (256 ^ width - 1)) value into.old into.new result }
    ensures err { OnErr result (into.new ≡ into.old) }
{
    put_last_bytes(into, value, width)
}

/// Appends the 16 bytes of a name.
pub fn put_name(into: &mut Bytes, name: &Name) -> Result<(), NoMemory>
    // A name is appended as its codec writes it.
    ensures puts { Puts name_codec name.now into.old into.new result }
    ensures err { OnErr result (into.new ≡ into.old) }
{
    into.extend_from_slice(name.as_bytes())
}

/// Appends the 32 bytes of a digest.
pub fn put_digest(into: &mut Bytes, digest: &Digest) -> Result<(), NoMemory>
    // A digest is appended as its codec writes it.
    ensures puts { Puts digest_codec digest.now into.old into.new result }
    ensures err { OnErr result (into.new ≡ into.old) }
{
    put_bytes(into, &digest.0)
}

/// Appends the 32 bytes of each label. After want of memory some of the labels are appended.
#[tactic(auto, using(crate::proofs::lemmas::kinds::Joined::more))]
pub fn put_labels(into: &mut Bytes, labels: &Labels) -> Result<(), NoMemory>
    // A list of labels is appended as its codec writes it.
    ensures puts { Puts (labels_codec (length labels.now)) labels.now into.old into.new result }
    ensures err { OnErr result ((n : ℕ) × (into.new ≡ into.old ++ joined (take n labels.now))) }
{
    for label in labels.as_slice() {
        put_digest(into, label)?;
    }
    Ok(())
}

/// Appends the bytes.
pub fn put_bytes(into: &mut Bytes, bytes: &[u8]) -> Result<(), NoMemory>
    // Bytes are appended as their codec writes them.
    ensures puts { Puts (bytes_codec (length bytes.now)) bytes.now into.old into.new result }
    ensures err { OnErr result (into.new ≡ into.old) }
{
    into.extend_from_slice(bytes)
}

/// Appends the text.
pub fn put_text(into: &mut Bytes, text: &[u8]) -> Result<(), NoMemory>
    // Fixed bytes are appended as their codec writes them.
    ensures { Puts (text_codec text.now) text.now into.old into.new result }
{
    put_bytes(into, text)
}

/// Appends the number of the bytes in `width` bytes (at most 8), and the bytes.
pub fn put_sized(into: &mut Bytes, bytes: &[u8], width: u8) -> Result<(), NoMemory>
    requires { width ≤ 8 }
    // Bytes within the range of their length are appended behind it, as their codec writes them.
    ensures { (least most : ℕ) → least ≤ length bytes.now → length bytes.now ≤ most →
        Puts (sized_codec width least most) bytes.now into.old into.new result }
{
    put_last_bytes(into, bytes.len() as u64, width)?;
    put_bytes(into, bytes)
}
