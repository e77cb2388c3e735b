// Names of services, and which texts and which 16 bytes are one; `format/fields.rt` reads one within other bytes.

ghost use Rattle.std.specs.Prelude.{◌≡◌, ◌↔◌, ◌==◌, length, position, IsTrue, IsSome, IfSome};
ghost use Rattle.std.specs.List.{list_all};
ghost use Rattle.tw_base.specs.kinds.Bytes.{AreBytes};
ghost use Rattle.tw_base.specs.kinds.Names.{IsName, is_name_text, name_text, padded_name};
ghost use Rattle.tw_base.specs.kinds.Names.{is_name_byte as is_name_byte_of};

use crate::kinds::digest::see_bytes;
use std::marker::Model;

/// A service's name: 1 to 16 bytes of `a-z`, `0-9` and `-`, padded with zeros to 16 bytes, by
/// which names are ordered. Contracts see it as the list of the 16 bytes.
#[derive(Clone, Copy, PartialEq, Eq, PartialOrd, Ord, Debug, Drop)]
pub struct Name {
    bytes: [u8; 16],
}

impl Model for Name {
    ghost use Rattle.std.specs.Prelude.{ℕ, List};
    ghost use Rattle.tw_base.specs.kinds.Names.{IsName};

    ghost Value = { List ℕ };

    ghost view = { λ n. n.bytes };

    ghost invariant = { λ n. IsName n.bytes };

    ghost inverse = { λ bytes. record { bytes = bytes } };
}

impl Name {
    /// The name of this text; None exactly where the text is not 1 to 16 bytes of `a-z`, `0-9` and
    /// `-`.
    pub fn read(text: &[u8]) -> Option<Self>
        ensures some { IsSome result ↔ IsTrue (is_name_text text.now) }
        ensures name { IfSome result (λ name. name ≡ padded_name text.now) }
    {
        if !is_name(text) {
            return None;
        }
        let mut bytes = [0; 16];
        bytes[..text.len()].copy_from_slice(text);
        Some(Name { bytes })
    }

    /// The name of its 16 bytes, its letters and then zeros.
    pub fn from_bytes(bytes: [u8; 16]) -> Self
        requires { IsName bytes }
        ensures { result ≡ bytes }
    {
        Name { bytes }
    }

    /// The text of the name: its 16 bytes without the zeros.
    pub fn text(&self) -> &[u8]
        ensures text { result.now ≡ name_text self.now }
        ensures letters { IsTrue (is_name_text result.now) }
        ensures name { padded_name result.now ≡ self.now }
    {
        without_zeros(&self.bytes)
    }

    /// The 16 bytes of the name, its letters and then zeros.
    pub fn as_bytes(&self) -> &[u8; 16]
        ensures value { result.now ≡ self.now }
        ensures size { length result.now ≡ 16 }
        ensures bytes { AreBytes result.now }
        ensures name { IsName self.now }
    {
        see_bytes(&self.bytes);
        &self.bytes
    }
}

/// Tells a proof that a name has letters, and zeros behind them.
pub fn see_name(name: &Name)
    ensures { IsName name.now }
{
    name.as_bytes();
}

/// Whether a name may have this byte: `a-z`, `0-9` or `-`.
pub fn is_name_byte(b: u8) -> bool
    ensures { result ≡ is_name_byte_of b }
{
    b.is_ascii_lowercase() || b.is_ascii_digit() || b == b'-'
}

/// Whether the text is 1 to 16 bytes that a name may have.
fn is_name(text: &[u8]) -> bool
    ensures { result ≡ is_name_text text.now }
{
    !text.is_empty() && text.len() <= 16 && all_name_bytes(text)
}

/// Whether a name may have each of these bytes.
fn all_name_bytes(text: &[u8]) -> bool
    ensures { result ≡ list_all is_name_byte_of text.now }
{
    text.iter().all(|b| is_name_byte(*b))
}

/// The bytes before the first zero.
fn without_zeros(bytes: &[u8; 16]) -> &[u8]
    ensures { result.now ≡ name_text bytes.now }
{
    let size = first_zero(bytes).unwrap_or(16);
    &bytes[..size]
}

/// The place of the first zero.
fn first_zero(bytes: &[u8]) -> Option<usize>
    ensures { result ≡ position (λ b. b == 0) bytes.now }
{
    bytes.iter().position(|b| *b == 0)
}
