// Reading numbers and digests that are words.

ghost use Rattle.std.specs.Prelude.{◌≡◌, ◌↔◌, ◌<◌, ◌^◌, IsTrue, IsSome, IfSome};
ghost use Rattle.std.specs.Char.{is_ascii_digit};
ghost use Rattle.std.specs.List.{list_all};
ghost use Rattle.tw_text.specs.Words.{word_digest, word_number};
ghost use Rattle.tw_text.specs.Words.{is_digest as is_digest_of, is_number as is_number_of};

use hex::FromHex;
use tw_base::Digest;

/// Whether the text is a number in decimal digits, with no sign and no leading zero.
fn is_number(text: &[u8]) -> bool
    ensures { result ≡ is_number_of text.now }
{
    !text.is_empty() && (text.len() == 1 || text[0] != b'0') && all_digits(text)
}

/// Whether each byte is a decimal digit.
fn all_digits(text: &[u8]) -> bool
    ensures { result ≡ list_all is_ascii_digit text.now }
{
    text.iter().all(|b| b.is_ascii_digit())
}

/// The number of 64 bits that the text is, in decimal digits with no sign and no leading zero.
pub fn read_number(text: &[u8]) -> Option<u64>
    // A word is a number exactly where it is one below 2^64 without sign and leading zero.
    ensures some { IsSome result ↔ (IsTrue (is_number_of text.now) × (word_number text.now < 2 ^ 64)) }
    // It is then read as that number.
    ensures value { IfSome result (λ n. n ≡ word_number text.now) }
{
    if !is_number(text) {
        return None;
    }
    std::str::from_utf8(text).ok()?.parse().ok()
}

/// The digest that the text is, in 64 hexadecimal digits of either case.
pub fn read_digest(text: &[u8]) -> Option<Digest>
    // A word is a digest exactly where it has 64 hexadecimal digits.
    ensures some { IsSome result ↔ IsTrue (is_digest_of text.now) }
    // It is then read as that digest.
    ensures value { IfSome result (λ digest. digest ≡ word_digest text.now) }
{
    match <[u8; 32]>::from_hex(text) {
        Ok(bytes) => Some(Digest(bytes)),
        Err(_) => None,
    }
}
