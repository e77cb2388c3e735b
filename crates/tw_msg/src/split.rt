// What stands before and behind the first separator of a text; tw_script/src/parts.rt goes over all parts of one.

ghost use Rattle.std.specs.Prelude.{◌≡◌, ◌==◌, position};
ghost use Rattle.std.specs.List.{after_first, before_first};

/// What stands before the first separator, and what follows it: all and nothing where there is
/// none.
pub(crate) fn split_at_first(bytes: &[u8], separator: u8) -> (&[u8], &[u8])
    ensures before { result.0.now ≡ before_first (λ b. b == separator) bytes.now }
    ensures after { result.1.now ≡ after_first (λ b. b == separator) bytes.now }
{
    match first_place(bytes, separator) {
        Some(i) => (&bytes[..i], &bytes[i + 1..]),
        None => (bytes, &[]),
    }
}

/// The index of the first separator.
pub fn first_place(bytes: &[u8], separator: u8) -> Option<usize>
    ensures { result ≡ position (λ b. b == separator) bytes.now }
{
    bytes.iter().position(|b| *b == separator)
}
