// The fields of a line that is written.

ghost use Rattle.std.specs.Prelude.{◌≡◌, ◌∷◌, ◌++◌, [], OnOk};
ghost use Rattle.tw_text.specs.declared.field.Field.TheVariants.{Number, Word};

use std::alloc::Global;
use tw_base::{Bytes, Name, NoMemory, Sequence};

/// A field of a line.
#[derive(Drop, Debug)]
pub enum Field {
    /// Bytes that stand as they are.
    Word(Bytes),
    /// A number in decimal digits.
    Number(u64),
    /// The name of a service.
    Named(Name),
    /// Bytes in lower-case hexadecimal; `-` for no bytes.
    Hex(Bytes),
}

/// The fields of a line.
pub type FieldList = Sequence<Field>;

/// Puts a word at the end of the fields.
pub fn push_word(alloc: Global, fields: &mut FieldList, word: &[u8]) -> Result<(), NoMemory>
    // Where there is memory, the word stands behind what was there.
    ensures { OnOk result (fields.new ≡ fields.old ++ Word word.now ∷ []) }
{
    fields.push(Field::Word(Bytes::from_slice(alloc, word)?))
}

/// Puts a word and a number at the end of the fields.
pub fn push_numbered(
    alloc: Global,
    fields: &mut FieldList,
    word: &[u8],
    number: u64,
) -> Result<(), NoMemory>
    // Where there is memory, both stand behind what was there.
    ensures { OnOk result (fields.new ≡ fields.old ++ Word word.now ∷ Number number ∷ []) }
{
    push_word(alloc, fields, word)?;
    fields.push(Field::Number(number))
}
