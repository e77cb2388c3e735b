// Writing lines: a head, and fields with one blank before each; the lines of scripts are read in tw_script.

ghost use Rattle.std.specs.Prelude.{◌≡◌, ◌∷◌, [], ◌++◌, OnOk, IfOk};
ghost use Rattle.tw_text.specs.Lines.{fields_text, line, usage_text};
ghost use Rattle.tw_text.specs.declared.field.Field.TheVariants.{Word, Number, Named, Hex};

use crate::field::{Field, FieldList};
use itoa::Buffer;
use std::alloc::Global;
use tw_base::{Bytes, Name, NoMemory};

/// The line: the head, then for each field one blank and the field, then one line feed.
pub fn print_line(alloc: Global, head: &[u8], fields: &FieldList) -> Result<Bytes, NoMemory>
    // A line of a head and its fields is exactly the text of the definitions.
    ensures { IfOk result (λ text. text ≡ line head.now fields.now) }
{
    let mut text = Bytes::new(alloc);
    text.extend_from_slice(head)?;
    for field in fields.as_slice() {
        put_field(alloc, &mut text, field)?;
    }
    text.extend_from_slice(b"\n")?;
    Ok(text)
}

/// The line `usage` with the number of a word.
pub fn print_usage(alloc: Global, number: u64) -> Result<Bytes, NoMemory>
    // The line of a bad word is exactly the text of the definitions.
    ensures { IfOk result (λ text. text ≡ usage_text number) }
{
    print_numbered(alloc, b"usage", number)
}

/// The line of a head and a number.
pub(crate) fn print_numbered(alloc: Global, head: &[u8], number: u64) -> Result<Bytes, NoMemory>
    ensures { IfOk result (λ text. text ≡ line head.now (Number number ∷ [])) }
{
    let mut text = Bytes::new(alloc);
    text.extend_from_slice(head)?;
    put_number(&mut text, number)?;
    text.extend_from_slice(b"\n")?;
    Ok(text)
}

/// Puts a blank and the field at the text's end.
fn put_field(alloc: Global, text: &mut Bytes, field: &Field) -> Result<(), NoMemory>
    ensures { OnOk result (text.new ≡ text.old ++ fields_text (field.now ∷ [])) }
{
    match field {
        Field::Word(bytes) => put_word(text, bytes.as_slice()),
        Field::Number(number) => put_number(text, *number),
        Field::Named(name) => put_name(text, name),
        Field::Hex(bytes) => put_hex(alloc, text, bytes.as_slice()),
    }
}

/// Puts a blank and the bytes at the text's end. (`refusal.rt` has helpers of the same names that put fields into a list.)
pub(crate) fn put_word(text: &mut Bytes, bytes: &[u8]) -> Result<(), NoMemory>
    ensures { OnOk result (text.new ≡ text.old ++ fields_text (Word bytes.now ∷ [])) }
{
    text.extend_from_slice(b" ")?;
    text.extend_from_slice(bytes)
}

/// Puts a blank and the number at the text's end.
pub(crate) fn put_number(text: &mut Bytes, number: u64) -> Result<(), NoMemory>
    ensures { OnOk result (text.new ≡ text.old ++ fields_text (Number number ∷ [])) }
{
    let mut buffer = Buffer::new();
    put_word(text, buffer.format(number).as_bytes())
}

/// Puts a blank and the name at the text's end.
pub(crate) fn put_name(text: &mut Bytes, name: &Name) -> Result<(), NoMemory>
    ensures { OnOk result (text.new ≡ text.old ++ fields_text (Named name.now ∷ [])) }
{
    put_word(text, name.text())
}

/// Puts a blank and the bytes in hexadecimal at the text's end.
pub(crate) fn put_hex(alloc: Global, text: &mut Bytes, bytes: &[u8]) -> Result<(), NoMemory>
    ensures { OnOk result (text.new ≡ text.old ++ fields_text (Hex bytes.now ∷ [])) }
{
    if bytes.is_empty() {
        return put_word(text, b"-");
    }
    let digits = hex::encode(alloc, bytes)?;
    put_word(text, digits.as_bytes())
}
