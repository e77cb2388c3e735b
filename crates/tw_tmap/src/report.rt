// The text of the verdict on two map files, for the program and the library.

ghost use Rattle.std.specs.Prelude.{◌≡◌, [], ◌∷◌, IfOk, codes};
ghost use Rattle.tw_text.specs.Lines.{line};
ghost use Rattle.tw_tmap.specs.declared.map_verdict.MapVerdict.TheVariants.{Yes};
ghost use Rattle.tw_tmap.specs.Texts.{bound_field as bound_field_of, map_text};

use crate::map_verdict::MapVerdict;
use std::alloc::Global;
use tw_base::{Bytes, NoMemory};
use tw_text::{Field, FieldList, print_gap, print_line, print_rejected};

/// The lines of accepted map files: `accepted map`, `low`, `high` and `upto`; the line of the lowest
/// reason; or `rejected Gap 2`, where the second file doesn't fit the first.
pub fn print_map(alloc: Global, verdict: &MapVerdict) -> Result<Bytes, NoMemory>
    // What is written of map files is exactly the text of the definitions.
    ensures { IfOk result (λ text. text ≡ map_text verdict.now) }
{
    match verdict {
        MapVerdict::Yes { low, high, upto } => print_bounds(alloc, *low, *high, *upto),
        MapVerdict::No(reason) => print_rejected(alloc, reason),
        MapVerdict::Gap => print_gap(alloc, 2),
    }
}

/// The lines of accepted files.
fn print_bounds(alloc: Global, low: u64, high: Option<u64>, upto: u64) -> Result<Bytes, NoMemory>
    ensures { IfOk result (λ text. text ≡ map_text (Yes low high upto)) }
{
    let mut text = Bytes::from_slice(alloc, b"accepted map\n")?;
    let low = print_field(alloc, b"low", Field::Number(low))?;
    text.extend_from_slice(low.as_slice())?;
    let high = print_field(alloc, b"high", bound_field(alloc, high)?)?;
    text.extend_from_slice(high.as_slice())?;
    let upto = print_field(alloc, b"upto", Field::Number(upto))?;
    text.extend_from_slice(upto.as_slice())?;
    Ok(text)
}

/// The field of a bound.
fn bound_field(alloc: Global, bound: Option<u64>) -> Result<Field, NoMemory>
    ensures { IfOk result (λ field. field ≡ bound_field_of bound) }
{
    match bound {
        None => Ok(Field::Word(Bytes::from_slice(alloc, b"none")?)),
        Some(number) => Ok(Field::Number(number)),
    }
}

/// The line of one field.
fn print_field(alloc: Global, head: &[u8], field: Field) -> Result<Bytes, NoMemory>
    ensures { IfOk result (λ text. text ≡ line head.now (field ∷ [])) }
{
    let mut fields = FieldList::new(alloc);
    fields.push(field)?;
    print_line(alloc, head, &fields)
}
