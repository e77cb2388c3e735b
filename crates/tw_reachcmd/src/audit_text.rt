// The text of what `audit` comes to.

ghost use Rattle.std.specs.Prelude.{◌≡◌, ◌∷◌, [], ◌++◌, IfOk, OnOk};
ghost use Rattle.tw_text.specs.Lines.{line};
ghost use Rattle.tw_text.specs.declared.field.Field.TheVariants.{Hex};
ghost use Rattle.tw_reachcmd.specs.AuditTexts.{audited_text, clash_text, found_field as found_field_of, unheld_text};

use crate::auditing::Audited;
use std::alloc::Global;
use tw_audit::Finding;
use tw_base::{Bytes, Digest, NoMemory, Thread};
use tw_text::{Field, FieldList, print_line, print_rejected, print_stands};

/// The text of what an audit came to.
pub(crate) fn print_audited(alloc: Global, audited: &Audited) -> Result<Bytes, NoMemory>
    ensures { IfOk result (λ text. text ≡ audited_text audited.now) }
{
    match audited {
        Audited::Found(Finding::Stands(report)) => print_stands(alloc, report),
        Audited::Found(Finding::NotAccepted(reason)) => print_rejected(alloc, reason),
        Audited::Found(Finding::Clash { one, other, digest }) => {
            print_clash(alloc, one.as_slice(), other.as_slice(), digest)
        }
        Audited::Unheld { held, found } => print_unheld(alloc, held, found),
    }
}

/// The lines of two texts with one digest.
fn print_clash(alloc: Global, one: &[u8], other: &[u8], digest: &Digest) -> Result<Bytes, NoMemory>
    ensures { IfOk result (λ text. text ≡ clash_text one.now other.now digest.now) }
{
    let mut text = Bytes::from_slice(alloc, b"clash\n")?;
    put_hex_line(alloc, &mut text, b"one", one)?;
    put_hex_line(alloc, &mut text, b"other", other)?;
    put_hex_line(alloc, &mut text, b"digest", &digest.0)?;
    Ok(text)
}

/// Puts a line with a head and these bytes in hexadecimal at the text's end.
fn put_hex_line(alloc: Global, text: &mut Bytes, head: &[u8], bytes: &[u8]) -> Result<(), NoMemory>
    ensures { OnOk result (text.new ≡ text.old ++ line head.now (Hex bytes.now ∷ [])) }
{
    let mut fields = FieldList::new(alloc);
    fields.push(Field::Hex(Bytes::from_slice(alloc, bytes)?))?;
    let line = print_line(alloc, head, &fields)?;
    text.extend_from_slice(line.as_slice())
}

/// The line of a thread that the histories don't have.
fn print_unheld(alloc: Global, held: &Thread, found: &Option<Digest>) -> Result<Bytes, NoMemory>
    ensures { IfOk result (λ text. text ≡ unheld_text held.now found.now) }
{
    let mut fields = FieldList::new(alloc);
    fields.push(Field::Named(held.from))?;
    fields.push(Field::Number(held.step))?;
    fields.push(Field::Hex(Bytes::from_slice(alloc, &held.auth.0)?))?;
    fields.push(found_field(alloc, found)?)?;
    print_line(alloc, b"unheld", &fields)
}

/// What the histories have at a step: an authenticator, or none.
pub(crate) fn found_field(alloc: Global, found: &Option<Digest>) -> Result<Field, NoMemory>
    ensures { IfOk result (λ field. field ≡ found_field_of found.now) }
{
    match found {
        Some(auth) => Ok(Field::Hex(Bytes::from_slice(alloc, &auth.0)?)),
        None => Ok(Field::Word(Bytes::from_slice(alloc, b"none")?)),
    }
}
