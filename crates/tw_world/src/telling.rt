// The text of what is told of lines.

ghost use Rattle.std.specs.Prelude.{◌≡◌, ◌∷◌, [], ◌++◌, codes, length, IfOk, OnOk};
ghost use Rattle.tw_world.specs.Telling.{answer_fields, reopened_fields, told_fields as told_fields_of, told_line, told_lines as told_lines_of};
ghost use Rattle.tw_text.specs.declared.field.Field.TheVariants.{Number, Word};
ghost use Rattle.tw_text.specs.Refusals.{refusal_name as refusal_name_of};

use crate::told::{Answer, Told};
use itoa::Buffer;
use std::alloc::Global;
use tw_base::{Bytes, NoMemory, Refusal};
use tw_script::Script;
use tw_text::{FieldList, print_line, push_numbered, push_word, refusal_name};

/// The words `rejected Gap` and the place more.
fn put_gap(alloc: Global, fields: &mut FieldList, place: u64) -> Result<(), NoMemory>
    ensures { OnOk result (fields.new ≡ fields.old ++ Word (codes "rejected") ∷ Word (codes "Gap") ∷ Number place ∷ []) }
{
    push_word(alloc, fields, b"rejected")?;
    push_numbered(alloc, fields, b"Gap", place)
}

/// The word `refused` and the refusal's name more.
fn put_refused(alloc: Global, fields: &mut FieldList, refusal: &Refusal) -> Result<(), NoMemory>
    ensures { OnOk result (fields.new ≡ fields.old ++ Word (codes "refused") ∷ Word (refusal_name_of refusal.now) ∷ []) }
{
    push_word(alloc, fields, b"refused")?;
    push_word(alloc, fields, refusal_name(refusal))
}

/// The fields of the answer more.
fn put_answer(alloc: Global, fields: &mut FieldList, answer: &Answer) -> Result<(), NoMemory>
    ensures { OnOk result (fields.new ≡ fields.old ++ answer_fields answer.now) }
{
    match answer {
        Answer::Done => push_word(alloc, fields, b"ok"),
        Answer::Stepped { step } => push_numbered(alloc, fields, b"step", *step),
        Answer::Sent { number } => push_numbered(alloc, fields, b"message", *number),
        Answer::Archived { step } => push_numbered(alloc, fields, b"receipt", *step),
        Answer::Filed { number } => push_numbered(alloc, fields, b"file", *number),
        Answer::Accepted => push_word(alloc, fields, b"accepted"),
        Answer::Rejected { reason } => push_numbered(alloc, fields, b"rejected", *reason),
        Answer::NotJoined { place } => put_gap(alloc, fields, *place),
        Answer::Refused(refusal) => put_refused(alloc, fields, refusal),
        Answer::Nothing => push_word(alloc, fields, b"none"),
    }
}

/// That a service is opened again, with so many steps, more.
fn put_reopened(alloc: Global, fields: &mut FieldList, steps: u64) -> Result<(), NoMemory>
    ensures { OnOk result (fields.new ≡ fields.old ++ reopened_fields steps) }
{
    push_numbered(alloc, fields, b"reopened", steps)
}

/// The fields of what is told of a line.
fn told_fields(alloc: Global, told: &Told) -> Result<FieldList, NoMemory>
    ensures { IfOk result (λ fields. fields ≡ told_fields_of told.now) }
{
    let mut fields = FieldList::new(alloc);
    match told {
        Told::Plain(answer) => put_answer(alloc, &mut fields, answer)?,
        Told::Crashed { answer, steps } => {
            put_answer(alloc, &mut fields, answer)?;
            put_reopened(alloc, &mut fields, *steps)?;
        }
        Told::Stopped { steps } => {
            push_word(alloc, &mut fields, b"stopped")?;
            put_reopened(alloc, &mut fields, *steps)?;
        }
    }
    Ok(fields)
}

/// The text of what is told of the line with this number.
fn print_told(alloc: Global, number: u64, told: &Told) -> Result<Bytes, NoMemory>
    ensures { IfOk result (λ text. text ≡ told_line number told.now) }
{
    let fields = told_fields(alloc, told)?;
    let mut buffer = Buffer::new();
    print_line(alloc, buffer.format(number).as_bytes(), &fields)
}

/// The texts of what is told of the lines of a script, one after another.
pub(crate) fn print_lines(alloc: Global, script: &Script, told: &[Told]) -> Result<Bytes, NoMemory>
    requires { length told.now ≡ length script.now }
    ensures { IfOk result (λ text. text ≡ told_lines_of script.now told.now) }
{
    let mut text = Bytes::new(alloc);
    let lines = script.as_slice();
    for index in 0..lines.len() {
        let line = print_told(alloc, lines[index].number, &told[index])?;
        text.extend_from_slice(line.as_slice())?;
    }
    Ok(text)
}
