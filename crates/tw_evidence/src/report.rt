// The text of the verdict on evidence of a fork; that on two files that contradict each other is in `tw_judge`.

ghost use Rattle.std.specs.Prelude.{◌≡◌, [], ◌∷◌, ◌++◌, IfOk, OnOk, codes};
ghost use Rattle.tw_text.specs.Lines.{line};
ghost use Rattle.tw_text.specs.declared.field.Field.TheVariants.{Number, Word};
ghost use Rattle.tw_evidence.specs.declared.fork.ForkVerdict.TheVariants.{Yes};
ghost use Rattle.tw_evidence.specs.Texts.{entry_line, fork_text, reason_text};

use crate::fork::{Fork, ForkReason, ForkVerdict};
use std::alloc::Global;
use tw_base::{Bytes, Entry, Name, NoMemory, Reason};
use tw_text::{Field, FieldList, print_line, print_rejected};

/// The lines of accepted evidence: `accepted fork`, and for each of both entries its thread, and the
/// service and the step that received it; or the line of evidence that isn't accepted: `rejected`, the
/// reason's number and name, and what it tells besides.
pub fn print_fork(alloc: Global, verdict: &ForkVerdict) -> Result<Bytes, NoMemory>
    // What is written of a verdict on evidence is exactly the text of the definitions.
    ensures { IfOk result (λ text. text ≡ fork_text verdict.now) }
{
    match verdict {
        ForkVerdict::Yes(fork) => print_accepted(alloc, fork),
        ForkVerdict::No(reason) => print_reason(alloc, reason),
    }
}

/// The lines of accepted evidence.
fn print_accepted(alloc: Global, fork: &Fork) -> Result<Bytes, NoMemory>
    ensures { IfOk result (λ text. text ≡ fork_text (Yes fork.now)) }
{
    let mut text = Bytes::from_slice(alloc, b"accepted fork\n")?;
    let first = print_entry(alloc, b"first", &fork.first, &fork.first_by)?;
    text.extend_from_slice(first.as_slice())?;
    let second = print_entry(alloc, b"second", &fork.second, &fork.second_by)?;
    text.extend_from_slice(second.as_slice())?;
    Ok(text)
}

/// The line of an entry that the service received.
fn print_entry(alloc: Global, head: &[u8], entry: &Entry, by: &Name) -> Result<Bytes, NoMemory>
    ensures { IfOk result (λ text. text ≡ entry_line head.now entry.now by.now) }
{
    let mut fields = FieldList::new(alloc);
    fields.push(Field::Named(entry.thread.from))?;
    fields.push(Field::Number(entry.thread.step))?;
    fields.push(Field::Hex(Bytes::from_slice(alloc, &entry.thread.auth.0)?))?;
    fields.push(Field::Named(*by))?;
    fields.push(Field::Number(entry.archived))?;
    print_line(alloc, head, &fields)
}

/// The line of evidence that isn't accepted.
fn print_reason(alloc: Global, reason: &ForkReason) -> Result<Bytes, NoMemory>
    ensures { IfOk result (λ text. text ≡ reason_text reason.now) }
{
    match reason {
        ForkReason::Malformed { place } => {
            print_rejected(alloc, &Reason::Malformed { place: *place })
        }
        ForkReason::Part { number, reason } => print_part(alloc, *number, reason.number()),
        ForkReason::NoConflict => print_named(alloc, 11, b"NoConflict"),
        ForkReason::BadLink => print_named(alloc, 12, b"BadLink"),
    }
}

/// The line of the proof of this number, which isn't accepted for the reason of that number.
fn print_part(alloc: Global, proof: u64, reason: u64) -> Result<Bytes, NoMemory>
    ensures { IfOk result (λ text. text ≡ line (codes "rejected") (Number 10 ∷ Word (codes "Part") ∷ Number proof ∷ Number reason ∷ [])) }
{
    let mut fields = FieldList::new(alloc);
    put_named(alloc, &mut fields, 10, b"Part")?;
    fields.push(Field::Number(proof))?;
    fields.push(Field::Number(reason))?;
    print_line(alloc, b"rejected", &fields)
}

/// The line of a reason of this number and name, which tells nothing besides.
fn print_named(alloc: Global, number: u64, name: &[u8]) -> Result<Bytes, NoMemory>
    ensures { IfOk result (λ text. text ≡ line (codes "rejected") (Number number ∷ Word name.now ∷ [])) }
{
    let mut fields = FieldList::new(alloc);
    put_named(alloc, &mut fields, number, name)?;
    print_line(alloc, b"rejected", &fields)
}

/// Puts a number and a word at the end of the fields.
fn put_named(
    alloc: Global,
    fields: &mut FieldList,
    number: u64,
    word: &[u8],
) -> Result<(), NoMemory>
    ensures { OnOk result (fields.new ≡ fields.old ++ Number number ∷ Word word.now ∷ []) }
{
    fields.push(Field::Number(number))?;
    fields.push(Field::Word(Bytes::from_slice(alloc, word)?))
}
