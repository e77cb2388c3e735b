// The text of what `adopt` comes to.

ghost use Rattle.std.specs.Prelude.{◌≡◌, IfOk};
ghost use Rattle.tw_reachcmd.specs.AdoptTexts.{taken_text, unadopted_text};
ghost use Rattle.tw_adopt.specs.declared.adopted.AdoptFault.TheVariants.{Differs, Stranger};

use crate::adopting::Taken;
use crate::audit_text::found_field;
use std::alloc::Global;
use tw_adopt::AdoptFault;
use tw_base::{Bytes, Digest, NoMemory};
use tw_evidence::{ForkReason, ForkVerdict, print_fork};
use tw_text::{Field, FieldList, no_memory, print_line};

/// The bytes of the file of what is taken over, or the line of the fault.
pub(crate) fn print_taken(alloc: Global, taken: &Taken) -> Result<Bytes, NoMemory>
    ensures { IfOk result (λ text. text ≡ taken_text taken.now) }
{
    match taken {
        Taken::File(bytes) => Bytes::from_slice(alloc, bytes.as_slice()),
        Taken::Fault(fault) => print_unadopted(alloc, fault),
    }
}

/// The line of a history that isn't taken over: `rejected`, the fault's number and name, the proof's number, and
/// what the fault tells besides. `Part` is told as that of evidence of a fork, and 13 and 14 go on behind its numbers.
fn print_unadopted(alloc: Global, fault: &AdoptFault) -> Result<Bytes, NoMemory>
    ensures { IfOk result (λ text. text ≡ unadopted_text fault.now) }
{
    match fault {
        AdoptFault::Part { number, reason } => print_fork(
            alloc,
            &ForkVerdict::No(ForkReason::Part {
                number: *number,
                reason: *reason,
            }),
        ),
        AdoptFault::Stranger { number } => print_stranger(alloc, *number),
        AdoptFault::Differs {
            number,
            step,
            held,
            found,
        } => print_differs(alloc, *number, *step, held, found),
        AdoptFault::NoMemory => Bytes::from_slice(alloc, no_memory()),
    }
}

/// The line of the proof of this number, which tells nothing of the history's service.
fn print_stranger(alloc: Global, number: u64) -> Result<Bytes, NoMemory>
    ensures { IfOk result (λ text. text ≡ unadopted_text (Stranger number)) }
{
    let mut fields = FieldList::new(alloc);
    fields.push(Field::Number(13))?;
    fields.push(Field::Word(Bytes::from_slice(alloc, b"Stranger")?))?;
    fields.push(Field::Number(number))?;
    print_line(alloc, b"rejected", &fields)
}

/// The line of the proof of this number, from which the history differs.
fn print_differs(
    alloc: Global,
    number: u64,
    step: u64,
    held: &Digest,
    found: &Option<Digest>,
) -> Result<Bytes, NoMemory>
    ensures { IfOk result (λ text. text ≡ unadopted_text (Differs number step held.now found.now)) }
{
    let mut fields = FieldList::new(alloc);
    fields.push(Field::Number(14))?;
    fields.push(Field::Word(Bytes::from_slice(alloc, b"Differs")?))?;
    fields.push(Field::Number(number))?;
    fields.push(Field::Number(step))?;
    fields.push(Field::Hex(Bytes::from_slice(alloc, &held.0)?))?;
    fields.push(found_field(alloc, found)?)?;
    print_line(alloc, b"rejected", &fields)
}
