// Why a command isn't done: refusals, stores that can't serve, and files that aren't what is read, each with its fields and its line.

ghost use Rattle.std.specs.Prelude.{◌≡◌, ◌∷◌, [], ◌++◌, codes, OnOk, IfOk};
ghost use Rattle.tw_text.specs.Lines.{line};
ghost use Rattle.tw_text.specs.declared.field.Field.TheVariants.{Hex, Number, Word};
ghost use Rattle.tw_text.specs.declared.refusal.BadInput.TheVariants.{Unsound};
ghost use Rattle.tw_text.specs.Refusals.{bad_input_text, cause_fields, follow_fields, not_followed_text, refusal_fields, refusal_name as refusal_name_of, refusal_values, refused_text, store_text, store_taken_text};

use crate::field::{Field, FieldList, push_numbered, push_word};
use crate::line::print_line;
use std::alloc::Global;
use tw_base::{Bytes, Digest, FollowRefusal, NoMemory, Refusal};

/// Why the disk has no service that can serve the command.
#[derive(Clone, Copy, PartialEq, Eq, Debug, Drop)]
pub enum StoreCause {
    /// No store was made.
    Blank,
    /// The pages are no store, or that of no service; the slot, 0 or 1, is the one that fails.
    NotAStore { slot: u8 },
    /// The page of this number, the first one met that isn't of its kind; or the one read last, where
    /// the event pages of a step don't spell its events.
    BadPage { page: u64 },
}

/// Why a file isn't what its command reads. The file is the command's word for it.
#[derive(Drop, Debug)]
pub enum BadInput {
    /// At this byte, counted from 0, no word of the format goes on; or it is the first byte past the
    /// file's limit.
    BadByte { file: Bytes, place: u64 },
    /// This line, counted from 1, may not follow the lines before it.
    BadLine { file: Bytes, line: u64 },
    /// The history isn't sound: this step, counted from 1, is the first that breaks a rule, and this
    /// rule, 1 to 7, the first that it breaks.
    Unsound { file: Bytes, step: u64, rule: u8 },
}

/// The name of a service's refusal.
pub fn refusal_name(refusal: &Refusal) -> &'static [u8]
    // Each refusal has the name that the definitions give it.
    ensures { result.now ≡ refusal_name_of refusal.now }
{
    match refusal {
        Refusal::Malformed { .. } => b"Malformed",
        Refusal::Own => b"Own",
        Refusal::Stale { .. } => b"Stale",
        Refusal::Forked { .. } => b"Forked",
        Refusal::BadLink { .. } => b"BadLink",
        Refusal::NoStep { .. } => b"NoStep",
        Refusal::NoEvent { .. } => b"NoEvent",
        Refusal::NoThread => b"NoThread",
        Refusal::HasThread { .. } => b"HasThread",
        Refusal::TooMany { .. } => b"TooMany",
        Refusal::TooLong { .. } => b"TooLong",
        Refusal::Full => b"Full",
        Refusal::ClockBack { .. } => b"ClockBack",
        Refusal::BadPage { .. } => b"BadPage",
        Refusal::DiskFault => b"DiskFault",
        Refusal::Reopen => b"Reopen",
        Refusal::NoMemory => b"NoMemory",
    }
}

/// The line `refused` with the refusal's name and fields.
pub(crate) fn print_refused(alloc: Global, refusal: &Refusal) -> Result<Bytes, NoMemory>
    ensures { IfOk result (λ text. text ≡ refused_text refusal.now) }
{
    let mut fields = FieldList::new(alloc);
    put_refusal(alloc, &mut fields, refusal)?;
    print_line(alloc, b"refused", &fields)
}

/// The same line of a follower's refusal.
pub(crate) fn print_not_followed(alloc: Global, refusal: &FollowRefusal) -> Result<Bytes, NoMemory>
    ensures { IfOk result (λ text. text ≡ not_followed_text refusal.now) }
{
    let mut fields = FieldList::new(alloc);
    put_follow_refusal(alloc, &mut fields, refusal)?;
    print_line(alloc, b"refused", &fields)
}

/// The same line where there is a store already.
pub(crate) fn print_taken(alloc: Global) -> Result<Bytes, NoMemory>
    ensures { IfOk result (λ text. text ≡ store_taken_text) }
{
    let mut fields = FieldList::new(alloc);
    push_word(alloc, &mut fields, b"Taken")?;
    print_line(alloc, b"refused", &fields)
}

/// Puts the refusal's name and its fields at the end of the fields.
fn put_refusal(alloc: Global, fields: &mut FieldList, refusal: &Refusal) -> Result<(), NoMemory>
    ensures { OnOk result (fields.new ≡ fields.old ++ refusal_fields refusal.now) }
{
    push_word(alloc, fields, refusal_name(refusal))?;
    put_values(alloc, fields, refusal)
}

/// Puts what the refusal tells at the end of the fields.
fn put_values(alloc: Global, fields: &mut FieldList, refusal: &Refusal) -> Result<(), NoMemory>
    ensures { OnOk result (fields.new ≡ fields.old ++ refusal_values refusal.now) }
{
    match refusal {
        Refusal::Malformed { place } => fields.push(Field::Number(*place)),
        Refusal::Stale { last } | Refusal::NoStep { last } => fields.push(Field::Number(*last)),
        Refusal::Forked {
            step,
            kept,
            offered,
        } => {
            fields.push(Field::Number(*step))?;
            put_digest(alloc, fields, kept)?;
            put_digest(alloc, fields, offered)
        }
        Refusal::BadLink { last, kept } => {
            fields.push(Field::Number(*last))?;
            put_digest(alloc, fields, kept)
        }
        Refusal::NoEvent { count } => fields.push(Field::Number(*count as u64)),
        Refusal::HasThread { archived } => fields.push(Field::Number(*archived)),
        Refusal::TooMany { count } => fields.push(Field::Number(*count)),
        Refusal::TooLong { bytes } => fields.push(Field::Number(*bytes)),
        Refusal::ClockBack { last, given } => {
            fields.push(Field::Number(*last))?;
            fields.push(Field::Number(*given))
        }
        Refusal::BadPage { page } => fields.push(Field::Number(*page)),
        _ => Ok(()),
    }
}

/// Puts a follower's refusal at the end of the fields: as the service's of the same name, where that has one.
fn put_follow_refusal(
    alloc: Global,
    fields: &mut FieldList,
    refusal: &FollowRefusal,
) -> Result<(), NoMemory>
    ensures { OnOk result (fields.new ≡ fields.old ++ follow_fields refusal.now) }
{
    let same = match *refusal {
        FollowRefusal::Other { name } => {
            push_word(alloc, fields, b"Other")?;
            return fields.push(Field::Named(name));
        }
        FollowRefusal::Malformed { place } => Refusal::Malformed { place },
        FollowRefusal::Stale { last } => Refusal::Stale { last },
        FollowRefusal::Forked {
            step,
            kept,
            offered,
        } => Refusal::Forked {
            step,
            kept,
            offered,
        },
        FollowRefusal::BadLink { last, kept } => Refusal::BadLink { last, kept },
        FollowRefusal::BadPage { page } => Refusal::BadPage { page },
        FollowRefusal::DiskFault => Refusal::DiskFault,
        FollowRefusal::Reopen => Refusal::Reopen,
        FollowRefusal::NoMemory => Refusal::NoMemory,
    };
    put_refusal(alloc, fields, &same)
}

/// The line `store` with the name of the cause and its field.
pub(crate) fn print_store(alloc: Global, cause: &StoreCause) -> Result<Bytes, NoMemory>
    ensures { IfOk result (λ text. text ≡ store_text cause.now) }
{
    let mut fields = FieldList::new(alloc);
    put_cause(alloc, &mut fields, cause)?;
    print_line(alloc, b"store", &fields)
}

/// Puts the name of the cause and its field at the end of the fields.
fn put_cause(alloc: Global, fields: &mut FieldList, cause: &StoreCause) -> Result<(), NoMemory>
    ensures { OnOk result (fields.new ≡ fields.old ++ cause_fields cause.now) }
{
    match cause {
        StoreCause::Blank => push_word(alloc, fields, b"Blank"),
        StoreCause::NotAStore { slot } => push_numbered(alloc, fields, b"NotAStore", *slot as u64),
        StoreCause::BadPage { page } => push_numbered(alloc, fields, b"BadPage", *page),
    }
}

/// The line that names the file and says where it isn't what its command reads.
pub(crate) fn print_bad_input(alloc: Global, bad: &BadInput) -> Result<Bytes, NoMemory>
    ensures { IfOk result (λ text. text ≡ bad_input_text bad.now) }
{
    match bad {
        BadInput::BadByte { file, place } => {
            print_unreadable(alloc, file.as_slice(), b"byte", *place)
        }
        BadInput::BadLine { file, line } => {
            print_unreadable(alloc, file.as_slice(), b"line", *line)
        }
        BadInput::Unsound { file, step, rule } => {
            print_unsound(alloc, file.as_slice(), *step, *rule)
        }
    }
}

/// The line `unreadable` with the file, what is counted there, and its number.
fn print_unreadable(
    alloc: Global,
    file: &[u8],
    counted: &[u8],
    number: u64,
) -> Result<Bytes, NoMemory>
    ensures { IfOk result (λ text. text ≡ line (codes "unreadable") (Word file.now ∷ Word counted.now ∷ Number number ∷ [])) }
{
    let mut fields = FieldList::new(alloc);
    push_word(alloc, &mut fields, file)?;
    push_word(alloc, &mut fields, counted)?;
    fields.push(Field::Number(number))?;
    print_line(alloc, b"unreadable", &fields)
}

/// The line `unsound` with the file, the step and the rule.
fn print_unsound(alloc: Global, file: &[u8], step: u64, rule: u8) -> Result<Bytes, NoMemory>
    ensures { IfOk result (λ text. text ≡ bad_input_text (Unsound file.now step rule)) }
{
    let mut fields = FieldList::new(alloc);
    push_word(alloc, &mut fields, file)?;
    push_word(alloc, &mut fields, b"step")?;
    fields.push(Field::Number(step))?;
    push_word(alloc, &mut fields, b"rule")?;
    fields.push(Field::Number(rule as u64))?;
    print_line(alloc, b"unsound", &fields)
}

/// Puts a digest at the end of the fields.
fn put_digest(alloc: Global, fields: &mut FieldList, digest: &Digest) -> Result<(), NoMemory>
    ensures { OnOk result (fields.new ≡ fields.old ++ Hex digest.now ∷ []) }
{
    fields.push(Field::Hex(Bytes::from_slice(alloc, &digest.0)?))
}
