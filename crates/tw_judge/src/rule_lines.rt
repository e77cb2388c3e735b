// The lines of a broken rule, and of what both files say that breaks it.

ghost use Rattle.std.specs.Prelude.{◌≡◌, [], ◌∷◌, ◌++◌, IfOk, OnOk};
ghost use Rattle.tw_text.specs.Lines.{line as line_of};
ghost use Rattle.tw_text.specs.declared.field.Field.TheVariants.{Hex, Named, Number};
ghost use Rattle.tw_judge.specs.RuleLines.{before_line, conflict_lines, entry_lines, first_lines, held_line, lack_lines, root_line, rule_lines, broken_name as name_of, broken_number as number_of, second_lines, step_line, time_field as field_of_time};

use std::alloc::Global;
use tw_base::{Bytes, Digest, Entry, Name, NoMemory, Thread};
use tw_contradict::{Conflict, Facts, Rule};
use tw_text::{Field, FieldList, print_line};

/// The number of a rule.
fn rule_number(rule: Rule) -> u64
    ensures { result ≡ number_of rule }
{
    match rule {
        Rule::Denied => 1,
        Rule::OwnThread => 2,
        Rule::ReceivedLater => 3,
        Rule::TwoEntries => 4,
        Rule::TwoAtOneStep => 5,
        Rule::StepsFall => 6,
        Rule::EventsToo => 7,
        Rule::ClockBack => 8,
        Rule::TwoAuthenticators => 9,
        Rule::OtherThanLine => 10,
        Rule::TwoLines => 11,
        Rule::OtherBefore => 12,
        Rule::OtherBeforeLine => 13,
        Rule::OtherGenesis => 14,
        Rule::OtherEmptyRoot => 15,
    }
}

/// The name of a rule.
fn rule_name(rule: Rule) -> &'static [u8]
    ensures { result.now ≡ name_of rule }
{
    match rule {
        Rule::Denied => b"Denied",
        Rule::OwnThread => b"OwnThread",
        Rule::ReceivedLater => b"ReceivedLater",
        Rule::TwoEntries => b"TwoEntries",
        Rule::TwoAtOneStep => b"TwoAtOneStep",
        Rule::StepsFall => b"StepsFall",
        Rule::EventsToo => b"EventsToo",
        Rule::ClockBack => b"ClockBack",
        Rule::TwoAuthenticators => b"TwoAuthenticators",
        Rule::OtherThanLine => b"OtherThanLine",
        Rule::TwoLines => b"TwoLines",
        Rule::OtherBefore => b"OtherBefore",
        Rule::OtherBeforeLine => b"OtherBeforeLine",
        Rule::OtherGenesis => b"OtherGenesis",
        Rule::OtherEmptyRoot => b"OtherEmptyRoot",
    }
}

/// Puts a line of this head and these fields at the end of the text.
fn put_line(
    alloc: Global,
    text: &mut Bytes,
    head: &[u8],
    fields: &FieldList,
) -> Result<(), NoMemory>
    ensures { OnOk result (text.new ≡ text.old ++ line_of head.now fields.now) }
{
    let line = print_line(alloc, head, fields)?;
    text.extend_from_slice(line.as_slice())?;
    Ok(())
}

/// The fields of a service, of a step of it, and of a digest.
fn step_fields(
    alloc: Global,
    service: &Name,
    step: u64,
    digest: &Digest,
) -> Result<FieldList, NoMemory>
    ensures { IfOk result (λ fields. fields ≡ Named service.now ∷ Number step ∷ Hex digest.now ∷ []) }
{
    let mut fields = FieldList::new(alloc);
    fields.push(Field::Named(*service))?;
    fields.push(Field::Number(step))?;
    fields.push(Field::Hex(Bytes::from_slice(alloc, &digest.0)?))?;
    Ok(fields)
}

/// Puts the line of a rule, but for that of an entry which is denied.
fn put_rule(alloc: Global, text: &mut Bytes, rule: Rule) -> Result<(), NoMemory>
    ensures { OnOk result (text.new ≡ text.old ++ rule_lines rule) }
{
    if rule == Rule::Denied {
        return Ok(());
    }
    let mut fields = FieldList::new(alloc);
    fields.push(Field::Number(rule_number(rule)))?;
    fields.push(Field::Word(Bytes::from_slice(alloc, rule_name(rule))?))?;
    put_line(alloc, text, b"rule", &fields)
}

/// The fields of the service, of a step of it, and of the thread's service and step.
fn key_fields(
    alloc: Global,
    service: &Name,
    step: u64,
    thread: &Thread,
) -> Result<FieldList, NoMemory>
    ensures { IfOk result (λ fields. fields ≡ Named service.now ∷ Number step ∷ Named thread.now.from ∷ Number thread.now.step ∷ []) }
{
    let mut fields = FieldList::new(alloc);
    fields.push(Field::Named(*service))?;
    fields.push(Field::Number(step))?;
    fields.push(Field::Named(thread.from))?;
    fields.push(Field::Number(thread.step))?;
    Ok(fields)
}

/// The fields of an entry of the archive that a file shows.
fn entry_fields(alloc: Global, facts: &Facts, entry: &Entry) -> Result<FieldList, NoMemory>
    ensures { IfOk result (λ fields. fields ≡ Named facts.now.service ∷ Number facts.now.step ∷ Named entry.now.thread.from ∷ Number entry.now.thread.step
        ∷ Hex entry.now.thread.auth ∷ Number entry.now.archived ∷ []) }
{
    let mut fields = key_fields(alloc, &facts.service, facts.step, &entry.thread)?;
    fields.push(Field::Hex(Bytes::from_slice(alloc, &entry.thread.auth.0)?))?;
    fields.push(Field::Number(entry.archived))?;
    Ok(fields)
}

/// Puts the line of the entry that a file shows, as the report of a proof has it (tw_text/src/report.rt).
fn put_entry(alloc: Global, text: &mut Bytes, facts: &Facts) -> Result<(), NoMemory>
    ensures { OnOk result (text.new ≡ text.old ++ entry_lines facts.now) }
{
    match &facts.entry {
        Some(entry) => {
            let fields = entry_fields(alloc, facts, entry)?;
            put_line(alloc, text, b"thread", &fields)
        }
        None => Ok(()),
    }
}

/// Puts the line of what wasn't received, as the report of a proof has it.
fn put_lack(alloc: Global, text: &mut Bytes, one: &Facts, other: &Facts) -> Result<(), NoMemory>
    ensures { OnOk result (text.new ≡ text.old ++ lack_lines one.now other.now) }
{
    match (&one.entry, &other.lack) {
        (Some(entry), Some(lack)) => {
            let fields = key_fields(alloc, &other.service, lack.upto, &entry.thread)?;
            put_line(alloc, text, b"absent", &fields)
        }
        _ => Ok(()),
    }
}

/// The field of a time, or `-` for none.
fn time_field(alloc: Global, time: Option<u64>) -> Result<Field, NoMemory>
    ensures { IfOk result (λ field. field ≡ field_of_time time) }
{
    match time {
        Some(time) => Ok(Field::Number(time)),
        None => Ok(Field::Word(Bytes::from_slice(alloc, b"-")?)),
    }
}

/// Puts the line of a step with what its opening has.
fn put_step(alloc: Global, text: &mut Bytes, facts: &Facts) -> Result<(), NoMemory>
    ensures { OnOk result (text.new ≡ text.old ++ step_line facts.now) }
{
    let mut fields = step_fields(alloc, &facts.service, facts.step, &facts.auth)?;
    fields.push(Field::Number(u64::from(facts.count)))?;
    fields.push(time_field(alloc, facts.time)?)?;
    put_line(alloc, text, b"step", &fields)
}

/// Puts the line under which a file is accepted.
fn put_held(alloc: Global, text: &mut Bytes, facts: &Facts) -> Result<(), NoMemory>
    ensures { OnOk result (text.new ≡ text.old ++ held_line facts.now) }
{
    let held = &facts.line;
    let fields = step_fields(alloc, &held.from, held.step, &held.auth)?;
    put_line(alloc, text, b"line", &fields)
}

/// Puts the line of the step before, with the authenticator that the step has of it.
fn put_before(alloc: Global, text: &mut Bytes, facts: &Facts) -> Result<(), NoMemory>
    ensures { OnOk result (text.new ≡ text.old ++ before_line facts.now) }
{
    let before = facts.step.saturating_sub(1);
    let fields = step_fields(alloc, &facts.service, before, &facts.before)?;
    put_line(alloc, text, b"before", &fields)
}

/// Puts the line of the root of a step's events.
fn put_root(alloc: Global, text: &mut Bytes, facts: &Facts) -> Result<(), NoMemory>
    ensures { OnOk result (text.new ≡ text.old ++ root_line facts.now) }
{
    let fields = step_fields(alloc, &facts.service, facts.step, &facts.event_root)?;
    put_line(alloc, text, b"root", &fields)
}

/// Puts the line of what the one file says that breaks the rule.
fn put_first(alloc: Global, text: &mut Bytes, rule: Rule, one: &Facts) -> Result<(), NoMemory>
    ensures { OnOk result (text.new ≡ text.old ++ first_lines rule one.now) }
{
    match rule {
        Rule::Denied
        | Rule::OwnThread
        | Rule::ReceivedLater
        | Rule::TwoEntries
        | Rule::TwoAtOneStep
        | Rule::StepsFall
        | Rule::EventsToo => put_entry(alloc, text, one),
        Rule::ClockBack | Rule::TwoAuthenticators => put_step(alloc, text, one),
        Rule::OtherThanLine | Rule::TwoLines => put_held(alloc, text, one),
        Rule::OtherBefore | Rule::OtherBeforeLine | Rule::OtherGenesis => {
            put_before(alloc, text, one)
        }
        Rule::OtherEmptyRoot => put_root(alloc, text, one),
    }
}

/// Puts the line of what the other file says that breaks it, where the rule speaks of both.
fn put_second(
    alloc: Global,
    text: &mut Bytes,
    rule: Rule,
    one: &Facts,
    other: &Facts,
) -> Result<(), NoMemory>
    ensures { OnOk result (text.new ≡ text.old ++ second_lines rule one.now other.now) }
{
    match rule {
        Rule::Denied => put_lack(alloc, text, one, other),
        Rule::TwoEntries | Rule::TwoAtOneStep | Rule::StepsFall => put_entry(alloc, text, other),
        Rule::EventsToo
        | Rule::ClockBack
        | Rule::TwoAuthenticators
        | Rule::OtherThanLine
        | Rule::OtherBefore => put_step(alloc, text, other),
        Rule::TwoLines | Rule::OtherBeforeLine => put_held(alloc, text, other),
        Rule::OwnThread | Rule::ReceivedLater | Rule::OtherGenesis | Rule::OtherEmptyRoot => Ok(()),
    }
}

/// Puts the lines of a broken rule at the end of the text.
pub(crate) fn put_conflict(
    alloc: Global,
    text: &mut Bytes,
    conflict: &Conflict,
) -> Result<(), NoMemory>
    ensures { OnOk result (text.new ≡ text.old ++ conflict_lines conflict.now) }
{
    put_rule(alloc, text, conflict.rule)?;
    put_first(alloc, text, conflict.rule, &conflict.one)?;
    put_second(alloc, text, conflict.rule, &conflict.one, &conflict.other)?;
    Ok(())
}
