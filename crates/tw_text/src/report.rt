// The texts of reports of accepted proofs, whose values are in tw_base, and of proofs that stand in an audit, are rejected or don't
// join. tw_tmap and tw_evidence have those of map files and of evidence.

ghost use Rattle.std.specs.Prelude.{◌≡◌, [], ◌∷◌, ◌++◌, OnOk, IfOk};
ghost use Rattle.tw_text.specs.Lines.{fields_text};
ghost use Rattle.tw_text.specs.declared.field.Field.TheVariants.{Hex, Named, Number};
ghost use Rattle.std.specs.List.{flat_map};
ghost use Rattle.tw_text.specs.Reports.{absent_line, carried_line, claim_lines, event_line, event_lines, gap_text, hop_line, link_line, reason_fields, report_text, rejected_text, stands_text, thread_line, time_line};
ghost use Rattle.tw_text.specs.Reports.{accepted_line as accepted_line_of};
ghost use Rattle.tw_text.specs.Reports.{reason_name as reason_name_of};

use crate::line::{print_numbered, put_hex, put_name, put_number, put_word};
use std::alloc::Global;
use tw_base::{
    Bytes, Claim, Digest, Entry, Hop, HopList, Key, Name, NoMemory, Reason, Report, Seen, Thread,
    Threads,
};

/// The report of an accepted proof: what it claims, then one line for each hop and one for each
/// carried thread. Behind the line of an event stands one of its step's time, where the step has one.
pub fn print_report(alloc: Global, report: &Report) -> Result<Bytes, NoMemory>
    // The report of a claim is exactly the text of the definitions.
    ensures { IfOk result (λ text. text ≡ report_text report.now) }
{
    print_told(alloc, accepted_line(&report.claim).as_bytes(), report)
}

/// What is told of a proof that stands when it is held against histories: `stands`, and the lines of
/// its report behind the first.
pub fn print_stands(alloc: Global, report: &Report) -> Result<Bytes, NoMemory>
    // What is told of a proof that stands is exactly the text of the definitions.
    ensures { IfOk result (λ text. text ≡ stands_text report.now) }
{
    print_told(alloc, b"stands\n", report)
}

/// The first line, and behind it the lines of what the report claims, of its hops and of its carried threads.
fn print_told(alloc: Global, first: &[u8], report: &Report) -> Result<Bytes, NoMemory>
    ensures { IfOk result (λ text. text ≡ first.now ++ (claim_lines report.now.claim ++ (flat_map hop_line report.now.hops ++ flat_map carried_line report.now.carried))) }
{
    let mut text = Bytes::new(alloc);
    text.extend_from_slice(first)?;
    put_claim_lines(alloc, &mut text, &report.claim)?;
    put_hops(&mut text, &report.hops)?;
    put_carried(alloc, &mut text, &report.carried)?;
    Ok(text)
}

/// The line of a proof that isn't accepted: `rejected`, the reason's number and name, and what it
/// tells besides.
pub fn print_rejected(alloc: Global, reason: &Reason) -> Result<Bytes, NoMemory>
    // The line of a reason is exactly the text of the definitions.
    ensures { IfOk result (λ text. text ≡ rejected_text reason.now) }
{
    let mut text = Bytes::new(alloc);
    text.extend_from_slice(b"rejected")?;
    put_number(&mut text, reason.number())?;
    put_word(&mut text, reason_name(reason).as_bytes())?;
    put_reason_fields(&mut text, reason)?;
    text.extend_from_slice(b"\n")?;
    Ok(text)
}

/// The line of proofs that don't join: `rejected Gap` and the number of the first part that doesn't fit,
/// or is missing behind all.
pub fn print_gap(alloc: Global, place: u64) -> Result<Bytes, NoMemory>
    // The line of a part that doesn't fit is exactly the text of the definitions.
    ensures { IfOk result (λ text. text ≡ gap_text place) }
{
    print_numbered(alloc, b"rejected Gap", place)
}

/// The first line of the report of an accepted claim.
fn accepted_line(claim: &Claim) -> &'static str
    ensures { result.now ≡ accepted_line_of claim.now }
{
    match claim {
        Claim::Exists(_) => "accepted exists\n",
        Claim::Precedes { .. } => "accepted precedes\n",
        Claim::Archived { .. } => "accepted thread\n",
        Claim::Absent { .. } => "accepted absent\n",
        Claim::Linked { .. } => "accepted link\n",
    }
}

/// Puts the lines of what is claimed at the text's end.
fn put_claim_lines(alloc: Global, text: &mut Bytes, claim: &Claim) -> Result<(), NoMemory>
    ensures { OnOk result (text.new ≡ text.old ++ claim_lines claim.now) }
{
    match claim {
        Claim::Exists(seen) => put_seen(alloc, text, seen),
        Claim::Precedes { first, second } => {
            put_seen(alloc, text, first)?;
            put_seen(alloc, text, second)
        }
        Claim::Archived {
            service,
            step,
            entry,
        } => put_thread(alloc, text, service, *step, entry),
        Claim::Absent { service, step, key } => put_absent(text, service, *step, key),
        Claim::Linked {
            service,
            step,
            top,
            auth,
        } => put_link(alloc, text, service, *step, *top, auth),
    }
}

/// Puts the line of each hop at the text's end.
fn put_hops(text: &mut Bytes, hops: &HopList) -> Result<(), NoMemory>
    ensures { OnOk result (text.new ≡ text.old ++ flat_map hop_line hops.now) }
{
    for hop in hops.as_slice() {
        put_hop(text, hop)?;
    }
    Ok(())
}

/// Puts the line of each carried thread at the text's end.
fn put_carried(alloc: Global, text: &mut Bytes, carried: &Threads) -> Result<(), NoMemory>
    ensures { OnOk result (text.new ≡ text.old ++ flat_map carried_line carried.now) }
{
    for thread in carried.as_slice() {
        put_carried_thread(alloc, text, thread)?;
    }
    Ok(())
}

/// Puts the lines of an event at the text's end.
fn put_seen(alloc: Global, text: &mut Bytes, seen: &Seen) -> Result<(), NoMemory>
    ensures { OnOk result (text.new ≡ text.old ++ event_lines seen.now) }
{
    put_event(alloc, text, seen)?;
    put_time(text, seen)
}

/// Puts the line of an event at the text's end.
fn put_event(alloc: Global, text: &mut Bytes, seen: &Seen) -> Result<(), NoMemory>
    ensures { OnOk result (text.new ≡ text.old ++ event_line seen.now) }
{
    text.extend_from_slice(b"event")?;
    put_name(text, &seen.place.service)?;
    put_number(text, seen.place.step)?;
    put_number(text, seen.place.index as u64)?;
    put_hex(alloc, text, seen.event.as_slice())?;
    text.extend_from_slice(b"\n")
}

/// Puts the line of the time that the event's step has, if any, at the text's end.
fn put_time(text: &mut Bytes, seen: &Seen) -> Result<(), NoMemory>
    ensures { OnOk result (text.new ≡ text.old ++ time_line seen.now) }
{
    let Some(time) = seen.time else {
        return Ok(());
    };
    text.extend_from_slice(b"time")?;
    put_name(text, &seen.place.service)?;
    put_number(text, seen.place.step)?;
    put_number(text, time)?;
    text.extend_from_slice(b"\n")
}

/// Puts at the text's end the line of a thread that a step of the service holds.
fn put_thread(
    alloc: Global,
    text: &mut Bytes,
    service: &Name,
    step: u64,
    entry: &Entry,
) -> Result<(), NoMemory>
    ensures { OnOk result (text.new ≡ text.old ++ thread_line service.now step entry.now) }
{
    text.extend_from_slice(b"thread")?;
    put_name(text, service)?;
    put_number(text, step)?;
    put_thread_fields(alloc, text, &entry.thread)?;
    put_number(text, entry.archived)?;
    text.extend_from_slice(b"\n")
}

/// Puts the line of a hop at the text's end.
fn put_hop(text: &mut Bytes, hop: &Hop) -> Result<(), NoMemory>
    ensures { OnOk result (text.new ≡ text.old ++ hop_line hop.now) }
{
    text.extend_from_slice(b"hop")?;
    put_name(text, &hop.from)?;
    put_number(text, hop.step)?;
    put_name(text, &hop.by)?;
    put_number(text, hop.archived)?;
    text.extend_from_slice(b"\n")
}

/// Puts the line of a carried thread at the text's end.
fn put_carried_thread(alloc: Global, text: &mut Bytes, thread: &Thread) -> Result<(), NoMemory>
    ensures { OnOk result (text.new ≡ text.old ++ carried_line thread.now) }
{
    text.extend_from_slice(b"carried")?;
    put_thread_fields(alloc, text, thread)?;
    text.extend_from_slice(b"\n")
}

/// Puts what a thread is at the text's end.
fn put_thread_fields(alloc: Global, text: &mut Bytes, thread: &Thread) -> Result<(), NoMemory>
    ensures { OnOk result (text.new ≡ text.old ++ fields_text (Named thread.now.from ∷ Number thread.now.step ∷ Hex thread.now.auth ∷ [])) }
{
    put_name(text, &thread.from)?;
    put_number(text, thread.step)?;
    put_hex(alloc, text, &thread.auth.0)
}

/// Puts at the text's end the line of a thread that a step of the service doesn't hold.
fn put_absent(text: &mut Bytes, service: &Name, step: u64, key: &Key) -> Result<(), NoMemory>
    ensures { OnOk result (text.new ≡ text.old ++ absent_line service.now step key.now) }
{
    text.extend_from_slice(b"absent")?;
    put_name(text, service)?;
    put_number(text, step)?;
    put_name(text, &key.from)?;
    put_number(text, key.step)?;
    text.extend_from_slice(b"\n")
}

/// Puts at the text's end the line of a step to which the service's top is linked down.
fn put_link(
    alloc: Global,
    text: &mut Bytes,
    service: &Name,
    step: u64,
    top: u64,
    auth: &Digest,
) -> Result<(), NoMemory>
    ensures { OnOk result (text.new ≡ text.old ++ link_line service.now step top auth.now) }
{
    text.extend_from_slice(b"link")?;
    put_name(text, service)?;
    put_number(text, step)?;
    put_number(text, top)?;
    put_hex(alloc, text, &auth.0)?;
    text.extend_from_slice(b"\n")
}

fn reason_name(reason: &Reason) -> &'static str
    ensures { result.now ≡ reason_name_of reason.now }
{
    match reason {
        Reason::Malformed { .. } => "Malformed",
        Reason::BadOrder => "BadOrder",
        Reason::NotHeld { .. } => "NotHeld",
        Reason::BadPath { .. } => "BadPath",
        Reason::BadOpening { .. } => "BadOpening",
        Reason::BadEvent { .. } => "BadEvent",
        Reason::BadTree { .. } => "BadTree",
        Reason::Carried { .. } => "Carried",
    }
}

/// Puts what the reason tells besides its number and name at the text's end.
fn put_reason_fields(text: &mut Bytes, reason: &Reason) -> Result<(), NoMemory>
    ensures { OnOk result (text.new ≡ text.old ++ fields_text (reason_fields reason.now)) }
{
    match reason {
        Reason::Malformed { place } => put_number(text, *place),
        Reason::NotHeld { service, step } => {
            put_name(text, service)?;
            put_number(text, *step)
        }
        Reason::BadPath { part }
        | Reason::BadOpening { part }
        | Reason::BadEvent { part }
        | Reason::BadTree { part } => put_number(text, *part as u64),
        Reason::Carried { count } => put_number(text, *count as u64),
        Reason::BadOrder => Ok(()),
    }
}
