// The text of an atlas: the line of its start, and one for each leg and each arrival.

ghost use Rattle.std.specs.Prelude.{◌≡◌, ◌∷◌, ◌++◌, [], codes, ℕ, IfOk, OnOk};
ghost use Rattle.std.specs.List.{enumerate_from, flat_map};
ghost use Rattle.tw_atlas.specs.AtlasTexts.{atlas_text, arrival_line as arrival_line_of, leg_line as leg_line_of, start_line as start_line_of};
ghost use Rattle.tw_atlas.specs.declared.atlas.Leg.{Leg};
ghost use Rattle.tw_text.specs.declared.field.Field.TheVariants.{Named, Number, Word};

use crate::atlas::{Arrival, Atlas, Leg};
use std::alloc::Global;
use tw_base::{Bytes, Hop, Name, NoMemory};
use tw_text::{Field, FieldList, print_line, push_numbered, push_word};

/// The lines of an atlas: `atlas NAME STEP`, a line `leg N after M hop FROM STEP BY ARCHIVED` for each
/// leg, and a line `arrive NAME STEP leg N` for each arrival.
pub fn print_atlas(alloc: Global, from: &Name, step: u64, atlas: &Atlas) -> Result<Bytes, NoMemory>
    // The lines of an atlas are exactly the text of the definitions.
    ensures { IfOk result (λ text. text ≡ atlas_text (record { from = from.now; step = step }) atlas.now) }
{
    let mut text = start_line(alloc, from, step)?;
    put_legs(alloc, &mut text, atlas.legs.as_slice())?;
    put_arrivals(alloc, &mut text, atlas.arrivals.as_slice())?;
    Ok(text)
}

/// The line of the start.
fn start_line(alloc: Global, from: &Name, step: u64) -> Result<Bytes, NoMemory>
    ensures { IfOk result (λ text. text ≡ start_line_of (record { from = from.now; step = step })) }
{
    let mut fields = FieldList::new(alloc);
    put_step(&mut fields, from, step)?;
    print_line(alloc, b"atlas", &fields)
}

/// Puts the line of each leg at the text's end, with its number from 1 on.
fn put_legs(alloc: Global, text: &mut Bytes, legs: &[Leg]) -> Result<(), NoMemory>
    ensures { OnOk result (text.new ≡ text.old ++ flat_map (λ (leg : ℕ × Leg). leg_line_of leg.0 leg.1) (enumerate_from 1 legs.now)) }
{
    for i in 0..legs.len() {
        let line = leg_line(alloc, i as u64 + 1, &legs[i])?;
        text.extend_from_slice(line.as_slice())?;
    }
    Ok(())
}

/// The line of the leg with the number.
fn leg_line(alloc: Global, number: u64, leg: &Leg) -> Result<Bytes, NoMemory>
    ensures { IfOk result (λ text. text ≡ leg_line_of number leg.now) }
{
    let mut fields = FieldList::new(alloc);
    fields.push(Field::Number(number))?;
    push_numbered(alloc, &mut fields, b"after", leg.after as u64)?;
    put_hop(alloc, &mut fields, &leg.hop)?;
    print_line(alloc, b"leg", &fields)
}

/// Puts the line of each arrival at the text's end.
fn put_arrivals(alloc: Global, text: &mut Bytes, arrivals: &[Arrival]) -> Result<(), NoMemory>
    ensures { OnOk result (text.new ≡ text.old ++ flat_map arrival_line_of arrivals.now) }
{
    for arrival in arrivals {
        let line = arrival_line(alloc, arrival)?;
        text.extend_from_slice(line.as_slice())?;
    }
    Ok(())
}

/// The line of an arrival.
fn arrival_line(alloc: Global, arrival: &Arrival) -> Result<Bytes, NoMemory>
    ensures { IfOk result (λ text. text ≡ arrival_line_of arrival.now) }
{
    let mut fields = FieldList::new(alloc);
    put_step(&mut fields, &arrival.service, arrival.step)?;
    push_numbered(alloc, &mut fields, b"leg", arrival.leg as u64)?;
    print_line(alloc, b"arrive", &fields)
}

/// Puts the word `hop`, and both steps that the hop joins.
fn put_hop(alloc: Global, fields: &mut FieldList, hop: &Hop) -> Result<(), NoMemory>
    ensures { OnOk result (fields.new ≡ fields.old ++ Word (codes "hop") ∷ Named hop.now.from ∷ Number hop.now.step ∷ Named hop.now.by ∷ Number hop.now.archived ∷ []) }
{
    push_word(alloc, fields, b"hop")?;
    put_step(fields, &hop.from, hop.step)?;
    put_step(fields, &hop.by, hop.archived)
}

/// Puts a service and a step of it.
fn put_step(fields: &mut FieldList, service: &Name, step: u64) -> Result<(), NoMemory>
    ensures { OnOk result (fields.new ≡ fields.old ++ Named service.now ∷ Number step ∷ []) }
{
    fields.push(Field::Named(*service))?;
    fields.push(Field::Number(step))
}
