// The bytes of step pages and event pages, written and read; tree pages are in tw_rbnode, and those of a follower's heads in tw_follow.

ghost use Rattle.std.specs.Prelude.{◌≡◌, ◌≢◌, ◌<◌, ◌≤◌, ◌^◌, ◌+◌, ◌*◌, ◌++◌, ◌↔◌, ◌&&◌, ℕ, suc, length, take, drop, flat_map, IfErr, IfOk, IfSome, IsTrue, MatchOption};
ghost use Rattle.tw_base.specs.history.HistoryCodec.{time_codec};
ghost use Rattle.tw_base.specs.kinds.Bytes.{AreBytes};
ghost use Rattle.tw_base.specs.format.Codecs.{HasBytes, many, optional};
ghost use Rattle.tw_base.specs.kinds.Levels.{top_level as top_level_of};
ghost use Rattle.tw_base.specs.kinds.Lists.{Each};
ghost use Rattle.tw_base.specs.format.Taking.{Takes};
ghost use Rattle.tw_steppage.specs.StepBytes.{counts_codec, event_page_bytes, field_codec, fields_kind, links_codec, page_thread_codec, paged_codec, piece_codec, received_codec, ref_codec, step_body_codec, step_page_bytes};
ghost use Rattle.tw_steppage.specs.StepPages.{keeps_field_rules as field_rules, keeps_link_rules as link_rules, lies_below as is_below};

use crate::fields::{StepFields, StreamRef};
use crate::limits::{MOST_LINKS, MOST_PIECE_BYTES, MOST_STREAM_BYTES};
use crate::link::StepRef;
use arrayvec::ArrayVec;
use tw_base::limits::{LAST_STEP, MOST_EVENTS};
use tw_base::{
    Page, PageFront, ReadFault, Root, Thread, is_of_events, is_timed, power_of_two, take_digest,
    take_name, take_number, take_text, take_time, top_level,
};

// ---- links

// Puts a link.
#[tactic(auto, unfolding(crate::specs::StepBytes::ref_codec, tw_base::specs::format::Seen::codecs))]
fn put_link(page: &mut PageFront, link: &StepRef)
    requires { length page.old + 40 ≤ 4096 }
    ensures bytes { page.new ≡ page.old ++ ref_codec.write link.now }
    ensures size { length page.new ≡ length page.old + 40 }
{
    page.put_number(link.page, 8);
    page.put_digest(&link.auth);
}

// Puts the links.
fn put_links(page: &mut PageFront, links: &[StepRef])
    requires { length page.old + 40 * length links.now ≤ 4096 }
    ensures bytes { page.new ≡ page.old ++ flat_map ref_codec.write links.now }
    ensures size { length page.new ≡ length page.old + 40 * length links.now }
{
    for link in links {
        put_link(page, link);
    }
}

// ---- the kind

// The kind of a step with these fields, 1 to 4; `is_of_events` and `is_timed` of tw_base tell what it means.
fn kind_of(fields: &StepFields) -> u64
    ensures kind { result ≡ fields_kind fields.now }
    ensures range { (1 ≤ result) × (result ≤ 4) }
{
    match fields.time {
        None => match fields.received {
            None => 1,
            Some(_) => 2,
        },
        Some(_) => match fields.received {
            None => 3,
            Some(_) => 4,
        },
    }
}

// ---- writing

// Puts the number of events and where they stand, or zeros.
#[tactic(auto, unfolding(crate::specs::StepBytes::counts_codec, tw_base::specs::format::Seen::codecs))]
fn put_counts(page: &mut PageFront, is_events: bool, count: u32, stream: &StreamRef)
    requires { length page.old + 16 ≤ 4096 }
    ensures bytes { page.new ≡ page.old ++ (counts_codec is_events).write (count, stream.now) }
    ensures size { length page.new ≡ length page.old + 16 }
{
    if is_events {
        page.put_number(count as u64, 4);
        page.put_number(stream.size as u64, 4);
        page.put_number(stream.page, 8);
    } else {
        page.put(&[0; 16]);
    }
}

// Puts a received thread into the page, 56 bytes; tw_base has what appends one to `Bytes`.
#[tactic(auto, unfolding(crate::specs::StepBytes::page_thread_codec, tw_base::specs::format::Seen::codecs))]
fn put_thread(page: &mut PageFront, thread: &Thread)
    requires { length page.old + 56 ≤ 4096 }
    ensures bytes { page.new ≡ page.old ++ page_thread_codec.write thread.now }
    ensures size { length page.new ≡ length page.old + 56 }
{
    page.put(thread.from.as_bytes());
    page.put_number(thread.step, 8);
    page.put_digest(&thread.auth);
}

// Puts the thread of a step that received one, or the zeros of one of events.
#[tactic(auto, unfolding(crate::specs::StepBytes::received_codec, tw_base::specs::format::Seen::codecs))]
fn put_received(page: &mut PageFront, is_events: bool, received: &Option<Thread>)
    requires { length page.old + 56 ≤ 4096 }
    ensures bytes { page.new ≡ page.old ++ (received_codec is_events).write received.now }
    ensures size { length page.new ≤ length page.old + 56 }
{
    if is_events {
        page.put(&[0; 56]);
    } else if let Some(thread) = received {
        put_thread(page, thread);
    }
}

// Puts the time of a step that is to have one.
#[tactic(auto, unfolding(tw_base::specs::format::Seen::codecs))]
fn put_time(page: &mut PageFront, is_timed: bool, time: Option<u64>)
    requires { length page.old + 8 ≤ 4096 }
    ensures { page.new ≡ page.old ++ (optional is_timed time_codec).write time }
{
    if is_timed && let Some(time) = time {
        page.put_number(time, 8);
    }
}

// Puts what a step of this kind has behind the kind.
#[tactic(auto, unfolding(crate::specs::Seen::body))]
fn put_body(page: &mut PageFront, step: u64, kind: u64, fields: &StepFields, links: &[StepRef])
    requires few { length links.now ≤ MOST_LINKS }
    requires count { length links.now ≡ suc (top_level_of step) }
    requires room { length page.old ≤ 10 }
    ensures { page.new ≡ page.old ++ (step_body_codec step kind).write (fields.now, links.now) }
{
    put_counts(page, is_of_events(kind), fields.count, &fields.stream);
    page.put_digest(&fields.event_root);
    page.put_digest(&fields.archive.label);
    page.put_number(fields.archive.page, 8);
    put_received(page, is_of_events(kind), &fields.received);
    page.put_digest(&fields.auth);
    page.put(&[links.len() as u8]);
    put_links(page, links);
    put_time(page, is_timed(kind), fields.time);
}

/// The page of a step with these links, of which a step below 2^40 has one a level. It begins with the byte 1.
#[tactic(auto, unfolding(crate::specs::StepBytes::field_codec, crate::specs::StepBytes::paged_codec, tw_base::specs::format::Seen::codecs))]
pub fn step_page(step: u64, fields: &StepFields, links: &[StepRef]) -> Page
    requires few { length links.now ≤ MOST_LINKS }
    requires count { length links.now ≡ suc (top_level_of step) }
    ensures { result ≡ step_page_bytes step fields.now links.now }
{
    let kind = kind_of(fields);
    let mut page = PageFront::new();
    page.put(&[1]);
    page.put(&step.to_be_bytes());
    page.put_number(kind, 1);
    put_body(&mut page, step, kind, fields, links);
    page.into_page()
}

/// The event page of this number within a step: the byte 2, the step, the number, and the piece of the stream.
#[tactic(auto, unfolding(crate::specs::Seen::pieces))]
pub fn event_page(step: u64, number: u16, piece: &[u8]) -> Page
    requires { length piece.now ≤ MOST_PIECE_BYTES }
    ensures page { result ≡ event_page_bytes step number piece.now }
    ensures bytes { AreBytes piece.now }
{
    let mut page = PageFront::new();
    page.put(&[2]);
    page.put(&step.to_be_bytes());
    page.put(&number.to_be_bytes());
    page.put(piece);
    page.into_page()
}

// ---- reading

/// The fields and the links of a step page.
#[derive(Drop)]
pub struct StepPage {
    pub fields: StepFields,
    pub links: ArrayVec<StepRef, 40>,
}

// Takes a link.
#[tactic(auto, unfolding(crate::specs::StepBytes::ref_codec, tw_base::specs::format::Seen::records))]
fn take_link(bytes: &[u8], at: &mut u64) -> Result<StepRef, ReadFault>
    requires { at.old ≤ length bytes.now }
    ensures takes { Takes ref_codec (λ l. l) bytes.now at.old at.new result }
    ensures memory { IfErr result (λ fault. fault ≢ ReadFault.NoMemory) }
{
    let page = take_number(bytes, at, 8, 0, u64::MAX)?;
    let auth = take_digest(bytes, at)?;
    Ok(StepRef { page, auth })
}

// Takes so many links.
fn take_links(bytes: &[u8], at: &mut u64, count: u8) -> Result<ArrayVec<StepRef, 40>, ReadFault>
    requires within { at.old ≤ length bytes.now }
    requires few { count ≤ MOST_LINKS }
    ensures takes { Takes (many count ref_codec) (λ links. links.items) bytes.now at.old at.new result }
    ensures memory { IfErr result (λ fault. fault ≢ ReadFault.NoMemory) }
{
    let mut links: ArrayVec<StepRef, 40> = ArrayVec::new();
    for _i in 0..count {
        links.push(take_link(bytes, at)?);
    }
    Ok(links)
}

// Takes the number of a step's links, and the links.
#[tactic(auto, unfolding(crate::specs::StepBytes::links_codec, tw_base::specs::format::Codecs::behind))]
fn take_all_links(bytes: &[u8], at: &mut u64, step: u64) -> Result<ArrayVec<StepRef, 40>, ReadFault>
    requires within { at.old ≤ length bytes.now }
    requires step { step < 2 ^ 40 }
    ensures takes { Takes (links_codec step) (λ links. links.items) bytes.now at.old at.new result }
    ensures memory { IfErr result (λ fault. fault ≢ ReadFault.NoMemory) }
{
    let count = top_level(step) + 1;
    take_text(bytes, at, &[count])?;
    take_links(bytes, at, count)
}

// Takes the number of events and where they stand, or zeros.
#[tactic(auto, unfolding(crate::specs::StepBytes::counts_codec, tw_base::specs::format::Seen::codecs))]
fn take_counts(bytes: &[u8], at: &mut u64, is_events: bool) -> Result<(u32, StreamRef), ReadFault>
    requires { at.old ≤ length bytes.now }
    ensures takes { Takes (counts_codec is_events) (λ c. c) bytes.now at.old at.new result }
    ensures memory { IfErr result (λ fault. fault ≢ ReadFault.NoMemory) }
{
    if !is_events {
        take_text(bytes, at, &[0; 16])?;
        return Ok((0, StreamRef { page: 0, size: 0 }));
    }
    let count = take_number(bytes, at, 4, 0, MOST_EVENTS)? as u32;
    let size = take_number(bytes, at, 4, 0, MOST_STREAM_BYTES)? as u32;
    let page = take_number(bytes, at, 8, 0, u64::MAX)?;
    Ok((count, StreamRef { page, size }))
}

// Takes a received thread, of any step that its field has room for; in a file, by `take_thread` of tw_base, it is one from 1 on.
#[tactic(auto, unfolding(crate::specs::StepBytes::page_thread_codec, tw_base::specs::format::Seen::records))]
fn take_thread(bytes: &[u8], at: &mut u64) -> Result<Thread, ReadFault>
    requires { at.old ≤ length bytes.now }
    ensures takes { Takes page_thread_codec (λ t. t) bytes.now at.old at.new result }
    ensures memory { IfErr result (λ fault. fault ≢ ReadFault.NoMemory) }
{
    let from = take_name(bytes, at)?;
    let step = take_number(bytes, at, 8, 0, LAST_STEP)?;
    let auth = take_digest(bytes, at)?;
    Ok(Thread { from, step, auth })
}

// Takes the thread of a step that received one, or the zeros of one of events.
#[tactic(auto, unfolding(crate::specs::StepBytes::received_codec, tw_base::specs::format::Seen::codecs))]
fn take_received(bytes: &[u8], at: &mut u64, is_events: bool) -> Result<Option<Thread>, ReadFault>
    requires { at.old ≤ length bytes.now }
    ensures takes { Takes (received_codec is_events) (λ r. r) bytes.now at.old at.new result }
    ensures memory { IfErr result (λ fault. fault ≢ ReadFault.NoMemory) }
{
    if is_events {
        take_text(bytes, at, &[0; 56])?;
        return Ok(None);
    }
    let thread = take_thread(bytes, at)?;
    Ok(Some(thread))
}

// Takes what a step of this kind has behind the kind.
#[tactic(auto, unfolding(crate::specs::StepBytes::step_body_codec, tw_base::specs::format::Seen::records))]
fn take_body(bytes: &[u8], at: &mut u64, step: u64, kind: u64) -> Result<StepPage, ReadFault>
    requires within { at.old ≤ length bytes.now }
    requires step { step < 2 ^ 40 }
    ensures takes { Takes (step_body_codec step kind) (λ p. (p.fields, p.links.items)) bytes.now at.old at.new result }
    ensures memory { IfErr result (λ fault. fault ≢ ReadFault.NoMemory) }
{
    let (count, stream) = take_counts(bytes, at, is_of_events(kind))?;
    let event_root = take_digest(bytes, at)?;
    let label = take_digest(bytes, at)?;
    let page = take_number(bytes, at, 8, 0, u64::MAX)?;
    let received = take_received(bytes, at, is_of_events(kind))?;
    let auth = take_digest(bytes, at)?;
    let links = take_all_links(bytes, at, step)?;
    let time = take_time(bytes, at, is_timed(kind))?;
    Ok(StepPage {
        fields: StepFields {
            count,
            stream,
            event_root,
            archive: Root { page, label },
            received,
            auth,
            time,
        },
        links,
    })
}

// Takes the kind of a step, and what the kind has.
fn take_kinds(bytes: &[u8], at: &mut u64, step: u64) -> Result<StepPage, ReadFault>
    requires within { at.old ≤ length bytes.now }
    requires step { step < 2 ^ 40 }
    ensures takes { Takes (field_codec step) (λ p. (p.fields, p.links.items)) bytes.now at.old at.new result }
    ensures memory { IfErr result (λ fault. fault ≢ ReadFault.NoMemory) }
{
    let kind = take_number(bytes, at, 1, 1, 4)?;
    take_body(bytes, at, step, kind)
}

/// Takes the fields and the links of the page of this step.
#[tactic(auto, unfolding(crate::specs::StepBytes::paged_codec, tw_base::specs::format::Codecs::behind))]
pub fn take_step(bytes: &[u8], at: &mut u64, step: u64) -> Result<StepPage, ReadFault>
    requires within { at.old ≤ length bytes.now }
    requires step { step < 2 ^ 40 }
    ensures takes { Takes (paged_codec step) (λ p. (p.fields, p.links.items)) bytes.now at.old at.new result }
    ensures memory { IfErr result (λ fault. fault ≢ ReadFault.NoMemory) }
{
    take_text(bytes, at, &[1])?;
    take_text(bytes, at, &step.to_be_bytes())?;
    take_kinds(bytes, at, step)
}

// Whether a page lies below another one, and is 0 exactly where it is of nothing.
fn lies_below(is_of_nothing: bool, page: u64, above: u64) -> bool
    ensures { result ≡ is_below is_of_nothing page above }
{
    page < above && is_of_nothing == (page == 0)
}

fn keeps_field_rules(page: u64, fields: &StepFields) -> bool
    ensures { result ≡ field_rules page fields.now }
{
    lies_below(fields.stream.size == 0, fields.stream.page, page) && fields.archive.page < page
}

fn keeps_link_rules(page: u64, step: u64, links: &[StepRef]) -> bool
    requires { length links.now ≤ MOST_LINKS }
    ensures { result ≡ link_rules page step links.now (length links.now) }
{
    for level in 0..links.len() {
        if !lies_below(step == power_of_two(level as u8), links[level].page, page) {
            return false;
        }
    }
    true
}

/// Whether fields and links may stand in the page of this number as those of this step.
pub fn keeps_rules(page: u64, step: u64, found: &StepPage) -> bool
    requires { length found.now.links.items ≤ MOST_LINKS }
    ensures { result ≡ (field_rules page found.now.fields && link_rules page step found.now.links.items (length found.now.links.items)) }
{
    keeps_field_rules(page, &found.fields) && keeps_link_rules(page, step, found.links.as_slice())
}

/// The bytes of a stream that stand in an event page that has so many, behind 11 others: the byte 2, the step and the number.
pub fn event_piece(bytes: &Page, count: usize) -> &[u8]
    requires { count ≤ MOST_PIECE_BYTES }
    ensures { result.now ≡ take count (drop 11 bytes.now) }
{
    &bytes[11..11 + count]
}

/// Whether the bytes are the event page of this number of the step with so many bytes of its stream,
/// those that stand in it.
pub fn is_event_page(bytes: &Page, step: u64, number: u16, count: usize) -> bool
    requires { count ≤ MOST_PIECE_BYTES }
    ensures answer { IsTrue result ↔ (bytes.now ≡ event_page_bytes step number (take count (drop 11 bytes.now))) }
    ensures piece { HasBytes count (take count (drop 11 bytes.now)) }
{
    *bytes == event_page(step, number, event_piece(bytes, count))
}
