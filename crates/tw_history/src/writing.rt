// Writing the file of a history in memory; that of a service is made of its pages, in `tw_export`.

ghost use Rattle.std.specs.Prelude.{◌≡◌, ◌<◌, ◌≤◌, ◌^◌, length, map, sum_by, IfOk, IfErr};
ghost use Rattle.tw_base.specs.declared.kinds.limits.TheConstants.{MOST_EVENT_BYTES};
ghost use Rattle.tw_base.specs.format.Codecs.{many};
ghost use Rattle.tw_base.specs.format.Formats.{Spells};
ghost use Rattle.tw_base.specs.history.HistoryCodec.{content_codec, event_codec, history_bytes, history_codec, history_layout, node_codec, recorded_codec, step_codec};
ghost use Rattle.tw_base.specs.history.HistoryCodec.{kind_of as kind_of_recorded};
ghost use Rattle.tw_base.specs.history.Limits.{IsTimeWithinLimits};
ghost use Rattle.tw_base.specs.kinds.Lists.{Each};
ghost use Rattle.tw_base.specs.format.Taking.{Puts};
ghost use Rattle.tw_history.specs.Refusals.{TellsLength};
ghost use Rattle.tw_history.specs.Tables.{IsInRange, node_of, step_of, steps_of_table};
ghost use Rattle.tw_history.specs.WritingSteps.{front_codec, has_events};

use crate::fault::HistoryFault;
use crate::history::History;
use crate::sizes::file_size;
use crate::step::{Node, Step};
use std::alloc::Global;
use tw_base::limits::MOST_HISTORY_BYTES;
use tw_base::{
    Bytes, Content, Name, NoMemory, put_name, put_number, put_sized, put_text, put_thread, put_time,
};

/// The four bytes at the head of a history file.
pub(crate) const MAGIC: [u8; 4] = *b"TWH1";

/// The bytes of the history's file: `TWH1`, the name, the number of steps, and then for each step
/// its time, if any, its content, its new nodes and its root. They spell the history. The time is linear in their
/// number. TooLong comes exactly where there would be more than 67,108,864 of them, and tells how
/// many.
pub fn write_history(alloc: Global, history: &History) -> Result<Bytes, HistoryFault>
    // The bytes written of a history are those of the format.
    ensures bytes { IfOk result (λ bytes. bytes ≡ history_bytes history.now) }
    // The bytes that are written spell the history.
    ensures spelled { IfOk result (λ bytes. Spells history_layout bytes history.now) }
    // At most 67,108,864 bytes are written.
    ensures short { IfOk result (λ bytes. length bytes ≤ MOST_HISTORY_BYTES) }
    // `TooLong` comes only where there would be more, and tells how many.
    ensures long { IfErr result (TellsLength (history_bytes history.now)) }
{
    let size = file_size(history);
    if size > MOST_HISTORY_BYTES {
        return Err(HistoryFault::TooLong { bytes: size });
    }
    let bytes = written_history(alloc, history, size as usize)?;
    Ok(bytes)
}

/// The bytes of the history's file, in room for so many.
fn written_history(alloc: Global, history: &History, size: usize) -> Result<Bytes, NoMemory>
    ensures bytes { IfOk result (λ bytes. bytes ≡ history_bytes history.now) }
    ensures spelled { IfOk result (λ bytes. Spells history_layout bytes history.now) }
{
    let mut bytes = Bytes::with_capacity(alloc, size)?;
    put_history(&mut bytes, history)?;
    Ok(bytes)
}

/// Appends what a history's file has before the first of so many steps: `TWH1`, the name, and their number.
#[tactic(auto, unfolding(crate::specs::WritingSteps::front_codec, tw_base::specs::format::Seen::codecs))]
pub fn put_file_front(into: &mut Bytes, name: &Name, count: u64) -> Result<(), NoMemory>
    // What a file has before its first step is appended as its codec writes it.
    ensures { Puts front_codec (name.now, count) into.old into.new result }
{
    put_text(into, &MAGIC)?;
    put_name(into, name)?;
    put_number(into, count, 8)?;
    Ok(())
}

/// Appends the bytes of the history's file.
fn put_history(into: &mut Bytes, history: &History) -> Result<(), NoMemory>
    ensures { Puts history_codec history.now into.old into.new result }
{
    put_file_front(into, &history.name, history.steps.len() as u64)?;
    put_steps(into, history.steps.as_slice(), history.nodes.as_slice())?;
    Ok(())
}

/// Appends the steps, each with the next of the nodes.
fn put_steps(into: &mut Bytes, steps: &[Step], nodes: &[Node]) -> Result<(), NoMemory>
    requires counted { sum_by (λ s. s.fresh) steps.now ≡ length nodes.now }
    requires contents { Each (λ s. IsInRange s.content) steps.now }
    requires times { Each (λ s. IsTimeWithinLimits s.time) steps.now }
    requires entries { Each (λ n. n.entry < 2 ^ 64) nodes.now }
    ensures { Puts (many (length steps.now) step_codec) (steps_of_table steps.now nodes.now) into.old into.new result }
{
    let mut rest = nodes;
    for step in steps {
        let (fresh, later) = rest.split_at(step.fresh as usize);
        put_step(into, step, fresh)?;
        rest = later;
    }
    Ok(())
}

/// Appends the step with its new nodes.
#[tactic(auto, unfolding(tw_base::specs::history::HistoryCodec::step_codec, tw_base::specs::format::Seen::codecs))]
fn put_step(into: &mut Bytes, step: &Step, fresh: &[Node]) -> Result<(), NoMemory>
    requires counted { length fresh.now ≡ step.now.fresh }
    requires content { IsInRange step.now.content }
    requires time { IsTimeWithinLimits step.now.time }
    requires entries { Each (λ n. n.entry < 2 ^ 64) fresh.now }
    ensures { Puts step_codec (step_of step.now fresh.now) into.old into.new result }
{
    put_recorded(into, step.time, &step.content)?;
    put_number(into, step.fresh as u64, 2)?;
    put_nodes(into, fresh)?;
    put_number(into, step.root as u64, 4)?;
    Ok(())
}

/// The kind of a step: 1 for events, 2 for a thread, 3 and 4 for these with a time. (tw_steppage has it of a page's fields.)
fn kind_of(time: Option<u64>, content: &Content) -> u64
    ensures { result ≡ kind_of_recorded time content.now }
{
    match (time, content) {
        (None, Content::Events(_)) => 1,
        (None, Content::Received(_)) => 2,
        (Some(_), Content::Events(_)) => 3,
        (Some(_), Content::Received(_)) => 4,
    }
}

/// Appends the kind of what a step records, its time, if any, and its content, as a history file has them.
#[tactic(auto, unfolding(tw_base::specs::format::Codecs::number_codec))]
pub fn put_recorded(into: &mut Bytes, time: Option<u64>, content: &Content) -> Result<(), NoMemory>
    requires content { IsInRange content.now }
    requires time { IsTimeWithinLimits time }
    // What a step records is appended as its codec writes it.
    ensures { Puts recorded_codec (time, content.now) into.old into.new result }
{
    put_number(into, kind_of(time, content), 1)?;
    put_time(into, time)?;
    put_content(into, content)?;
    Ok(())
}

/// Appends the content: the number of events and each of them, or the thread.
#[tactic(auto, unfolding(tw_base::specs::format::Seen::codecs, tw_base::specs::history::Seen::contents))]
fn put_content(into: &mut Bytes, content: &Content) -> Result<(), NoMemory>
    requires { IsInRange content.now }
    ensures { Puts (content_codec (has_events content.now)) content.now into.old into.new result }
{
    match content {
        Content::Events(events) => {
            put_number(into, events.len() as u64, 4)?;
            put_events(into, events.as_slice())?;
            Ok(())
        }
        Content::Received(thread) => {
            put_thread(into, thread.get())?;
            Ok(())
        }
    }
}

/// Appends the events, each behind its length.
fn put_events(into: &mut Bytes, events: &[Bytes]) -> Result<(), NoMemory>
    requires { Each (λ event. length event ≤ MOST_EVENT_BYTES) events.now }
    ensures { Puts (many (length events.now) event_codec) events.now into.old into.new result }
{
    for event in events {
        put_event(into, event)?;
    }
    Ok(())
}

/// Appends the event behind its length.
fn put_event(into: &mut Bytes, event: &Bytes) -> Result<(), NoMemory>
    requires { length event.now ≤ MOST_EVENT_BYTES }
    ensures { Puts event_codec event.now into.old into.new result }
{
    put_sized(into, event.as_slice(), 4)?;
    Ok(())
}

/// Appends the nodes.
fn put_nodes(into: &mut Bytes, nodes: &[Node]) -> Result<(), NoMemory>
    requires { Each (λ n. n.entry < 2 ^ 64) nodes.now }
    ensures { Puts (many (length nodes.now) node_codec) (map node_of nodes.now) into.old into.new result }
{
    for node in nodes {
        put_node(into, node)?;
    }
    Ok(())
}

/// Appends the node.
#[tactic(auto, unfolding(tw_base::specs::history::HistoryCodec::node_codec, tw_base::specs::format::Seen::codecs))]
fn put_node(into: &mut Bytes, node: &Node) -> Result<(), NoMemory>
    requires { node.now.entry < 2 ^ 64 }
    ensures { Puts node_codec (node_of node.now) into.old into.new result }
{
    put_number(into, node.left as u64, 4)?;
    put_number(into, node.entry, 8)?;
    put_number(into, node.right as u64, 4)?;
    Ok(())
}
