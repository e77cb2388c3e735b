// Messages, by which a service tells another one its last step; tw_archive and tw_follow judge them.

ghost use Rattle.std.specs.Prelude.{◌≡◌, ℕ, ◌*◌, ◌^◌, ◌<◌, ◌≤◌, List, ◌++◌, length, IfOk, OnOk};
ghost use Rattle.tw_base.specs.format.Codecs.{IsUnambiguous};
ghost use Rattle.tw_base.specs.format.Formats.{ReadsAs, Spells};
ghost use Rattle.tw_base.specs.format.Taking.{Takes};
ghost use Rattle.tw_base.specs.history.Auth.{auth};
ghost use Rattle.tw_base.specs.history.History.{History};
ghost use Rattle.tw_base.specs.history.HistoryTexts.{history_texts};
ghost use Rattle.tw_base.specs.history.Limits.{IsStep, IsThread};
ghost use Rattle.tw_base.specs.history.Sound.{IsSound};
ghost use Rattle.tw_base.specs.kinds.Bytes.{AreBytes};
ghost use Rattle.tw_base.specs.kinds.Clash.{OrClash};
ghost use Rattle.tw_skipproof.specs.Paths.{HasLinkSizes};
ghost use Rattle.tw_msg.specs.declared.message.Message.{Message};
ghost use Rattle.tw_msg.specs.HistoryMessages.{IsMessageOf};
ghost use Rattle.tw_msg.specs.Messages.{IsLinked, Leads, message_bytes, message_codec, message_layout, message_texts};

use std::alloc::Global;
use tw_base::{
    Bytes, Hasher, NoMemory, ReadFault, Thread, put_number, put_text, put_thread, take_number,
    take_text, take_thread, whole_to,
};
use tw_skipproof::{Path, put_path, take_path};

/// How a message begins: the four bytes `TWT1`.
const MAGIC: [u8; 4] = [0x54, 0x57, 0x54, 0x31];

/// A step of a service, and the link from it down to an earlier one.
#[derive(Drop, Debug)]
pub struct Message {
    /// The service, its step (1 to 2^40 - 1) and its authenticator there.
    pub thread: Thread,
    /// The step that the link leads down to, from 0 up to that step. A sender takes the receiver's last archived step of
    /// the service, or 0 where there is none.
    pub since: u64,
    /// The path from the step down to that one.
    pub link: Path,
}

/// Takes a message. Malformed at the first byte at which no message goes on; then the place is left anywhere.
#[tactic(auto, unfolding(crate::specs::Messages::message_codec, tw_base::specs::format::Seen::records))]
fn take_message(alloc: Global, bytes: &[u8], at: &mut u64) -> Result<Message, ReadFault>
    requires { at.old ≤ length bytes.now }
    ensures { Takes message_codec (λ m. m) bytes.now at.old at.new result }
{
    take_text(bytes, at, &MAGIC)?;
    let thread = take_thread(bytes, at)?;
    let since = take_number(bytes, at, 8, 0, thread.step)?;
    let link = take_path(alloc, bytes, at, thread.step, since)?;
    Ok(Message {
        thread,
        since,
        link,
    })
}

/// The message that the bytes spell, from first to last: the four bytes `TWT1`, the service's name in
/// 16 bytes, its step in eight, its authenticator there in 32, the earlier step in eight, and the path
/// between the two. Malformed exactly where they spell none, with the place of the first byte at which
/// no message goes on; where they end too early, that is their length. Takes no more memory than the
/// path.
pub fn read_message(alloc: Global, bytes: &[u8]) -> Result<Message, ReadFault>
    // Bytes are read as a message exactly where they spell one, with that message; else the length of the longest front
    // that some message begins with is told.
    ensures { ReadsAs (λ m. m) message_layout bytes.now result }
{
    let mut at = 0;
    let read = take_message(alloc, bytes, &mut at);
    whole_to(bytes, at, read)
}

/// Appends the message.
#[tactic(auto, unfolding(crate::specs::Messages::message_codec, tw_skipproof::specs::Seen::paths_seen))]
fn put_message(into: &mut Bytes, message: &Message) -> Result<(), NoMemory>
    ensures ok { OnOk result (into.new ≡ into.old ++ message_bytes message.now) }
    ensures fits { OnOk result (IsLinked message.now → message_codec.Fits message.now) }
{
    put_text(into, &MAGIC)?;
    put_thread(into, &message.thread)?;
    put_number(into, message.since, 8)?;
    put_path(into, &message.link)?;
    Ok(())
}

/// The bytes of the message, which spell it where its thread's step is within 1 to 2^40 - 1, the
/// earlier step isn't above it, and the link is a path between the two.
pub fn write_message(alloc: Global, message: &Message) -> Result<Bytes, NoMemory>
    // What is written of a message is its bytes in the format.
    ensures bytes { IfOk result (λ bytes. bytes ≡ message_bytes message.now) }
    // The bytes that are written spell the message, where its steps are within their limits and in their order, and its
    // link has the links of the greedy path between them.
    ensures spelled { IfOk result (λ bytes. IsLinked message.now → Spells message_layout bytes message.now) }
{
    let mut bytes = Bytes::new(alloc);
    put_message(&mut bytes, message)?;
    Ok(bytes)
}

/// The words of messages: each has one message, a message has one spelling, and no word is the front of
/// a longer one. A message has at most 53,828 bytes, and from a step of d binary digits at most 2 d
/// links.
pub fn message_laws()
    // Bytes spell one message at most, a message has one spelling, and no message's bytes are the front of another's.
    ensures once { IsUnambiguous message_codec }
    // A message that is spelled is of a step from 1 on and an earlier one, or that step itself; its link has the links of
    // the greedy path between the two, and its digests are 32 bytes each.
    ensures shape { (bytes : List ℕ) (m : Message) → Spells message_layout bytes m → IsLinked m × IsThread m.thread × HasLinkSizes m.link.links }
    // What is written of such a message spells it.
    ensures word { (m : Message) → IsLinked m → IsThread m.thread → HasLinkSizes m.link.links → Spells message_layout (message_bytes m) m }
    // A message has at most 53,828 bytes, so a longer file spells none.
    ensures size { (bytes : List ℕ) (m : Message) → Spells message_layout bytes m → length bytes ≤ 53828 }
    // A message of a step of d binary digits has at most 2 d links.
    ensures links { (bytes : List ℕ) (m : Message) (digits : ℕ) → Spells message_layout bytes m → m.thread.step < 2 ^ digits → length m.link.links ≤ 2 * digits }
{}

/// The message that a history has of its last step, since each step up to it. Its link climbs from the
/// history's authenticator of the earlier step to that of the last one; where the history is sound, what
/// `write_message` writes of it spells it. And what a message of a step of a sound history climbs from is
/// the history's authenticator of the earlier step, whoever made it, or texts clash.
pub fn history_message_laws<H: Hasher>()
    // A history that has a step has a message since each step up to the last.
    ensures there { (h : History) (since : ℕ) → 0 < length h.steps → since ≤ length h.steps → (m : Message) × IsMessageOf H.dig h since m }
    // It has one at most.
    ensures one { (h : History) (since : ℕ) (m n : Message) → IsMessageOf H.dig h since m → IsMessageOf H.dig h since n → m ≡ n }
    // Its link climbs from the history's authenticator of the earlier step to the one that it tells.
    ensures leads { (h : History) (since : ℕ) (m : Message) → IsMessageOf H.dig h since m → Leads H.dig (auth H.dig h since) m }
    // Where the history is sound, what is written of the message spells it.
    ensures spelled { (h : History) (since : ℕ) (m : Message) → IsSound h → IsMessageOf H.dig h since m → Spells message_layout (message_bytes m) m }
    // Where a message's link climbs from an authenticator to that of a sound history's step, it climbed from the
    // history's authenticator of the earlier step, or two texts of the history and of the climb clash.
    ensures binds { (h : History) (bytes : List ℕ) (m : Message) (kept : List ℕ) → IsSound h → Spells message_layout bytes m → AreBytes kept →
        m.thread.step ≤ length h.steps → m.thread.auth ≡ auth H.dig h m.thread.step → Leads H.dig kept m →
        OrClash H.dig (history_texts H.dig h ++ message_texts H.dig kept m) (kept ≡ auth H.dig h m.since) }
{}
