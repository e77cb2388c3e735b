// The call that asks a question of a service, and the calls that each ask one.

ghost use Rattle.std.specs.Prelude.{◌≡◌, ◌⊎◌, ◌<◌, ◌≤◌, ◌*◌, ◌^◌, ℕ, length, false, IfErr, IfOk, IsNone};
ghost use Rattle.tw_disk.specs.Answers.{ReadsOr};
ghost use Rattle.tw_answers.specs.Limits.{broken_refusal as broken_refusal_of};
ghost use Rattle.tw_answers.specs.Refusals.{IsFault, service_refusals};
ghost use Rattle.tw_base.specs.history.Questions.{HasNames, MayAsk};
ghost use Rattle.tw_service.specs.Tops.{top_or_last};
ghost use Rattle.tw_service.specs.Questions.{AreInOrder, Besides, found_bytes, message_found, message_told, question_refusal as refusal_of_question};

use crate::exporting::make_file;
use crate::mapping::{make_high, make_low};
use crate::service::Service;
use std::alloc::Global;
use tw_answers::{
    Refusal, link_refusal, make_absence, make_link, make_proof, make_thread, order_refusal,
    path_down, thread_refusal, top_refusal,
};
use tw_base::limits::LAST_STEP;
use tw_base::{Bytes, Hasher, Key, Name, Question, Thread, see_name};
use tw_disk::{Disk, Pages};
use tw_msg::{Message, write_message};
use tw_pages::Store;
use tw_skiplist::Head;

/// The top that is asked for, or the last step where none is.
fn top_for(top: Option<u64>, last: u64) -> u64
    ensures { result ≡ top_or_last top last }
{
    match top {
        Some(top) => top,
        None => last,
    }
}

/// The refusal of a call after one that met a disk fault.
fn broken_refusal(is_broken: bool) -> Option<Refusal>
    ensures answer { result ≡ broken_refusal_of is_broken }
    ensures whole { IsNone result → is_broken ≡ false }
{
    if is_broken {
        return Some(Refusal::Reopen);
    }
    None
}

/// The refusal of a question, before a page is read.
#[tactic(auto, unfolding(crate::specs::Questions::question_refusal))]
fn question_refusal(is_broken: bool, last: u64, question: &Question) -> Option<Refusal>
    ensures answer { result ≡ refusal_of_question is_broken last question.now }
    ensures order { IsNone result → AreInOrder last question.now }
    ensures whole { IsNone result → is_broken ≡ false }
{
    match question {
        Question::Event { step, top, .. }
        | Question::Thread { step, top, .. }
        | Question::Absent { step, top, .. }
        | Question::Low { step, top, .. } => {
            order_refusal(is_broken, last, *step, top_for(*top, last))
        }
        Question::Link { step, top } => link_refusal(is_broken, last, *step, top_for(*top, last)),
        Question::High { top, .. } => top_refusal(is_broken, last, top_for(*top, last)),
        Question::ThreadOut { since } => thread_refusal(is_broken, last, *since),
        Question::Export => broken_refusal(is_broken),
    }
}

/// Tells a proof that the names in a question have letters, and zeros behind them.
fn see_names(question: &Question)
    ensures { HasNames question.now }
{
    match question {
        Question::Thread { key, .. } | Question::Absent { key, .. } => see_name(&key.from),
        Question::Low { peer, .. } | Question::High { peer, .. } => see_name(peer),
        Question::Event { .. }
        | Question::Link { .. }
        | Question::ThreadOut { .. }
        | Question::Export => {}
    }
}

/// The message of the last step, linked down to this one.
#[tactic(auto, unfolding(crate::specs::Questions::message_told))]
fn tell_message<P: Pages, H: Hasher>(
    alloc: Global,
    pages: &mut P,
    name: &Name,
    head: &Head,
    since: u64,
) -> Result<Message, Refusal>
    requires short { head.now.step ≤ LAST_STEP }
    requires order { since ≤ head.now.step }
    ensures reads { ReadsOr service_refusals P.view P.same pages.old pages.new (λ m. m) result (IfErr result IsFault)
        (λ ps. message_told H.dig ps name.now head.now since) }
    ensures bound { IfOk result (λ m. (digits : ℕ) → head.now.step < 2 ^ digits → length m.link.links ≤ 2 * digits) }
{
    let link = path_down::<P, H>(alloc, pages, head, since)?;
    Ok(Message {
        thread: Thread {
            from: *name,
            step: head.step,
            auth: head.auth,
        },
        since,
        link,
    })
}

/// Its bytes.
#[tactic(auto, unfolding(crate::specs::Questions::message_found))]
fn make_message<P: Pages, H: Hasher>(
    alloc: Global,
    pages: &mut P,
    name: &Name,
    head: &Head,
    since: u64,
) -> Result<Bytes, Refusal>
    requires short { head.now.step ≤ LAST_STEP }
    requires order { since ≤ head.now.step }
    ensures reads { ReadsOr service_refusals P.view P.same pages.old pages.new (λ bytes. bytes) result (IfErr result IsFault)
        (λ ps. message_found H.dig ps name.now head.now since) }
{
    let message = tell_message::<P, H>(alloc, pages, name, head, since)?;
    let bytes = write_message(alloc, &message);
    // Dropped by its name, so that the prover meets the drop in one place.
    drop(message);
    Ok(bytes?)
}

/// The bytes that answer a question which the table doesn't refuse.
#[tactic(auto, unfolding(crate::specs::Questions::found_bytes))]
fn answer_bytes<P: Pages, H: Hasher>(
    alloc: Global,
    pages: &mut P,
    name: &Name,
    head: &Head,
    question: &Question,
) -> Result<Bytes, Refusal>
    requires short { head.now.step ≤ LAST_STEP }
    requires may { MayAsk question.now }
    requires order { AreInOrder head.now.step question.now }
    ensures reads { ReadsOr service_refusals P.view P.same pages.old pages.new (λ bytes. bytes) result (IfErr result (λ why. IsFault why ⊎ Besides question.now why))
        (λ ps. found_bytes H.dig ps name.now head.now question.now) }
{
    let last = head.step;
    match question {
        Question::Event { step, index, top } => {
            make_proof::<P, H>(alloc, pages, name, head, *step, *index, top_for(*top, last))
        }
        Question::Thread { step, key, top } => {
            make_thread::<P, H>(alloc, pages, name, head, *step, key, top_for(*top, last))
        }
        Question::Absent { step, key, top } => {
            make_absence::<P, H>(alloc, pages, name, head, *step, key, top_for(*top, last))
        }
        Question::Link { step, top } => {
            make_link::<P, H>(alloc, pages, name, head, *step, top_for(*top, last))
        }
        Question::Low { step, peer, top } => {
            make_low::<P, H>(alloc, pages, name, head, *step, peer, top_for(*top, last))
        }
        Question::High { step, peer, top } => {
            make_high::<P, H>(alloc, pages, name, head, *step, peer, top_for(*top, last))
        }
        Question::ThreadOut { since } => make_message::<P, H>(alloc, pages, name, head, *since),
        Question::Export => make_file::<P, H>(alloc, pages, name, head),
    }
}

impl<D: Disk, H: Hasher> Service<D, H> {
    ghost use Rattle.std.specs.Prelude.{Some};
    ghost use Rattle.tw_base.specs.history.Limits.{IsStep};
    ghost use Rattle.tw_base.specs.history.History.{History};
    ghost use Rattle.tw_msg.specs.HistoryMessages.{IsMessageOf};
    ghost use Rattle.tw_msg.specs.Messages.{message_bytes};
    ghost use Rattle.tw_answers.specs.Limits.{thread_refusal as thread_refusal_of};
    ghost use Rattle.tw_service.specs.Asking.{Asks, AsksFor};
    ghost use Rattle.tw_service.specs.Machine.Call.{Ask};
    ghost use Rattle.tw_service.specs.Machine.Reply.{OfBytes};
    ghost use Rattle.tw_service.specs.Questions.{told_answer};
    ghost use Rattle.tw_service.specs.Serves.{Serves, has_failed, head_of, name_of, steps_of};
    ghost use Rattle.tw_base.specs.declared.history.question.Question.TheVariants.{Event, Thread as ThreadOf, Absent, Link, Low, High, ThreadOut, Export};

    /// Asks a question, which only reads. The answer is the bytes of a proof, a map file, a message or the history's file, as the
    /// calls below say of each; without a top the last step is meant.
    ///
    /// Condition: a peer's step that is asked for is within 1 to 2^40 - 1. Refusals, the first that stands: `Reopen` where an earlier
    /// call on this value answered `DiskFault`; `NoStep` where the steps aren't in their order, with the last step; then `NoEvent`,
    /// `NoThread`, `HasThread` or `TooLong`, by the question. `BadPage` tells the first page met that isn't of its kind, as the calls
    /// below say; it never comes where a history is served. `DiskFault` comes only where the disk's count of faults rose, and
    /// `NoMemory` is free. It writes nothing.
    pub fn ask(&mut self, question: &Question) -> Result<Bytes, Refusal>
        requires { MayAsk question.now }
        // Asking does what the question's table says and what is found for it, and an answer is what the history makes of it.
        ensures { AsksFor H.dig D.view question.now self.old self.new result }
    {
        see_names(question);
        let last = self.recorded.kept.root.head.step;
        if let Some(refusal) = question_refusal(self.is_broken, last, question) {
            return Err(refusal);
        }
        match answer_bytes::<Store<D>, H>(
            self.alloc,
            &mut self.recorded.kept.store,
            &self.recorded.kept.root.name,
            &self.recorded.kept.root.head,
            question,
        ) {
            Ok(bytes) => Ok(bytes),
            Err(refusal) => {
                self.is_broken = refusal.is_disk_fault();
                Err(refusal)
            }
        }
    }

    /// The existence proof of the event at that index (from 0) of a step, under that top.
    ///
    /// Refusals, the first that stands: `Reopen` where an earlier call on this value answered `DiskFault`; `NoStep` where 1 <= step <=
    /// top <= the last step doesn't hold, with the last step; `NoEvent` where the index isn't below the step's count of events, with the
    /// count. `BadPage` tells the first page met that isn't of its kind, or the one read last where the event pages don't spell the
    /// step's events; it never comes where a history is served. It writes nothing.
    pub fn prove_event(&mut self, step: u64, index: u32, top: u64) -> Result<Bytes, Refusal>
        ensures { AsksFor H.dig D.view (Event step index (Some top)) self.old self.new result }
    {
        self.ask(&Question::Event {
            step,
            index: index as u64,
            top: Some(top),
        })
    }

    /// The proof that a step received a thread of the key, of the steps up to this one, under that top: the entry of the key in the
    /// step's archive, with its place.
    ///
    /// Condition: the key's step is within 1 to 2^40 - 1. Refusals, the first that stands: `Reopen` where an earlier call on this value
    /// answered `DiskFault`; `NoStep` where 1 <= step <= top <= the last step doesn't hold, with the last step; `NoThread` where no step
    /// up to that one received a thread of the key. `BadPage` tells the first page met that isn't of its kind, or the root's page of an
    /// archive whose pages don't fit one another; it never comes where a history is served. It writes nothing.
    pub fn prove_thread(&mut self, step: u64, key: Key, top: u64) -> Result<Bytes, Refusal>
        requires { IsStep key.step }
        ensures { AsksFor H.dig D.view (ThreadOf step key (Some top)) self.old self.new result }
    {
        self.ask(&Question::Thread {
            step,
            key,
            top: Some(top),
        })
    }

    /// The proof that no step received a thread of the key, of the steps up to this one, under that top: the empty place of the key in
    /// the step's archive.
    ///
    /// Condition and refusals are those of `prove_thread`, but for `HasThread` in place of `NoThread`, where a step up to that one
    /// received a thread of the key, with that step.
    pub fn prove_absent(&mut self, step: u64, key: Key, top: u64) -> Result<Bytes, Refusal>
        requires { IsStep key.step }
        ensures { AsksFor H.dig D.view (Absent step key (Some top)) self.old self.new result }
    {
        self.ask(&Question::Absent {
            step,
            key,
            top: Some(top),
        })
    }

    /// The proof of the authenticator of a step, which may be 0, under that top. The page of the step isn't read: the link that leads to
    /// it has the authenticator.
    ///
    /// Refusals, the first that stands: `Reopen` where an earlier call on this value answered `DiskFault`; `NoStep` where step <= top and
    /// 1 <= top <= the last step don't both hold, with the last step. `BadPage` tells the first page met that isn't of its kind; it never
    /// comes where a history is served. It writes nothing.
    pub fn prove_link(&mut self, step: u64, top: u64) -> Result<Bytes, Refusal>
        ensures { AsksFor H.dig D.view (Link step (Some top)) self.old self.new result }
    {
        self.ask(&Question::Link {
            step,
            top: Some(top),
        })
    }

    /// The low map file of a step: with the high one that the peer gives for it, it shows between which steps of the peer the step lies.
    /// Under the top it shows the step before, from step 2 on, and the peer's last thread there; of step 1 no page is read.
    ///
    /// Refusals, the first that stands: `Reopen` where an earlier call on this value answered `DiskFault`; `NoStep` where 1 <= step <=
    /// top <= the last step doesn't hold, with the last step. `BadPage` tells the first page met that isn't of its kind, step pages
    /// before those of the archive; it never comes where a history is served. It writes nothing.
    pub fn prove_low(&mut self, step: u64, peer: Name, top: u64) -> Result<Bytes, Refusal>
        ensures { AsksFor H.dig D.view (Low step peer (Some top)) self.old self.new result }
    {
        self.ask(&Question::Low {
            step,
            peer,
            top: Some(top),
        })
    }

    /// The high map file for a step of the peer, from 1 to 2^40 - 1, under that top, which is a step of this service: it shows the
    /// service's first thread of that step or of a later one.
    ///
    /// Refusals, the first that stands: `Reopen` where an earlier call on this value answered `DiskFault`; `NoStep` where the top isn't
    /// within 1 to the last step, with the last step. `BadPage` comes as in `prove_low`. It writes nothing.
    pub fn prove_high(&mut self, step: u64, peer: Name, top: u64) -> Result<Bytes, Refusal>
        requires { (0 < step) × (step ≤ LAST_STEP) }
        ensures { AsksFor H.dig D.view (High step peer (Some top)) self.old self.new result }
    {
        self.ask(&Question::High {
            step,
            peer,
            top: Some(top),
        })
    }

    /// The file of the whole history. Each step page is read once, from the last one down by the links of level 0; then, from the first
    /// step on, its event pages or its new tree pages, each once. No step and no event is hashed; of a tree page only the empty tree's
    /// text is, by which its leaves are judged.
    ///
    /// Refusals, the first that stands: `Reopen` where an earlier call on this value answered `DiskFault`; `TooLong` where the file would
    /// have more than 67,108,864 bytes or a step more than 65,535 new nodes, with the length that the file would have, at most 2^64 - 1.
    /// `BadPage` tells the first page met that isn't of its kind, one of 1 to 3 by its own number; or the one read last where event pages
    /// don't spell a step's events; or the page of a step, which is then read once more, that counts events and has no event page, that
    /// received a thread of step 0, or whose archive names an older page that no archive before it has. It never comes where a history is
    /// served. It writes nothing.
    pub fn export(&mut self) -> Result<Bytes, Refusal>
        ensures { AsksFor H.dig D.view Export self.old self.new result }
    {
        self.ask(&Question::Export)
    }

    /// The message that tells the last step to a service that knows the step `since`, which may be 0.
    ///
    /// Refusals, the first that stands: `Reopen` where an earlier call on this value answered `DiskFault`; `NoStep` where there is no
    /// step, or `since` is above the last one, with the last step. `BadPage` tells the first page met on the way that isn't the page of
    /// its step; it never comes where a history is served. It writes nothing.
    pub fn thread_out(&mut self, since: u64) -> Result<Message, Refusal>
        // Asking for the message is asking that question, but for want of memory for its bytes.
        ensures asks { Asks H.dig D.view (Ask (ThreadOut since)) (λ m. OfBytes (message_bytes m))
            (thread_refusal_of (has_failed self.old) (steps_of self.old) since)
            (λ ps. told_answer H.dig ps (name_of self.old) (head_of self.old) (has_failed self.old) since) self.old self.new result }
        // The message is the history's own, of its last step, linked down to the earlier one.
        ensures made { IfOk result (λ m. (h : History) → Serves H.dig D.view self.old h → IsMessageOf H.dig h since m) }
        // Over any pages, told or not, its path has at most twice as many links as the last step has binary digits.
        ensures bound { IfOk result (λ m. (digits : ℕ) → steps_of self.old < 2 ^ digits → length m.link.links ≤ 2 * digits) }
    {
        if let Some(refusal) = thread_refusal(
            self.is_broken,
            self.recorded.kept.root.head.step,
            since,
        ) {
            return Err(refusal);
        }
        match tell_message::<Store<D>, H>(
            self.alloc,
            &mut self.recorded.kept.store,
            &self.recorded.kept.root.name,
            &self.recorded.kept.root.head,
            since,
        ) {
            Ok(message) => Ok(message),
            Err(refusal) => {
                self.is_broken = refusal.is_disk_fault();
                Err(refusal)
            }
        }
    }
}
