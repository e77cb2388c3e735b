// Judging a message by the entries that a service's archive has, and finding these in the archive's pages; services call `near.rt`.

ghost use Rattle.std.specs.Prelude.{◌≡◌, IfOk, IfSome};
ghost use Rattle.tw_base.specs.history.Entries.{key_of, thread_key};
ghost use Rattle.tw_base.specs.history.Limits.{IsEntryInRange};
ghost use Rattle.tw_disk.specs.Answers.{ReadsPages};
ghost use Rattle.tw_disk.specs.WalkFaults.{walk_faults};
ghost use Rattle.tw_msg.specs.Messages.{IsLinked};
ghost use Rattle.tw_archive.specs.Judging.{IsJudgementFor, found_judgement, found_known, found_last, judge_known as judge_known_as, judge_new as judge_new_as, judgement, kept_auth, last_entry_step, leads_from_last};

use crate::judgement::Judgement;
use tw_base::limits::LAST_STEP;
use tw_base::{Digest, Entry, Hasher, Key, Name, Root, Thread, entry_of_peer, genesis};
use tw_disk::{Pages, WalkFault};
use tw_msg::Message;
use tw_rbtree::{before, get};
use tw_skipproof::climb;

/// The step of the last entry, or 0.
fn last_step(last: &Option<Entry>) -> u64
    ensures { result ≡ last_entry_step last.now }
{
    match last {
        Some(entry) => entry.thread.step,
        None => 0,
    }
}

/// The authenticator of that step.
fn kept<H: Hasher>(peer: &Name, last: &Option<Entry>) -> Digest
    ensures { result ≡ kept_auth H.dig peer.now last.now }
{
    match last {
        Some(entry) => entry.thread.auth,
        None => genesis::<H>(peer),
    }
}

/// Whether the message's link climbs from the last entry to the message's thread.
fn climbs_from_last<H: Hasher>(last: &Option<Entry>, message: &Message) -> bool
    requires { IsLinked message.now }
    ensures { result ≡ leads_from_last H.dig last.now message.now }
{
    if message.since != last_step(last) {
        return false;
    }
    let from = kept::<H>(&message.thread.from, last);
    match climb::<H>(&message.link, message.thread.step, message.since, &from) {
        Some(reached) => reached == message.thread.auth,
        None => false,
    }
}

/// Judges a message whose key the archive has, with this entry.
fn judge_known(known: &Entry, message: &Message) -> Judgement
    ensures { result ≡ judge_known_as known.now message.now }
{
    let offered = message.thread.auth;
    if known.thread.auth == offered {
        return Judgement::Known {
            archived: known.archived,
        };
    }
    Judgement::Forked {
        step: message.thread.step,
        kept: known.thread.auth,
        offered,
    }
}

/// Judges any other message.
fn judge_new<H: Hasher>(last: &Option<Entry>, message: &Message) -> Judgement
    requires { IsLinked message.now }
    ensures { result ≡ judge_new_as H.dig last.now message.now }
{
    let step = last_step(last);
    if message.thread.step < step {
        return Judgement::Stale { last: step };
    }
    if climbs_from_last::<H>(last, message) {
        return Judgement::Accept;
    }
    Judgement::BadLink {
        last: step,
        kept: kept::<H>(&message.thread.from, last),
    }
}

/// What becomes of a message: `known` is the archive's entry of the message's service and step, if there is one, and `last` the
/// archive's entry of that service with the greatest step. The first line that fits decides:
///
/// - known, with the same authenticator: `Known`;
/// - known, with another one: `Forked`;
/// - the step is below the last one: `Stale`;
/// - the link doesn't lead down to the last step (0 where there is none), or doesn't climb from the authenticator kept of it (the
///   genesis digest where there is none): `BadLink`;
/// - otherwise `Accept`.
///
/// That the message is of another service than the one whose archive this is, is looked at by the caller. Takes no memory.
#[tactic(auto, unfolding(crate::specs::Judging::judgement))]
pub fn judge<H: Hasher>(known: Option<Entry>, last: Option<Entry>, message: &Message) -> Judgement
    requires { IsLinked message.now }
    // A message is judged by the first line that fits: by the known entry's authenticator where there is one, and else by the last
    // entry's step and then by the link.
    ensures { result ≡ judgement H.dig known last message.now }
{
    match known {
        Some(known) => judge_known(&known, message),
        None => judge_new::<H>(&last, message),
    }
}

/// The entry of the peer with the greatest step, or none where the tree under the root has no entry of the peer. Reads the pages on
/// one way down to a leaf page, and takes no memory.
#[tactic(auto, unfolding(crate::specs::Judging::found_last))]
pub fn last_of<P: Pages, H: Hasher>(
    pages: &mut P,
    root: &Root,
    peer: &Name,
) -> Result<Option<Entry>, WalkFault>
    // It changes nothing of what the pages tell, and `DiskFault` comes only where the count of faults rose. Over told pages the
    // answer is what is found in them, whatever they keep, a disk fault excepted: the entry before the key of the peer with step
    // 2^40, if it is of the peer, or `BadPage` with the first page met that doesn't fit the way.
    ensures reads { ReadsPages walk_faults P.view P.same pages.old pages.new (λ e. e) result (λ ps. found_last H.dig ps root.now peer.now) }
    // Over any pages, told or not, an entry that is answered is the peer's, and its steps are within 1 to 2^40 - 1.
    ensures entry { IfOk result (λ o. IfSome o (λ e. (e.thread.from ≡ peer.now) × IsEntryInRange e)) }
{
    let end = Key {
        from: *peer,
        step: LAST_STEP + 1,
    };
    let near = before::<P, H>(pages, root, &end)?;
    Ok(entry_of_peer(near, peer))
}

/// The entry of the thread's key, which isn't looked for where the step is above the last one's.
#[tactic(auto, unfolding(crate::specs::Judging::found_known))]
fn known_of<P: Pages, H: Hasher>(
    pages: &mut P,
    root: &Root,
    last: &Option<Entry>,
    thread: &Thread,
) -> Result<Option<Entry>, WalkFault>
    ensures reads { ReadsPages walk_faults P.view P.same pages.old pages.new (λ e. e) result (λ ps. found_known H.dig ps root.now last.now thread.now) }
    ensures entry { IfOk result (λ o. IfSome o (λ e. (key_of e ≡ thread_key thread.now) × IsEntryInRange e)) }
{
    if last_step(last) < thread.step {
        return Ok(None);
    }
    let key = Key {
        from: thread.from,
        step: thread.step,
    };
    get::<P, H>(pages, root, &key)
}

/// Judges a message by the archive under the root. Reads the pages on the way to the service's last entry, and, where the
/// message's step isn't above that one's, those on the way to the message's key; takes no memory.
///
/// That the message is of another service than the one whose archive this is, is looked at by the caller.
#[tactic(auto, unfolding(crate::specs::Judging::found_judgement))]
pub fn judge_in<P: Pages, H: Hasher>(
    pages: &mut P,
    root: &Root,
    message: &Message,
) -> Result<Judgement, WalkFault>
    requires { IsLinked message.now }
    // It changes nothing of what the pages tell, and `DiskFault` comes only where the count of faults rose. Over told pages the
    // answer is what is found in them, whatever they keep, a disk fault excepted: the judgement by the service's last entry and the
    // entry of the message's key, or `BadPage` with the first page met that doesn't fit its way.
    ensures reads { ReadsPages walk_faults P.view P.same pages.old pages.new (λ j. j) result (λ ps. found_judgement H.dig ps root.now message.now) }
    // Over any pages, told or not, the steps that are told are within their limits, the two authenticators of a fork differ, and of step 0
    // the authenticator of the name is kept.
    ensures told { IfOk result (IsJudgementFor H.dig message.now) }
{
    let last = last_of::<P, H>(pages, root, &message.thread.from)?;
    let known = known_of::<P, H>(pages, root, &last, &message.thread)?;
    Ok(judge::<H>(known, last, message))
}
