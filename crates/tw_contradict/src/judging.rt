// Judging one of two files that may contradict each other: whether it is accepted under its lines, and what it says then.

ghost use Rattle.std.specs.Prelude.{◌≡◌, ℕ, List, IfOk};
ghost use Rattle.tw_base.specs.declared.history.thread.Thread.{Thread as Anchor};
ghost use Rattle.tw_base.specs.kinds.Lists.{Each};
ghost use Rattle.tw_chain.specs.Finding.{found_in, reason_with};
ghost use Rattle.tw_chain.specs.Passing.{Passes};
ghost use Rattle.tw_contradict.specs.ArchiveFiles.{IsFileOf, archive_checks, order_checks};
ghost use Rattle.tw_contradict.specs.Facts.{asked_entry, before_received as before_received_of, facts_of as facts_under, lack_of, nearest_of};
ghost use Rattle.tw_contradict.specs.Fitting.{IsSmall};
ghost use Rattle.tw_contradict.specs.Judged.{IsContradictJudged};
ghost use Rattle.tw_tmap.specs.Checking.{step_if_of as step_if};
ghost use Rattle.tw_skipproof.specs.Openings.{IsOpeningAt, opening_auth};
ghost use Rattle.tw_treeproof.specs.Answers.{Checks};

use crate::archive_proof::ArchiveProof;
use crate::archive_reading::read_file;
use crate::facts::{Facts, Lack};
use std::alloc::Global;
use tw_base::limits::LAST_STEP;
use tw_base::{
    Ask, Digest, Entry, Hasher, Name, NoMemory, Reason, Thread, entry_of_peer, find_anchor,
};
use tw_chain::{under_anchor, with_answer, with_order};
use tw_skipproof::check_opening;
use tw_treeproof::{Shown, check};

/// What is told of one of two files that may contradict each other.
#[derive(Clone, Copy, Debug, Drop)]
pub(crate) enum Judged {
    /// It is accepted, and says this.
    Accepted(Facts),
    /// It isn't, for this reason.
    Rejected(Reason),
}

/// What is found with the check of the order of a received thread's steps.
fn with_own_order(found: Option<Reason>, ask: &Ask, step: u64) -> Option<Reason>
    ensures { (dig : List ℕ → List ℕ) (anchors : List Anchor) → result ≡ reason_with dig anchors found (order_checks ask.now step) }
{
    match ask {
        Ask::Present(entry) => with_order(found, entry.archived, step),
        Ask::Absent(_) | Ask::Below(_) | Ask::Above(_) => found,
    }
}

/// The lowest reason against what a file shows, which is a proof or a map file.
fn found_of<H: Hasher>(proof: &ArchiveProof, anchors: &[Thread]) -> Option<Reason>
    requires { IsSmall proof.now }
    ensures { result ≡ found_in H.dig anchors.now (archive_checks proof.now) }
{
    let found = under_anchor::<H>(&proof.at, anchors);
    let found = with_own_order(found, &proof.ask, proof.at.step);
    with_answer::<H>(
        found,
        0,
        &proof.at.opening.archive_root,
        &proof.ask,
        &proof.shown,
    )
}

/// The entry that the tree proof shows next to the asked key, where it is accepted.
fn nearest<H: Hasher>(proof: &ArchiveProof) -> Option<Entry>
    ensures { Checks H.dig proof.now.at.opening.archive_root proof.now.ask proof.now.shown → result ≡ nearest_of proof.now }
{
    match check::<H>(&proof.at.opening.archive_root, &proof.ask, &proof.shown) {
        Shown::Nearest(entry) => entry,
        Shown::Present | Shown::Absent | Shown::Wrong => None,
    }
}

/// The step of an entry of the service, and 0 of another one's or of none. (tw_tmap/src/showing.rt asks so of map files.)
fn step_if_of(service: &Name, entry: &Option<Entry>) -> u64
    ensures { result ≡ step_if service.now entry.now }
{
    match entry {
        Some(entry) if entry.thread.from == *service => entry.thread.step,
        _ => 0,
    }
}

/// The step before the one that received the entry; without an entry this step.
fn before_received(step: u64, entry: &Option<Entry>) -> u64
    ensures { result ≡ before_received_of step entry.now }
{
    match entry {
        Some(entry) => entry.archived.saturating_sub(1),
        None => step,
    }
}

/// The entry that the archive has by the file.
fn entry_by(ask: &Ask, nearest: &Option<Entry>) -> Option<Entry>
    ensures { result ≡ asked_entry ask.now nearest.now }
{
    match ask {
        Ask::Present(entry) => Some(*entry),
        Ask::Absent(_) => None,
        Ask::Below(key) | Ask::Above(key) => entry_of_peer(*nearest, &key.from),
    }
}

/// The threads that were not received by the file.
fn lack_by(step: u64, ask: &Ask, nearest: &Option<Entry>) -> Option<Lack>
    ensures { result ≡ lack_of step ask.now nearest.now }
{
    match ask {
        Ask::Present(_) => None,
        Ask::Absent(key) => Some(Lack {
            peer: key.from,
            above: key.step.saturating_sub(1),
            last: key.step,
            upto: step,
        }),
        Ask::Below(key) => Some(Lack {
            peer: key.from,
            above: step_if_of(&key.from, nearest),
            last: key.step.saturating_sub(1),
            upto: step,
        }),
        Ask::Above(key) => Some(Lack {
            peer: key.from,
            above: key.step,
            last: LAST_STEP,
            upto: before_received(step, &entry_of_peer(*nearest, &key.from)),
        }),
    }
}

/// The authenticator of the step that the file shows, where its opening is one of the step.
fn shown_auth<H: Hasher>(proof: &ArchiveProof) -> Digest
    requires { IsSmall proof.now }
    ensures { IsOpeningAt proof.now.at.step proof.now.at.opening → result ≡ opening_auth H.dig proof.now.at.step proof.now.at.opening }
{
    match check_opening::<H>(&proof.at.opening, proof.at.step) {
        Some(auth) => auth,
        None => Digest::default(),
    }
}

/// What the file says under this line, where it is accepted.
fn facts_of<H: Hasher>(proof: &ArchiveProof, line: Thread) -> Facts
    requires { IsSmall proof.now }
    ensures { IsOpeningAt proof.now.at.step proof.now.at.opening → Checks H.dig proof.now.at.opening.archive_root proof.now.ask proof.now.shown →
        result ≡ facts_under H.dig line proof.now }
{
    let nearest = nearest::<H>(proof);
    Facts {
        line,
        service: proof.at.service,
        step: proof.at.step,
        auth: shown_auth::<H>(proof),
        before: proof.at.opening.prev,
        event_root: proof.at.opening.event_root,
        count: proof.at.opening.count,
        time: proof.at.opening.time,
        entry: entry_by(&proof.ask, &nearest),
        lack: lack_by(proof.at.step, &proof.ask, &nearest),
    }
}

/// What is told of what a file shows.
fn judge_proof<H: Hasher>(proof: &ArchiveProof, anchors: &[Thread]) -> Judged
    requires { IsSmall proof.now }
    ensures { (bytes : List ℕ) → IsFileOf bytes proof.now → IsContradictJudged H.dig anchors.now bytes result }
{
    match found_of::<H>(proof, anchors) {
        Some(reason) => Judged::Rejected(reason),
        None => judge_passing::<H>(proof, anchors),
    }
}

/// What is told of what a file shows whose checks pass.
fn judge_passing<H: Hasher>(proof: &ArchiveProof, anchors: &[Thread]) -> Judged
    requires small { IsSmall proof.now }
    requires passes { Each (Passes H.dig anchors.now) (archive_checks proof.now) }
    ensures { (bytes : List ℕ) → IsFileOf bytes proof.now → IsContradictJudged H.dig anchors.now bytes result }
{
    match find_anchor(anchors, &proof.at.service, proof.at.top) {
        Some(line) => Judged::Accepted(facts_of::<H>(proof, line)),
        // Never: that the line is held was among the checks.
        None => Judged::Rejected(Reason::Malformed { place: 0 }),
    }
}

/// What is told of a file.
pub(crate) fn judge_file<H: Hasher>(
    alloc: Global,
    bytes: &[u8],
    anchors: &[Thread],
) -> Result<Judged, NoMemory>
    ensures { IfOk result (IsContradictJudged H.dig anchors.now bytes.now) }
{
    match read_file(alloc, bytes)? {
        Some(proof) => {
            let judged = judge_proof::<H>(&proof, anchors);
            drop(proof);
            Ok(judged)
        }
        None => Ok(Judged::Rejected(Reason::Malformed { place: 0 })),
    }
}
