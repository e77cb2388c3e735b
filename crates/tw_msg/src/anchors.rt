// Reading the anchors file of whoever judges a proof; its lines are written in `tw_text`.

ghost use Rattle.std.specs.Prelude.{◌≡◌, ◌≢◌, ◌≤◌, ◌↔◌, length, map, IsTrue, IsSome, IfSome, IfOk, IfErr, ℕ};
ghost use Rattle.std.specs.List.{AllPairs, list_any};
ghost use Rattle.tw_msg.specs.AnchorsFile.{AllGood, anchor_on, is_anchor, is_of, lines, line_may_follow};
ghost use Rattle.tw_text.specs.Words.{is_number_within, word_number};
ghost use Rattle.tw_msg.specs.AnchorFaults.{TellsBadLine};
ghost use Rattle.tw_msg.specs.declared.anchors.AnchorFault.TheVariants.{NoMemory as WantedMemory};

use crate::split::split_at_first;
use std::alloc::Global;
use tw_base::limits::{LAST_STEP, MOST_ANCHORS};
use tw_base::{Name, NoMemory, Thread, Threads};
use tw_text::{read_digest, read_number};

/// Why a file is no anchors file.
#[derive(Clone, Copy, PartialEq, Eq, Debug, Drop)]
pub enum AnchorFault {
    /// This line, counted from 1, is the first that is no anchor, has the service of an earlier
    /// line, or is the 65th.
    BadLine { line: u64 },
    /// There was no memory for the anchors.
    NoMemory,
}

impl From<NoMemory> for AnchorFault {
    ghost from_gives = { λ _ fault. fault ≡ WantedMemory };

    fn from(_refused: NoMemory) -> Self {
        AnchorFault::NoMemory
    }
}

/// The anchors of a file: lines `NAME STEP HEX` with one blank between, at most 64, one a service;
/// STEP within 1 to 2^40 - 1 in decimal digits, HEX of 64 digits of either case. Each line is ended
/// by one line feed, which the last may lack. An empty file has no anchors.
pub fn read_anchors(alloc: Global, bytes: &[u8]) -> Result<Threads, AnchorFault>
    // A file of anchors is read as the threads of its lines.
    ensures anchors { IfOk result (λ anchors. anchors ≡ map anchor_on (lines bytes.now)) }
    // It is read only where all its lines are good.
    ensures good { IfOk result (λ _. AllGood (lines bytes.now)) }
    // There are at most 64 anchors.
    ensures few { IfOk result (λ anchors. length anchors ≤ MOST_ANCHORS) }
    // The anchors are of different services.
    ensures services { IfOk result (AllPairs (λ a b. a.from ≢ b.from)) }
    // Of a file with a bad line the number of its first bad line is told.
    ensures bad { IfErr result (TellsBadLine (lines bytes.now)) }
{
    let mut anchors = Threads::new(alloc);
    let mut rest = bytes;
    while !rest.is_empty() {
        let (line, after) = split_at_first(rest, b'\n');
        let Some(anchor) = next_anchor(anchors.as_slice(), line) else {
            return Err(AnchorFault::BadLine {
                line: anchors.len() as u64 + 1,
            });
        };
        anchors.push(anchor)?;
        rest = after;
    }
    Ok(anchors)
}

/// The anchor of a line that may follow the lines of these.
fn next_anchor(anchors: &[Thread], line: &[u8]) -> Option<Thread>
    ensures some { IsSome result ↔ IsTrue (line_may_follow anchors.now line.now) }
    ensures value { IfSome result (λ anchor. anchor ≡ anchor_on line.now) }
{
    if anchors.len() as u64 >= MOST_ANCHORS {
        return None;
    }
    let anchor = read_anchor(line)?;
    if has_service(anchors, &anchor.from) {
        None
    } else {
        Some(anchor)
    }
}

/// The anchor of a line `NAME STEP HEX`.
fn read_anchor(line: &[u8]) -> Option<Thread>
    ensures some { IsSome result ↔ IsTrue (is_anchor line.now) }
    ensures value { IfSome result (λ anchor. anchor ≡ anchor_on line.now) }
{
    let (name, rest) = split_at_first(line, b' ');
    let (step, digest) = split_at_first(rest, b' ');
    let from = Name::read(name)?;
    let step = read_step(step)?;
    let auth = read_digest(digest)?;
    Some(Thread { from, step, auth })
}

/// The number of a step from 1 on.
fn read_step(word: &[u8]) -> Option<u64>
    ensures some { IsSome result ↔ IsTrue (is_number_within 1 LAST_STEP word.now) }
    ensures value { IfSome result (λ step. step ≡ word_number word.now) }
{
    let step = read_number(word)?;
    if (1..=LAST_STEP).contains(&step) {
        Some(step)
    } else {
        None
    }
}

/// Whether one of the anchors is of the service.
fn has_service(anchors: &[Thread], service: &Name) -> bool
    ensures { result ≡ list_any (is_of service.now) anchors.now }
{
    anchors.iter().any(|anchor| anchor.from == *service)
}
