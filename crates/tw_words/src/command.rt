// The commands of the program as values, one variant for each form.

use tw_base::{Name, Sequence, Thread};
use tw_text::{ClaimedTime, FilePath};

/// A command: one variant for each form of the command line, with the values of the form's words in
/// their order. Its fixed words are left out, and the folder, whose store is opened by itself. A
/// file is the path as it was given, of at least one byte. Where `top` is None the last step is meant.
#[derive(Drop)]
pub enum Command {
    /// `init DIR NAME`: makes the store of a new service.
    Init {
        name: Name,
    },
    /// `append DIR FILE [TIME]`: one more step, with the events of the file, at a claimed time.
    Append {
        file: FilePath,
        time: Option<ClaimedTime>,
    },
    /// `thread DIR SINCE`: a message with the last step, linked down to an earlier one.
    Thread {
        since: u64,
    },
    /// `receive DIR FILE [TIME]`: archives the thread of a message in a step, at a claimed time.
    Receive {
        file: FilePath,
        time: Option<ClaimedTime>,
    },
    /// `prove DIR event STEP INDEX [TOP]`: proves that an event stands in a step.
    ProveEvent {
        step: u64,
        index: u64,
        top: Option<u64>,
    },
    /// `prove DIR thread STEP PEER K [TOP]`: proves that a peer's step is archived by a step.
    ProveThread {
        step: u64,
        peer: Name,
        k: u64,
        top: Option<u64>,
    },
    /// `prove DIR absent STEP PEER K [TOP]`: proves that a peer's step isn't archived by a step.
    ProveAbsent {
        step: u64,
        peer: Name,
        k: u64,
        top: Option<u64>,
    },
    /// `prove DIR link STEP [TOP]`: proves the authenticator of a step under a top.
    ProveLink {
        step: u64,
        top: Option<u64>,
    },
    /// `map DIR low STEP PEER [TOP]`: the greatest step of a peer that is before a step.
    MapLow {
        step: u64,
        peer: Name,
        top: Option<u64>,
    },
    /// `map DIR high POS PEER [TOP]`: the least step that is after a step of a peer.
    MapHigh {
        pos: u64,
        peer: Name,
        top: Option<u64>,
    },
    /// `export DIR`: writes the history.
    Export,
    /// `show HISTORY STEP INDEX`: proves an event from a history.
    Show {
        history: FilePath,
        step: u64,
        index: u64,
    },
    /// `join FILE FILE ..`: joins proofs to one.
    Join {
        files: Sequence<FilePath>,
    },
    /// `verify PROOF ANCHORS`: judges a proof under the anchors of a file.
    VerifyFile {
        proof: FilePath,
        anchors: FilePath,
    },
    /// `verify PROOF NAME POS HEX`: judges a proof under this one anchor.
    VerifyOne {
        proof: FilePath,
        anchor: Thread,
    },
    /// `strict PROOF ANCHORS`: judges a proof, and allows no thread that no anchor binds.
    Strict {
        proof: FilePath,
        anchors: FilePath,
    },
    /// `checkmap LOW HIGH ANCHORS`: judges two map files.
    CheckMap {
        low: FilePath,
        high: FilePath,
        anchors: FilePath,
    },
    /// `audit PROOF ANCHORS HISTORY ..`: compares a proof with histories.
    Audit {
        proof: FilePath,
        anchors: FilePath,
        histories: Sequence<FilePath>,
    },
    /// `atlas NAME POS FILE ..`: the earliest step of every service to which a step leads, by the receipts of files.
    Atlas {
        name: Name,
        pos: u64,
        files: Sequence<FilePath>,
    },
    /// `accuse PROOF PROOF [LINK]`: makes the evidence of a fork.
    Accuse {
        first: FilePath,
        second: FilePath,
        link: Option<FilePath>,
    },
    /// `checkfork FILE ANCHORS`: judges the evidence of a fork.
    CheckFork {
        file: FilePath,
        anchors: FilePath,
    },
    /// `adopt HISTORY ANCHORS PROOF ..`: takes over a lost service's history, as far as proofs of its peers show it.
    Adopt {
        history: FilePath,
        anchors: FilePath,
        proof: FilePath,
        more: Sequence<FilePath>,
    },
    /// `watch DIR NAME`: makes the store of a follower of this service.
    Watch {
        name: Name,
    },
    /// `offer DIR FILE`: moves a follower's head by a message of the service.
    Offer {
        file: FilePath,
    },
    /// `heads DIR`: lists the heads that a follower keeps.
    Heads,
    /// `replay FILE`: runs a script.
    Replay {
        file: FilePath,
    },
    /// `generate NUMBER STEPS`: runs a generated schedule.
    Generate {
        number: u64,
        steps: u64,
    },
}
