// How a run ends: `tell`, which writes the text and answers the status, and `run`, which does what the words ask and tells of it.

ghost use Rattle.std.specs.Prelude.{◌≡◌, ◌⊎◌, ℕ, List, [], ◌∷◌, ◌++◌, codes, map, string_bytes, Some, IfSome, MatchOption};
ghost use Rattle.sha2.specs.Sha256.{sha256};
ghost use Rattle.tw_base.specs.declared.history.thread.Thread.{Thread as Anchor};
ghost use Rattle.tw_base.specs.history.History.{History};
ghost use Rattle.tw_base.specs.kinds.Lists.{Each};
ghost use Rattle.tw_base.specs.kinds.Faults.{Rose};
ghost use Rattle.tw_diskcmd.specs.Disks.{IsLeft};
ghost use Rattle.tw_outside.specs.Asked.{asked};
ghost use Rattle.tw_outside.specs.Files.{file_bytes};
ghost use Rattle.tw_outside.specs.TakenBytes.{Appends, AppendsPart};
ghost use Rattle.tw_plain.specs.Maps.{IsPlainMap};
ghost use Rattle.tw_plain.specs.Plain.{IsPlain, file_lines, line_of_words};
ghost use Rattle.tw_words.specs.CommandLine.{command_of};
ghost use Rattle.tw_text.specs.Lines.{anchor_text, no_memory_text};
ghost use Rattle.tw_app.specs.declared.outcome.Outcome.TheVariants.{Undone};
ghost use Rattle.tw_text.specs.declared.fault.CommandFault.TheVariants.{NoMemory as NoMemoryFault};
ghost use Rattle.tw_app.specs.Adoptions.{AsksAdoption, IsAdoptedRun, IsAdoptingRun, IsAdoptionOf};
ghost use Rattle.tw_app.specs.Around.{around, outside, span};
ghost use Rattle.tw_app.specs.Commands.{command_files};
ghost use Rattle.tw_app.specs.MapRuns.{AsksMap, IsMapRun};
ghost use Rattle.tw_app.specs.PlainAdoptions.{IsPlainAdoption};
ghost use Rattle.tw_app.specs.Outcomes.{TakesMemory, status_of as status_of_outcome};
ghost use Rattle.tw_app.specs.Audits.{AsksAudit, IsAuditOf, IsClashRun, IsFoundRun, IsStandingRun};
ghost use Rattle.tw_app.specs.Running.{EndsAllowed, EndsWith, work as work_of};
ghost use Rattle.tw_app.specs.Statuses.{AreWordsOf, IsAcceptedRun, IsIdle, IsStatus, IsVerify};

use crate::following::{Followed, work};
use crate::outcome::Outcome;
use crate::printing::print;
use std::alloc::Global;
use tw_adopt::{first_steps_laws, same_laws};
use tw_base::{NoMemory, Sha, Thread};
use tw_chain::Verdict;
use tw_disk::Disk;
use tw_filecmd::Joined;
use tw_msg::write_receipt;
use tw_outside::{Inputs, Sink, write_all};
use tw_plain::{plain_laws, plain_map_laws};
use tw_reachcmd::{Accused, Answer, Taken, answer_status};
use tw_text::{CommandFault, anchor_line, fault_disk, fault_input, fault_status, no_memory};

/// Status 4: the sink failed.
const OUTPUT_FAULT: u8 = 4;

/// Writes the text whole and answers the status, or answers 4 where the sink failed.
fn end<S: Sink>(out: &mut S, status: u8, text: &[u8]) -> u8
    ensures { ((result ≡ status) × Appends (S.taken out.old) (S.taken out.new) text.now)
        ⊎ ((result ≡ 4) × AppendsPart (S.taken out.old) (S.taken out.new) text.now × Rose (S.faults out.old) (S.faults out.new)) }
{
    match write_all(out, text) {
        Ok(()) => status,
        Err(_) => OUTPUT_FAULT,
    }
}

/// Writes the anchor line of the thread whole and answers the status, or answers 4 where the sink
/// failed. It takes no memory.
fn end_with_line<S: Sink>(out: &mut S, status: u8, thread: &Thread) -> u8
    ensures { ((result ≡ status) × Appends (S.taken out.old) (S.taken out.new) (anchor_text thread.now))
        ⊎ ((result ≡ 4) × AppendsPart (S.taken out.old) (S.taken out.new) (anchor_text thread.now) × Rose (S.faults out.old) (S.faults out.new)) }
{
    let line = anchor_line(thread);
    end(out, status, &line.bytes[..line.count as usize])
}

/// Ends a run for whose words there was no memory, and answers its status: 6, or 4 where the sink failed. It takes no memory.
pub fn end_without_memory<S: Sink>(out: &mut S) -> u8
    // `no memory` was written whole, and the status is 6; or the sink's count of faults rose, a part of the text was written, and
    // the status is 4.
    ensures { ((result ≡ 6) × Appends (S.taken out.old) (S.taken out.new) no_memory_text)
        ⊎ ((result ≡ 4) × AppendsPart (S.taken out.old) (S.taken out.new) no_memory_text × Rose (S.faults out.old) (S.faults out.new)) }
{
    end(out, fault_status(&CommandFault::NoMemory), no_memory())
}

/// The status of an outcome whose text could be written. (For the library, tw_judge tells that of a verdict.)
fn status_of(outcome: &Outcome) -> u8
    ensures { result ≡ status_of_outcome outcome.now }
{
    match outcome {
        Outcome::Judged(Verdict::Yes(_))
        | Outcome::Written(_)
        | Outcome::Joined(Joined::Whole(_))
        | Outcome::Made(_)
        | Outcome::Received(_) => 0,
        Outcome::Judged(Verdict::No(_)) => 1,
        Outcome::Joined(Joined::Unfit { .. }) => 1,
        Outcome::Answered(answer) => answer_status(answer),
        Outcome::BadWords { .. } => 2,
        Outcome::Undone(fault) => fault_status(fault),
    }
}

/// The second half of a run: writes the text of the outcome and answers its status; or those of want of memory, where there is
/// no memory for its text. What became of the disk, a step that was made or a fault, takes none. It has no disk: `work` is
/// done with that.
pub fn tell<S: Sink>(alloc: Global, outcome: &Outcome, out: &mut S) -> u8
    // The run ends with the outcome's text and status, or, where that text takes memory, with those of want of memory.
    ensures ends { EndsWith (span (S.taken out.old) (S.taken out.new)) (span (S.faults out.old) (S.faults out.new)) result outcome.now
        ⊎ (TakesMemory outcome.now × EndsWith (span (S.taken out.old) (S.taken out.new)) (span (S.faults out.old) (S.faults out.new)) result (Undone NoMemoryFault)) }
{
    let status = status_of(outcome);
    match outcome {
        Outcome::Undone(CommandFault::InputFault) => end(out, status, fault_input()),
        Outcome::Undone(CommandFault::DiskFault) => end(out, status, fault_disk()),
        Outcome::Undone(CommandFault::NoMemory) => end(out, status, no_memory()),
        Outcome::Made(thread) => end_with_line(out, status, thread),
        Outcome::Received(receipt) => end(out, status, &write_receipt(receipt)),
        Outcome::Written(bytes) => end(out, status, bytes.as_slice()),
        Outcome::Joined(Joined::Whole(proof)) => end(out, status, proof.as_slice()),
        Outcome::Answered(Answer::Accused(Accused::Whole(evidence))) => {
            end(out, status, evidence.as_slice())
        }
        Outcome::Answered(Answer::Taken(Taken::File(bytes))) => end(out, status, bytes.as_slice()),
        _ => match print(alloc, outcome) {
            Ok(text) => end(out, status, text.as_slice()),
            Err(NoMemory) => end(out, fault_status(&CommandFault::NoMemory), no_memory()),
        },
    }
}

/// How a run ended: its status, and the disk that was handed in.
#[derive(Drop)]
pub struct Ran<D> {
    pub status: u8,
    pub disk: D,
}

/// Does what the words ask, and then tells of it: `run`, by its first clause alone.
fn run_to_the_end<D: Disk, I: Inputs, S: Sink>(
    alloc: Global,
    words: &[String],
    disk: D,
    inputs: &mut I,
    out: &mut S,
) -> Ran<D>
    requires { IfSome (command_of (map string_bytes words.now)) (λ command. Each (I.may_ask inputs.old) (command_files command)) }
    ensures { EndsAllowed D.view (around (map string_bytes words.now)
        (outside (asked (I.told inputs.old) (I.faults inputs.old) (I.faults inputs.new)) disk result.disk)
        (span (S.taken out.old) (S.taken out.new)) (span (S.faults out.old) (S.faults out.new))) result.status }
{
    let Followed { outcome, disk } = work(alloc, words, disk, inputs);
    let status = tell(alloc, &outcome, out);
    Ran { status, disk }
}

/// Does what the words ask for, which don't hold the program's own name, and answers the status with the disk; whatever
/// it has to say is written to the sink. Arguments, files, the store and the standard streams are the program's.
///
/// - 0: the command's output was written whole: the report of an accepted proof or of one that stands
///   in histories, the proof, the evidence or the message that was made, the receipt of a message that was
///   received, the fork that evidence shows, the bounds that map files show, an atlas, the file of the history
///   that is taken over, the text of what was played, or the anchor line of the service or step that was made.
/// - 1: the proof, the evidence or a map file isn't accepted, or the parts or the map files don't fit;
///   `rejected`, the lowest reason that stands and its fields, or `Gap` and the number of the part, of map
///   files that of the second; of proofs by which a history is to be taken over the first fault; or, of an audit,
///   `unheld` and the thread that the histories don't have.
/// - 2: the words have no form; `usage` and the number of the first word at which none goes on.
/// - 3: the inputs failed; `fault input`.
/// - 4: the sink failed; a part of the text was written. A step that was made stands.
/// - 5: the disk failed; `fault disk`. Of `append` and `receive` it may hold the step or not, of `offer` the
///   head, of `init` the service and of `watch` the follower.
/// - 6: there was no memory; `no memory`. No step was made.
/// - 7: what was asked for isn't there or may not be made; `refused`, the refusal's name and its
///   fields.
/// - 8: the disk has no service, or no follower, that can serve the command; `store`, why, and the slot or the page.
/// - 9: a file isn't what the command reads; `unreadable` or `unsound`, the file and where.
/// - 10: of an audit's texts two different ones have one digest; `clash`, and both with the digest.
///
/// The words are judged first; then all files are read, anchors before a proof, and a proof that is judged
/// no further than needed (a tested promise: no piece of 4,096 bytes behind its first bad byte); then what
/// the files hold is judged, that of a proof last; then comes the disk. A command that works on no folder
/// hands the disk back as it is.
pub fn run<D: Disk, I: Inputs, S: Sink>(
    alloc: Global,
    words: &[String],
    disk: D,
    inputs: &mut I,
    out: &mut S,
) -> Ran<D>
    requires { IfSome (command_of (map string_bytes words.now)) (λ command. Each (I.may_ask inputs.old) (command_files command)) }
    // Each run comes to one outcome that the words, the files, what the disk read as and the counts of faults allow,
    // and leaves the disk as is right for that outcome. It ends with the outcome's text, written whole, and its status;
    // or the sink's count of faults rose, a part of the text was written, and the status is 4. Want of memory is always
    // allowed, all else only for its cause.
    ensures ends { EndsAllowed D.view (around (map string_bytes words.now)
        (outside (asked (I.told inputs.old) (I.faults inputs.old) (I.faults inputs.new)) disk result.disk)
        (span (S.taken out.old) (S.taken out.new)) (span (S.faults out.old) (S.faults out.new))) result.status }

    // Status 0 of `verify PROOF LINES` and `strict PROOF LINES`, in the words of docs/theorem.md, where the inputs tell the bytes
    // of both files and the sink tells what it has taken: it took a report's text whole. And in every list of sound histories that
    // has each of the lines of the file LINES which is of a service that the report names, and each thread that the report
    // tells as carried, what the report says is so; or two different texts, both of bytes, of those that these histories and
    // checking the proof hash, have one SHA-256 digest.
    ensures plain { (proof_file lines_file proof lines before word : List ℕ) → result.status ≡ 0 → S.taken out.old ≡ Some before
        → (word ≡ codes "verify") ⊎ (word ≡ codes "strict") → map string_bytes words.now ≡ word ∷ proof_file ∷ lines_file ∷ []
        → file_bytes (I.told inputs.old) proof_file ≡ Some proof → file_bytes (I.told inputs.old) lines_file ≡ Some lines
        → (text : List ℕ) × (S.taken out.new ≡ Some (before ++ text)) × IsPlain sha256 proof (file_lines lines) text }
    // The same of `verify PROOF NAME STEP HEX`, whose words are the one line.
    ensures plain_line { (proof_file name step hex proof before : List ℕ) → result.status ≡ 0
        → map string_bytes words.now ≡ codes "verify" ∷ proof_file ∷ name ∷ step ∷ hex ∷ []
        → file_bytes (I.told inputs.old) proof_file ≡ Some proof → S.taken out.old ≡ Some before
        → (text : List ℕ) × (S.taken out.new ≡ Some (before ++ text)) × IsPlain sha256 proof (line_of_words name step hex ∷ []) text }
    // Status 0 of `checkmap LOW HIGH LINES`, in the words of docs/theorem.md, where the inputs tell the bytes of all three files
    // and the sink tells what it has taken: it took the text of bounds whole. Of which step of which service they are, and of
    // which peer, the first bytes of LOW name. And in every list of sound histories that has each of the lines of the file LINES
    // which is of the service or of the peer, they are the bounds of its histories; or two different texts, both of bytes, of
    // those that these histories and checking both map files hash, have one SHA-256 digest.
    ensures plain_map { (low_file high_file lines_file low high lines before : List ℕ) → result.status ≡ 0
        → map string_bytes words.now ≡ codes "checkmap" ∷ low_file ∷ high_file ∷ lines_file ∷ []
        → file_bytes (I.told inputs.old) low_file ≡ Some low → file_bytes (I.told inputs.old) high_file ≡ Some high
        → file_bytes (I.told inputs.old) lines_file ≡ Some lines → S.taken out.old ≡ Some before
        → (text : List ℕ) × (S.taken out.new ≡ Some (before ++ text)) × IsPlainMap sha256 low high (file_lines lines) text }
    // Status 0 of `adopt HISTORY LINES PROOF..`, in the words of docs/theorem.md, where the inputs tell the bytes of all files and
    // the sink tells what it has taken: it took the file of a sound history whole, which is the same as the one of HISTORY up to
    // its own last step. Each PROOF is one of a received thread of it, and one of the thread of its last step: the first bytes
    // name the service that received it and a step, behind them stands the thread, and a line of the file LINES is of that
    // service, at that step or a later one. In every list of sound histories that has each of the lines of the file which is
    // of that service, its history received that thread, with that authenticator, at that step or an earlier one; or two
    // different texts, both of bytes, of those that these histories and checking the proof hash, have one SHA-256 digest. And
    // in every list of sound histories that has the thread of its last step, the history of its name is the same up to there;
    // or two different texts, both of bytes, of it and of these have one.
    ensures plain_adoption { (history_file lines_file proof_file whole lines before : List ℕ) (more_files proofs : List (List ℕ)) → result.status ≡ 0
        → map string_bytes words.now ≡ codes "adopt" ∷ history_file ∷ lines_file ∷ proof_file ∷ more_files
        → file_bytes (I.told inputs.old) history_file ≡ Some whole → file_bytes (I.told inputs.old) lines_file ≡ Some lines
        → map (file_bytes (I.told inputs.old)) (proof_file ∷ more_files) ≡ map Some proofs → S.taken out.old ≡ Some before
        → (text : List ℕ) × (S.taken out.new ≡ Some (before ++ text)) × IsPlainAdoption sha256 whole (file_lines lines) proofs text }
    // Status 0 of `verify` and `strict`: the proof file is there, and its bytes spell a proof that is accepted under the
    // command's anchors. These are the one of its words, or those of the anchors file, which is there and has no bad line.
    // Of `strict` the proof carries no thread. The proof's report was written whole. And in every list of sound histories
    // that has the anchors that are held of the services and steps that the proof names, and the threads that it carries,
    // either two different texts of these histories and of the proof, both of bytes, have one SHA-256 digest, or what the report claims
    // is so. Of an event: it stands at the place that is named, and its step has the time that is told, or none where
    // none is told. Of an event before another: both stand so, and the report's own hops lead from the first one's step
    // to the step before the second one's; where there are no hops, and both steps have a time, the first one's isn't
    // above the second one's. Of a thread in an archive: the service received it at the step that is told, which isn't
    // above the one that is named. Of a thread in no archive: no step up to the one that is named received one of its
    // service and step. Of a link: the service has the authenticator that is told at the step that is named.
    ensures accepted { result.status ≡ 0 → AreWordsOf IsVerify (map string_bytes words.now)
        → IsAcceptedRun (I.told inputs.old) (map string_bytes words.now) (S.taken out.old) (S.taken out.new) }
    // Status 0 of `audit`: the proof file is there, and its bytes spell a proof that is accepted under the anchors of the
    // anchors file, which is there and has no bad line. The other files are there and are those of sound histories, of
    // different services and together within the limit, which have the threads held. Those are the anchors held of the
    // services and steps that the proof names, and the threads that it carries. No two different texts of these histories
    // and of the proof have one SHA-256 digest. What the proof's report claims is so of the histories, by the report's own
    // hops, and its lines from the second on were written whole behind `stands`.
    ensures stands { result.status ≡ 0 → AreWordsOf AsksAudit (map string_bytes words.now)
        → IsStandingRun (I.told inputs.old) (map string_bytes words.now) (S.taken out.old) (S.taken out.new) }
    // Status 10: the words are `audit`, and all this is so but for the texts and the report: two of these texts, both of
    // bytes, differ and have one SHA-256 digest. The first text whose digest an earlier different one has and the earliest
    // such text were written whole, with the digest.
    ensures clash { result.status ≡ 10
        → IsClashRun (I.told inputs.old) (map string_bytes words.now) (S.taken out.old) (S.taken out.new) }
    // Where the words are `audit`, the inputs tell the bytes of all its files, the anchors file has no bad line, and the
    // other files are those of sound histories, of different services and together within the limit: an audit of the proof
    // file's bytes tells exactly what is so of these, unless the inputs or the sink failed or there was no memory. Where the
    // bytes aren't accepted, the status is 1, with the lowest reason that stands. Where they are, and the histories don't have
    // all threads held, it is 1, with the first of them that they lack and what they have there. Where they have them, and
    // two different texts of the histories and the proof have one SHA-256 digest, it is 10, with the pair: the first text
    // whose digest an earlier different one has, and the earliest such text. Where no two have, it is 0, with the report.
    ensures finds { (bytes : List ℕ) (anchors : List Anchor) (family : List History) →
        IsAuditOf (I.told inputs.old) (map string_bytes words.now) bytes anchors family →
        IsFoundRun (around (map string_bytes words.now)
        (outside (asked (I.told inputs.old) (I.faults inputs.old) (I.faults inputs.new)) disk result.disk)
        (span (S.taken out.old) (S.taken out.new)) (span (S.faults out.old) (S.faults out.new))) result.status bytes anchors family }
    // Status 0 of `adopt`: its files are there. Where the inputs tell their bytes, the anchors file has no bad line, the history
    // file is that of a sound history, and each proof file's bytes are those of a proof that is accepted under the anchors
    // and shows that a service received a thread of the history's service, of which the history has the authenticator. The
    // bytes written are the file of the history's steps up to the greatest step of these threads. This front of the history
    // is sound, and the same as the history up to its last step. Every sound history that has the history's authenticator
    // there is of the same service and has the same contents, times and trees up to there, or two different texts of both,
    // both of bytes, have one SHA-256 digest. One of the proofs shows who received the thread of that authenticator. And
    // what each proof shows is so in every list of sound histories that has the anchors and the carried threads held of it,
    // or two different texts of these histories and of the proof, both of bytes, have one SHA-256 digest.
    ensures adopted { result.status ≡ 0 → AreWordsOf AsksAdoption (map string_bytes words.now)
        → IsAdoptedRun (I.told inputs.old) (map string_bytes words.now) (S.taken out.old) (S.taken out.new) }
    // Where the words are `adopt`, the inputs tell the bytes of all its files, the anchors file has no bad line, and the history
    // file is that of a sound history: unless the inputs or the sink failed or there was no memory, each of the proofs is good
    // and the status 0, with the file of the steps up to the furthest that they show; or one has a fault, each before it being
    // good, and the status is 1, with the line of that fault.
    ensures adopts { (h : History) (anchors : List Anchor) (proofs : List (List ℕ)) →
        IsAdoptionOf (I.told inputs.old) (map string_bytes words.now) h anchors proofs →
        IsAdoptingRun (around (map string_bytes words.now)
        (outside (asked (I.told inputs.old) (I.faults inputs.old) (I.faults inputs.new)) disk result.disk)
        (span (S.taken out.old) (S.taken out.new)) (span (S.faults out.old) (S.faults out.new))) result.status h anchors proofs }
    // Status 0 of `checkmap`: its files are there. Where the inputs tell their bytes, they hold a low and a high map file, of one
    // step of a service and of one peer, and anchors without a bad line, under which both map files are accepted. The bounds
    // that they show were written whole. And in every list of sound histories that has the anchors that are held of both tops,
    // either two different texts of these histories and of the files, both of bytes, have one SHA-256 digest, or the service
    // has the step, the peer has one of the number `upto`, and the bounds are those of their histories. `low` is the greatest
    // step of the peer in threads that the service received before its step, and 0 where there is none. `high` is the least
    // step of the peer up to `upto` that received a thread of the service of its step or of a later one, and `none` where none
    // did.
    ensures between { result.status ≡ 0 → AreWordsOf AsksMap (map string_bytes words.now)
        → IsMapRun (I.told inputs.old) (map string_bytes words.now) (S.taken out.old) (S.taken out.new) }
    // There are no other statuses than 0 to 10.
    ensures statuses { IsStatus result.status }

    // Whatever the status, where a disk stood for a history for good, each image that a crash at any moment may leave
    // stands for it, or, at `append`, for it with a step of the file's events, or, at `receive`, for it with a step that archives
    // the thread of the file's message, where the archive takes that, and with which it is sound. After every other
    // command the disk stands for it still, for good. At these two, where the disk read as a history, with writes pending
    // or not, each image is one that a crash might have left before, or stands for that history, or for it with that step.
    // What the disk reads as is told still, and stands for one of the two. At `init`, where the content was told, each
    // image is one that a crash might have left before, or is blank, or stands for the history of that name without
    // steps. What the disk then reads as is told still, and is such an image. Where a store was there, of a service or
    // not, with writes pending or not, nothing is written. `watch` and `offer` say the same of lists of heads: at `offer` each
    // image stands for the list before it, or, where the file's message moves the head, for it with the message's thread. At these
    // three the same holds of any store of their kind that opens, whatever its pages keep: each image opens with the record and
    // pages that the disk opened with, or with the next ones, or is one that a crash might have left before. Next are those of a step
    // of the file's events as it is found in the pages; those of a step that archives the thread of the file's message; and, where
    // the message moves the record's head, those of its thread.
    // What is opened as no follower, a service's store among it, `offer` leaves as it was, with writes pending or not; and
    // `append` and `receive` what is opened as no service, a follower's store among it.
    // `prove`, `thread` and `heads` write nothing. A command without a folder hands the
    // disk back as it is, and so does a run of words that have no form.
    ensures crash { MatchOption (command_of (map string_bytes words.now)) (result.disk ≡ disk)
        (λ command. (work_of D.view (outside (asked (I.told inputs.old) (I.faults inputs.old) (I.faults inputs.new)) disk result.disk) command).safe) }
    // At every other status than 0, 4 and 5 nothing was written. (At 4 the disk is as is right for the outcome whose text
    // wasn't written whole, by `ends`.)
    ensures unwritten { IsIdle result.status → IsLeft D.view disk result.disk }
{
    // By the laws of what is printed, and of histories that are the same up to a step.
    plain_laws::<Sha>();
    plain_map_laws::<Sha>();
    same_laws::<Sha>();
    first_steps_laws::<Sha>();
    run_to_the_end(alloc, words, disk, inputs, out)
}
