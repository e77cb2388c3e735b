// What the library tells of a proof, the status and text of `verify` and `strict`; and of a bad line or byte of any
// file.

ghost use Rattle.std.specs.Prelude.{◌≡◌, IfOk};
ghost use Rattle.sha2.specs.Sha256.{sha256};
ghost use Rattle.tw_plain.specs.Plain.{IsPlain, file_lines};
ghost use Rattle.tw_judge.specs.Told.{IsTold, verdict_status, verdict_text};
ghost use Rattle.tw_text.specs.Faults.{fault_status as fault_status_of, fault_text};
ghost use Rattle.tw_text.specs.declared.fault.CommandFault.TheVariants.{Unreadable};
ghost use Rattle.tw_text.specs.declared.refusal.BadInput.TheVariants.{BadByte, BadLine};

use std::alloc::Global;
use tw_base::{Bytes, NoMemory, Sha};
use tw_chain::Verdict;
use tw_msg::{AnchorFault, read_anchors};
use tw_plain::plain_laws;
use tw_text::{
    CommandFault, bad_byte, bad_line, fault_status, print_fault, print_rejected, print_report,
};
use tw_verifier::verify;

/// A status of the program, 0, 1 or 9, with its text.
#[derive(Drop, Debug)]
pub struct Told {
    pub status: u8,
    pub text: Bytes,
}

/// Judges the bytes of a proof under those of an anchors file of this name; the strict form allows no
/// carried thread. The status and the text are those of the program's `verify` and `strict`: 0 with the
/// report, 1 with the lowest reason that stands, 9 with the first bad line of the anchors, which is told
/// by the file's name. `NoMemory` where no memory was left, for which the program ends with 6 and the
/// line `no memory`.
pub fn judge(
    alloc: Global,
    file: &str,
    proof: &[u8],
    anchors: &[u8],
    strict: bool,
) -> Result<Told, NoMemory>
    // What is told of a proof is the status and the text of the verdict on its bytes in that form under the anchors of the
    // lines, with the verdict's theorem, where each line is good; else those of the first bad line.
    ensures told { IfOk result (λ told. IsTold file.now strict proof.now anchors.now told.status told.text) }
    // Status 0, in the words of docs/theorem.md: the text is a report's. And in every list of sound histories that has each of
    // the lines of the anchors file which is of a service that the report names, and each thread that the report tells as carried,
    // what the report says is so; or two different texts, both of bytes, of those that these histories and checking the
    // proof hash, have one SHA-256 digest.
    ensures plain { IfOk result (λ told. told.status ≡ 0 → IsPlain sha256 proof.now (file_lines anchors.now) told.text) }
{
    // By the laws of printed reports.
    plain_laws::<Sha>();
    told_of(alloc, strict, file, proof, anchors)
}

/// The same, by its first clause alone.
fn told_of(
    alloc: Global,
    strict: bool,
    file: &str,
    proof: &[u8],
    anchors: &[u8],
) -> Result<Told, NoMemory>
    ensures { IfOk result (λ told. IsTold file.now strict proof.now anchors.now told.status told.text) }
{
    match read_anchors(alloc, anchors) {
        Ok(held) => {
            let verdict = verify::<Sha>(alloc, proof, held.as_slice(), strict)?;
            let text = print_verdict(alloc, &verdict);
            let status = status_of(&verdict);
            drop(verdict);
            drop(held);
            Ok(Told {
                status,
                text: text?,
            })
        }
        Err(AnchorFault::BadLine { line }) => Ok(tell_line(alloc, file, line)?),
        Err(AnchorFault::NoMemory) => Err(NoMemory),
    }
}

/// The status of a verdict.
fn status_of(verdict: &Verdict) -> u8
    ensures { result ≡ verdict_status verdict.now }
{
    match verdict {
        Verdict::Yes(_) => 0,
        Verdict::No(_) => 1,
    }
}

/// The text of a verdict.
fn print_verdict(alloc: Global, verdict: &Verdict) -> Result<Bytes, NoMemory>
    ensures { IfOk result (λ text. text ≡ verdict_text verdict.now) }
{
    match verdict {
        Verdict::Yes(report) => print_report(alloc, report),
        Verdict::No(reason) => print_rejected(alloc, reason),
    }
}

/// What is told of this fault.
fn tell_fault(alloc: Global, fault: &CommandFault) -> Result<Told, NoMemory>
    ensures status { IfOk result (λ told. told.status ≡ fault_status_of fault.now) }
    ensures text { IfOk result (λ told. told.text ≡ fault_text fault.now) }
{
    Ok(Told {
        status: fault_status(fault),
        text: print_fault(alloc, fault)?,
    })
}

/// What is told of an anchors file of this name with this first bad line.
pub(crate) fn tell_line(alloc: Global, file: &str, line: u64) -> Result<Told, NoMemory>
    ensures status { IfOk result (λ told. told.status ≡ fault_status_of (Unreadable (BadLine file.now line))) }
    ensures text { IfOk result (λ told. told.text ≡ fault_text (Unreadable (BadLine file.now line))) }
{
    let bad = bad_line(alloc, file, line)?;
    tell_fault(alloc, &CommandFault::Unreadable(bad))
}

/// What is told of a file of this name that is none of its format from this byte on.
pub(crate) fn tell_byte(alloc: Global, file: &str, place: u64) -> Result<Told, NoMemory>
    ensures status { IfOk result (λ told. told.status ≡ fault_status_of (Unreadable (BadByte file.now place))) }
    ensures text { IfOk result (λ told. told.text ≡ fault_text (Unreadable (BadByte file.now place))) }
{
    let bad = bad_byte(alloc, file, place)?;
    tell_fault(alloc, &CommandFault::Unreadable(bad))
}
