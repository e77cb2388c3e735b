// The command `audit`, which holds a proof against histories; tw_audit/src/holding.rt has the call.

ghost use Rattle.std.specs.Prelude.{◌≡◌, ◌≤◌, false, Err, IfOk, OnOk};
ghost use Rattle.sha2.specs.Sha256.{sha256};
ghost use Rattle.tw_audit.specs.Auditing.{IsAudit};
ghost use Rattle.tw_base.specs.kinds.Faults.{Rose};
ghost use Rattle.tw_base.specs.kinds.Lists.{Each};
ghost use Rattle.tw_chain.specs.Reasons.{IsVerdict};
ghost use Rattle.tw_outside.specs.Asked.{asked};
ghost use Rattle.tw_outside.specs.Files.{IsThere};
ghost use Rattle.tw_reachcmd.specs.Auditing.{AuditComes, UnderComes, finding_answer};
ghost use Rattle.tw_reachcmd.specs.Reading.{IsReadAudited};

use crate::anchors::anchors_of;
use crate::fronts::{Judged, judge_front};
use crate::histories::{Family, read_family};
use std::alloc::Global;
use tw_audit::{AuditFault, Finding, audit_judged};
use tw_base::{Digest, InputFault, NoMemory, Sequence, Sha, Thread};
use tw_filecmd::limits::FILE_READ;
use tw_history::History;
use tw_outside::{Inputs, read_all};
use tw_text::{CommandFault, FilePath};

/// What an audit of files comes to.
#[derive(Drop, Debug)]
pub enum Audited {
    /// What was found of the proof and the histories.
    Found(Finding),
    /// The first of the threads held, in the order of the proof, that the histories don't have: `found` is
    /// the authenticator that the history of its service has at its step, None where there is no such
    /// history, or one that is too short.
    Unheld { held: Thread, found: Option<Digest> },
}

/// Holds the proof of the named file, judged under the anchors of another one, against the histories of
/// further files, in their order. The anchors are read first, then the proof, as far as for a verdict, then
/// each history, to one byte more than those before left of 67,108,864. Once all are read, their grammar is
/// judged in the same order, that of each history with its soundness and that no history before it is of
/// its service; and then the proof.
pub fn audit_files<I: Inputs>(
    alloc: Global,
    inputs: &mut I,
    proof: &str,
    anchors: &str,
    histories: &[FilePath],
) -> Result<Audited, CommandFault>
    requires proof { I.may_ask inputs.old proof.now }
    requires anchors { I.may_ask inputs.old anchors.now }
    requires histories { Each (I.may_ask inputs.old) histories.now }
    // What `audit` comes to is what its files and the count of faults allow: what is found of the proof, the anchors and the
    // histories, or a fault with its cause.
    ensures { AuditComes (asked (I.told inputs.old) (I.faults inputs.old) (I.faults inputs.new)) proof.now anchors.now histories.now result }
{
    let lines = read_all(alloc, inputs, anchors, FILE_READ)?;
    match anchors_of(alloc, anchors, lines.as_slice()) {
        Ok(held) => audit_under(alloc, inputs, proof, held.as_slice(), histories),
        Err(fault) => match read_rest(alloc, inputs, proof, histories) {
            Ok(()) => Err(fault),
            Err(failed) => {
                drop(fault);
                Err(failed.into())
            }
        },
    }
}

/// Reads the proof and the histories, of which nothing is told.
fn read_rest<I: Inputs>(
    alloc: Global,
    inputs: &mut I,
    proof: &str,
    histories: &[FilePath],
) -> Result<(), InputFault>
    requires proof { I.may_ask inputs.old proof.now }
    requires histories { Each (I.may_ask inputs.old) histories.now }
    ensures later { I.faults inputs.old ≤ I.faults inputs.new }
    ensures failed { result ≡ Err InputFault.Failed → Rose (I.faults inputs.old) (I.faults inputs.new) }
    ensures proof_there { OnOk result (IsThere (I.told inputs.old) proof.now) }
    ensures histories_there { OnOk result (Each (IsThere (I.told inputs.old)) histories.now) }
{
    drop(judge_front(alloc, inputs, proof, &[])?);
    drop(read_family(alloc, inputs, histories)?);
    Ok(())
}

/// Holds the proof of the named file, judged under these anchors, against the histories of the others.
fn audit_under<I: Inputs>(
    alloc: Global,
    inputs: &mut I,
    proof: &str,
    anchors: &[Thread],
    histories: &[FilePath],
) -> Result<Audited, CommandFault>
    requires proof { I.may_ask inputs.old proof.now }
    requires histories { Each (I.may_ask inputs.old) histories.now }
    ensures { UnderComes (asked (I.told inputs.old) (I.faults inputs.old) (I.faults inputs.new)) proof.now anchors.now histories.now result }
{
    let judged = judge_front(alloc, inputs, proof, anchors)?;
    match read_family(alloc, inputs, histories) {
        Ok(family) => audit_read(alloc, judged, anchors, family),
        Err(fault) => {
            drop(judged);
            Err(fault.into())
        }
    }
}

/// Holds what was read of a proof file against the histories that were read, or tells the first file that
/// holds none.
fn audit_read(
    alloc: Global,
    judged: Judged,
    anchors: &[Thread],
    family: Family,
) -> Result<Audited, CommandFault>
    requires { IsVerdict sha256 anchors.now false judged.bytes.items judged.verdict }
    ensures { IsReadAudited anchors.now judged.bytes.items family result }
{
    match family.judged() {
        Ok(histories) => Ok(held_against(alloc, judged, anchors, &histories)?),
        Err(bad) => {
            drop(judged);
            Err(CommandFault::Unreadable(bad))
        }
    }
}

/// What is found of what was read of a proof file, and of histories.
fn held_against(
    alloc: Global,
    judged: Judged,
    anchors: &[Thread],
    histories: &Sequence<History>,
) -> Result<Audited, NoMemory>
    requires { IsVerdict sha256 anchors.now false judged.bytes.items judged.verdict }
    ensures { IfOk result (λ audited. IsAudit sha256 histories.now anchors.now judged.bytes.items (finding_answer audited)) }
{
    let Judged { bytes, verdict } = judged;
    match audit_judged::<Sha>(
        alloc,
        bytes.as_slice(),
        verdict,
        anchors,
        histories.as_slice(),
    ) {
        Ok(finding) => Ok(Audited::Found(finding)),
        Err(AuditFault::NotHeld { held, found }) => Ok(Audited::Unheld { held, found }),
        Err(AuditFault::NoMemory) => Err(NoMemory),
    }
}
