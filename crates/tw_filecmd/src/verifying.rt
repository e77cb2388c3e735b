// The commands `verify` and `strict`, which judge a proof; how it is judged is in tw_verifier.

ghost use Rattle.tw_outside.specs.Asked.{asked};
ghost use Rattle.tw_filecmd.specs.Verifying.{JudgingComes, VerifyFileComes, VerifyOneComes};

use crate::feeding::feed_file;
use crate::limits::FILE_READ;
use std::alloc::Global;
use tw_base::Thread;
use tw_chain::Verdict;
use tw_msg::{AnchorFault, read_anchors};
use tw_outside::{Inputs, read_all};
use tw_text::{CommandFault, bad_line};

/// Judges the named proof under one anchor. Threads that it carries are allowed. Of the proof one piece
/// is held at a time.
pub fn verify_one<I: Inputs>(
    alloc: Global,
    inputs: &mut I,
    proof: &str,
    anchor: Thread,
) -> Result<Verdict, CommandFault>
    requires { I.may_ask inputs.old proof.now }
    // What `verify` comes to under the anchor of its words is what the proof file and the count of faults allow: the
    // verdict on the file's bytes, or a fault with its cause.
    ensures { VerifyOneComes (asked (I.told inputs.old) (I.faults inputs.old) (I.faults inputs.new)) proof.now anchor result }
{
    judge(alloc, inputs, proof, &[anchor], false)
}

/// Judges the named proof under the anchors of a file; the strict form allows no carried thread. The
/// anchors are read before the proof, and their lines are judged once both are read: so a bad line is
/// told where the proof could be read, as far as it would be for a verdict.
pub fn verify_file<I: Inputs>(
    alloc: Global,
    inputs: &mut I,
    proof: &str,
    anchors: &str,
    strict: bool,
) -> Result<Verdict, CommandFault>
    requires proof { I.may_ask inputs.old proof.now }
    requires anchors { I.may_ask inputs.old anchors.now }
    // What `verify` and `strict` come to under an anchors file is what both files and the count of faults allow: the
    // verdict in that form on the proof's bytes under the file's anchors, or a fault with its cause.
    ensures { VerifyFileComes (asked (I.told inputs.old) (I.faults inputs.old) (I.faults inputs.new)) proof.now anchors.now strict result }
{
    let lines = read_all(alloc, inputs, anchors, FILE_READ)?;
    match read_anchors(alloc, lines.as_slice()) {
        Ok(held) => judge(alloc, inputs, proof, held.as_slice(), strict),
        Err(AnchorFault::BadLine { line }) => {
            drop(feed_file(alloc, inputs, proof, &[], strict)?);
            Err(CommandFault::Unreadable(bad_line(alloc, anchors, line)?))
        }
        Err(AnchorFault::NoMemory) => Err(CommandFault::NoMemory),
    }
}

/// Judges the named proof under these anchors.
fn judge<I: Inputs>(
    alloc: Global,
    inputs: &mut I,
    proof: &str,
    anchors: &[Thread],
    strict: bool,
) -> Result<Verdict, CommandFault>
    requires { I.may_ask inputs.old proof.now }
    ensures { JudgingComes (asked (I.told inputs.old) (I.faults inputs.old) (I.faults inputs.new)) proof.now anchors.now strict result }
{
    let verifier = feed_file(alloc, inputs, proof, anchors, strict)?;
    Ok(verifier.finish()?)
}
