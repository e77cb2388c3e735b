// Reading the files of proofs that are to be joined; tw_reachcmd reads receipts (`atlas.rt`) and histories (`histories.rt`) so.

ghost use Rattle.std.specs.Prelude.{◌≡◌, ◌<◌, ◌≤◌, ℕ, List, [], ◌∷◌, ◌++◌, length, OnOk, Option};
ghost use Rattle.tw_base.specs.kinds.Lists.{Each};
ghost use Rattle.tw_outside.specs.Asked.{asked};
ghost use Rattle.tw_outside.specs.Files.{Files, IsReadTo, IsThere};
ghost use Rattle.tw_filecmd.specs.Parts.{ArePartsRead, PartsCome};

use crate::limits::FILE_READ;
use std::alloc::Global;
use tw_base::{NoMemory, ReadFault, Sequence};
use tw_chain::{Proof, read_proof};
use tw_join::MOST_PARTS;
use tw_outside::{Inputs, read_all};
use tw_text::{BadInput, CommandFault, FilePath, bad_byte};

/// As many parts as decide what all of them join to: one more than ever join.
const MOST_KEPT: usize = MOST_PARTS + 1;

/// What was read of files: the first proofs of those before the first that holds none, and what is told
/// of that one.
#[derive(Drop)]
struct Parts {
    proofs: Sequence<Proof>,
    bad: Option<BadInput>,
}

/// Reads the files, each to its end or to the limit, and answers the proofs that they hold, and no more of
/// them than decide what all join to; or, once all are read, tells the first that holds none.
pub(crate) fn read_parts<I: Inputs>(
    alloc: Global,
    inputs: &mut I,
    files: &[FilePath],
) -> Result<Sequence<Proof>, CommandFault>
    requires { Each (I.may_ask inputs.old) files.now }
    ensures { PartsCome (asked (I.told inputs.old) (I.faults inputs.old) (I.faults inputs.new)) files.now result }
{
    let mut parts = Parts {
        proofs: Sequence::new(alloc),
        bad: None,
    };
    for file in files {
        let bytes = read_all(alloc, inputs, file.as_str(), FILE_READ)?;
        parts.add(alloc, file.as_str(), bytes.as_slice())?;
    }
    let Parts { proofs, bad } = parts;
    match bad {
        None => Ok(proofs),
        Some(bad) => Err(CommandFault::Unreadable(bad)),
    }
}

impl Parts {
    /// Adds what these bytes of the named file hold, unless a file before held no proof. Of more proofs than
    /// decide none is kept.
    fn add(&mut self, alloc: Global, file: &str, bytes: &[u8]) -> Result<(), NoMemory>
        ensures { OnOk result ((told : Option Files) (files : List (List ℕ)) → IsThere told file.now → IsReadTo told file.now FILE_READ bytes.now →
            ArePartsRead told files self.old.proofs self.old.bad → ArePartsRead told (files ++ file.now ∷ []) self.new.proofs self.new.bad) }
    {
        if self.bad.is_some() {
            return Ok(());
        }
        match read_proof(alloc, bytes) {
            Ok(proof) => self.keep(proof)?,
            Err(ReadFault::Malformed { place }) => self.bad = Some(bad_byte(alloc, file, place)?),
            Err(ReadFault::NoMemory) => return Err(NoMemory),
        }
        Ok(())
    }

    /// Keeps the proof behind the others, unless as many are kept as decide.
    fn keep(&mut self, proof: Proof) -> Result<(), NoMemory>
        ensures bad { self.new.bad ≡ self.old.bad }
        ensures room { OnOk result (length self.old.proofs < MOST_KEPT → self.new.proofs ≡ self.old.proofs ++ proof ∷ []) }
        ensures full { MOST_KEPT ≤ length self.old.proofs → self.new.proofs ≡ self.old.proofs }
    {
        if self.proofs.len() < MOST_KEPT {
            self.proofs.push(proof)
        } else {
            drop(proof);
            Ok(())
        }
    }
}
