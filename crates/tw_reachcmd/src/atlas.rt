// The command `atlas`, which reads files of receipts and finds the earliest steps to which a step leads.

ghost use Rattle.std.specs.Prelude.{◌≡◌, IfErr, IfOk, None, Some};
ghost use Rattle.tw_base.specs.kinds.Lists.{Each};
ghost use Rattle.tw_outside.specs.Asked.{asked};
ghost use Rattle.tw_reachcmd.specs.Atlas.{AtlasComes};
ghost use Rattle.tw_reachcmd.specs.ReadingReceipts.{HopsCome};
ghost use Rattle.tw_text.specs.declared.fault.CommandFault.TheVariants.{Unreadable};
ghost use Rattle.tw_text.specs.declared.refusal.BadInput.{BadInput as AnyBad};

use crate::gathering::{Gathers, read_files};
use std::alloc::Global;
use tw_atlas::{Atlas, add_hops, plan};
use tw_base::{HopList, Key, Name, NoMemory, ReadFault};
use tw_filecmd::limits::FILE_READ;
use tw_outside::Inputs;
use tw_text::{BadInput, CommandFault, FilePath, bad_byte};

/// Where the receipts of files lead from a step of a service.
#[derive(Drop, Debug)]
pub struct Planned {
    /// The service and the step.
    pub start: Key,
    /// The least step of every service to which it leads, with the legs.
    pub atlas: Atlas,
}

/// The hops of files that were read, before the first that isn't as it has to be, and what is told of that
/// one.
#[derive(Drop)]
struct Receipts {
    hops: HopList,
    bad: Option<BadInput>,
}

/// The atlas of the receipts of files from a step of the named service, from 1 on. All files are read
/// before one is judged, and each is to have receipts alone, one after another; equal ones count each. The
/// first byte of the 4,097th receipt over all files is a bad one.
pub fn atlas_files<I: Inputs>(
    alloc: Global,
    inputs: &mut I,
    name: Name,
    step: u64,
    files: &[FilePath],
) -> Result<Planned, CommandFault>
    requires { Each (I.may_ask inputs.old) files.now }
    // What `atlas` comes to is what its files and the count of faults allow: the atlas of their receipts' hops, or a fault
    // with its cause.
    ensures { AtlasComes (asked (I.told inputs.old) (I.faults inputs.old) (I.faults inputs.new)) (record { from = name; step = step }) files.now result }
{
    match read_hops(alloc, inputs, files) {
        Ok(hops) => {
            let atlas = plan(alloc, &hops, &name, step)?;
            let start = Key { from: name, step };
            Ok(Planned { start, atlas })
        }
        Err(fault) => Err(fault),
    }
}

/// The hops of the receipts of files.
fn read_hops<I: Inputs>(
    alloc: Global,
    inputs: &mut I,
    files: &[FilePath],
) -> Result<HopList, CommandFault>
    requires { Each (I.may_ask inputs.old) files.now }
    ensures { HopsCome (asked (I.told inputs.old) (I.faults inputs.old) (I.faults inputs.new)) files.now result }
{
    let mut receipts = Receipts {
        hops: HopList::new(alloc),
        bad: None,
    };
    match read_files(alloc, inputs, files, &mut receipts) {
        Ok(()) => receipts.judged(),
        // Not by `?`: what goes out of scope there is looked at part by part, and proved slowly.
        Err(fault) => {
            drop(receipts);
            Err(fault.into())
        }
    }
}

impl Receipts {
    /// The hops, or what is told of the first file that isn't as it has to be.
    fn judged(self) -> Result<HopList, CommandFault>
        ensures hops { IfOk result (λ hops. (hops ≡ self.hops) × (self.bad ≡ None)) }
        ensures bad { IfErr result (λ fault. (bad : AnyBad) × (self.bad ≡ Some bad) × (fault ≡ Unreadable bad)) }
    {
        let Receipts { hops, bad } = self;
        match bad {
            None => Ok(hops),
            Some(bad) => {
                drop(hops);
                Err(CommandFault::Unreadable(bad))
            }
        }
    }
}

impl Gathers for Receipts {
    ghost use Rattle.std.specs.Prelude.{◌≤◌, length};
    ghost use Rattle.tw_atlas.specs.declared.limits.TheConstants.{MOST_RECEIPTS};
    ghost use Rattle.tw_filecmd.specs.declared.limits.TheConstants.{FILE_READ};
    ghost use Rattle.tw_reachcmd.specs.ReadingReceipts.{AreReceiptsRead};

    ghost holds = { λ r. length r.hops ≤ MOST_RECEIPTS };

    ghost room_of = { λ r. FILE_READ };

    ghost reads = { AreReceiptsRead };

    fn room(&self) -> usize {
        FILE_READ
    }

    /// Adds the hops of the receipts in these bytes of the named file, unless a file before isn't as it has to
    /// be.
    fn add(&mut self, alloc: Global, file: &str, bytes: &[u8]) -> Result<(), NoMemory> {
        if self.bad.is_some() {
            return Ok(());
        }
        match add_hops(alloc, bytes, &mut self.hops) {
            Ok(()) => Ok(()),
            Err(ReadFault::Malformed { place }) => {
                self.bad = Some(bad_byte(alloc, file, place)?);
                Ok(())
            }
            Err(ReadFault::NoMemory) => Err(NoMemory),
        }
    }
}
