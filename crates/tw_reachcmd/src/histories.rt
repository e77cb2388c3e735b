// Reading the histories of an audit.

ghost use Rattle.std.specs.Prelude.{◌≡◌, ◌≤◌, Err, IfErr, IfOk, None, OnOk, Some};
ghost use Rattle.std.specs.List.{list_any};
ghost use Rattle.std.specs.Str.{bytes_eq};
ghost use Rattle.tw_base.specs.declared.kinds.limits.TheConstants.{MOST_HISTORY_BYTES as MOST};
ghost use Rattle.tw_base.specs.kinds.Faults.{Rose};
ghost use Rattle.tw_base.specs.kinds.Lists.{Each};
ghost use Rattle.tw_outside.specs.Files.{IsThere};
ghost use Rattle.tw_reachcmd.specs.Reading.{AreHistoriesRead, IsAloneBeside, IsReadBeside};
ghost use Rattle.tw_reachcmd.specs.declared.histories.HistoryRefusal.TheVariants.{NoMemory as WantedMemory};

use crate::gathering::{Gathers, read_files};
use std::alloc::Global;
use tw_base::limits::MOST_HISTORY_BYTES;
use tw_base::{InputFault, Name, NoMemory, Sequence};
use tw_filecmd::bad_history;
use tw_history::{History, read_history};
use tw_outside::Inputs;
use tw_text::{BadInput, FilePath, bad_byte};

/// The place of the service's name in a history file.
pub(crate) const NAME_PLACE: u64 = 4;

/// The histories of files that were read, before the first that holds none, and what is told of that one;
/// and how many bytes all of them left of the limit.
#[derive(Drop)]
pub(crate) struct Family {
    histories: Sequence<History>,
    bad: Option<BadInput>,
    left: usize,
}

/// Why a file holds no history beside others.
#[derive(Drop)]
pub(crate) enum HistoryRefusal {
    /// What is told of it.
    Bad(BadInput),
    /// There was no memory for it.
    NoMemory,
}

impl From<NoMemory> for HistoryRefusal {
    ghost from_gives = { λ _ refusal. refusal ≡ WantedMemory };

    fn from(_none: NoMemory) -> Self {
        HistoryRefusal::NoMemory
    }
}

/// Reads the files, each to its end or to one byte more than those before left of the limit, whatever
/// they hold.
pub(crate) fn read_family<I: Inputs>(
    alloc: Global,
    inputs: &mut I,
    files: &[FilePath],
) -> Result<Family, InputFault>
    requires { Each (I.may_ask inputs.old) files.now }
    ensures later { I.faults inputs.old ≤ I.faults inputs.new }
    ensures failed { result ≡ Err InputFault.Failed → Rose (I.faults inputs.old) (I.faults inputs.new) }
    ensures there { OnOk result (Each (IsThere (I.told inputs.old)) files.now) }
    ensures read { IfOk result (AreHistoriesRead (I.told inputs.old) files.now) }
{
    let mut family = Family {
        histories: Sequence::new(alloc),
        bad: None,
        left: MOST_HISTORY_BYTES as usize,
    };
    match read_files(alloc, inputs, files, &mut family) {
        Ok(()) => Ok(family),
        // Not by `?`: what goes out of scope there is looked at part by part, and proved slowly.
        Err(fault) => {
            drop(family);
            Err(fault)
        }
    }
}

impl Family {
    /// The histories, or what is told of the first file that holds none.
    pub(crate) fn judged(self) -> Result<Sequence<History>, BadInput>
        ensures histories { IfOk result (λ histories. (histories ≡ self.histories) × (self.bad ≡ None)) }
        ensures bad { IfErr result (λ bad. self.bad ≡ Some bad) }
    {
        let Family { histories, bad, .. } = self;
        match bad {
            None => Ok(histories),
            Some(bad) => {
                drop(histories);
                Err(bad)
            }
        }
    }
}

impl Gathers for Family {
    ghost use Rattle.std.specs.Prelude.{◌+◌, ◌≤◌};
    ghost use Rattle.tw_base.specs.declared.kinds.limits.TheConstants.{MOST_HISTORY_BYTES as MOST};
    ghost use Rattle.tw_reachcmd.specs.Reading.{AreHistoriesRead};

    ghost holds = { λ f. f.left ≤ MOST };

    ghost room_of = { λ f. f.left + 1 };

    ghost reads = { AreHistoriesRead };

    fn room(&self) -> usize {
        self.left + 1
    }

    /// Adds what these bytes of the named file hold, unless a file before held no history.
    fn add(&mut self, alloc: Global, file: &str, bytes: &[u8]) -> Result<(), NoMemory> {
        let left = self.left;
        self.left = left.saturating_sub(bytes.len());
        if self.bad.is_some() {
            return Ok(());
        }
        match history_beside(alloc, file, bytes, left, self.histories.as_slice()) {
            Ok(history) => {
                self.histories.push(history)?;
                Ok(())
            }
            Err(HistoryRefusal::Bad(bad)) => {
                self.bad = Some(bad);
                Ok(())
            }
            Err(HistoryRefusal::NoMemory) => Err(NoMemory),
        }
    }
}

/// The history that the bytes of the named file hold beside those before, which left so many bytes of the
/// limit.
pub(crate) fn history_beside(
    alloc: Global,
    file: &str,
    bytes: &[u8],
    left: usize,
    before: &[History],
) -> Result<History, HistoryRefusal>
    requires { left ≤ MOST }
    ensures { IsReadBeside left before.now file.now bytes.now result }
{
    if bytes.len() > left {
        return Err(HistoryRefusal::Bad(bad_byte(alloc, file, left as u64)?));
    }
    match read_history(alloc, bytes) {
        Ok(history) => alone_beside(alloc, file, history, before),
        Err(fault) => Err(HistoryRefusal::Bad(bad_history(alloc, file, fault)?)),
    }
}

/// The history, unless one of those before is of its service.
fn alone_beside(
    alloc: Global,
    file: &str,
    history: History,
    before: &[History],
) -> Result<History, HistoryRefusal>
    ensures { IsAloneBeside before.now file.now history result }
{
    if has_service(before, history.service()) {
        drop(history);
        Err(HistoryRefusal::Bad(bad_byte(alloc, file, NAME_PLACE)?))
    } else {
        Ok(history)
    }
}

/// Whether one of the histories is of the service.
fn has_service(histories: &[History], service: &Name) -> bool
    ensures { result ≡ list_any (λ h. bytes_eq h.name service.now) histories.now }
{
    histories
        .iter()
        .any(|history| *history.service() == *service)
}
