// Files as the inputs of a run; `tw_outside` has inputs in memory.

ghost use Rattle.std.specs.Prelude.{◌≡◌, ◌≤◌, ◌+◌, ℕ, List, IsTrue, length, IfOk, OnOk};
ghost use Rattle.std.proofs.Props.{props};
ghost use Rattle.tw_hostio.specs.InputFile.{IsFileOpen, IsOpenThere, CameOf, StandsFurther, StandsAt, StandsWhere};
ghost use Rattle.tw_outside.specs.Files.{IsThere, TellsBytes, Came};

use crate::call_fault::CallFault;
use crate::host_input::HostInput;
use crate::input_file::InputFile;
use arrayvec::ArrayString;
use std::fs::File;
use std::rt::Files;
use tw_base::Failed;
use tw_outside::Inputs;

/// The most bytes of a path: the system opens none that is longer.
const PATH: usize = 4096;

/// Files by their names, as inputs. Each is opened once and read on from where the last read ended, so a pipe is read too; where another
/// place is asked for, the file is set to it. A file is opened anew where another one was asked for since, or where a call on it
/// failed. A call that a signal interrupted is made again. Each error counts as a fault.
#[derive(Drop)]
pub struct HostInputs<F: InputFile> {
    file: F,
    name: ArrayString<PATH>,
    place: Option<u64>,
    faults: u64,
    ghost stands: { StandsWhere (F.InputFile.stands file) name.bytes place } by { Prim.hlevel props },
}

impl<F: InputFile> HostInputs<F> {
    /// Inputs of which no file is opened yet.
    pub fn over(file: F) -> Self {
        HostInputs {
            file,
            name: ArrayString::new(),
            place: None,
            faults: 0,
        }
    }
}

impl<'a, R: Files<File = File>> HostInputs<HostInput<'a, R>> {
    /// The files of this computer, by their paths. They don't tell what they hold.
    pub fn new(rt: &'a R) -> Self {
        HostInputs::over(HostInput::new(rt))
    }
}

/// Opens the file of this name, and keeps the name.
fn open<F: InputFile>(file: &mut F, last: &mut ArrayString<PATH>, name: &str) -> Result<(), Failed>
    ensures kept { F.told file.new ≡ F.told file.old }
    ensures stands { OnOk result (IsTrue (F.stands file.new name.now 0)) }
    ensures named { OnOk result (last.new.bytes ≡ name.now) }
{
    if file.open(name).is_err() {
        return Err(Failed);
    }
    last.clear();
    match last.try_push_str(name) {
        Ok(()) => Ok(()),
        Err(_) => Err(Failed),
    }
}

/// Sets the open file to a place, once more as often as a signal interrupts it.
fn seek<F: InputFile>(file: &mut F, to: u64) -> Result<(), Failed>
    requires { IsFileOpen (F.stands file.old) }
    ensures kept { F.told file.new ≡ F.told file.old }
    ensures stands { OnOk result (StandsAt (F.stands file.old) (F.stands file.new) to) }
{
    for _ in 0..u64::MAX {
        match file.seek(to) {
            Ok(()) => return Ok(()),
            Err(CallFault::Interrupted) => {}
            Err(CallFault::Failure) => return Err(Failed),
        }
    }
    Err(Failed)
}

/// Reads what comes next of the open file, once more as often as a signal interrupts it.
fn read_on<F: InputFile>(file: &mut F, into: &mut [u8]) -> Result<usize, Failed>
    requires { IsFileOpen (F.stands file.old) }
    ensures kept { F.told file.new ≡ F.told file.old }
    ensures there { OnOk result (IsOpenThere (F.told file.old) (F.stands file.old)) }
    ensures within { IfOk result (λ n. n ≤ length into.old) }
    ensures came { IfOk result (λ n. CameOf (F.told file.old) (F.stands file.old) into.new n) }
    ensures behind { IfOk result (λ n. StandsFurther (F.stands file.old) (F.stands file.new) n) }
{
    for _ in 0..u64::MAX {
        match file.read_some(into) {
            Ok(came) => return Ok(came),
            Err(CallFault::Interrupted) => {}
            Err(CallFault::Failure) => return Err(Failed),
        }
    }
    Err(Failed)
}

/// Opens the file of this name where it isn't the one that is open, and tells the place that it stands at.
fn stand<F: InputFile>(
    file: &mut F,
    last: &mut ArrayString<PATH>,
    place: Option<u64>,
    name: &str,
) -> Result<u64, Failed>
    requires { StandsWhere (F.stands file.old) last.old.bytes place }
    ensures kept { F.told file.new ≡ F.told file.old }
    ensures named { OnOk result (last.new.bytes ≡ name.now) }
    ensures stands { IfOk result (λ at. IsTrue (F.stands file.new name.now at)) }
{
    match place {
        Some(place) if last.as_str() == name => Ok(place),
        _ => {
            open(file, last, name)?;
            Ok(0)
        }
    }
}

/// Opens the file of this name where it isn't the one that is open, and sets it to a place where it doesn't stand there.
fn stand_at<F: InputFile>(
    file: &mut F,
    last: &mut ArrayString<PATH>,
    place: Option<u64>,
    name: &str,
    at: u64,
) -> Result<(), Failed>
    requires { StandsWhere (F.stands file.old) last.old.bytes place }
    ensures kept { F.told file.new ≡ F.told file.old }
    ensures named { OnOk result (last.new.bytes ≡ name.now) }
    ensures stands { OnOk result (IsTrue (F.stands file.new name.now at)) }
{
    if stand(file, last, place, name)? == at {
        return Ok(());
    }
    seek(file, at)
}

/// Reads bytes of the file of this name from a place on.
fn read_at<F: InputFile>(
    file: &mut F,
    last: &mut ArrayString<PATH>,
    place: Option<u64>,
    name: &str,
    at: u64,
    into: &mut [u8],
) -> Result<usize, Failed>
    requires { StandsWhere (F.stands file.old) last.old.bytes place }
    ensures kept { F.told file.new ≡ F.told file.old }
    ensures named { OnOk result (last.new.bytes ≡ name.now) }
    ensures there { OnOk result (IsThere (F.told file.old) name.now) }
    ensures within { IfOk result (λ n. n ≤ length into.old) }
    ensures came { IfOk result (λ n. (bytes : List ℕ) → TellsBytes (F.told file.old) name.now bytes → Came bytes at into.new n) }
    ensures behind { IfOk result (λ n. IsTrue (F.stands file.new name.now (at + n))) }
{
    stand_at(file, last, place, name, at)?;
    let came = read_on(file, into)?;
    Ok(came)
}

impl<F: InputFile> Inputs for HostInputs<F> {
    ghost use Rattle.std.specs.Prelude.{⊤};

    ghost told = { λ inputs. F.InputFile.told inputs.file };

    ghost faults = { λ inputs. inputs.faults };

    ghost may_ask = { λ _ _. ⊤ };

    fn read(&mut self, name: &str, at: u64, into: &mut [u8]) -> Result<usize, Failed> {
        let place = self.place;
        self.place = None;
        match read_at(&mut self.file, &mut self.name, place, name, at, into) {
            Ok(came) => {
                self.place = at.checked_add(came as u64);
                Ok(came)
            }
            Err(Failed) => {
                self.file.close();
                self.faults = self.faults.saturating_add(1);
                Err(Failed)
            }
        }
    }
}
