// The program `timeweave`: the top call over real files, a folder's store and standard output.
#![tactic(auto)]

mod standard_streams;
mod store_file;
mod words;

ghost use Rattle.std.specs.Prelude.{◌≡◌, ◌⊎◌, IfOk, MatchResult};
ghost use Rattle.std.specs.Process.{exit_status};
ghost use Rattle.tw_app.specs.Statuses.{IsStatus};
ghost use Rattle.tw_base.specs.kinds.Faults.{Rose};
ghost use Rattle.tw_outside.specs.TakenBytes.{Appends, AppendsPart};
ghost use Rattle.tw_text.specs.Lines.{no_memory_text};

use standard_streams::{StandardNumbers, keep};
use std::process::ExitCode;
use store_file::file_of;
use tw_app::{end_without_memory, run};
use tw_base::NoMemory;
use tw_hostio::{FileDisk, HostInputs, HostOutput, HostSink};
use tw_outside::Sink;
use words::{SystemArguments, read_arguments};

/// The status where the number of a closed standard stream can't be kept from the files that are opened: that of an
/// output that failed.
const NO_OUTPUT: u8 = 4;

fn main(rt: HostRuntime) -> ExitCode {
    let mut numbers = StandardNumbers {
        rt: &rt,
        kept: [None, None, None],
    };
    if keep(&mut numbers) {
        exit_of(status_of_run(&rt))
    } else {
        exit_of(NO_OUTPUT)
    }
}

/// What the process ends with.
fn exit_of(status: u8) -> ExitCode
    ensures { exit_status result ≡ status }
{
    ExitCode::from(status)
}

/// Does what the words of the program say, and answers the status.
fn status_of_run(rt: &HostRuntime) -> u8
    ensures { IsStatus result }
{
    let mut out = HostSink::new(rt);
    let ran = run_words(rt, &mut out);
    status_of(ran, &mut out)
}

/// The status of a run that was made; where there was no memory to make it, that of this, which is told.
fn status_of<S: Sink>(ran: Result<u8, NoMemory>, out: &mut S) -> u8
    ensures { MatchResult ran (λ status. result ≡ status)
        (λ _. ((result ≡ 6) × Appends (S.taken out.old) (S.taken out.new) no_memory_text)
        ⊎ ((result ≡ 4) × AppendsPart (S.taken out.old) (S.taken out.new) no_memory_text × Rose (S.faults out.old) (S.faults out.new))) }
{
    match ran {
        Ok(status) => status,
        Err(NoMemory) => end_without_memory(out),
    }
}

/// Reads the words, does what they say, and answers the status; NoMemory where there is none for the words
/// or for the path of the store. Nothing was written then.
fn run_words(
    rt: &HostRuntime,
    out: &mut HostSink<HostOutput<'_, HostRuntime>>,
) -> Result<u8, NoMemory>
    ensures { IfOk result IsStatus }
{
    let words = read_arguments(rt.alloc(), &SystemArguments { rt })?;
    let file = file_of(rt.alloc(), &words)?;
    let disk = FileDisk::new(rt, file.path.as_str(), file.access);
    let mut inputs = HostInputs::new(rt);
    Ok(run(rt.alloc(), &words, disk, &mut inputs, out).status)
}
