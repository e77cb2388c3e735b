// Reading a script whole, each line by its form and by what the lines before it made; `tw_world` plays it.

ghost use Rattle.std.specs.Prelude.{◌≡◌, ◌<◌, ◌≤◌, ◌^◌, length};
ghost use Rattle.tw_script.specs.LineTakings.{TakesText};
ghost use Rattle.tw_script.specs.Scripts.{ReadsScript, is_skipped as is_skipped_of, line_number_at as line_number_at_of};
ghost use Rattle.tw_script.specs.ScriptSteps.{ReadsLines, fault_at as fault_at_of};
ghost use Rattle.tw_script.specs.declared.limits.TheConstants.{MOST_SCRIPT_BYTES};
ghost use Rattle.tw_script.specs.declared.script.ScriptFault.TheVariants.{NoMemory as WantedMemory};

use crate::limits::MOST_SCRIPT_BYTES;
use crate::line::Line;
use crate::line_forms::read_line;
use crate::made::Made;
use crate::parts::Parts;
use crate::stop::Stop;
use std::alloc::Global;
use tw_base::{NoMemory, Sequence};

/// A line with its number in the file, counted from 1.
#[derive(Drop, Debug)]
pub struct NumberedLine {
    pub number: u64,
    pub line: Line,
}

/// The lines of a script that aren't skipped, in their order.
pub type Script = Sequence<NumberedLine>;

/// Why a file is no script.
#[derive(Clone, Copy, PartialEq, Eq, Debug, Drop)]
pub enum ScriptFault {
    /// This line, counted from 1, is the first that has no form or may not follow those before it.
    BadLine { line: u64 },
    /// The file has more than 1,048,576 bytes. The first byte past them stands in this line.
    TooLong { line: u64 },
    /// There was no memory for the lines.
    NoMemory,
}

impl From<NoMemory> for ScriptFault {
    ghost from_gives = { λ _ fault. fault ≡ WantedMemory };

    fn from(_refused: NoMemory) -> Self {
        ScriptFault::NoMemory
    }
}

/// The script of a file: lines of words with one blank between, each ended by one line feed, which the last may lack. An
/// empty line, and one that begins with `#`, is skipped, but counted. TooLong comes before all else, exactly where the file has
/// more than 1,048,576 bytes; else BadLine, exactly where a line isn't allowed behind those before it: it has no form; it makes a
/// name again, or the 65th; it uses as a service's a name that isn't one; it injects in a name that isn't hostile, or a message of
/// another name; it uses a message that no line made, or that one dropped, or a file that none made.
pub fn read_script(alloc: Global, bytes: &[u8]) -> Result<Script, ScriptFault>
    // A file is read as its script exactly where it has one, with the lines that aren't skipped, each with its number; else the
    // line of the first byte past the limit is told, or the first line that isn't allowed.
    ensures { ReadsScript bytes.now result }
{
    if bytes.len() > MOST_SCRIPT_BYTES {
        return Err(ScriptFault::TooLong {
            line: line_number_at(bytes, MOST_SCRIPT_BYTES),
        });
    }
    read_lines(alloc, bytes)
}

/// The number of the line in which the byte at this place stands.
fn line_number_at(bytes: &[u8], place: usize) -> u64
    requires within { place ≤ length bytes.now }
    requires small { place ≤ MOST_SCRIPT_BYTES }
    ensures { result ≡ line_number_at_of place bytes.now }
{
    let feeds = bytes[..place].iter().filter(|b| **b == b'\n').count();
    feeds as u64 + 1
}

/// The lines of a file that is within the limit.
fn read_lines(alloc: Global, bytes: &[u8]) -> Result<Script, ScriptFault>
    requires { length bytes.now ≤ MOST_SCRIPT_BYTES }
    ensures { ReadsLines bytes.now result }
{
    let mut made = Made::new(alloc);
    let mut script = Script::new(alloc);
    let mut texts = Parts::new(bytes);
    let mut number: u64 = 0;
    while let Some(text) = texts.next(b'\n') {
        number += 1;
        if !is_skipped(text) {
            let line = match next_line(alloc, &mut made, text) {
                Ok(line) => line,
                Err(stop) => return Err(fault_at(number, stop)),
            };
            script.push(NumberedLine { number, line })?;
        }
    }
    Ok(script)
}

/// Whether a line of this text is skipped: it is empty, or begins with `#`.
fn is_skipped(text: &[u8]) -> bool
    ensures { result ≡ is_skipped_of text.now }
{
    text.is_empty() || text[0] == b'#'
}

/// The line that the text is, where it may follow what was made, to which what it makes is added.
#[tactic(auto, unfolding(crate::specs::Scripts::allowed_line))]
fn next_line(alloc: Global, made: &mut Made, text: &[u8]) -> Result<Line, Stop>
    requires { made.old.files < 2 ^ 63 }
    ensures { TakesText made.old text.now made.new result }
{
    let line = read_line(alloc, text)?;
    match made.take(alloc, &line) {
        Ok(()) => Ok(line),
        Err(stop) => {
            drop(line);
            Err(stop)
        }
    }
}

/// Why a file is no script, where a line with this number stopped so.
fn fault_at(number: u64, stop: Stop) -> ScriptFault
    ensures { result ≡ fault_at_of number stop }
{
    match stop {
        Stop::NotAllowed => ScriptFault::BadLine { line: number },
        Stop::NoMemory => ScriptFault::NoMemory,
    }
}
