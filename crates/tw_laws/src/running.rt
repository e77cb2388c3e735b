// A run of the program, as a turn on its disk. It stands for the law alone.

ghost use Rattle.std.specs.Prelude.{map, string_bytes, IfSome};
ghost use Rattle.tw_base.specs.kinds.Lists.{Each};
ghost use Rattle.tw_outside.specs.Asked.{asked};
ghost use Rattle.tw_words.specs.CommandLine.{command_of};
ghost use Rattle.tw_app.specs.Around.{outside, span};
ghost use Rattle.tw_app.specs.Commands.{command_files};
ghost use Rattle.tw_app.specs.Running.{EndsWith};
ghost use Rattle.tw_app.specs.declared.outcome.Outcome.{Outcome};
ghost use Rattle.tw_laws.specs.Turns.{IsWorkOn};

use std::alloc::Global;
use tw_app::{Ran, run};
use tw_disk::Disk;
use tw_outside::{Inputs, Sink};

/// Does what the words ask, by `run`, and ends with its status and its disk.
pub fn run_once<D: Disk, I: Inputs, S: Sink>(
    alloc: Global,
    words: &[String],
    disk: D,
    inputs: &mut I,
    out: &mut S,
) -> Ran<D>
    requires { IfSome (command_of (map string_bytes words.now)) (λ command. Each (I.may_ask inputs.old) (command_files command)) }
    // Each run of the program comes to an outcome of work on the disk that it was handed, which it hands back, and ends with that
    // outcome's text and status.
    ensures { (outcome : Outcome) × IsWorkOn D.view disk (map string_bytes words.now)
        (outside (asked (I.told inputs.old) (I.faults inputs.old) (I.faults inputs.new)) disk result.disk) outcome
        × EndsWith (span (S.taken out.old) (S.taken out.new)) (span (S.faults out.old) (S.faults out.new)) result.status outcome }
{
    run(alloc, words, disk, inputs, out)
}
