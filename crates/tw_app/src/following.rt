// From words to what they come to: an arm for each command, which calls one function of a crate of commands.

ghost use Rattle.std.specs.Prelude.{◌≡◌, map, string_bytes, IfSome};
ghost use Rattle.tw_base.specs.kinds.Lists.{Each};
ghost use Rattle.tw_outside.specs.Asked.{asked};
ghost use Rattle.tw_words.specs.CommandLine.{command_of};
ghost use Rattle.tw_words.specs.Ranges.{IsWithinRanges};
ghost use Rattle.tw_app.specs.Around.{outside};
ghost use Rattle.tw_app.specs.Commands.{command_files};
ghost use Rattle.tw_app.specs.Outcomes.{outcome_by};
ghost use Rattle.tw_app.specs.declared.outcome.Outcome.TheVariants.{Made as OfThread, Received as OfReceipt, Written as OfBytes};
ghost use Rattle.tw_app.specs.Running.{HasOutcome, work as work_of};

use crate::generating::generate_world;
use crate::outcome::{
    Outcome, accused, audited, fork_judged, joined, judged, made, mapped, planned, received, taken,
    written,
};
use crate::replaying::play_file;
use std::alloc::Global;
use tw_base::{Bytes, Key, Name, Question, Thread};
use tw_disk::Disk;
use tw_diskcmd::{Worked, append, ask, init_service, list_heads, offer, receive, watch};
use tw_filecmd::{join_files, show, verify_file, verify_one};
use tw_msg::Receipt;
use tw_outside::Inputs;
use tw_reachcmd::{
    accuse_linked, accuse_pair, adopt_files, atlas_files, audit_files, check_fork_files,
    check_map_files,
};
use tw_text::CommandFault;
use tw_words::{Command, WordFault, read_words};

/// What a run came to, of which nothing is told yet; and the disk, on which its work is done.
#[derive(Drop)]
pub struct Followed<D> {
    pub outcome: Outcome,
    pub disk: D,
}

/// The first half of a run: what the words come to, with all work on the disk done. It has no sink, so nothing can be told
/// of it before; `tell` does that.
pub fn work<D: Disk, I: Inputs>(
    alloc: Global,
    words: &[String],
    disk: D,
    inputs: &mut I,
) -> Followed<D>
    requires { IfSome (command_of (map string_bytes words.now)) (λ command. Each (I.may_ask inputs.old) (command_files command)) }
    // The outcome is one that the words, the files, what the disk read as and the counts of faults allow, and the disk is as is right
    // for it.
    ensures comes { HasOutcome D.view (outside (asked (I.told inputs.old) (I.faults inputs.old) (I.faults inputs.new)) disk result.disk)
        (map string_bytes words.now) result.outcome }
{
    match read_words(alloc, words) {
        Ok(command) => follow(alloc, &command, disk, inputs),
        Err(WordFault::BadWord { number }) => Followed {
            outcome: Outcome::BadWords { number },
            disk,
        },
        Err(WordFault::NoMemory) => Followed {
            outcome: Outcome::Undone(CommandFault::NoMemory),
            disk,
        },
    }
}

/// What the command comes to. Commands without a folder leave the disk as it is. It is long, since
/// it has an arm for each command.
fn follow<D: Disk, I: Inputs>(
    alloc: Global,
    command: &Command,
    disk: D,
    inputs: &mut I,
) -> Followed<D>
    requires files { Each (I.may_ask inputs.old) (command_files command.now) }
    requires ranges { IsWithinRanges command.now }
    ensures { (work_of D.view (outside (asked (I.told inputs.old) (I.faults inputs.old) (I.faults inputs.new)) disk result.disk) command.now).does result.outcome }
{
    match command {
        Command::Init { name } => with_thread(init_service(alloc, disk, *name)),
        Command::Append { file, time } => {
            with_thread(append(alloc, disk, inputs, file.as_str(), *time))
        }
        &Command::Thread { since } => {
            with_bytes(ask(alloc, disk, &Question::ThreadOut { since }))
        }
        Command::Receive { file, time } => {
            with_receipt(receive(alloc, disk, inputs, file.as_str(), *time))
        }
        &Command::ProveEvent { step, index, top } => {
            with_bytes(ask(alloc, disk, &Question::Event { step, index, top }))
        }
        &Command::ProveThread { step, peer, k, top } => {
            let key = key_of(peer, k);
            with_bytes(ask(alloc, disk, &Question::Thread { step, key, top }))
        }
        &Command::ProveAbsent { step, peer, k, top } => {
            let key = key_of(peer, k);
            with_bytes(ask(alloc, disk, &Question::Absent { step, key, top }))
        }
        &Command::ProveLink { step, top } => {
            with_bytes(ask(alloc, disk, &Question::Link { step, top }))
        }
        &Command::MapLow { step, peer, top } => {
            with_bytes(ask(alloc, disk, &Question::Low { step, peer, top }))
        }
        &Command::MapHigh {
            pos: step,
            peer,
            top,
        } => with_bytes(ask(alloc, disk, &Question::High { step, peer, top })),
        Command::Export => with_bytes(ask(alloc, disk, &Question::Export)),
        Command::Show {
            history,
            step,
            index,
        } => Followed {
            outcome: written(show(alloc, inputs, history.as_str(), *step, *index)),
            disk,
        },
        Command::Join { files } => Followed {
            outcome: joined(join_files(alloc, inputs, files.as_slice())),
            disk,
        },
        Command::VerifyFile { proof, anchors } => Followed {
            outcome: judged(verify_file(alloc, inputs, proof.as_str(), anchors.as_str(), false)),
            disk,
        },
        Command::Strict { proof, anchors } => Followed {
            outcome: judged(verify_file(alloc, inputs, proof.as_str(), anchors.as_str(), true)),
            disk,
        },
        Command::VerifyOne { proof, anchor } => Followed {
            outcome: judged(verify_one(alloc, inputs, proof.as_str(), *anchor)),
            disk,
        },
        Command::CheckMap { low, high, anchors } => Followed {
            outcome: mapped(check_map_files(
                alloc,
                inputs,
                low.as_str(),
                high.as_str(),
                anchors.as_str(),
            )),
            disk,
        },
        Command::Atlas { name, pos, files } => Followed {
            outcome: planned(atlas_files(alloc, inputs, *name, *pos, files.as_slice())),
            disk,
        },
        Command::Audit {
            proof,
            anchors,
            histories,
        } => Followed {
            outcome: audited(audit_files(
                alloc,
                inputs,
                proof.as_str(),
                anchors.as_str(),
                histories.as_slice(),
            )),
            disk,
        },
        Command::Adopt {
            history,
            anchors,
            proof,
            more,
        } => Followed {
            outcome: taken(adopt_files(
                alloc,
                inputs,
                history.as_str(),
                anchors.as_str(),
                proof.as_str(),
                more.as_slice(),
            )),
            disk,
        },
        Command::Accuse {
            first,
            second,
            link: None,
        } => Followed {
            outcome: accused(accuse_pair(alloc, inputs, first.as_str(), second.as_str())),
            disk,
        },
        Command::Accuse {
            first,
            second,
            link: Some(link),
        } => Followed {
            outcome: accused(accuse_linked(
                alloc,
                inputs,
                first.as_str(),
                second.as_str(),
                link.as_str(),
            )),
            disk,
        },
        Command::CheckFork { file, anchors } => Followed {
            outcome: fork_judged(check_fork_files(alloc, inputs, file.as_str(), anchors.as_str())),
            disk,
        },
        Command::Replay { file } => Followed {
            outcome: written(play_file(alloc, inputs, file.as_str())),
            disk,
        },
        Command::Generate { number, steps } => Followed {
            outcome: written(generate_world(alloc, *number, *steps)),
            disk,
        },
        Command::Watch { name } => with_thread(watch(alloc, disk, *name)),
        Command::Offer { file } => with_thread(offer(alloc, disk, inputs, file.as_str())),
        Command::Heads => with_bytes(list_heads(alloc, disk)),
    }
}

/// What came of a command that makes a service, a step or a follower, or offers a follower a message.
fn with_thread<D>(worked: Worked<D, Thread>) -> Followed<D>
    ensures outcome { result.outcome ≡ outcome_by OfThread worked.outcome }
    ensures disk { result.disk ≡ worked.disk }
{
    Followed {
        outcome: made(worked.outcome),
        disk: worked.disk,
    }
}

/// What came of a command that makes a proof, a map file, a history file or a message, or tells heads.
fn with_bytes<D>(worked: Worked<D, Bytes>) -> Followed<D>
    ensures outcome { result.outcome ≡ outcome_by OfBytes worked.outcome }
    ensures disk { result.disk ≡ worked.disk }
{
    Followed {
        outcome: written(worked.outcome),
        disk: worked.disk,
    }
}

/// What came of a command that receives a message.
fn with_receipt<D>(worked: Worked<D, Receipt>) -> Followed<D>
    ensures outcome { result.outcome ≡ outcome_by OfReceipt worked.outcome }
    ensures disk { result.disk ≡ worked.disk }
{
    Followed {
        outcome: received(worked.outcome),
        disk: worked.disk,
    }
}

/// The key of a peer's step.
fn key_of(peer: Name, step: u64) -> Key
    ensures { result ≡ record { from = peer; step = step } }
{
    Key { from: peer, step }
}
