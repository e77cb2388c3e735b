// Runs of the commands that work on a service, over a disk in memory: how many calls and reads of the disk they make, and what stands
// where a call is stopped or fails.

ghost use Rattle.std.specs.Prelude.{◌≤◌};

use crate::playing::{after_all, event_file, files, ran, status_of};
use std::alloc::Global;
use std::process::Abort;
use tw_disk::{Disk, MemDisk};
use tw_outside::{MemInputs, MemSink};
use tw_skipproof::LEAST_EXISTENCE;

/// What makes a service of one step, with the device calls and the reads that are made. Opening takes a call, and reads two gates and two
/// bodies; a commit of an event page and a step page takes eight calls.
const MADE: [(&str, u64, u64); 2] = [("init d a", 10, 0), ("append d e", 9, 4)];

/// Five steps more.
const MORE: [(&str, &str); 5] = [
    ("append d e", "line"),
    ("append d e", "line"),
    ("append d e", "line"),
    ("append d e", "line"),
    ("append d e", "line"),
];

/// What is asked of it then, and what that costs.
const ASKED: [(&str, u64, u64); 6] = [
    // (step 7 has one link, to the last step)
    ("append d e", 9, 4),
    // (step 8 has four, by the pages of steps 7, 6 and 4)
    ("append d e", 9, 7),
    // (the pages of steps 8, 4, 2 and 1, and an event page)
    ("prove d event 1 0", 1, 9),
    // (the pages of steps 8, 4 and 2)
    ("prove d link 1", 1, 7),
    ("thread d 1", 1, 7),
    // (each step's page, and its event page)
    ("export d", 1, 20),
];

/// What makes a follower and moves it, and what that costs.
const FOLLOWED: [(&str, u64, u64); 2] = [("watch d b", 10, 0), ("offer d m", 8, 4)];

/// The lines that add a step to the service, each with one that proves what it recorded.
const ADDED: [(&str, &str); 2] = [
    ("append d e", "prove d event 1 0"),
    ("receive d m", "prove d thread 1 b 1"),
];

/// The line of step 0 of the service `a`.
const FIRST: &str = "a 0 712a98165e96cb35d4ff3630786a060f8670f726c26cdb94247ec0f033a632af\n";

/// A disk with the service `a`, without a step.
fn made(rt: &impl Abort, alloc: Global, inputs: &mut MemInputs) -> MemDisk {
    let made = [("init d a", "line")];
    after_all(rt, alloc, MemDisk::new(alloc), inputs, &made)
}

/// The disk after a run that is done, and makes so many device calls and reads.
fn after_costs(
    rt: &impl Abort,
    alloc: Global,
    disk: MemDisk,
    inputs: &mut MemInputs,
    line: &str,
    costs: (u64, u64),
) -> MemDisk {
    let (calls, reads) = (disk.device_calls(), disk.reads());
    let (status, disk) = status_of(rt, alloc, disk, inputs, line);
    let calls = disk.device_calls().saturating_sub(calls);
    let reads = disk.reads().saturating_sub(reads);
    assert_eq!(rt; status, 0, "{line}");
    assert_eq!(rt; (calls, reads), costs, "{line}");
    disk
}

/// The disk after such runs, one after another.
fn after_all_costs(
    rt: &impl Abort,
    alloc: Global,
    disk: MemDisk,
    inputs: &mut MemInputs,
    lines: &[(&str, u64, u64)],
) -> MemDisk {
    let mut disk = disk;
    for (line, calls, reads) in lines {
        disk = after_costs(rt, alloc, disk, inputs, line, (*calls, *reads));
    }
    disk
}

#[test]
fn each_page_of_a_way_is_read_once(rt: HostRuntime) {
    let alloc = rt.alloc();
    let mut inputs = files(&rt, alloc);
    let disk = after_all_costs(&rt, alloc, MemDisk::new(alloc), &mut inputs, &MADE);
    let disk = after_all(&rt, alloc, disk, &mut inputs, &MORE);
    drop(after_all_costs(&rt, alloc, disk, &mut inputs, &ASKED));
    let disk = MemDisk::new(alloc);
    drop(after_all_costs(&rt, alloc, disk, &mut inputs, &FOLLOWED));
}

/// The disk, on which the line ends with this status and text.
fn after_told(
    rt: &impl Abort,
    alloc: Global,
    disk: MemDisk,
    inputs: &mut MemInputs,
    line: &str,
    told: (u8, &str),
) -> MemDisk {
    let (status, text) = told;
    let mut out = MemSink::new(alloc);
    let ended = ran(rt, alloc, disk, inputs, line, &mut out);
    assert_eq!(rt; ended.status, status, "{line}");
    assert_eq!(rt; out.taken(), text.as_bytes(), "{line}");
    ended.disk
}

/// The disk, on which the line isn't done, since this call of it fails.
fn after_fault(
    rt: &impl Abort,
    alloc: Global,
    disk: MemDisk,
    inputs: &mut MemInputs,
    line: &str,
) -> MemDisk {
    after_told(rt, alloc, disk, inputs, line, (5, "fault disk\n"))
}

/// The disk, on which the line is done, and what it recorded is proved then.
fn after_going_on(
    rt: &impl Abort,
    alloc: Global,
    disk: MemDisk,
    inputs: &mut MemInputs,
    line: &str,
    proved: &str,
) -> MemDisk {
    let (status, disk) = status_of(rt, alloc, disk, inputs, line);
    assert_eq!(rt; status, 0, "{line}");
    let (status, disk) = status_of(rt, alloc, disk, inputs, proved);
    assert_eq!(rt; status, 0, "{proved}");
    disk
}

/// A line that adds a step, one that proves what it recorded, one of its device calls, and what a crash leaves.
#[derive(Clone, Copy)]
struct Trial {
    line: &'static str,
    proved: &'static str,
    call: u64,
    choice: u8,
}

/// A run of the line is stopped at this call, and a crash leaves the outcome of the choice: the step is there or not, and the line is done then.
fn stopped(rt: &impl Abort, alloc: Global, inputs: &mut MemInputs, trial: Trial)
    requires called { 1 ≤ trial.call }
    requires chosen { trial.choice ≤ 3 }
{
    let mut disk = made(rt, alloc, inputs);
    disk.stop_at(trial.call);
    let mut disk = after_fault(rt, alloc, disk, inputs, trial.line);
    disk.crash(trial.choice);
    let (status, disk) = status_of(rt, alloc, disk, inputs, trial.proved);
    assert!(rt; status == 0 || status == 7, "{}", trial.proved);
    drop(after_going_on(rt, alloc, disk, inputs, trial.line, trial.proved));
}

/// A call fails in a run of the line; it is done then, and stands after a crash.
fn failed(rt: &impl Abort, alloc: Global, inputs: &mut MemInputs, trial: Trial)
    requires { trial.choice ≤ 3 }
{
    let mut disk = made(rt, alloc, inputs);
    disk.fail(trial.call).expect(rt, "memory");
    let disk = after_fault(rt, alloc, disk, inputs, trial.line);
    let mut disk = after_going_on(rt, alloc, disk, inputs, trial.line, trial.proved);
    disk.crash(trial.choice);
    let (status, disk) = status_of(rt, alloc, disk, inputs, trial.proved);
    assert_eq!(rt; status, 0, "{}", trial.proved);
    drop(disk);
}

/// Each trial of the lines: a run is stopped, or a call of it fails.
fn tried(rt: &impl Abort, alloc: Global, stops: bool) {
    let mut inputs = files(rt, alloc);
    for (line, proved) in ADDED {
        for call in 1u64..10 {
            for choice in 0u8..4 {
                let trial = Trial {
                    line,
                    proved,
                    call,
                    choice,
                };
                if stops {
                    stopped(rt, alloc, &mut inputs, trial);
                } else {
                    failed(rt, alloc, &mut inputs, trial);
                }
            }
        }
    }
}

#[test]
fn a_crash_at_each_call_leaves_the_step_or_none(rt: HostRuntime) {
    tried(&rt, rt.alloc(), true);
}

#[test]
fn a_step_made_after_a_disk_fault_stands_after_a_crash(rt: HostRuntime) {
    tried(&rt, rt.alloc(), false);
}

/// A run that makes the service is stopped at this call, and a crash leaves the outcome of the choice.
fn after_stopped_making(
    rt: &impl Abort,
    alloc: Global,
    inputs: &mut MemInputs,
    call: u64,
    choice: u8,
) -> MemDisk
    requires called { 1 ≤ call }
    requires chosen { choice ≤ 3 }
{
    let mut disk = MemDisk::new(alloc);
    disk.stop_at(call);
    let mut disk = after_fault(rt, alloc, disk, inputs, "init d a");
    disk.crash(choice);
    disk
}

/// The service is there or not, and is made then; it goes on.
fn making_goes_on(rt: &impl Abort, alloc: Global, disk: MemDisk, inputs: &mut MemInputs) {
    let (status, disk) = status_of(rt, alloc, disk, inputs, "export d");
    let (made, disk) = status_of(rt, alloc, disk, inputs, "init d a");
    assert!(rt; (status, made) == (0, 7) || (status, made) == (8, 0));
    drop(after_going_on(rt, alloc, disk, inputs, "append d e", "prove d event 1 0"));
}

#[test]
fn a_crash_at_each_call_of_a_making_leaves_the_service_or_none(rt: HostRuntime) {
    let alloc = rt.alloc();
    let mut inputs = event_file(&rt, alloc);
    for call in 1u64..11 {
        for choice in 0u8..4 {
            let disk = after_stopped_making(&rt, alloc, &mut inputs, call, choice);
            making_goes_on(&rt, alloc, disk, &mut inputs);
        }
    }
}

#[test]
fn a_making_stopped_at_its_third_call_leaves_a_blank_disk(rt: HostRuntime) {
    let alloc = rt.alloc();
    let mut inputs = event_file(&rt, alloc);
    for choice in 0u8..4 {
        let mut disk = after_stopped_making(&rt, alloc, &mut inputs, 3, choice);
        assert!(rt; disk.pages().unwrap_or(3) <= 2);
        let blank = (8, "store Blank\n");
        let disk = after_told(&rt, alloc, disk, &mut inputs, "append d e", blank);
        let disk = after_told(&rt, alloc, disk, &mut inputs, "init d a", (0, FIRST));
        let taken = (7, "refused Taken\n");
        drop(after_told(&rt, alloc, disk, &mut inputs, "init d a", taken));
    }
}

/// Gives the inputs a file of so many events of 1,024 bytes, at most 255.
fn put_long_events(rt: &impl Abort, alloc: Global, inputs: &mut MemInputs, file: &str, count: u8) {
    let mut bytes = Vec::new(alloc);
    bytes.extend_from_slice(b"TWE1\0\0\0").expect(rt, "memory");
    bytes.push(count).expect(rt, "memory");
    for _ in 0..count {
        bytes.extend_from_slice(&[0, 0, 4, 0]).expect(rt, "memory");
        bytes.extend_from_slice(&[9; 1024]).expect(rt, "memory");
    }
    inputs.put(file, bytes.as_slice()).expect(rt, "memory");
}

#[test]
fn a_full_step_of_long_events_takes_24_device_calls(rt: HostRuntime) {
    let alloc = rt.alloc();
    let mut inputs = event_file(&rt, alloc);
    put_long_events(&rt, alloc, &mut inputs, "longer", 65);
    put_long_events(&rt, alloc, &mut inputs, "longest", 64);
    let disk = made(&rt, alloc, &mut inputs);
    let too_long = (7, "refused TooLong 66560\n");
    let disk = after_told(&rt, alloc, disk, &mut inputs, "append d longer", too_long);

    // (the opening makes a call; before the pages of 17 times 4,085 bytes of events, and of the step, the disk has four)
    let mut disk = after_costs(&rt, alloc, disk, &mut inputs, "append d longest", (25, 4));
    assert_eq!(rt; disk.pages().unwrap_or(0), 22);
}

#[test]
fn a_step_stands_that_could_not_be_told(rt: HostRuntime) {
    let alloc = rt.alloc();
    let mut inputs = event_file(&rt, alloc);
    let disk = made(&rt, alloc, &mut inputs);
    let mut out = MemSink::new(alloc);
    out.fail(1).expect(&rt, "memory");
    let ended = ran(&rt, alloc, disk, &mut inputs, "append d e", &mut out);
    assert_eq!(rt; ended.status, 4);
    inputs.fail(1).expect(&rt, "memory");
    let (status, mut disk) = status_of(&rt, alloc, ended.disk, &mut inputs, "append d e");
    assert_eq!(rt; status, 3);
    disk.fail_read(1).expect(&rt, "memory");
    let disk = after_fault(&rt, alloc, disk, &mut inputs, "append d e");
    let proved = ran(&rt, alloc, disk, &mut inputs, "prove d event 1 0", &mut out);
    assert_eq!(rt; proved.status, 0);
    assert_eq!(rt; out.taken(), LEAST_EXISTENCE.as_slice());
}
