// Runs of the commands with a folder over a disk whose reads contradict each other: each ends with a status that such a disk may bring
// about.

use crate::playing::{after_all, files, words};
use std::alloc::Global;
use std::process::Abort;
use tw_app::run;
use tw_disk::{FickleDisk, MemDisk};
use tw_outside::{MemInputs, MemSink};

/// How many seeds are tried.
const SEEDS: u64 = 6;

/// After how many reads the disk gives other bytes: at once, and once a service or a follower is opened.
const HONEST: [u64; 2] = [0, 4];

/// The lines that make a service `a` of four steps, of which the second received a thread of `b`.
const MADE: [(&str, &str); 5] = [
    ("init d a", "line"),
    ("append d e", "line"),
    ("receive d m", "line"),
    ("append d e", "line"),
    ("append d e", "line"),
];

/// The words of each command that works on it.
const ASKED: [&str; 11] = [
    "init d a",
    "append d e",
    "receive d n",
    "thread d 1",
    "prove d event 3 0",
    "prove d link 2",
    "prove d thread 4 b 1",
    "prove d absent 4 b 2",
    "map d low 3 b",
    "map d high 1 b",
    "export d",
];

/// The lines that make a follower of `b`, at its first step.
const WATCHED: [(&str, &str); 2] = [("watch d b", "line"), ("offer d m", "line")];

/// The words of each command that works on it.
const FOLLOWED: [&str; 3] = ["watch d b", "offer d n", "heads d"];

/// The status of the words over this disk; playing.rt has that over a disk in memory.
fn status_of(
    rt: &impl Abort,
    alloc: Global,
    disk: FickleDisk,
    inputs: &mut MemInputs,
    line: &str,
) -> u8 {
    let words = words(rt, alloc, line);
    let mut out = MemSink::new(alloc);
    run(alloc, words.as_slice(), disk, inputs, &mut out).status
}

/// The words end by name over the disk that these lines made, which gives other bytes after so many reads.
fn ends_by_name(
    rt: &impl Abort,
    alloc: Global,
    made: &[(&str, &str)],
    line: &str,
    honest: u64,
    seed: u64,
) {
    let mut inputs = files(rt, alloc);
    let disk = after_all(rt, alloc, MemDisk::new(alloc), &mut inputs, made);
    let disk = FickleDisk::new(disk, honest, seed);
    let status = status_of(rt, alloc, disk, &mut inputs, line);
    assert!(rt; status == 0 || status == 7 || status == 8, "{line}");
}

/// Each of these lines ends by name over such disks.
fn all_end_by_name(rt: &impl Abort, alloc: Global, made: &[(&str, &str)], lines: &[&str]) {
    for line in lines {
        for honest in HONEST {
            for seed in 0..SEEDS {
                ends_by_name(rt, alloc, made, line, honest, seed);
            }
        }
    }
}

#[test]
fn each_command_ends_by_name(rt: HostRuntime) {
    all_end_by_name(&rt, rt.alloc(), &MADE, &ASKED);
}

#[test]
fn each_command_of_a_follower_ends_by_name(rt: HostRuntime) {
    all_end_by_name(&rt, rt.alloc(), &WATCHED, &FOLLOWED);
}
