// Runs of the program over files and a disk in memory, by the words of a line.

use std::alloc::Global;
use std::process::Abort;
use tw_app::{Ran, run};
use tw_disk::MemDisk;
use tw_outside::{MemInputs, MemSink};

/// The words of a line, with one blank between.
pub(crate) fn words(rt: &impl Abort, alloc: Global, line: &str) -> Vec<String> {
    let mut words = Vec::new(alloc);
    for text in line.split_whitespace() {
        let word = String::from_str(alloc, text).expect(rt, "memory");
        words.push(word).expect(rt, "memory");
    }
    words
}

/// How the run of these words ends.
pub(crate) fn ran(
    rt: &impl Abort,
    alloc: Global,
    disk: MemDisk,
    inputs: &mut MemInputs,
    line: &str,
    out: &mut MemSink,
) -> Ran<MemDisk> {
    let words = words(rt, alloc, line);
    run(alloc, words.as_slice(), disk, inputs, out)
}

/// The status of such a run, and the disk.
pub(crate) fn status_of(
    rt: &impl Abort,
    alloc: Global,
    disk: MemDisk,
    inputs: &mut MemInputs,
    line: &str,
) -> (u8, MemDisk) {
    let mut out = MemSink::new(alloc);
    let ended = ran(rt, alloc, disk, inputs, line, &mut out);
    (ended.status, ended.disk)
}

/// The disk after a run that has to be done, of which what is written becomes the file of this name.
pub(crate) fn after(
    rt: &impl Abort,
    alloc: Global,
    disk: MemDisk,
    inputs: &mut MemInputs,
    line: &str,
    file: &str,
) -> MemDisk {
    let mut out = MemSink::new(alloc);
    let ended = ran(rt, alloc, disk, inputs, line, &mut out);
    assert_eq!(rt; ended.status, 0, "{line}");
    inputs.put(file, out.taken()).expect(rt, "memory");
    ended.disk
}

/// The disk after such runs, one after another, each with its file.
pub(crate) fn after_all(
    rt: &impl Abort,
    alloc: Global,
    disk: MemDisk,
    inputs: &mut MemInputs,
    lines: &[(&str, &str)],
) -> MemDisk {
    let mut disk = disk;
    for (line, file) in lines {
        disk = after(rt, alloc, disk, inputs, line, file);
    }
    disk
}

/// A file of one empty event, as `e`.
pub(crate) fn event_file(rt: &impl Abort, alloc: Global) -> MemInputs {
    let mut inputs = MemInputs::new(alloc);
    inputs
        .put("e", b"TWE1\0\0\0\x01\0\0\0\0")
        .expect(rt, "memory");
    inputs
}

/// That file, and the messages `m` and `n` of the two steps of a service `b`, of which the second goes on from the first.
pub(crate) fn files(rt: &impl Abort, alloc: Global) -> MemInputs {
    let mut inputs = event_file(rt, alloc);
    let told = [
        ("init d b", "line"),
        ("append d e", "line"),
        ("thread d 0", "m"),
        ("append d e", "line"),
        ("thread d 1", "n"),
    ];
    drop(after_all(rt, alloc, MemDisk::new(alloc), &mut inputs, &told));
    inputs
}
