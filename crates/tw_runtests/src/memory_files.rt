// Runs over a disk, files and an output that transfer a few bytes at a time, are interrupted, and fail; all in memory.

use crate::playing::{event_file, words};
use std::alloc::Global;
use std::process::Abort;
use tw_app::run;
use tw_hostio::{Access, FileDisk, HostInputs, HostSink, MemFile, MemInput, MemOutput};
use tw_outside::MemSink;

/// The line that tells of a service's first step, as a file of it holds it.
const FIRST: &str = "a 0 712a98165e96cb35d4ff3630786a060f8670f726c26cdb94247ec0f033a632af\n";

/// The files, of which a read gives five bytes at most, and the second call is interrupted.
fn short_files(rt: &impl Abort, alloc: Global) -> HostInputs<MemInput> {
    let mut files = MemInput::new(alloc, event_file(rt, alloc), 5);
    files.interrupt(2).expect(rt, "memory");
    HostInputs::over(files)
}

/// An output that takes seven bytes at most, of which the second write is interrupted.
fn short_output(rt: &impl Abort, alloc: Global) -> HostSink<MemOutput> {
    let mut output = MemOutput::new(alloc, MemSink::new(alloc), 7);
    output.interrupt(2).expect(rt, "memory");
    HostSink::over(output)
}

/// A file with these bytes, of which a call transfers a thousand bytes at most, and the calls of these numbers are interrupted, or fail.
fn short_file(
    rt: &impl Abort,
    alloc: Global,
    bytes: &[u8],
    interrupted: u64,
    failing: u64,
) -> FileDisk<MemFile> {
    let mut file = MemFile::new(alloc, Access::Write, bytes, 1000).expect(rt, "memory");
    file.interrupt(interrupted).expect(rt, "memory");
    file.fail(failing).expect(rt, "memory");
    FileDisk::over(file)
}

/// The status of the run of this line, and the disk, where what it wrote is this text.
fn told(
    rt: &impl Abort,
    alloc: Global,
    disk: FileDisk<MemFile>,
    line: &str,
    text: Option<&str>,
) -> (u8, FileDisk<MemFile>) {
    let mut inputs = short_files(rt, alloc);
    let mut out = short_output(rt, alloc);
    let words = words(rt, alloc, line);
    let ended = run(alloc, words.as_slice(), disk, &mut inputs, &mut out);
    if let Some(text) = text {
        assert_eq!(rt; out.output().sink().taken(), text.as_bytes(), "{line}");
    }
    (ended.status, ended.disk)
}

/// A disk with the service `a`, which was made over a file whose third call, of its length, is interrupted.
fn made(rt: &impl Abort, alloc: Global) -> FileDisk<MemFile> {
    let disk = short_file(rt, alloc, &[], 3, 0);
    let (status, disk) = told(rt, alloc, disk, "init d a", Some(FIRST));
    assert_eq!(rt; status, 0);
    disk
}

#[test]
fn a_service_over_short_transfers(rt: HostRuntime) {
    let alloc = rt.alloc();
    let disk = made(&rt, alloc);
    let (added, disk) = told(&rt, alloc, disk, "append d e", None);
    let (proved, disk) = told(&rt, alloc, disk, "prove d event 1 0", None);
    assert_eq!(rt; (added, proved), (0, 0));
    drop(disk);
}

/// Whether a step can be added to what stands in these bytes, whatever the append did at which this call failed.
fn stands_after_fault(rt: &impl Abort, alloc: Global, bytes: &[u8], call: u64) -> bool {
    let disk = short_file(rt, alloc, bytes, 0, call);
    let (status, disk) = told(rt, alloc, disk, "append d e", None);
    let disk = short_file(rt, alloc, disk.file().bytes(), 0, 0);
    let (added, disk) = told(rt, alloc, disk, "append d e", None);
    drop(disk);
    (status == 0 || status == 5) && added == 0
}

#[test]
fn each_call_of_an_append_fails_in_turn(rt: HostRuntime) {
    let alloc = rt.alloc();
    let disk = made(&rt, alloc);
    for call in 1..40 {
        assert!(rt;
            stands_after_fault(&rt, alloc, disk.file().bytes(), call),
            "{call}"
        );
    }
    drop(disk);
}
