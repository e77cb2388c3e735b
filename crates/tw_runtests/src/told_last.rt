// Runs over a disk and a sink that watch each other: nothing is told while a write is open, and nothing is written behind what is told.
// No clause says in which order a run does both: `work` has no sink, and `tell` no disk.

use crate::playing::{after_all, files, words};
use std::alloc::Global;
use std::cell::Cell;
use std::process::Abort;
use tw_app::run;
use tw_base::{Failed, Page};
use tw_disk::{Disk, MemDisk};
use tw_outside::{MemInputs, Sink};

/// What a disk and a sink have seen of each other.
#[derive(Drop)]
struct Notes {
    /// A write was made since the last good barrier.
    is_open: Cell<bool>,
    /// A piece was told.
    is_told: Cell<bool>,
    /// A piece was told while a write was open, or a write was made behind a piece.
    is_early: Cell<bool>,
}

/// A disk that notes its writes.
#[derive(Drop)]
struct NotedDisk<'a, D> {
    disk: D,
    notes: &'a Notes,
}

impl<D: Disk> Disk for NotedDisk<'_, D> {
    ghost view = { λ noted. D.Disk.view noted.disk };

    ghost count_is_told = { λ noted c is. D.Disk.count_is_told noted.disk c is };

    ghost as_it_reads = { λ noted c is. D.Disk.as_it_reads noted.disk c is };

    ghost counts_now = { λ noted t c le left. D.Disk.counts_now noted.disk t c le left };

    ghost only_now = { λ noted c left. D.Disk.only_now noted.disk c left };

    fn pages(&mut self) -> Result<u64, Failed> {
        self.disk.pages()
    }

    fn read(&mut self, page: u64, into: &mut Page) -> Result<(), Failed> {
        self.disk.read(page, into)
    }

    fn write(&mut self, page: u64, from: &Page) -> Result<(), Failed> {
        self.notes.is_open.set(true);
        if self.notes.is_told.get() {
            self.notes.is_early.set(true);
        }
        self.disk.write(page, from)
    }

    fn barrier(&mut self) -> Result<(), Failed> {
        self.disk.barrier()?;
        self.notes.is_open.set(false);
        Ok(())
    }
}

/// A sink that asks at each piece whether a write is open. It doesn't tell what it takes.
#[derive(Drop)]
struct AskingSink<'a> {
    notes: &'a Notes,
}

impl Sink for AskingSink<'_> {
    ghost use Rattle.std.specs.Prelude.{None};

    ghost taken = { λ _. None };

    ghost faults = { λ _. 0 };

    fn write(&mut self, piece: &[u8]) -> Result<usize, Failed> {
        self.notes.is_told.set(true);
        if self.notes.is_open.get() {
            self.notes.is_early.set(true);
        }
        Ok(piece.len())
    }
}

/// Whether the run of these words is done, and tells only behind its work, over the disk that these lines made.
fn tells_last(rt: &impl Abort, alloc: Global, made: &[(&str, &str)], line: &str) -> bool {
    let mut inputs = files(rt, alloc);
    let disk = after_all(rt, alloc, MemDisk::new(alloc), &mut inputs, made);
    let notes = Notes {
        is_open: Cell::new(false),
        is_told: Cell::new(false),
        is_early: Cell::new(false),
    };
    let status = status_of(rt, alloc, disk, &mut inputs, line, &notes);
    status == 0 && notes.is_told.get() && !notes.is_early.get()
}

/// The status of these words over such a disk and such a sink.
fn status_of(
    rt: &impl Abort,
    alloc: Global,
    disk: MemDisk,
    inputs: &mut MemInputs,
    line: &str,
    notes: &Notes,
) -> u8 {
    let words = words(rt, alloc, line);
    let disk = NotedDisk { disk, notes };
    let mut out = AskingSink { notes };
    run(alloc, words.as_slice(), disk, inputs, &mut out).status
}

#[test]
fn each_command_that_writes_tells_last(rt: HostRuntime) {
    let alloc = rt.alloc();
    assert!(rt; tells_last(&rt, alloc, &[], "init d a"));
    assert!(rt; tells_last(&rt, alloc, &[("init d a", "line")], "append d e"));
    assert!(rt; tells_last(&rt, alloc, &[("init d a", "line")], "receive d m"));
    assert!(rt; tells_last(&rt, alloc, &[], "watch d b"));
    assert!(rt; tells_last(&rt, alloc, &[("watch d b", "line")], "offer d m"));
}
