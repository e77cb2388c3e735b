// The law of runs of a service's calls on one disk; `published.rt` has that of whole runs of the program, and
// tw_pages/src/running.rt that of values over any record.

ghost use Rattle.std.specs.Prelude.{ℕ, List};
ghost use Rattle.tw_base.specs.history.History.{History};
ghost use Rattle.tw_pages.specs.Runs.{IsRunFrom, disk_at, end_of};
ghost use Rattle.tw_laws.specs.Runs.{BeginsHistory, HasOneAuthenticator, IsServicePublished, IsStateOf, services};

use tw_base::Hasher;
use tw_disk::Disk;
use tw_service::Service;

/// No second authenticator: over every run of openings, calls, refusals, disk faults, kills and crashes at
/// any moment on one disk, one thread of each step is published at most, and it is one of each history
/// that the disk may stand for at the end. A run begins on a disk that stands for a history for good, or
/// with a service that serves one; each call of a service is an event of a run, as the functions beside
/// this one say: a call that asks one question has the contract of `ask` for it. The service handed in only names the types.
pub fn run_laws<D: Disk, H: Hasher>(service: &Service<D, H>)
    // Over every run that begins with a history, any two threads of one step are equal, of those of that history and of those
    // published: a thread that `head` tells at some moment, that stands in an answer, or that is one of an exported
    // history. At the end the disk tells what it reads as; that, and each image that a crash may then leave, stands for a
    // history of that name which has all of them.
    ensures runs { (start : _) (name : List ℕ) (h : History) (run : _) → IsStateOf service.now start → BeginsHistory H.dig D.view name h start →
        IsRunFrom D.view (services H.dig D.view) start run →
        HasOneAuthenticator H.dig D.view name h (IsServicePublished H.dig start run) (disk_at D.view (services H.dig D.view) (end_of start run)) }
{}
