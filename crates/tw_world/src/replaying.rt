// The call that plays a script: all lines are read, each is played (`player.rt`), and what they are told is printed. The
// command is in tw_app/src/replaying.rt.

ghost use Rattle.std.specs.Prelude.{◌≡◌, ◌++◌, length, IfOk, OnOk};
ghost use Rattle.tw_world.specs.Hosts.{hosts_line};
ghost use Rattle.tw_world.specs.Telling.{told_lines};
ghost use Rattle.tw_world.specs.PlayedLines.{AreHostDisks, AreLinesRead, AreSorted};
ghost use Rattle.tw_world.specs.Playing.{IsPlayed, Replays};

use crate::counts::Counts;
use crate::host::Host;
use crate::player::Player;
use crate::summary::print_summary;
use crate::telling::print_lines;
use crate::told::Told;
use std::alloc::Global;
use tw_base::{Bytes, Name, NoMemory, Sequence};
use tw_disk::MemDisk;
use tw_script::{Script, ScriptFault, read_script};

/// A service's disk at the end.
#[derive(Drop)]
pub struct WorldDisk {
    pub name: Name,
    /// At rest.
    pub disk: MemDisk,
}

/// The disks of a world's services, in the order of their names.
pub type WorldDiskList = Sequence<WorldDisk>;

/// What came of a script.
#[derive(Drop)]
pub struct Played {
    /// A line for each line of the script that isn't skipped, and the summary with its line feed.
    pub text: Bytes,
    pub counts: Counts,
    pub disks: WorldDiskList,
}

/// The promised name of what came of a script.
pub type Replayed = Played;

/// The promised name of why a script isn't played.
pub type ReplayFault = ScriptFault;

/// Plays a script: several services on disks in memory, messages between them, losses, repeats, crashes, proofs and verdicts.
/// The whole script is read before anything runs; BadLine and TooLong come exactly where reading it tells them. NoMemory is
/// for want of memory.
pub fn replay(alloc: Global, bytes: &[u8]) -> Result<Played, ScriptFault>
    // A script is played exactly where the bytes are one. Its lines are told one after another, by the rules of worlds, from a
    // world of nothing on, in which no service claims a time. The text has what was told, each behind its line's number, and then
    // the summary of it and of the numbers of steps at the end; the counts are the numbers of lines whose answers begin with each
    // of the four words; and there is one disk for each service, in the order of their names, at rest, which stands for good for
    // the history that the service has at the end. Each line led to them from the disks that the line before it left. A crash line
    // has its crash wait. The service's next append, or delivery of a message that was made, runs over its disk, planned to stop at
    // the crash's call behind the one that opening makes; it is told its answer where it has one, and as stopped only where that
    // disk is; and then the pages are those that the crash's choice leaves of what was written. Else the line is told that reading
    // tells.
    ensures { Replays bytes.now result }
{
    match read_script(alloc, bytes) {
        Ok(script) => Ok(play(alloc, &script)?),
        Err(fault) => Err(fault),
    }
}

/// Plays the lines of a script.
fn play(alloc: Global, script: &Script) -> Result<Played, NoMemory>
    requires { AreLinesRead script.now }
    ensures { IfOk result (IsPlayed script.now) }
{
    let mut player = Player::new(alloc);
    let told = player.play_lines(script)?;
    let hosts = player.into_hosts();
    let counts = Counts::of(told.as_slice());
    let text = print_all(alloc, script, told.as_slice(), &counts, &hosts)?;
    let disks = disks_of(alloc, hosts)?;
    Ok(Played {
        text,
        counts,
        disks,
    })
}

/// All that is written: the lines, and the summary.
fn print_all(
    alloc: Global,
    script: &Script,
    told: &[Told],
    counts: &Counts,
    hosts: &[Host],
) -> Result<Bytes, NoMemory>
    requires { length told.now ≡ length script.now }
    ensures { IfOk result (λ text. text ≡ told_lines script.now told.now ++ hosts_line counts.now hosts.now) }
{
    let mut text = print_lines(alloc, script, told)?;
    text.extend_from_slice(print_summary(alloc, counts, hosts)?.as_slice())?;
    Ok(text)
}

/// Sorts services by their names.
fn sort_hosts(hosts: &mut Vec<Host>) -> Result<(), NoMemory>
    ensures { OnOk result (AreSorted hosts.old.items hosts.new.items) }
{
    hosts.sort_by_key(|host| host.name)?;
    Ok(())
}

/// The disks of the services, in the order of their names.
fn disks_of(alloc: Global, hosts: Vec<Host>) -> Result<WorldDiskList, NoMemory>
    ensures { IfOk result (AreHostDisks hosts.items) }
{
    let mut hosts = hosts;
    sort_hosts(&mut hosts)?;
    let mut disks = WorldDiskList::new(alloc);
    for host in hosts {
        disks.push(WorldDisk {
            name: host.name,
            disk: host.disk,
        })?;
    }
    Ok(disks)
}
