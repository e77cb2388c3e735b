//! Tests of the whole program over files and disks in memory, disks that aren't honest, are stopped or fail among them, and over the
//! host's files.
#![tactic(auto)]

#[cfg(test)]
mod disk_runs;
#[cfg(test)]
mod file_disks;
#[cfg(test)]
mod folders;
#[cfg(test)]
mod generated;
#[cfg(test)]
mod hostile_runs;
#[cfg(test)]
mod memory_files;
#[cfg(test)]
mod playing;
#[cfg(test)]
mod runs;
#[cfg(test)]
mod told_last;
