//! An archive's tree in pages in memory: reads what is to be done from standard input, a line each, and prints what comes of it, for
//! another program to compare or to time.
//!
//! Entry `K` is of step `K` of the service `p` with the digit `K` modulo 7; its authenticator is the SHA-256 of `K` in 8 bytes, and the
//! step that archived it is its place in the order of insertion, from 1.
//!
//! | Line | What is done | What is printed |
//! |---|---|---|
//! | `insert K` | makes a version with entry `K` more than the one looked at, and looks at it | |
//! | `at N` | looks at the version that the insert of this number made; at 0 at the empty one | |
//! | `root` | | `root`, the numbers of entries and of pages, the root's page and its level, its label |
//! | `pages` | | `pages`, the SHA-256 of all pages from page 4 on |
//! | `list` | finds the entries from the least one up, from the greatest one down, and by their keys | `list`, their number, the SHA-256 of the bytes of each |
//! | `get K` | reads entry `K` | `get`, how many pages were read, the step that archived it, 0 where it isn't there |
//! | `present K` | proves entry `K` | `proof`, the number of ancestors, the SHA-256 of the proof's bytes |
//! | `absent K` | proves that `p0` has no entry of step `K` | the same |
#![tactic(auto)]

mod answers;
mod command;
mod digests;
mod entries;
mod stop;
mod versions;
mod walks;

use answers::answer;
use command::read_command;
use std::io::{BufRead, BufReader};
use stop::Stop;
use versions::Versions;

fn main(rt: HostRuntime) -> Result<(), Stop> {
    let mut versions = Versions::new(rt.alloc())?;
    for line in BufReader::new(rt.alloc(), rt.reader())?.lines(rt.alloc()) {
        let command = read_command(line?.as_str())?;
        let text = answer(rt.alloc(), &mut versions, command)?;
        rt.print(text)?;
    }
    Ok(())
}
