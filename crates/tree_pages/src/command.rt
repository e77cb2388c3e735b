// What a line of this program's input says that is to be done; the commands of `timeweave` are in tw_words.

use crate::stop::Stop;

/// What is to be done.
#[derive(Clone, Copy, Drop)]
pub enum Command {
    Insert(u64),
    At(u64),
    Root,
    Pages,
    List,
    Get(u64),
    Present(u64),
    Absent(u64),
}

/// What the line says.
pub fn read_command(line: &str) -> Result<Command, Stop> {
    match line {
        "root" => Ok(Command::Root),
        "pages" => Ok(Command::Pages),
        "list" => Ok(Command::List),
        _ => read_numbered(line).ok_or(Stop::BadLine),
    }
}

/// What the line says that has a word and a number.
fn read_numbered(line: &str) -> Option<Command> {
    let (word, number) = line.split_once(' ')?;
    let number = number.parse().ok()?;
    match word {
        "insert" => Some(Command::Insert(number)),
        "at" => Some(Command::At(number)),
        "get" => Some(Command::Get(number)),
        "present" => Some(Command::Present(number)),
        "absent" => Some(Command::Absent(number)),
        _ => None,
    }
}
