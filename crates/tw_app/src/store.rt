// Which store the words ask for, and what their command does with it; what a store is, tw_pages/src/store.rt has.

ghost use Rattle.std.specs.Prelude.{◌≡◌, [], map, slice_index_or, string_bytes, IfOk};
ghost use Rattle.tw_words.specs.declared.command.Command.{Command as AnyCommand};
ghost use Rattle.tw_app.specs.Around.{Outside};
ghost use Rattle.tw_app.specs.Running.{work};
ghost use Rattle.tw_app.specs.Stores.{IsAccessOf, IsStoreOf, access_of as access_of_command};

use std::alloc::Global;
use tw_base::NoMemory;
use tw_disk::Disk;
use tw_words::{Command, WordFault, read_words};

/// What a command does with the store of a folder.
#[derive(Clone, Copy, PartialEq, Eq, Debug, Drop)]
pub enum StoreAccess {
    /// It reads it, and writes nothing.
    Read,
    /// It reads and writes it.
    Write,
}

/// The store that words ask for.
#[derive(Clone, Copy, Debug, Drop)]
pub struct Store<'a> {
    /// The folder that the store lies in, as its word names it.
    pub folder: &'a str,
    /// What their command does with it.
    pub access: StoreAccess,
}

/// What the command does with the store of its folder; none where it works on no folder.
fn access_of(command: &Command) -> Option<StoreAccess>
    ensures { result ≡ access_of_command command.now }
{
    match command {
        Command::Init { .. }
        | Command::Append { .. }
        | Command::Receive { .. }
        | Command::Watch { .. }
        | Command::Offer { .. } => Some(StoreAccess::Write),
        Command::Thread { .. }
        | Command::ProveEvent { .. }
        | Command::ProveThread { .. }
        | Command::ProveAbsent { .. }
        | Command::ProveLink { .. }
        | Command::MapLow { .. }
        | Command::MapHigh { .. }
        | Command::Export
        | Command::Heads => Some(StoreAccess::Read),
        _ => None,
    }
}

/// What the command of the words does with the store of its folder; none where they have no form, or their command works on none.
fn access_in(alloc: Global, words: &[String]) -> Result<Option<StoreAccess>, NoMemory>
    ensures { IfOk result (IsAccessOf (map string_bytes words.now)) }
{
    match read_words(alloc, words) {
        Ok(command) => {
            let access = access_of(&command);
            drop(command);
            Ok(access)
        }
        Err(WordFault::BadWord { .. }) => Ok(None),
        Err(WordFault::NoMemory) => Err(NoMemory),
    }
}

/// The word of the folder: the second one, or the empty one where there is none.
fn folder_of(words: &[String]) -> &str
    ensures { result.now ≡ slice_index_or (map string_bytes words.now) 1 [] }
{
    match words.get(1) {
        Some(word) => word.as_str(),
        None => "",
    }
}

/// The store that the words ask for, which don't hold the program's own name. None where they have no form, or one whose command
/// works on no folder. The words are read for that alone, and `run`, which is handed the store's disk, reads them once more.
pub fn store_of(alloc: Global, words: &[String]) -> Result<Option<Store<'_>>, NoMemory>
    // The store is that of the words' command, with what it does with it, in the folder that the second word names; and none is
    // answered where the words have no form, or their command works on no folder.
    ensures { IfOk result (IsStoreOf (map string_bytes words.now)) }
{
    match access_in(alloc, words)? {
        Some(access) => Ok(Some(Store {
            folder: folder_of(words),
            access,
        })),
        None => Ok(None),
    }
}

/// What a command does with a store is what its work does with the disk.
pub fn store_laws<D: Disk>()
    // Exactly the commands whose work may write the disk write the store, and exactly those whose work reads it and writes nothing
    // read it; all others work on no folder.
    ensures { (o : Outside D) (command : AnyCommand) → (work D.view o command).access ≡ access_of_command command }
{}
