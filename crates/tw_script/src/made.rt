// What the lines of a script have made so far, by which the next one is judged.

ghost use Rattle.std.specs.Prelude.{◌≡◌, ◌<◌, ◌^◌, ◌&&◌, true, IfOk, OnOk};
ghost use Rattle.std.specs.List.{list_all, list_any};
ghost use Rattle.std.specs.Str.{bytes_eq};
ghost use Rattle.tw_script.specs.Allowed as allowed;
ghost use Rattle.tw_script.specs.Allowed.{made_by, nothing_made};
ghost use Rattle.tw_script.specs.Injected.{is_own_or_none as is_own_or_none_of};
ghost use Rattle.tw_script.specs.LineTakings.{TakesLine};

use crate::limits::MOST_SCRIPT_NAMES;
use crate::line::Line;
use crate::stop::Stop;
use crate::there::There;
use std::alloc::Global;
use tw_base::{Name, NoMemory, ReadFault, Sequence};
use tw_msg::read_message;

/// A name that a line made.
#[derive(Clone, Copy, Drop, Debug)]
pub struct Declared {
    pub name: Name,
    /// Whether it is hostile, and no service's.
    pub hostile: bool,
}

/// What the lines so far have made.
#[derive(Drop, Debug)]
pub struct Made {
    /// The names, in the order in which they were made.
    pub names: Sequence<Declared>,
    /// Of each message, whether it is still there: none dropped it.
    pub messages: There,
    /// How many files.
    pub files: u64,
}

impl Made {
    /// Nothing.
    pub fn new(alloc: Global) -> Made
        ensures { result ≡ nothing_made }
    {
        Made {
            names: Sequence::new(alloc),
            messages: There::new(alloc),
            files: 0,
        }
    }

    /// Whether a name may be made: there is none like it, and there are fewer than 64.
    fn is_free(&self, name: &Name) -> bool
        ensures { result ≡ allowed.is_name_free self.now name.now }
    {
        self.names.len() < MOST_SCRIPT_NAMES && !self.is_named(name)
    }

    /// Whether a line made the name.
    fn is_named(&self, name: &Name) -> bool
        ensures { result ≡ list_any (λ d. bytes_eq d.name name.now) self.now.names }
    {
        self.names.as_slice().iter().any(|d| d.name == *name)
    }

    /// Whether the name is that of a service.
    fn is_service(&self, name: &Name) -> bool
        ensures { result ≡ allowed.is_service self.now name.now }
    {
        self.names
            .as_slice()
            .iter()
            .any(|d| d.name == *name && !d.hostile)
    }

    /// Whether the name is a hostile one.
    fn is_hostile(&self, name: &Name) -> bool
        ensures { result ≡ allowed.is_hostile self.now name.now }
    {
        self.names
            .as_slice()
            .iter()
            .any(|d| d.name == *name && d.hostile)
    }

    /// Whether a line made a file with this number.
    fn is_file(&self, file: u64) -> bool
        ensures { result ≡ allowed.is_file self.now file }
    {
        file >= 1 && file <= self.files
    }

    /// Whether lines made all the files.
    fn are_files(&self, files: &[u64]) -> bool
        ensures { result ≡ list_all (allowed.is_file self.now) files.now }
    {
        files.iter().all(|file| self.is_file(*file))
    }

    /// Whether bytes may be injected in the name.
    fn may_inject(&self, alloc: Global, name: &Name, bytes: &[u8]) -> Result<bool, NoMemory>
        ensures { IfOk result (λ may. may ≡ (allowed.is_hostile self.now name.now && is_own_or_none_of name.now bytes.now)) }
    {
        if self.is_hostile(name) {
            is_own_or_none(alloc, name, bytes)
        } else {
            Ok(false)
        }
    }

    /// Whether the line may follow.
    #[tactic(auto, unfolding(crate::specs::Allowed::may_follow))]
    fn may_follow(&self, alloc: Global, line: &Line) -> Result<bool, NoMemory>
        ensures { IfOk result (λ may. may ≡ allowed.may_follow self.now line.now) }
    {
        match line {
            Line::Service { name } => Ok(self.is_free(name)),
            Line::Hostile { name } => Ok(self.is_free(name)),
            Line::Append { service, .. } => Ok(self.is_service(service)),
            Line::Send { service, .. } => Ok(self.is_service(service)),
            Line::Inject { name, bytes } => self.may_inject(alloc, name, bytes.as_slice()),
            Line::Deliver { message, service } => {
                Ok(self.messages.has(*message) && self.is_service(service))
            }
            Line::Lose { message } => Ok(self.messages.has(*message)),
            Line::Crash { service, .. } => Ok(self.is_service(service)),
            Line::Prove { service, .. } => Ok(self.is_service(service)),
            Line::Join { files } => Ok(self.are_files(files.as_slice())),
            Line::Anchor { service, .. } => Ok(self.is_service(service)),
            Line::Verify { file } => Ok(self.is_file(*file)),
        }
    }

    /// What the line makes, which may follow.
    #[tactic(auto, unfolding(crate::specs::Allowed::made_by, crate::specs::Allowed::may_follow))]
    fn add(&mut self, line: &Line) -> Result<(), NoMemory>
        requires may { allowed.may_follow self.old line.now ≡ true }
        requires files { self.old.files < 2 ^ 63 }
        ensures { OnOk result (self.new ≡ made_by self.old line.now) }
    {
        match line {
            Line::Service { name } => self.add_name(name, false)?,
            Line::Hostile { name } => self.add_name(name, true)?,
            Line::Send { .. } | Line::Inject { .. } => self.messages.add()?,
            Line::Lose { message } => self.messages.lose(*message),
            Line::Prove { .. } | Line::Join { .. } => self.files += 1,
            Line::Append { .. }
            | Line::Deliver { .. }
            | Line::Crash { .. }
            | Line::Anchor { .. }
            | Line::Verify { .. } => {}
        }
        Ok(())
    }

    /// A name more.
    fn add_name(&mut self, name: &Name, hostile: bool) -> Result<(), NoMemory>
        ensures { OnOk result (self.new ≡ allowed.with_name self.old name.now hostile) }
    {
        self.names.push(Declared {
            name: *name,
            hostile,
        })?;
        Ok(())
    }

    /// Judges whether the line may follow, and adds what it makes.
    pub fn take(&mut self, alloc: Global, line: &Line) -> Result<(), Stop>
        requires { self.old.files < 2 ^ 63 }
        ensures { TakesLine self.old line.now self.new result }
    {
        if self.may_follow(alloc, line)? {
            self.add(line)?;
            Ok(())
        } else {
            Err(Stop::NotAllowed)
        }
    }
}

/// Whether the bytes spell a message of this name, or none.
fn is_own_or_none(alloc: Global, name: &Name, bytes: &[u8]) -> Result<bool, NoMemory>
    ensures { IfOk result (λ own. own ≡ is_own_or_none_of name.now bytes.now) }
{
    match read_message(alloc, bytes) {
        Ok(message) => Ok(message.thread.from == *name),
        Err(ReadFault::Malformed { .. }) => Ok(true),
        Err(ReadFault::NoMemory) => Err(NoMemory),
    }
}
