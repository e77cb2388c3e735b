// Which messages of a script no line before has dropped.

ghost use Rattle.std.specs.Prelude.{◌≡◌, ◌≤◌, ◌-◌, ◌&&◌, ◌++◌, ◌∷◌, [], length, nat_le, slice_index_or, slice_set, true, false, OnOk};

use std::alloc::Global;
use tw_base::NoMemory;

/// Of each message, by its number from 1 on, whether it is still there. To contracts it is the list of these answers.
#[derive(Drop, Debug)]
pub struct There {
    flags: Vec<bool>,
}

impl std::marker::Model for There {
    ghost use Rattle.std.specs.Prelude.{List, Bool};

    ghost Value = { List Bool };

    ghost view = { λ there. there.flags.items };
}

impl There {
    /// No messages.
    pub fn new(alloc: Global) -> There
        ensures { result ≡ [] }
    {
        There {
            flags: Vec::new(alloc),
        }
    }

    /// Whether there is a message with this number.
    pub fn has(&self, message: u64) -> bool
        ensures { result ≡ (nat_le 1 message && nat_le message (length self.now) && slice_index_or self.now (message - 1) false) }
    {
        message >= 1 && message <= self.flags.len() as u64 && self.flags[message as usize - 1]
    }

    /// A message more.
    pub fn add(&mut self) -> Result<(), NoMemory>
        ensures { OnOk result (self.new ≡ self.old ++ true ∷ []) }
    {
        self.flags.push(true)?;
        Ok(())
    }

    /// The message isn't there any more.
    pub fn lose(&mut self, message: u64)
        requires from { 1 ≤ message }
        requires to { message ≤ length self.old }
        ensures { self.new ≡ slice_set self.old (message - 1) false }
    {
        self.flags[message as usize - 1] = false;
    }
}
