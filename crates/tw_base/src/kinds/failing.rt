// The calls of an object in memory (disk, pages, inputs or sink) that are to fail.
ghost use Rattle.std.specs.Prelude.{◌≡◌, ◌++◌, ◌∷◌, [], OnOk, OnErr};
ghost use Rattle.tw_base.specs.kinds.PlannedFailures.{fails_next, after_call};

use crate::kinds::failure::NoMemory;
use std::alloc::Global;
use std::marker::Model;

/// The calls of an object in memory that are to fail, by their numbers counted from now: 1 is the next call. 0 is no call.
/// Contracts see the list of these numbers.
#[derive(Drop)]
pub struct FailingCalls {
    numbers: Vec<u64>,
}

impl Model for FailingCalls {
    ghost use Rattle.std.specs.Prelude.{List, ℕ};

    ghost Value = { List ℕ };

    ghost view = { λ calls. calls.numbers.items };
}

impl FailingCalls {
    /// No call is to fail. Takes no memory.
    pub fn new(alloc: Global) -> Self
        ensures { result ≡ [] }
    {
        FailingCalls {
            numbers: Vec::new(alloc),
        }
    }

    /// Makes the k-th call from now on fail, beside those that are to fail already.
    pub fn add(&mut self, k: u64) -> Result<(), NoMemory>
        ensures ok { OnOk result (self.new ≡ self.old ++ k ∷ []) }
        ensures err { OnErr result (self.new ≡ self.old) }
    {
        self.numbers.push(k)?;
        Ok(())
    }

    /// Counts a call, and tells whether it is to fail.
    pub fn count_call(&mut self) -> bool
        ensures fails { result ≡ fails_next self.old }
        ensures counted { self.new ≡ after_call self.old }
    {
        let fails = self.numbers.contains(&1);
        for number in self.numbers.iter_mut() {
            *number = number.saturating_sub(1);
        }
        fails
    }
}
