// The greatest step of each service that a history received so far, while it is judged.

ghost use Rattle.std.specs.Prelude.{◌≡◌, ◌≢◌, ◌++◌, List, ℕ, Some, option_map, IfSome, OnOk, OnErr};
ghost use Rattle.std.specs.Option.{option_to_list};
ghost use Rattle.tw_base.specs.declared.history.thread.Entry.{Entry};
ghost use Rattle.tw_history.specs.JudgingSteps.{IsGreatest, IsLater, greatest_of};

use std::alloc::Global;
use std::collections::BTreeMap;
use tw_base::{Name, NoMemory, Thread};

/// A step for each of some services: the greatest that was received so far.
#[derive(Drop)]
pub(super) struct GreatestSteps {
    steps: BTreeMap<Name, u64>,
}

impl GreatestSteps {
    /// No service. Takes no memory.
    pub(super) fn new(alloc: Global) -> Self
        ensures { (name : List ℕ) → greatest_of result name ≡ None }
    {
        GreatestSteps {
            steps: BTreeMap::new(alloc),
        }
    }

    /// The step of the service; None where it has none.
    pub(super) fn of(&self, service: &Name) -> Option<u64>
        ensures { result ≡ greatest_of self.now service.now }
    {
        self.steps.get(service).copied()
    }

    /// Takes the thread in, whose step is above the earlier ones of its service.
    pub(super) fn add(&mut self, thread: &Option<Thread>) -> Result<(), NoMemory>
        ensures { OnOk result ((es : List Entry) (archived : ℕ) → IsGreatest es (greatest_of self.old) → IfSome thread.now (λ t. IsLater t es)
            → IsGreatest (es ++ option_to_list (option_map (λ t. record { thread = t; archived = archived }) thread.now)) (greatest_of self.new)) }
    {
        match thread {
            Some(thread) => self.put(thread.from, thread.step),
            None => Ok(()),
        }
    }

    /// Puts the step of the service; after want of memory all is as before.
    fn put(&mut self, service: Name, step: u64) -> Result<(), NoMemory>
        ensures here { OnOk result (greatest_of self.new service ≡ Some step) }
        ensures others { OnOk result ((name : List ℕ) → name ≢ service → greatest_of self.new name ≡ greatest_of self.old name) }
        ensures err { OnErr result ((name : List ℕ) → greatest_of self.new name ≡ greatest_of self.old name) }
    {
        self.steps.insert(service, step)?;
        Ok(())
    }
}
