// The thread that a step received, as a history holds it.

ghost use Rattle.std.specs.Prelude.{◌≡◌, IfOk};

use crate::history::thread::Thread;
use crate::kinds::failure::NoMemory;
use std::alloc::Global;
use std::marker::Model;

/// A thread in a block of its own, so that a step that received none takes no room for one.
/// Contracts see it as the thread.
#[derive(Drop, Debug)]
pub struct ReceivedThread {
    thread: Box<Thread>,
}

impl Model for ReceivedThread {
    ghost use Rattle.tw_base.specs.declared.history.thread.Thread.{Thread as ThreadMeant};

    ghost Value = { ThreadMeant };

    ghost view = { λ received. received.thread.value };
}

impl ReceivedThread {
    /// The thread.
    pub fn new(alloc: Global, thread: Thread) -> Result<Self, NoMemory>
        ensures { IfOk result (λ received. received ≡ thread) }
    {
        let thread = Box::new(alloc, thread)?;
        Ok(ReceivedThread { thread })
    }

    /// The thread.
    pub fn get(&self) -> &Thread
        ensures { result.now ≡ self.now }
    {
        &self.thread
    }
}
