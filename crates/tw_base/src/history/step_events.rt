// The events of a step, as a history holds them.

ghost use Rattle.std.specs.Prelude.{◌≡◌, length};

use crate::kinds::sequence::{Bytes, EventList};
use std::marker::Model;

/// The events of a step in their order, where a sole event takes no list. Contracts see them as the
/// list of the events.
#[derive(Drop, Debug)]
pub struct StepEvents {
    held: Held,
}

/// A sole event, or a list of any number of them.
#[derive(Drop, Debug)]
pub(crate) enum Held {
    Sole([Bytes; 1]),
    Listed(EventList),
}

impl Model for StepEvents {
    ghost use Rattle.std.specs.Prelude.{List, ℕ};
    ghost use Rattle.tw_base.specs.history.Holding.{held_events};

    ghost Value = { List (List ℕ) };

    ghost view = { λ events. held_events events.held };
}

impl StepEvents {
    /// The events of the list. Takes no memory.
    pub fn new(events: EventList) -> Self
        ensures { result ≡ events }
    {
        let mut items = events.into_vec();
        if items.len() == 1
            && let Some(event) = items.pop()
        {
            return StepEvents {
                held: Held::Sole([event]),
            };
        }
        StepEvents {
            held: Held::Listed(EventList::from_vec(items)),
        }
    }

    /// The events.
    pub fn as_slice(&self) -> &[Bytes]
        ensures { result.now ≡ self.now }
    {
        match &self.held {
            Held::Sole(event) => event,
            Held::Listed(events) => events.as_slice(),
        }
    }

    /// The number of events.
    pub fn len(&self) -> usize
        ensures { result ≡ length self.now }
    {
        self.as_slice().len()
    }
}
