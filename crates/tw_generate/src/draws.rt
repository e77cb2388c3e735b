// Draws of numbers, and the events that they make.

ghost use Rattle.std.specs.Prelude.{◌≡◌, IfOk};
ghost use Rattle.tw_generate.specs.Draws.{after_step, drawn, drawn_event, next_state, step_events};
ghost use Rattle.tw_generate.specs.Draws.{after_draws, drawn_events};

use std::alloc::Global;
use tw_base::{Bytes, EventList, NoMemory};

/// The number of bytes of an event, as in the histories that bench/RESULTS.md measures.
const EVENT_BYTES: usize = 200;

/// What numbers are drawn from: each draw sets the state by a linear congruence modulo 2^64, whose numbers are those of Knuth's
/// MMIX. (A `FickleDisk` of tw_disk draws so, too.)
#[derive(Drop)]
pub(crate) struct Draws {
    pub state: u64,
}

impl Draws {
    /// Draws from this number on.
    pub(crate) fn new(number: u64) -> Self
        ensures { result.state ≡ number }
    {
        Draws { state: number }
    }

    /// The next number, below 2^31: the upper bits of the state, since its lower ones repeat soon.
    fn draw(&mut self) -> u64
        ensures state { self.new.state ≡ next_state self.old.state }
        ensures number { result ≡ drawn self.new.state }
    {
        self.state = self
            .state
            .wrapping_mul(6364136223846793005)
            .wrapping_add(1442695040888963407);
        self.state / 8589934592
    }

    /// The next event: so many times one byte, by one draw.
    fn event(&mut self, alloc: Global) -> Result<Bytes, NoMemory>
        ensures state { self.new.state ≡ next_state self.old.state }
        ensures event { IfOk result (λ event. event ≡ drawn_event (drawn self.new.state)) }
    {
        let byte = (self.draw() % 256) as u8;
        Bytes::from_slice(alloc, &[byte; EVENT_BYTES])
    }

    /// So many events.
    fn many(&mut self, alloc: Global, count: u64) -> Result<EventList, NoMemory>
        ensures { IfOk result (λ events. (events ≡ drawn_events self.old.state count) × (self.new.state ≡ after_draws self.old.state count)) }
    {
        let mut events = EventList::new(alloc);
        for done in 0..count {
            events.push(self.event(alloc)?)?;
        }
        Ok(events)
    }

    /// The events of a service's next step: one to four, by one draw, and each event.
    pub(crate) fn events(&mut self, alloc: Global) -> Result<EventList, NoMemory>
        ensures { IfOk result (λ events. (events ≡ step_events self.old.state) × (self.new.state ≡ after_step self.old.state)) }
    {
        let count = 1 + self.draw() % 4;
        self.many(alloc, count)
    }
}
