// The three services of a schedule, and its rounds; what one of them does is in `telling.rt`.

ghost use Rattle.std.specs.Prelude.{◌≡◌, ◌%◌, ◌==◌, [], Some, IfOk, IsTrue, OnOk, if◌then◌else◌};
ghost use Rattle.tw_base.specs.kinds.Names.{is_name_text, padded_name};
ghost use Rattle.tw_disk.specs.Image.{Image};
ghost use Rattle.tw_pages.specs.Slots.{IsTaken};
ghost use Rattle.tw_generate.specs.Draws.{after_step};
ghost use Rattle.tw_generate.specs.Playing.{ArePlaying, LeadsByActs};
ghost use Rattle.tw_generate.specs.Schedules.{all_append, all_tell, end_event, no_steps, round_of_acts, rounds_of, schedule};
ghost use Rattle.tw_generate.specs.Unrefused.{CanPlay};

use crate::draws::Draws;
use crate::telling::{append, make, tell_both};
use std::alloc::Global;
use tw_base::{Bytes, EventList, Hasher, Name, NoMemory};
use tw_disk::Disk;
use tw_service::Service;

/// How many rounds there are from one exchange of messages to the next.
pub(crate) const ROUNDS_BETWEEN: u64 = 50;

/// The last step that each service has archived of each other one, 0 where there is none.
#[derive(Drop)]
pub(crate) struct Heard {
    pub alpha_of_beta: u64,
    pub alpha_of_gamma: u64,
    pub beta_of_alpha: u64,
    pub beta_of_gamma: u64,
    pub gamma_of_alpha: u64,
    pub gamma_of_beta: u64,
}

/// The services alpha, beta and gamma, and what they have heard of one another.
#[derive(Drop)]
pub(crate) struct Services<D: Disk, H: Hasher> {
    pub alpha: Service<D, H>,
    pub beta: Service<D, H>,
    pub gamma: Service<D, H>,
    pub heard: Heard,
}

/// The name of this text.
fn name(text: &[u8]) -> Name
    requires { IsTrue (is_name_text text.now) }
    ensures { result ≡ padded_name text.now }
{
    match Name::read(text) {
        Some(name) => name,
        None => unreachable!(),
    }
}

/// Whether messages are exchanged in the round of this number.
fn is_fiftieth(number: u64) -> bool
    ensures { result ≡ (number % 50 == 0) }
{
    number % ROUNDS_BETWEEN == 0
}

impl<D: Disk + Drop, H: Hasher> Services<D, H> {
    /// Makes the services on blank disks.
    pub(crate) fn make(alloc: Global, alpha: D, beta: D, gamma: D) -> Result<Self, NoMemory>
        requires alpha { (a : Image) × ((D.view alpha).content ≡ Some a) × (IsTaken a → ⊥) }
        requires beta { (b : Image) × ((D.view beta).content ≡ Some b) × (IsTaken b → ⊥) }
        requires gamma { (c : Image) × ((D.view gamma).content ≡ Some c) × (IsTaken c → ⊥) }
        ensures { (a b c : Image) → (D.view alpha).content ≡ Some a → (D.view beta).content ≡ Some b → (D.view gamma).content ≡ Some c
            → IfOk result (λ services. ArePlaying H.dig D.view services no_steps) }
    {
        Ok(Services {
            alpha: make(alloc, alpha, name(b"alpha"))?,
            beta: make(alloc, beta, name(b"beta"))?,
            gamma: make(alloc, gamma, name(b"gamma"))?,
            heard: Heard {
                alpha_of_beta: 0,
                alpha_of_gamma: 0,
                beta_of_alpha: 0,
                beta_of_gamma: 0,
                gamma_of_alpha: 0,
                gamma_of_beta: 0,
            },
        })
    }
}

impl<D: Disk, H: Hasher> Services<D, H> {
    /// Each appends a step of its events.
    fn append_all(
        &mut self,
        alpha: &EventList,
        beta: &EventList,
        gamma: &EventList,
    ) -> Result<(), NoMemory>
        requires { CanPlay H.dig D.view (all_append alpha.now beta.now gamma.now) self.old }
        ensures { OnOk result (LeadsByActs H.dig D.view (all_append alpha.now beta.now gamma.now) self.old self.new) }
    {
        append(&mut self.alpha, alpha)?;
        append(&mut self.beta, beta)?;
        append(&mut self.gamma, gamma)?;
        Ok(())
    }

    /// Each tells its last step to the two others.
    fn exchange(&mut self) -> Result<(), NoMemory>
        requires { CanPlay H.dig D.view all_tell self.old }
        ensures { OnOk result (LeadsByActs H.dig D.view all_tell self.old self.new) }
    {
        let Services {
            alpha,
            beta,
            gamma,
            heard,
        } = self;
        tell_both(
            alpha,
            beta,
            &mut heard.beta_of_alpha,
            gamma,
            &mut heard.gamma_of_alpha,
        )?;
        tell_both(
            beta,
            alpha,
            &mut heard.alpha_of_beta,
            gamma,
            &mut heard.gamma_of_beta,
        )?;
        tell_both(
            gamma,
            alpha,
            &mut heard.alpha_of_gamma,
            beta,
            &mut heard.beta_of_gamma,
        )?;
        Ok(())
    }

    /// The messages of the round of this number.
    fn exchange_in(&mut self, number: u64) -> Result<(), NoMemory>
        requires { CanPlay H.dig D.view (if number % 50 == 0 then all_tell else []) self.old }
        ensures { OnOk result (LeadsByActs H.dig D.view (if number % 50 == 0 then all_tell else []) self.old self.new) }
    {
        if is_fiftieth(number) {
            return self.exchange();
        }
        Ok(())
    }

    /// The round of this number.
    fn round(&mut self, alloc: Global, draws: &mut Draws, number: u64) -> Result<(), NoMemory>
        requires { CanPlay H.dig D.view (round_of_acts draws.old.state number) self.old }
        ensures leads { OnOk result (LeadsByActs H.dig D.view (round_of_acts draws.old.state number) self.old self.new) }
        ensures state { OnOk result (draws.new.state ≡ after_step (after_step (after_step draws.old.state))) }
    {
        let alpha = draws.events(alloc)?;
        let beta = draws.events(alloc)?;
        let gamma = draws.events(alloc)?;
        self.append_all(&alpha, &beta, &gamma)?;
        self.exchange_in(number)
    }

    /// So many rounds, whose events are drawn from this number on.
    fn rounds(&mut self, alloc: Global, number: u64, rounds: u64) -> Result<(), NoMemory>
        requires { CanPlay H.dig D.view (rounds_of number rounds) self.old }
        ensures { OnOk result (LeadsByActs H.dig D.view (rounds_of number rounds) self.old self.new) }
    {
        let mut draws = Draws::new(number);
        for done in 0..rounds {
            self.round(alloc, &mut draws, done + 1)?;
        }
        Ok(())
    }

    /// Each appends a step of the one event `end`.
    fn append_end(&mut self, alloc: Global) -> Result<(), NoMemory>
        requires { CanPlay H.dig D.view (all_append end_event end_event end_event) self.old }
        ensures { OnOk result (LeadsByActs H.dig D.view (all_append end_event end_event end_event) self.old self.new) }
    {
        let mut events = EventList::new(alloc);
        events.push(Bytes::from_slice(alloc, b"end")?)?;
        self.append_all(&events, &events, &events)
    }

    /// Plays so many rounds, whose events are drawn from this number on, and the end.
    pub(crate) fn play(&mut self, alloc: Global, number: u64, rounds: u64) -> Result<(), NoMemory>
        requires { CanPlay H.dig D.view (schedule number rounds) self.old }
        ensures { OnOk result (LeadsByActs H.dig D.view (schedule number rounds) self.old self.new) }
    {
        self.rounds(alloc, number, rounds)?;
        self.append_end(alloc)
    }
}
