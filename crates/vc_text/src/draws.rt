//! Events in a random order: who makes the next event of a run is drawn, and what it does.
ghost use Rattle.std.specs.Prelude.{◌≡◌, ◌<◌, ◌≤◌, ◌%◌, ◌-◌, ◌^◌, ◌+◌, ℕ, false, Ok, IfOk, IfSome, OnErr, OnOk};
ghost use Rattle.rand_pcg.specs.Pcg.{pcg32};
ghost use Rattle.vc_core.specs.Choices.{MayMakeOne, without_word};
ghost use Rattle.vc_core.specs.PossibleEvents.{CanHappen};
ghost use Rattle.vc_core.specs.Private.Turns.{IsAtRest};
ghost use Rattle.vc_core.specs.State.{shown, state_of, IsNetworkOf, MakesEvent};
ghost use Rattle.vc_plan.specs.declared.plan.Plan.{Plan};
ghost use Rattle.vc_text.specs.Private.Draws.{DrawsActor, DrawsAct, DrawsOn, GivesWord, IsOfPlan, RunsBy, StopsDrawing};
ghost use Rattle.vc_text.specs.Private.Simulation.{RunsOut, StopsBy, counted};
ghost use Rattle.vc_text.specs.Schedules.{drawer};

use crate::event_sink::EventSink;
use crate::generators::Generators;
use crate::schedule::Schedule;
use crate::simulation::Simulation;
use rand_core::utils::NextWord;
use rand_pcg::Lcg64Xsh32;
use std::alloc::Global;
use vc_core::{Act, Event, Network, StepRefused};
use vc_packets::Memory;
use vc_threads::Meter;

/// The stream of the generator that draws events: no actor has this number.
const STREAM: u64 = u64::MAX;

/// What draws the events of a run: a generator, and the lists among which it chooses, whose room serves again.
#[derive(Drop)]
pub(crate) struct Draws {
    pub(crate) words: Lcg64Xsh32,
    ready: Vec<u8>,
    acts: Vec<Act>,
}

impl Draws {
    /// The draws of the generator of this seed.
    pub(crate) fn new(alloc: Global, seed: u32) -> Draws
        ensures { result.words ≡ drawer seed }
    {
        Draws {
            words: Lcg64Xsh32::new(u64::from(seed), STREAM),
            ready: Vec::new(alloc),
            acts: Vec::new(alloc),
        }
    }

    /// Draws who makes the next event from those that have one. The answer is None if none has.
    fn next_actor(&mut self, network: &mut Network) -> Result<Option<u8>, Memory>
        ensures draws { (p : Plan) → IsNetworkOf p (state_of network.old) →
            IfOk result
            (DrawsActor p (shown (state_of network.old)) self.old.words self.new.words) }
        ensures may { (p : Plan) → IsNetworkOf p (state_of network.old) →
            IfOk result (λ found. IfSome found (MayMakeOne (state_of network.old))) }
        ensures same { state_of network.new ≡ state_of network.old }
    {
        network.list_ready(&mut self.ready)?;
        let count = self.ready.len();
        if count == 0 {
            return Ok(None);
        }
        let place = drawn(&mut self.words, count);
        Ok(Some(self.ready[place]))
    }

    /// Draws what an actor does that has an event, of what it can do; a take is drawn without its word.
    fn next_act(&mut self, network: &Network, actor: u8) -> Result<Act, Memory>
        requires { MayMakeOne (state_of network.now) actor }
        ensures { (p : Plan) → IsNetworkOf p (state_of network.now) → IfOk result
            (DrawsAct p (shown (state_of network.now)) actor self.old.words self.new.words) }
    {
        network.list_acts(actor, &mut self.acts)?;
        let many = self.acts.len();
        let place = drawn(&mut self.words, many);
        Ok(self.acts[place])
    }
}

/// A place among so many, which the generator's next word draws.
fn drawn(words: &mut Lcg64Xsh32, count: usize) -> usize
    requires { 0 < count }
    ensures less { result < count }
    ensures place { result ≡ (pcg32 words.old).0 % count }
    ensures next { words.new ≡ (pcg32 words.old).1 }
{
    words.next_word() as usize % count
}

/// The act, of which a take has the next word of its actor.
fn with_word(generators: &mut Generators, actor: u8, act: Act) -> Act
    requires { actor < 64 }
    ensures same { without_word result ≡ without_word act }
    ensures gives { GivesWord generators.old actor result generators.new }
{
    match act {
        Act::Take { link, .. } => Act::Take {
            link,
            word: generators.next_word(actor),
        },
        Act::Proc(_) | Act::Put { .. } | Act::Route { .. } | Act::Fct { .. } | Act::Pass { .. } =>
            act,
    }
}

/// Makes an event that can happen.
fn make(network: &mut Network, event: &Event) -> Result<(), Memory>
    requires { (p : Plan) × IsNetworkOf p (state_of network.old) ×
        CanHappen p (state_of network.old) event.now }
    ensures { (p : Plan) → IsNetworkOf p (state_of network.old) →
        OnOk result (MakesEvent p (state_of network.old) event.now (state_of network.new)) }
{
    match network.step(event) {
        Ok(()) => Ok(()),
        Err(StepRefused::Memory) => Err(Memory),
        Err(StepRefused::NotEnabled) => unreachable!(),
    }
}

impl Simulation {
    /// Makes an event that is drawn, if there is one. The answer is whether there was.
    fn draw_event<K: EventSink>(
        &mut self,
        events: &mut K,
        draws: &mut Draws,
    ) -> Result<bool, K::Fault>
        requires few { self.old.made < 2 ^ 64 - 1 }
        requires is { IsOfPlan (state_of self.old.network) }
        ensures made { IfOk result (λ had. self.new.made ≡ counted had self.old.made) }
        ensures kept { OnOk result ((p : Plan) → IsNetworkOf p (state_of self.old.network) →
            IsNetworkOf p (state_of self.new.network)) }
        ensures runs { OnOk result ((seed : ℕ) →
            DrawsOn seed K.holds self.old events.old draws.old.words self.new events.new
            draws.new.words) }
        ensures stops { OnErr result ((seed : ℕ) → StopsDrawing seed K.holds K.left
            (self.old.made + 1) self.old events.old draws.old.words events.new) }
        ensures rests { result ≡ Ok false → (p : Plan) →
            IsNetworkOf p (state_of self.old.network) → IsAtRest p (state_of self.new.network) }
    {
        let Some(actor) = draws.next_actor(&mut self.network)? else {
            return Ok(false);
        };
        let drawn = draws.next_act(&self.network, actor)?;
        let act = with_word(&mut self.generators, actor, drawn);
        let event = Event { actor, act };
        make(&mut self.network, &event)?;
        events.record(&self.network, event)?;
        self.made += 1;
        Ok(true)
    }

    /// Events that a generator of this seed draws, from the opening state on, until none can happen or there are so many events. The meter
    /// notes each.
    pub(crate) fn draw_events<K: EventSink>(
        &mut self,
        events: &mut K,
        limit: u64,
        seed: u32,
        meter: &Meter,
    ) -> Result<(), K::Fault>
        requires few { self.old.made ≤ limit }
        requires is { IsOfPlan (state_of self.old.network) }
        ensures few { OnOk result (self.new.made ≤ limit) }
        ensures runs { OnOk result
            (RunsBy (Schedule.Random seed) K.holds self.old events.old self.new events.new) }
        ensures stops { OnErr result (StopsBy (Schedule.Random seed)
            K.holds K.left limit self.old events.old events.new) }
        ensures ends { OnOk result (RunsOut K.holds limit self.old events.old self.new) }
    {
        let mut draws = Draws::new(self.alloc, seed);
        while self.made < limit {
            if !self.draw_event(events, &mut draws)? {
                return Ok(());
            }
            meter.set(self.made);
        }
        Ok(())
    }
}
