//! A network run event by event, in rounds over its actors.
ghost use Rattle.std.specs.Prelude.{◌≡◌, ◌⊎◌, ◌<◌, ◌≤◌, ◌+◌, ◌^◌, ◌-◌, [], ℕ, true, false, List, None, Ok, IfOk, OnErr, OnOk};
ghost use Rattle.vc_plan.specs.declared.plan.Plan.{Plan};
ghost use Rattle.vc_core.specs.Awake.{StaysAwake};
ghost use Rattle.vc_core.specs.Replay.{IsOpening};
ghost use Rattle.vc_core.specs.StepsInARow.{MakesSteps};
ghost use Rattle.vc_core.specs.State.{shown, state_of, HasFront, IsNetworkOf};
ghost use Rattle.vc_core.specs.Private.Turns.{Rests, IsAtRest, GoesOn};
ghost use Rattle.vc_actor.specs.Turns.{actors};
ghost use Rattle.vc_core.specs.declared.event.Event.{Event};
ghost use Rattle.vc_text.specs.Close.{Closes};
ghost use Rattle.vc_text.specs.Private.Draws.{IsOfPlan, RunsBy};
ghost use Rattle.vc_text.specs.Private.Simulation.{HasRun, HasTaken, LeadsOn, LeadsOnSoFar, RunsOut, RunsOutSoFar, Stops, StopsBy, all_awake, counted};

use crate::event_sink::EventSink;
use crate::generators::Generators;
use crate::masks::{after, least_among, only, without};
use crate::schedule::Schedule;
use std::alloc::Global;
use vc_core::{Act, Close, Event, Network};
use vc_packets::Memory;
use vc_plan::Accepted;
use vc_threads::Meter;

/// So many events are made in rounds before it is looked whether one actor alone is awake. Each look costs some thirty instructions.
const STRETCH: u64 = 1024;

/// The most steps that an actor which alone is awake makes before the meter notes them.
const STEPS: u64 = 1_048_576;

/// A run under way: its network, the generators of its actors, and how many events were made.
#[derive(Drop)]
pub(crate) struct Simulation {
    pub(crate) alloc: Global,
    pub(crate) network: Network,
    pub(crate) generators: Generators,
    pub(crate) made: u64,
}

/// How far a run is: how many events were made, and a bit for each actor that may have an event. Whoever makes events keeps it in a
/// variable, which a processor has in registers: each event waits for what the one before changed of it.
#[derive(Drop)]
pub(crate) struct Progress {
    pub(crate) made: u64,
    pub(crate) awake: u64,
}

impl Simulation {
    /// The network of an accepted plan, in its opening state.
    pub(crate) fn new(alloc: Global, accepted: &Accepted) -> Result<Simulation, Memory>
        ensures none { IfOk result (λ run. run.made ≡ 0) }
        ensures opening { IfOk result (λ run. IsOpening accepted.now (state_of run.network)) }
        ensures opens { IfOk result (HasRun accepted.now []) }
    {
        let network = Network::new(alloc, accepted)?;
        let generators = Generators::new(alloc)?;
        Ok(Simulation {
            alloc,
            network,
            generators,
            made: 0,
        })
    }

    /// An actor to which no token comes makes the event that it makes next, if it has one, or else is awake no more. The answer is whether
    /// it had one.
    #[inline(always)]
    fn turn<K: EventSink>(
        &mut self,
        events: &mut K,
        actor: u8,
        progress: &mut Progress,
    ) -> Result<bool, K::Fault>
        requires actor { actor < 64 }
        requires few { progress.old.made < 2 ^ 64 - 1 }
        requires none { (link : ℕ) → HasFront (state_of self.old.network) actor link → ⊥ }
        ensures made { IfOk result (λ had. progress.new.made ≡ counted had progress.old.made) }
        ensures runs { OnOk result
            (LeadsOnSoFar K.holds self.old events.old progress.old self.new events.new progress.new) }
        ensures stops { OnErr result (Stops K.holds K.left (progress.old.made + 1)
            self.old events.old progress.old events.new) }
        ensures still { result ≡ Ok false → (p : Plan) →
            IsNetworkOf p (state_of self.old.network) →
            state_of self.new.network ≡ state_of self.old.network }
        ensures rests { result ≡ Ok false → (p : Plan) →
            IsNetworkOf p (state_of self.old.network) →
            Rests p (state_of self.old.network) actor }
    {
        let Some(event) = self.network.turn(actor, &mut progress.awake)? else {
            progress.awake = without(progress.awake, actor);
            return Ok(false);
        };
        events.record(&self.network, event)?;
        progress.made += 1;
        Ok(true)
    }

    /// An actor makes the event that it makes next, if it has one: a take from the least link that has a token, else what it does
    /// where every way has room. The answer is whether it had one.
    #[inline(always)]
    fn act<K: EventSink>(
        &mut self,
        events: &mut K,
        actor: u8,
        progress: &mut Progress,
    ) -> Result<bool, K::Fault>
        requires actor { actor < 64 }
        requires few { progress.old.made < 2 ^ 64 - 1 }
        ensures made { IfOk result (λ had. progress.new.made ≡ counted had progress.old.made) }
        ensures runs { OnOk result
            (LeadsOnSoFar K.holds self.old events.old progress.old self.new events.new progress.new) }
        ensures stops { OnErr result (Stops K.holds K.left (progress.old.made + 1)
            self.old events.old progress.old events.new) }
        ensures still { result ≡ Ok false → (p : Plan) →
            IsNetworkOf p (state_of self.old.network) →
            state_of self.new.network ≡ state_of self.old.network }
        ensures rests { result ≡ Ok false → (p : Plan) →
            IsNetworkOf p (state_of self.old.network) →
            actor < actors p → Rests p (state_of self.old.network) actor }
    {
        let Some(link) = self.network.link_to_take(actor) else {
            return self.turn(events, actor, progress);
        };
        let word = self.generators.next_word(actor);
        self.network.take_front(actor, link, word);
        let act = Act::Take { link, word };
        events.record(&self.network, Event { actor, act })?;
        progress.made += 1;
        Ok(true)
    }

    /// One round over the actors: each makes at most one event, up to so many events in all. The answer is whether events were made and
    /// more may be: where not, there are so many events, or no actor has one.
    #[inline(always)]
    fn round<K: EventSink>(
        &mut self,
        events: &mut K,
        limit: u64,
        progress: &mut Progress,
    ) -> Result<bool, K::Fault>
        requires { progress.old.made ≤ limit }
        ensures few { OnOk result (progress.new.made ≤ limit) }
        ensures more { result ≡ Ok true → progress.old.made < progress.new.made }
        ensures runs { OnOk result
            (LeadsOnSoFar K.holds self.old events.old progress.old self.new events.new progress.new) }
        ensures stops { OnErr result
            (Stops K.holds K.left limit self.old events.old progress.old events.new) }
        ensures ends { result ≡ Ok false →
            RunsOutSoFar K.holds limit self.old events.old progress.old self.new progress.new }
    {
        let before = progress.made;
        let mut left = u64::MAX;
        while let Some(actor) = least_among(progress.awake, left) {
            if progress.made >= limit {
                return Ok(false);
            }
            self.act(events, actor, progress)?;
            left = after(actor);
        }
        Ok(progress.made > before)
    }

    /// How far the run is, where all actors may have an event.
    fn progress(&self) -> Progress
        ensures { result ≡ all_awake self.now.made }
    {
        Progress {
            made: self.made,
            awake: u64::MAX,
        }
    }

    /// Rounds over the actors, until none has an event or there are so many events, or a stretch of events was made. The answer is whether
    /// events were made and more may be.
    #[inline(always)]
    fn stretch<K: EventSink>(
        &mut self,
        events: &mut K,
        limit: u64,
        progress: &mut Progress,
    ) -> Result<bool, K::Fault>
        requires { progress.old.made ≤ limit }
        ensures few { OnOk result (progress.new.made ≤ limit) }
        ensures more { result ≡ Ok true → progress.old.made < progress.new.made }
        ensures runs { OnOk result
            (LeadsOnSoFar K.holds self.old events.old progress.old self.new events.new progress.new) }
        ensures stops { OnErr result
            (Stops K.holds K.left limit self.old events.old progress.old events.new) }
        ensures ends { result ≡ Ok false →
            RunsOutSoFar K.holds limit self.old events.old progress.old self.new progress.new }
    {
        let until = progress.made.saturating_add(STRETCH);
        while self.round(events, limit, progress)? {
            if progress.made >= until {
                return Ok(true);
            }
        }
        Ok(false)
    }

    /// Where one actor alone is awake, its steps without a communication, as long as each is known to be its only move: whoever keeps none of
    /// the events need not be handed each.
    #[inline(always)]
    fn make_steps<K: EventSink>(&mut self, events: &K, limit: u64, progress: &mut Progress)
        requires { progress.old.made ≤ limit }
        ensures few { progress.new.made ≤ limit }
        ensures grows { progress.old.made ≤ progress.new.made }
        ensures runs { LeadsOnSoFar K.holds self.old events.now progress.old self.new events.now
            progress.new }
    {
        if !events.keeps_none() {
            return;
        }
        if let Some(actor) = only(progress.awake) {
            let most = (limit - progress.made).min(STEPS);
            progress.made += steps_of(&mut self.network, actor, most);
        }
    }

    /// Rounds over the actors, until none has an event or there are so many events. The meter notes each stretch.
    fn rounds<K: EventSink>(
        &mut self,
        events: &mut K,
        limit: u64,
        meter: &Meter,
    ) -> Result<(), K::Fault>
        requires { self.old.made ≤ limit }
        ensures few { OnOk result (self.new.made ≤ limit) }
        ensures runs { OnOk result (LeadsOn K.holds self.old events.old self.new events.new) }
        ensures stops { OnErr result
            (StopsBy Schedule.InTurn K.holds K.left limit self.old events.old events.new) }
        ensures ends { OnOk result (RunsOut K.holds limit self.old events.old self.new) }
    {
        let mut progress = self.progress();
        while self.stretch(events, limit, &mut progress)? {
            self.make_steps(events, limit, &mut progress);
            meter.set(progress.made);
        }
        self.made = progress.made;
        Ok(())
    }

    /// Events in the order of a schedule, from the opening state on, until no actor has an event or there are so many events.
    pub(crate) fn make_events<K: EventSink>(
        &mut self,
        events: &mut K,
        limit: u64,
        schedule: Schedule,
        meter: &Meter,
    ) -> Result<(), K::Fault>
        requires few { self.old.made ≤ limit }
        requires is { IsOfPlan (state_of self.old.network) }
        ensures few { OnOk result (self.new.made ≤ limit) }
        ensures runs { OnOk result
            (RunsBy schedule K.holds self.old events.old self.new events.new) }
        ensures stops { OnErr result
            (StopsBy schedule K.holds K.left limit self.old events.old events.new) }
        ensures ends { OnOk result (RunsOut K.holds limit self.old events.old self.new) }
    {
        match schedule {
            Schedule::InTurn => self.rounds(events, limit, meter),
            Schedule::Random(seed) => self.draw_events(events, limit, seed, meter),
        }
    }

    /// How the run ends, of at most so many events.
    pub(crate) fn close(&mut self, limit: u64) -> Result<Close, Memory>
        requires { self.old.made ≤ limit }
        ensures closes { (p : Plan) → IsNetworkOf p (state_of self.old.network) →
            (self.old.made ≡ limit) ⊎ IsAtRest p (state_of self.old.network) →
            IfOk result (Closes p (shown (state_of self.old.network)) self.old.made limit) }
        ensures same { state_of self.new.network ≡ state_of self.old.network }
    {
        if self.made >= limit && goes_on(&mut self.network)? {
            Ok(Close::Limit)
        } else {
            Ok(resting(&self.network))
        }
    }
}

/// Makes the steps without a communication of an actor to which no token comes, at most so many; answers how many.
#[inline(never)]
fn steps_of(network: &mut Network, actor: u8, most: u64) -> u64
    ensures few { result ≤ most }
    ensures made { (p : Plan) → IsNetworkOf p (state_of network.old) →
        MakesSteps p actor result (state_of network.old) (state_of network.new) }
    ensures awake { (mask : ℕ) →
        StaysAwake (state_of network.old) mask (state_of network.new) mask }
{
    if network.link_to_take(actor).is_some() {
        return 0;
    }
    network.make_steps(actor, most)
}

/// Whether some actor has an event.
pub(crate) fn goes_on(network: &mut Network) -> Result<bool, Memory>
    ensures goes_on { (p : Plan) → IsNetworkOf p (state_of network.old) →
        IfOk result (GoesOn p (state_of network.old)) }
    ensures same { state_of network.new ≡ state_of network.old }
{
    for actor in 0..network.actors() {
        if network.has_event(actor)? {
            return Ok(true);
        }
    }
    Ok(false)
}

/// How a run ends where no event is enabled.
fn resting(network: &Network) -> Close
    ensures { (p : Plan) (made limit : ℕ) →
        IsNetworkOf p (state_of network.now) → IsAtRest p (state_of network.now) →
        Closes p (shown (state_of network.now)) made limit result }
{
    if network.ended() {
        Close::Done
    } else {
        Close::Quiet
    }
}
