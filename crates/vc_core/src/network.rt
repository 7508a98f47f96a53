//! A network: its actors, and the ways that join them.
ghost use Rattle.std.specs.Prelude.{◌≡◌, ◌≢◌, ◌⊎◌, ◌+◌, ◌*◌, ◌<◌, ◌≤◌, ◌↔◌, ℕ, true, false, length, map, slice_get, Some, None, IsTrue, IfOk, IfSome, OnOk, OnErr, MatchResult};
ghost use Rattle.vc_core.specs.Replay.{IsOpening};
ghost use Rattle.vc_plan.specs.declared.plan.Plan.{Plan};
ghost use Rattle.vc_actor.specs.Acts.{IsOwn};
ghost use Rattle.vc_accepted.specs.NetworkOf.{network_of};
ghost use Rattle.vc_core.specs.PossibleEvents.{CanHappen};
ghost use Rattle.std.specs.Int.{bit_at};
ghost use Rattle.vc_actor.specs.Private.Parts.{IsDone};
ghost use Rattle.vc_actor.specs.OfPlan.{IsActorOf};
ghost use Rattle.vc_actor.specs.ActorView.{Acting};
ghost use Rattle.vc_actor.specs.Turns.{TakesNone, actors};
ghost use Rattle.vc_core.specs.Turns.{FindsFront, FindsTake, FindsEvent, AllHaveEnded};
ghost use Rattle.vc_core.specs.Awake.{StaysAwake};
ghost use Rattle.vc_core.specs.StepsInARow.{MakesSteps};
ghost use Rattle.vc_core.specs.State.{state_of, IsNetworkOf, MayHappen, WaysLet, HasFront, HasWay, MakesEvent, MakesOne, MayActAt};
ghost use Rattle.vc_core.specs.Private.State.{GrantsBy};
ghost use Rattle.vc_tokens.specs.CodeTokens.{tokens as all_spelt};

use crate::channels::{ChannelInfo, channels_of};
use crate::event::Event;
use crate::lines::Lines;
use crate::refused::StepRefused;
use sqlite_items::{Items, at};
use std::alloc::Global;
use vc_actor::{Act, Actor, actors, has_room};
use vc_packets::Memory;
use vc_plan::{Accepted, Wire};
use vc_switch::lowest;
use vc_tokens::Token;

/// The links of an actor, of which a node has four.
const LINKS: u8 = 32;

/// A network: its actors, and the tokens on the ways that join them.
pub struct Network {
    pub(crate) actors: Vec<Actor>,
    /// How many of the actors are nodes.
    pub(crate) nodes: u8,
    pub(crate) lines: Lines,
    pub(crate) wires: Items<Wire>,
    pub(crate) channels: Vec<ChannelInfo>,
}

impl Drop for Network {
    // written, so that the crates above need not prove again how all that it holds is dropped
    fn drop(self) {
        let Network {
            actors: _,
            nodes: _,
            lines: _,
            wires: _,
            channels: _,
        } = self;
    }
}

impl Network {
    /// The network of an accepted plan, about to begin: each process whole, and no token anywhere. It fails only when out of memory.
    pub fn new(alloc: Global, accepted: &Accepted) -> Result<Network, Memory>
        ensures opening { IfOk result (λ network. IsOpening accepted.now (state_of network)) }
    {
        let plan = accepted.plan();
        Ok(Network {
            actors: actors(alloc, accepted)?,
            nodes: plan.nodes.len() as u8,
            lines: Lines::new(alloc, plan)?,
            wires: Items::from_slice(alloc, plan.wires.as_slice())?,
            channels: channels_of(alloc, plan)?,
        })
    }

    /// The network of an accepted plan with these actors, and with these tokens on each of its ways in turn. It fails for want of
    /// memory alone.
    pub fn of_parts(
        alloc: Global,
        accepted: &Accepted,
        actors: Vec<Actor>,
        tokens: &[Vec<Token>],
    ) -> Result<Network, Memory>
        requires count { length actors.items ≡
            length accepted.now.nodes + length accepted.now.switches }
        requires actors { (k : ℕ) (a : Acting) →
            slice_get actors.items k ≡ Some a →
            IsActorOf (network_of accepted.now) k a }
        requires ways { length tokens.now ≡ 2 * length accepted.now.wires }
        ensures is { IfOk result (λ network. IsNetworkOf accepted.now (state_of network)) }
        ensures actors { IfOk result (λ network. (state_of network).actors ≡ actors.items) }
        ensures ways { IfOk result
            (λ network. (state_of network).ways ≡ map (λ line. all_spelt line.items) tokens.now) }
    {
        let plan = accepted.plan();
        Ok(Network {
            actors,
            nodes: plan.nodes.len() as u8,
            lines: Lines::with_tokens(alloc, plan, tokens)?,
            wires: Items::from_slice(alloc, plan.wires.as_slice())?,
            channels: channels_of(alloc, plan)?,
        })
    }

    /// Whether an event can be made: exactly where it leads to some state.
    pub fn enabled(&self, event: &Event) -> bool
        ensures may { IsTrue result ↔ MayHappen (state_of self.now) event.now }
        ensures can { (p : Plan) →
            IsNetworkOf p (state_of self.now) →
            IsTrue result ↔ CanHappen p (state_of self.now) event.now }
    {
        match at(self.actors.as_slice(), usize::from(event.actor)) {
            Some(acting) => acting.can(&event.act) && self.ways_let(event.actor, &event.act),
            None => false,
        }
    }

    // Whether the act's way is there, and has a token where it takes one.
    fn ways_let(&self, actor: u8, act: &Act) -> bool
        ensures { IsTrue result ↔ WaysLet (state_of self.now) actor act.now }
    {
        match act {
            Act::Take { link, .. } => self.has_front(actor, *link),
            Act::Put { link } | Act::Fct { link } => self.has_way(actor, *link),
            Act::Proc(_) | Act::Pass { .. } | Act::Route { .. } => true,
        }
    }

    // Whether a token stands on the way that comes in by a link.
    fn has_front(&self, actor: u8, link: u8) -> bool
        ensures { IsTrue result ↔ HasFront (state_of self.now) actor link }
    {
        link < LINKS && has_room(self.lines.fronts(actor), link)
    }

    // Whether a way goes out by a link.
    fn has_way(&self, actor: u8, link: u8) -> bool
        ensures { IsTrue result ↔ HasWay (state_of self.now) actor link }
    {
        link < LINKS && has_room(self.lines.room(actor), link)
    }

    /// Makes an event. It is refused where it is not enabled, or there is no memory for it; the network is then as it was.
    pub fn step(&mut self, event: &Event) -> Result<(), StepRefused>
        ensures makes { (p : Plan) →
            IsNetworkOf p (state_of self.old) →
            OnOk result (MakesEvent p (state_of self.old) event.now (state_of self.new)) }
        ensures refused { OnErr result (state_of self.new ≡ state_of self.old) }
        ensures not_enabled { (p : Plan) →
            IsNetworkOf p (state_of self.old) →
            MatchResult result (λ _. CanHappen p (state_of self.old) event.now)
            (λ why.
            why ≡ StepRefused.NotEnabled ↔
            (CanHappen p (state_of self.old) event.now → ⊥)) }
    {
        if self.enabled(event) {
            let mut awake = 0;
            self.make(event, &mut awake)?;
            Ok(())
        } else {
            Err(StepRefused::NotEnabled)
        }
    }

    // Makes an event that its actor can make, and its ways let it.
    #[inline(always)]
    fn make(&mut self, event: &Event, awake: &mut u64) -> Result<(), Memory>
        requires { MayHappen (state_of self.old) event.now }
        ensures makes { (p : Plan) →
            IsNetworkOf p (state_of self.old) →
            OnOk result (MakesEvent p (state_of self.old) event.now (state_of self.new)) }
        ensures awake { OnOk result
            (StaysAwake (state_of self.old) awake.old (state_of self.new) awake.new) }
        ensures refused { OnErr result (state_of self.new ≡ state_of self.old) }
        ensures none_wakes { OnErr result (awake.new ≡ awake.old) }
    {
        match event.act {
            Act::Take { link, word } => {
                self.take_front(event.actor, link, word);
                Ok(())
            }
            Act::Proc(_)
            | Act::Pass { .. }
            | Act::Route { .. }
            | Act::Put { .. }
            | Act::Fct { .. } => self.make_turn(event, awake),
        }
    }

    // The same of an event that is no take.
    #[inline(always)]
    fn make_turn(&mut self, event: &Event, awake: &mut u64) -> Result<(), Memory>
        requires may { MayHappen (state_of self.old) event.now }
        requires takes { TakesNone event.now.act }
        ensures makes { (p : Plan) →
            IsNetworkOf p (state_of self.old) →
            OnOk result (MakesEvent p (state_of self.old) event.now (state_of self.new)) }
        ensures awake { OnOk result
            (StaysAwake (state_of self.old) awake.old (state_of self.new) awake.new) }
        ensures refused { OnErr result (state_of self.new ≡ state_of self.old) }
        ensures none_wakes { OnErr result (awake.new ≡ awake.old) }
    {
        match event.act {
            Act::Proc(_) | Act::Pass { .. } | Act::Route { .. } => self.act(event),
            Act::Put { link } => self.put(event, link, awake),
            Act::Fct { link } => self.grant(event, link, awake),
            Act::Take { .. } => unreachable!(),
        }
    }

    // An actor makes a step of its own.
    #[inline(always)]
    fn act(&mut self, event: &Event) -> Result<(), Memory>
        requires may { MayActAt (state_of self.old) event.now.actor event.now.act }
        requires own { IsOwn event.now.act }
        ensures makes { (p : Plan) →
            IsNetworkOf p (state_of self.old) →
            OnOk result (MakesEvent p (state_of self.old) event.now (state_of self.new)) }
        ensures awake { OnOk result
            ((mask : ℕ) → StaysAwake (state_of self.old) mask (state_of self.new) mask) }
        ensures refused { OnErr result (state_of self.new ≡ state_of self.old) }
    {
        self.actors[usize::from(event.actor)].make(&event.act)
    }

    /// An actor takes the front token of the way that comes in by a link, where one does (`link_to_take` names such a link). The word is
    /// for a switch that puts a random header in front of a packet. No token comes to an actor by it, so no mask of who is awake changes.
    #[inline(always)]
    pub fn take_front(&mut self, actor: u8, link: u8, word: u32)
        requires { HasFront (state_of self.old) actor link }
        ensures makes { (p : Plan) →
            IsNetworkOf p (state_of self.old) →
            MakesEvent p (state_of self.old) (record { actor = actor; act = Act.Take link word })
            (state_of self.new) }
        ensures awake { (mask : ℕ) →
            StaysAwake (state_of self.old) mask (state_of self.new) mask }
    {
        if let Some(acting) = self.actors.get_mut(usize::from(actor)) {
            let token = self.lines.take_front(actor, link);
            acting.accept(link, token, word);
        }
    }

    // The next token of a packet goes to the end of the way that goes out by a link.
    #[inline(always)]
    fn put(&mut self, event: &Event, link: u8, awake: &mut u64) -> Result<(), Memory>
        requires may { MayActAt (state_of self.old) event.now.actor event.now.act }
        requires way { HasWay (state_of self.old) event.now.actor link }
        requires is { event.now.act ≡ Act.Put link }
        ensures makes { (p : Plan) →
            IsNetworkOf p (state_of self.old) →
            OnOk result (MakesEvent p (state_of self.old) event.now (state_of self.new)) }
        ensures awake { OnOk result
            (StaysAwake (state_of self.old) awake.old (state_of self.new) awake.new) }
        ensures refused { OnErr result (state_of self.new ≡ state_of self.old) }
        ensures none_wakes { OnErr result (awake.new ≡ awake.old) }
    {
        let from = &mut self.actors[usize::from(event.actor)];
        let to = self.lines.put(event.actor, link, from)?;
        wake(awake, to);
        Ok(())
    }

    // A flow control token goes to the end of the way that goes out by a link.
    #[inline(always)]
    fn grant(&mut self, event: &Event, link: u8, awake: &mut u64) -> Result<(), Memory>
        requires may { MayActAt (state_of self.old) event.now.actor event.now.act }
        requires way { HasWay (state_of self.old) event.now.actor link }
        requires is { event.now.act ≡ Act.Fct link }
        ensures makes { (p : Plan) →
            IsNetworkOf p (state_of self.old) →
            OnOk result (MakesEvent p (state_of self.old) event.now (state_of self.new)) }
        ensures awake { OnOk result
            (StaysAwake (state_of self.old) awake.old (state_of self.new) awake.new) }
        ensures refused { OnErr result (state_of self.new ≡ state_of self.old) }
        ensures none_wakes { OnErr result (awake.new ≡ awake.old) }
    {
        let to = self.lines.push_out(event.actor, link, Token::Fct)?;
        wake(awake, to);
        self.grant_by(event.actor, link);
        Ok(())
    }

    // An actor grants eight places.
    #[inline(always)]
    fn grant_by(&mut self, actor: u8, link: u8)
        requires { MayActAt (state_of self.old) actor (Act.Fct link) }
        ensures grants { GrantsBy (state_of self.old) actor link (state_of self.new) }
    {
        self.actors[usize::from(actor)].grant(link);
    }

    /// The least link of an actor by which a token can be taken.
    pub fn link_to_take(&self, actor: u8) -> Option<u8>
        ensures least { FindsFront (state_of self.now) actor result }
        ensures takes { (p : Plan) →
            IsNetworkOf p (state_of self.now) →
            FindsTake p (state_of self.now) actor result }
    {
        lowest(self.lines.fronts(actor))
    }

    /// What an actor does next where every way has room; nothing where it has no step but to take. The network stays as it is. It fails for
    /// want of memory alone.
    #[inline(always)]
    pub fn next(&mut self, actor: u8) -> Result<Option<Event>, Memory>
        ensures same { state_of self.new ≡ state_of self.old }
        ensures may { IfOk result
            (λ found. IfSome found (λ e. MayActAt (state_of self.old) e.actor e.act)) }
        ensures lets { IfOk result
            (λ found. IfSome found (λ e. WaysLet (state_of self.old) e.actor e.act)) }
        ensures takes { IfOk result (λ found. IfSome found (λ e. TakesNone e.act)) }
        ensures finds { (p : Plan) →
            IsNetworkOf p (state_of self.old) →
            IfOk result (FindsEvent p (state_of self.old) actor) }
    {
        let place = usize::from(actor);
        if place >= self.actors.len() {
            return Ok(None);
        }
        let room = self.lines.room(actor);
        match self.actors[place].next(room)? {
            Some(act) => Ok(Some(Event { actor, act })),
            None => Ok(None),
        }
    }

    /// An actor makes the event, but a take, that it makes next where every way has room; nothing where it has none. The mask `awake` has a
    /// bit for each of the first 64 actors that may have an event: the actor to which a token goes has its bit from now on. It fails for
    /// want of memory alone, and the network and the mask are then as they were.
    #[inline(always)]
    pub fn turn(&mut self, actor: u8, awake: &mut u64) -> Result<Option<Event>, Memory>
        ensures finds { (p : Plan) →
            IsNetworkOf p (state_of self.old) →
            IfOk result (FindsEvent p (state_of self.old) actor) }
        ensures makes { (p : Plan) →
            IsNetworkOf p (state_of self.old) →
            IfOk result (λ made. MakesOne p (state_of self.old) made (state_of self.new)) }
        ensures awake { OnOk result
            (StaysAwake (state_of self.old) awake.old (state_of self.new) awake.new) }
        ensures refused { OnErr result (state_of self.new ≡ state_of self.old) }
        ensures none_wakes { OnErr result (awake.new ≡ awake.old) }
    {
        let Some(next) = self.next(actor)? else {
            return Ok(None);
        };
        self.make_turn(&next, awake)?;
        Ok(Some(next))
    }

    /// The process of a node makes steps without a communication, one after another, at most so many; answers how many. It makes some only
    /// where the node's links are known to have nothing to do, and as long as each is known to be its only move: then each is the event that
    /// `turn` would make. A switch makes none, nor does an actor that is not there. No token comes to an actor by it, so no mask of who is
    /// awake changes. It takes no memory.
    pub fn make_steps(&mut self, actor: u8, most: u64) -> u64
        ensures few { result ≤ most }
        ensures made { (p : Plan) →
            IsNetworkOf p (state_of self.old) →
            MakesSteps p actor result (state_of self.old) (state_of self.new) }
        ensures awake { (mask : ℕ) →
            StaysAwake (state_of self.old) mask (state_of self.new) mask }
    {
        let place = usize::from(actor);
        if place >= self.actors.len() {
            return 0;
        }
        let room = self.lines.room(actor);
        self.actors[place].make_steps(room, most)
    }

    /// Whether every process has ended.
    pub fn ended(&self) -> bool
        ensures { (p : Plan) →
            IsNetworkOf p (state_of self.now) →
            IsTrue result ↔ AllHaveEnded p (state_of self.now) }
    {
        for actor in &self.actors {
            if !is_done(actor) {
                return false;
            }
        }
        true
    }

    /// How many actors there are: the nodes, and then the switches.
    pub fn actors(&self) -> u8
        ensures { (p : Plan) → IsNetworkOf p (state_of self.now) → result ≡ actors p }
    {
        self.actors.len().min(255) as u8
    }
}

// An actor to which a token came is awake from now on.
#[inline(always)]
fn wake(awake: &mut u64, actor: u16)
    requires { actor < 64 }
    ensures kept { (k : ℕ) → k < 64 → bit_at awake.old k ≡ 1 → bit_at awake.new k ≡ 1 }
    ensures it { bit_at awake.new actor ≡ 1 }
    ensures only { (k : ℕ) →
        k < 64 →
        bit_at awake.new k ≡ 1 →
        (bit_at awake.old k ≡ 1) ⊎ (actor ≡ k) }
{
    *awake |= 1u64 << actor;
}

// Whether nothing remains of an actor's process, if it is a node.
fn is_done(actor: &Actor) -> bool
    ensures { IsTrue result ↔ IsDone actor.now }
{
    match actor.node() {
        Some(node) => node.ended(),
        None => true,
    }
}
