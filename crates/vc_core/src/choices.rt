//! Which events a network has now, as lists in order: who has one, and what an actor can do.
ghost use Rattle.std.specs.Prelude.{◌≡◌, ◌≢◌, ◌<◌, ◌↔◌, [], ◌∷◌, ◌++◌, IsTrue, IfOk, OnOk, Ok, true, map};
ghost use Rattle.std.specs.List.{AllByRecursion, flat_map, range_with_len};
ghost use Rattle.vc_actor.specs.ActorView.{node_of};
ghost use Rattle.vc_network.specs.Network.{IsNode};
ghost use Rattle.vc_actor.specs.Turns.{actors};
ghost use Rattle.vc_actor.specs.declared.act.Act.TheVariants as act;
ghost use Rattle.vc_core.specs.Choices.{AreActs, AreReady, HasEvent, MayMakeOne, acts_at, acts_of, routes_at};
ghost use Rattle.vc_core.specs.Private.Choices.{IsSwitchAt, Lists};
ghost use Rattle.vc_core.specs.State.{state_of, shown, IsNetworkOf};
ghost use Rattle.vc_plan.specs.declared.plan.Plan.{Plan};

use crate::event::Event;
use crate::network::Network;
use sqlite_items::at;
use vc_actor::{Act, Node};
use vc_occam::Move;
use vc_packets::Memory;
use vc_switch::Switch;

/// The links of a node.
const NODE_LINKS: u8 = 4;

/// The links of a switch.
const SWITCH_LINKS: u8 = 32;

impl Network {
    /// Reports whether an actor has an event. The network does not change. The call fails only when out of memory.
    pub fn has_event(&mut self, actor: u8) -> Result<bool, Memory>
        ensures has { (p : Plan) →
            IsNetworkOf p (state_of self.old) →
            actor < actors p →
            IfOk result (λ has. IsTrue has ↔ HasEvent p (shown (state_of self.old)) actor) }
        ensures may { (p : Plan) →
            IsNetworkOf p (state_of self.old) →
            result ≡ Ok true → MayMakeOne (state_of self.old) actor }
        ensures same { state_of self.new ≡ state_of self.old }
    {
        if self.link_to_take(actor).is_some() {
            return Ok(true);
        }
        Ok(self.next(actor)?.is_some())
    }

    /// Replaces the contents of the list with the actors that have an event, in order. The network does not change. The call fails only
    /// when out of memory; the list then holds the first of these actors.
    pub fn list_ready(&mut self, ready: &mut Vec<u8>) -> Result<(), Memory>
        ensures ready { (p : Plan) →
            IsNetworkOf p (state_of self.old) →
            OnOk result (AreReady p (shown (state_of self.old)) ready.new.items) }
        ensures may { (p : Plan) →
            IsNetworkOf p (state_of self.old) →
            OnOk result (AllByRecursion (MayMakeOne (state_of self.old)) ready.new.items) }
        ensures same { state_of self.new ≡ state_of self.old }
    {
        ready.clear();
        for actor in 0..self.actors() {
            if self.has_event(actor)? {
                ready.push(actor)?;
            }
        }
        Ok(())
    }

    /// Replaces the contents of the list with the acts that an actor can do, in order. At each of its links an actor takes the token that
    /// comes, passes one on, puts one and grants places. A switch binds the packet at an input to each output, and the process of a node
    /// makes each move, by each guard that is ready. The list leaves open which word a take draws. The call fails only when out of
    /// memory; the list then holds the first of these acts.
    pub fn list_acts(&self, actor: u8, acts: &mut Vec<Act>) -> Result<(), Memory>
        ensures acts { (p : Plan) →
            IsNetworkOf p (state_of self.now) →
            OnOk result (AreActs p (shown (state_of self.now)) actor acts.new.items) }
        ensures some { MayMakeOne (state_of self.now) actor →
            OnOk result (acts.new.items ≢ []) }
    {
        acts.clear();
        self.push_acts(actor, acts)
    }

    // Adds what an actor can do to a list.
    fn push_acts(&self, actor: u8, acts: &mut Vec<Act>) -> Result<(), Memory>
        ensures { OnOk result
            (Lists (state_of self.now) actor (acts_of ((shown (state_of self.now)).state actor))
            acts.old.items acts.new.items) }
    {
        match at(self.actors.as_slice(), usize::from(actor)) {
            Some(acting) => match acting.node() {
                Some(node) => self.push_by_node(actor, node, acts),
                None => match acting.switch() {
                    Some(switch) => self.push_by_switch(actor, switch, acts),
                    None => unreachable!(),
                },
            },
            None => Ok(()),
        }
    }

    // Adds what a node can do to a list.
    fn push_by_node(&self, actor: u8, node: &Node, acts: &mut Vec<Act>) -> Result<(), Memory>
        ensures { OnOk result
            (Lists (state_of self.now) actor (acts_of (IsNode (node_of node.now)))
            acts.old.items acts.new.items) }
    {
        for link in 0..NODE_LINKS {
            self.push_at(actor, link, acts)?;
        }
        let moves = node.moves()?;
        self.push_moves(actor, moves.as_slice(), acts)
    }

    // Adds the moves that a node's process can make to a list.
    fn push_moves(&self, actor: u8, moves: &[Move], acts: &mut Vec<Act>) -> Result<(), Memory>
        ensures { OnOk result
            (Lists (state_of self.now) actor (map act.Proc moves.now) acts.old.items
            acts.new.items) }
    {
        for made in moves {
            self.push_if(actor, Act::Proc(*made), acts)?;
        }
        Ok(())
    }

    // Adds what a switch can do to a list.
    fn push_by_switch(&self, actor: u8, switch: &Switch, acts: &mut Vec<Act>) -> Result<(), Memory>
        requires { IsSwitchAt (state_of self.now) actor switch.now }
        ensures { OnOk result
            (Lists (state_of self.now) actor
            (flat_map (λ l. acts_at l ++ routes_at l) (range_with_len 0 32))
            acts.old.items acts.new.items) }
    {
        for link in 0..SWITCH_LINKS {
            self.push_at(actor, link, acts)?;
            self.push_routes(actor, switch, link, acts)?;
        }
        Ok(())
    }

    // Adds a binding of the packet at an input to each output that it can be bound to.
    fn push_routes(
        &self,
        actor: u8,
        switch: &Switch,
        input: u8,
        acts: &mut Vec<Act>,
    ) -> Result<(), Memory>
        requires { IsSwitchAt (state_of self.now) actor switch.now }
        ensures { OnOk result
            (Lists (state_of self.now) actor (routes_at input) acts.old.items acts.new.items) }
    {
        let Some(_group) = switch.choices(input) else {
            return Ok(());
        };
        for output in 0..SWITCH_LINKS {
            self.push_if(actor, Act::Route { input, output }, acts)?;
        }
        Ok(())
    }

    // Adds what an actor can do at a link to a list.
    fn push_at(&self, actor: u8, link: u8, acts: &mut Vec<Act>) -> Result<(), Memory>
        ensures { OnOk result
            (Lists (state_of self.now) actor (acts_at link) acts.old.items acts.new.items) }
    {
        self.push_if(actor, Act::Take { link, word: 0 }, acts)?;
        self.push_if(actor, Act::Pass { link }, acts)?;
        self.push_if(actor, Act::Put { link }, acts)?;
        self.push_if(actor, Act::Fct { link }, acts)
    }

    // Adds an act to a list if the actor can do it.
    fn push_if(&self, actor: u8, act: Act, acts: &mut Vec<Act>) -> Result<(), Memory>
        ensures { OnOk result
            (Lists (state_of self.now) actor (act ∷ []) acts.old.items acts.new.items) }
    {
        let event = Event { actor, act };
        if self.enabled(&event) {
            acts.push(act)?;
        }
        Ok(())
    }
}
