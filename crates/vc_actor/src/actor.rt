//! Actors: what the simulator and a thread run alike.
ghost use Rattle.std.specs.Prelude.{◌≡◌, ◌<◌, ◌≤◌, ◌↔◌, ℕ, IsTrue, IfOk, IsOk, IfSome, OnOk, OnErr};
ghost use Rattle.std.specs.Option.{option_copied};
ghost use Rattle.vc_actor.specs.Able.{CanAct};
ghost use Rattle.vc_actor.specs.Acts.{HasLink, MayAct, MakesOwn, MakesTake, MakesPut, MakesGrant, IsOwn};
ghost use Rattle.vc_actor.specs.OfPlan.{IsActorOf};
ghost use Rattle.vc_actor.specs.Parts.{HasEnded, node_in, switch_in, strays_of, lost_of, faults_of};
ghost use Rattle.vc_actor.specs.ActorView.{OfNode, OfSwitch};
ghost use Rattle.vc_actor.specs.StepsInARow.{MakesSteps};
ghost use Rattle.vc_actor.specs.Turns.{FindsTurn, MakesTurn, PutsWithRoom, RoomLets};
ghost use Rattle.vc_actor.specs.Private.Turns.{IsTold};
ghost use Rattle.vc_network.specs.Plan.{Plan};
ghost use Rattle.vc_tokens.specs.CodeTokens.{token};

use crate::act::Act;
use crate::node::Node;
use crate::node_actor::NodeActor;
use crate::switch_actor::SwitchActor;
use crate::turn::Turn;
use std::marker::Model;
use vc_occam::Move;
use vc_packets::Memory;
use vc_switch::{ReadySwitch, Switch};
use vc_tokens::Token;

/// A node or a switch of the network, which makes its steps by itself.
pub struct Actor {
    part: Part,
}

impl Drop for Actor {
    // written, so that the crates above need not prove again how all that it holds is dropped
    fn drop(self) {
        let Actor { part: _ } = self;
    }
}

/// What an actor is.
#[derive(Drop)]
pub(crate) enum Part {
    /// A node with its process.
    Node(NodeActor),
    /// A switch.
    Switch(SwitchActor),
}

impl Model for Actor {
    ghost use Rattle.vc_actor.specs.Parts.{acting};
    ghost use Rattle.vc_actor.specs.ActorView.{Acting};
    ghost use Rattle.std.specs.Coded.{codes};
    ghost use Rattle.vc_actor.specs.contracts.node.Node as node;

    ghost Value = { Acting };

    ghost coded = { Prim.hlevel (codes, node.the_row.coded) };

    ghost view = { λ x. acting x.part };
}

impl Actor {
    pub(crate) fn of_node(node: Node) -> Actor
        ensures { result ≡ OfNode node }
    {
        Actor {
            part: Part::Node(NodeActor::new(node)),
        }
    }

    pub(crate) fn of_switch(switch: ReadySwitch) -> Actor
        ensures { result ≡ OfSwitch switch }
    {
        Actor {
            part: Part::Switch(SwitchActor::new(switch)),
        }
    }

    /// The node, if the actor is one.
    pub fn node(&self) -> Option<&Node>
        ensures { option_copied result ≡ node_in self.now }
    {
        match &self.part {
            Part::Node(node) => Some(node.node()),
            Part::Switch(_) => None,
        }
    }

    /// The switch, if the actor is one.
    pub fn switch(&self) -> Option<&Switch>
        ensures { option_copied result ≡ switch_in self.now }
    {
        match &self.part {
            Part::Node(_) => None,
            Part::Switch(switch) => Some(switch.switch()),
        }
    }

    /// Whether a token may be taken from a link: always, where the actor has the link; a node has four, and a switch 32.
    pub fn may_take(&self, link: u8) -> bool
        ensures { IsTrue result ↔ HasLink self.now link }
    {
        match &self.part {
            Part::Node(_) => link < 4,
            Part::Switch(_) => link < 32,
        }
    }

    /// Whether an act is one that the actor can make now, whatever is on its ways.
    pub fn can(&self, act: &Act) -> bool
        ensures may { IsTrue result ↔ MayAct self.now act.now }
        ensures can { (plan : Plan) (k : ℕ) →
            IsActorOf plan k self.now →
            IsTrue result ↔ CanAct plan k self.now act.now }
    {
        match &self.part {
            Part::Node(node) => node.can(act),
            Part::Switch(switch) => switch.can(act),
        }
    }

    /// Takes a token from a link, with a word of which a switch makes a random header. There is room for it already, so it is never
    /// refused.
    pub fn take(&mut self, link: u8, item: &Token, word: u32) -> Result<Act, Memory>
        requires { HasLink self.old link }
        ensures taken { IsOk result }
        ensures act { IfOk result (λ act. act ≡ Act.Take link word) }
        ensures ok { (plan : Plan) (k : ℕ) →
            IsActorOf plan k self.old →
            OnOk result (MakesTake plan k self.old link word (token item.now) self.new) }
        ensures err { OnErr result (self.new ≡ self.old) }
    {
        self.accept(link, *item, word);
        Ok(Act::Take { link, word })
    }

    /// A token comes over a link, with a word; a node drops one of a link that it has not.
    #[inline(always)]
    pub fn accept(&mut self, link: u8, came: Token, word: u32)
        requires { link < 32 }
        ensures { (plan : Plan) (k : ℕ) →
            IsActorOf plan k self.old →
            HasLink self.old link →
            MakesTake plan k self.old link word (token came) self.new }
    {
        match &mut self.part {
            Part::Node(node) => node.accept(link, came),
            Part::Switch(switch) => switch.accept(link, came, word),
        }
    }

    /// Makes a step of its own: a move of a process, a token that passes, or a packet that is bound to an output.
    #[inline(always)]
    pub fn make(&mut self, act: &Act) -> Result<(), Memory>
        requires may { MayAct self.old act.now }
        requires own { IsOwn act.now }
        ensures ok { (plan : Plan) (k : ℕ) →
            IsActorOf plan k self.old →
            OnOk result (MakesOwn plan k self.old act.now self.new) }
        ensures err { OnErr result (self.new ≡ self.old) }
    {
        match *act {
            Act::Proc(made) => self.make_move(&made),
            Act::Pass { link } => self.pass(link),
            Act::Route { input, output } => {
                self.route(input, output);
                Ok(())
            }
            Act::Take { .. } | Act::Put { .. } | Act::Fct { .. } => unreachable!(),
        }
    }

    /// The process of a node makes steps without a communication, one after another, at most so many; answers how many. It makes some only
    /// where its links are known to have nothing to do with this room, and as long as each is known to be its only move. A switch makes none.
    /// It takes no memory.
    pub fn make_steps(&mut self, room: u32, most: u64) -> u64
        ensures few { result ≤ most }
        ensures made { (plan : Plan) (k : ℕ) →
            IsActorOf plan k self.old →
            MakesSteps plan k result self.old self.new }
    {
        match &mut self.part {
            Part::Node(node) => node.make_steps(room, most),
            Part::Switch(_) => 0,
        }
    }

    /// The process makes a move.
    #[inline(always)]
    pub fn make_move(&mut self, made: &Move) -> Result<(), Memory>
        requires { MayAct self.old (Act.Proc made.now) }
        ensures ok { (plan : Plan) (k : ℕ) →
            IsActorOf plan k self.old →
            OnOk result (MakesOwn plan k self.old (Act.Proc made.now) self.new) }
        ensures err { OnErr result (self.new ≡ self.old) }
    {
        match &mut self.part {
            Part::Node(node) => node.make_move(made),
            Part::Switch(_) => unreachable!(),
        }
    }

    /// A token passes from a link's buffer.
    #[inline(always)]
    pub fn pass(&mut self, link: u8) -> Result<(), Memory>
        requires { MayAct self.old (Act.Pass link) }
        ensures ok { (plan : Plan) (k : ℕ) →
            IsActorOf plan k self.old →
            OnOk result (MakesOwn plan k self.old (Act.Pass link) self.new) }
        ensures err { OnErr result (self.new ≡ self.old) }
    {
        match &mut self.part {
            Part::Node(node) => node.pass(link),
            Part::Switch(switch) => {
                switch.pass(link);
                Ok(())
            }
        }
    }

    /// A switch binds an input's packet to an output.
    #[inline(always)]
    pub fn route(&mut self, input: u8, output: u8)
        requires { MayAct self.old (Act.Route input output) }
        ensures { (plan : Plan) (k : ℕ) →
            IsActorOf plan k self.old →
            MakesOwn plan k self.old (Act.Route input output) self.new }
    {
        match &mut self.part {
            Part::Node(_) => unreachable!(),
            Part::Switch(switch) => switch.route(input, output),
        }
    }

    /// Puts the next token on a link.
    #[inline(always)]
    pub fn put(&mut self, link: u8) -> Token
        requires { MayAct self.old (Act.Put link) }
        ensures { (plan : Plan) (k : ℕ) →
            IsActorOf plan k self.old →
            MakesPut plan k self.old link (token result) self.new }
    {
        match &mut self.part {
            Part::Node(node) => node.put(link),
            Part::Switch(switch) => switch.put(link),
        }
    }

    /// Grants eight places of a link's buffer.
    #[inline(always)]
    pub fn grant(&mut self, link: u8)
        requires { MayAct self.old (Act.Fct link) }
        ensures { (plan : Plan) (k : ℕ) →
            IsActorOf plan k self.old →
            MakesGrant plan k self.old link self.new }
    {
        match &mut self.part {
            Part::Node(node) => node.grant(link),
            Part::Switch(switch) => switch.grant(link),
        }
    }

    /// Makes the actor's next step: a token passes, by the least link; a switch binds a packet, the least input's to the least
    /// output; a token is put, by the least link with room; a flow control token is put, by the least link with room; then a move
    /// of the process, beginning after the site that acted last. `room` has a bit for each outgoing link that has room, and a token is
    /// put on such a link alone. An idle turn changes nothing.
    #[inline(always)]
    pub fn turn(&mut self, room: u32) -> Result<Turn, Memory>
        ensures makes { (plan : Plan) (k : ℕ) →
            IsActorOf plan k self.old →
            IfOk result (λ turn. MakesTurn plan k self.old room turn self.new) }
        ensures room { IfOk result (PutsWithRoom room) }
        ensures idle { IfOk result (λ turn. turn ≡ Turn.Idle → self.new ≡ self.old) }
        ensures refused { OnErr result (self.new ≡ self.old) }
    {
        match self.next(room)? {
            None => Ok(Turn::Idle),
            Some(act) => self.turn_by(act),
        }
    }

    // Makes this step.
    #[inline(always)]
    fn turn_by(&mut self, act: Act) -> Result<Turn, Memory>
        requires { MayAct self.old act }
        ensures makes { (plan : Plan) (k : ℕ) →
            IsActorOf plan k self.old →
            IfOk result (λ turn. IsTold plan k self.old act turn self.new) }
        ensures room { (room : ℕ) → RoomLets room act → IfOk result (PutsWithRoom room) }
        ensures idle { IfOk result (λ turn. turn ≡ Turn.Idle → self.new ≡ self.old) }
        ensures refused { OnErr result (self.new ≡ self.old) }
    {
        match act {
            Act::Put { link } => {
                let item = self.put(link);
                Ok(Turn::Put { link, act, item })
            }
            Act::Fct { link } => {
                self.grant(link);
                let item = Token::Fct;
                Ok(Turn::Put { link, act, item })
            }
            Act::Proc(_) | Act::Pass { .. } | Act::Route { .. } => {
                self.make(&act)?;
                Ok(Turn::Local(act))
            }
            Act::Take { .. } => Ok(Turn::Idle),
        }
    }

    /// What the actor does next, if it has a step to make where its links have this room.
    #[inline(always)]
    pub fn next(&mut self, room: u32) -> Result<Option<Act>, Memory>
        ensures same { self.new ≡ self.old }
        ensures may { IfOk result (λ act. IfSome act (λ a. MayAct self.old a)) }
        ensures lets { IfOk result (λ act. IfSome act (RoomLets room)) }
        ensures finds { (plan : Plan) (k : ℕ) →
            IsActorOf plan k self.old →
            IfOk result (FindsTurn plan k self.old room) }
    {
        match &mut self.part {
            Part::Node(node) => node.next(room),
            Part::Switch(switch) => Ok(switch.next(room)),
        }
    }

    /// Whether the process of a node has ended: nothing remains of it. A switch never ends.
    pub fn ended(&self) -> bool
        ensures { IsTrue result ↔ HasEnded self.now }
    {
        match &self.part {
            Part::Node(node) => node.ended(),
            Part::Switch(_) => false,
        }
    }

    /// How many packets and tokens a node dropped; 0 of a switch.
    pub fn strays(&self) -> u64
        ensures { result ≡ strays_of self.now }
    {
        match &self.part {
            Part::Node(node) => node.strays(),
            Part::Switch(_) => 0,
        }
    }

    /// How many packets and tokens a switch dropped; 0 of a node.
    pub fn lost(&self) -> u64
        ensures { result ≡ lost_of self.now }
    {
        match &self.part {
            Part::Node(_) => 0,
            Part::Switch(switch) => switch.lost(),
        }
    }

    /// How many packets and tokens were dropped.
    pub fn faults(&self) -> u64
        ensures { result ≡ faults_of self.now }
    {
        match &self.part {
            Part::Node(node) => node.strays(),
            Part::Switch(switch) => switch.lost(),
        }
    }
}
