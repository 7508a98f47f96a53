//! A node as an actor.
ghost use Rattle.std.specs.Prelude.{◌≡◌, ◌<◌, ◌≤◌, ◌-◌, ◌↔◌, ℕ, [], true, false, Some, IsTrue, IfOk, IfSome, OnOk, OnErr};
ghost use Rattle.vc_actor.specs.Acts.{NodeMay, MakesOwn, MakesTake, MakesPut, MakesGrant};
ghost use Rattle.vc_actor.specs.Able.{NodeCan};
ghost use Rattle.vc_actor.specs.OfPlan.{IsNodeOf, IsActorOf};
ghost use Rattle.vc_actor.specs.ActorView.{OfNode};
ghost use Rattle.vc_actor.specs.Private.Turns.{FindsMove, NeedsNoRoom};
ghost use Rattle.vc_actor.specs.StepsInARow.{MakesSteps};
ghost use Rattle.vc_actor.specs.Turns.{FindsTurn, RoomLets};
ghost use Rattle.vc_occam.specs.MoveSites.{without};
ghost use Rattle.vc_occam.specs.Remains.{Done};
ghost use Rattle.vc_occam.specs.Runnings.{inner_channels, moves as moves_of, state};
ghost use Rattle.vc_vcp.specs.VcpView.{seen};
ghost use Rattle.vc_network.specs.Plan.{Plan};
ghost use Rattle.vc_tokens.specs.CodeTokens.{token};

use crate::act::Act;
use crate::node::{NODE_LINKS, Node, site_of};
use sqlite_items::Items;
use std::marker::Model;
use vc_occam::{Move, Steps};
use vc_packets::Memory;
use vc_tokens::Token;

/// So many moves are listed about as fast as the first of them is found.
const FEW: usize = 2;

/// A node with its process, its moves as they were listed last, and the site from which they are looked at next.
#[derive(Drop)]
pub(crate) struct NodeActor {
    node: Node,
    moves: Items<Move>,
    // whether the process has not changed since they were listed
    is_listed: bool,
    // whether they were many when they were listed last
    are_many: bool,
    // the room with which the links are known to have nothing to do
    still_room: Option<u32>,
    next_site: u16,
}

impl Model for NodeActor {
    ghost use Rattle.std.specs.Coded.{codes};
    ghost use Rattle.vc_actor.specs.MoveList.{AreListed};
    ghost use Rattle.vc_actor.specs.declared.node.Node.{Node};
    ghost use Rattle.vc_actor.specs.contracts.node.Node as its_node;

    ghost Value = { Node };

    ghost coded = { Prim.hlevel (codes, its_node.the_row.coded) };

    ghost view = { λ x. x.node };

    ghost invariant = { λ x. AreListed x.is_listed x.moves x.node.process };
}

impl NodeActor {
    pub(crate) fn new(node: Node) -> NodeActor
        ensures { result ≡ node }
    {
        NodeActor {
            moves: Items::new(node.alloc),
            node,
            is_listed: false,
            are_many: false,
            still_room: None,
            next_site: 0,
        }
    }

    pub(crate) fn node(&self) -> &Node
        ensures { result.now ≡ self.now }
    {
        &self.node
    }

    /// Whether an act is one that the node can make now, whatever is on its ways.
    pub(crate) fn can(&self, act: &Act) -> bool
        ensures may { IsTrue result ↔ NodeMay self.now act.now }
        ensures can { (plan : Plan) (k : ℕ) →
            IsNodeOf plan k self.now →
            IsTrue result ↔ NodeCan plan k self.now act.now }
    {
        prove!(self.node.vcp.links() == NODE_LINKS);
        match act {
            Act::Proc(made) => self.node.can_move(made),
            Act::Take { link, .. } => *link < NODE_LINKS,
            Act::Put { link } => self.node.vcp.may_put(*link),
            Act::Fct { link } => self.node.vcp.may_grant(*link),
            Act::Pass { link } => self.node.vcp.may_pass(*link),
            Act::Route { .. } => false,
        }
    }

    /// A token comes over a link; one of a link that the node has not is dropped.
    #[inline(always)]
    pub(crate) fn accept(&mut self, link: u8, came: Token)
        ensures { (plan : Plan) (k word : ℕ) →
            IsActorOf plan k (OfNode self.old) →
            link < 4 →
            MakesTake plan k (OfNode self.old) link word (token came) (OfNode self.new) }
    {
        self.node.vcp.accept(link, came);
        self.still_room = None;
    }

    /// The process makes a move. For a step without a communication this is a way of its own: the links stay as they are.
    #[inline(always)]
    pub(crate) fn make_move(&mut self, made: &Move) -> Result<(), Memory>
        requires { NodeMay self.old (Act.Proc made.now) }
        ensures ok { (plan : Plan) (k : ℕ) →
            IsActorOf plan k (OfNode self.old) →
            OnOk result (MakesOwn plan k (OfNode self.old) (Act.Proc made.now) (OfNode self.new)) }
        ensures err { OnErr result (self.new ≡ self.old) }
    {
        match *made {
            Move::Quiet { site } => self.rest(site),
            _ => self.use_channel(made),
        }
    }

    // The process makes a move on a channel.
    #[inline(always)]
    fn use_channel(&mut self, made: &Move) -> Result<(), Memory>
        requires { NodeMay self.old (Act.Proc made.now) }
        ensures ok { (plan : Plan) (k : ℕ) →
            IsActorOf plan k (OfNode self.old) →
            OnOk result (MakesOwn plan k (OfNode self.old) (Act.Proc made.now) (OfNode self.new)) }
        ensures err { OnErr result (self.new ≡ self.old) }
    {
        let site = site_of(made);
        let waits = self.node.make(made)?;
        self.still_room = None;
        self.next_site = site.saturating_add(1);
        self.is_listed = stay_listed(&mut self.moves, self.is_listed, waits, site);
        Ok(())
    }

    // The process makes a step without a communication.
    #[inline(always)]
    fn rest(&mut self, site: u16) -> Result<(), Memory>
        requires { NodeMay self.old (Act.Proc (Move.Quiet site)) }
        ensures ok { (plan : Plan) (k : ℕ) →
            IsActorOf plan k (OfNode self.old) →
            OnOk result
            (MakesOwn plan k (OfNode self.old) (Act.Proc (Move.Quiet site)) (OfNode self.new)) }
        ensures err { OnErr result (self.new ≡ self.old) }
    {
        self.node.rest(site)?;
        self.next_site = site.saturating_add(1);
        self.is_listed = false;
        Ok(())
    }

    /// Makes steps without a communication, one after another, where the links are known to have nothing to do with this room, as long as
    /// each is known to be the process's only move, and at most so many; answers how many.
    pub(crate) fn make_steps(&mut self, room: u32, most: u64) -> u64
        ensures few { result ≤ most }
        ensures made { (plan : Plan) (k : ℕ) →
            IsActorOf plan k (OfNode self.old) →
            MakesSteps plan k result (OfNode self.old) (OfNode self.new) }
    {
        if most == 0 || self.still_step(room).is_none() {
            return 0;
        }
        let mut steps = Steps {
            left: most,
            last: 0,
        };
        self.node.make_steps(&mut steps);
        self.next_site = steps.last.saturating_add(1);
        self.is_listed = false;
        most - steps.left
    }

    /// A token passes from a link's buffer.
    #[inline(always)]
    pub(crate) fn pass(&mut self, link: u8) -> Result<(), Memory>
        requires { NodeMay self.old (Act.Pass link) }
        ensures ok { (plan : Plan) (k : ℕ) →
            IsActorOf plan k (OfNode self.old) →
            OnOk result (MakesOwn plan k (OfNode self.old) (Act.Pass link) (OfNode self.new)) }
        ensures err { OnErr result (self.new ≡ self.old) }
    {
        if self.node.pass(link)? {
            self.is_listed = false;
            self.are_many = false;
        }
        Ok(())
    }

    /// Puts the next token on a link.
    #[inline(always)]
    pub(crate) fn put(&mut self, link: u8) -> Token
        requires { NodeMay self.old (Act.Put link) }
        ensures { (plan : Plan) (k : ℕ) →
            IsActorOf plan k (OfNode self.old) →
            MakesPut plan k (OfNode self.old) link (token result) (OfNode self.new) }
    {
        self.node.vcp.put(link)
    }

    /// Grants eight places of a link's buffer.
    #[inline(always)]
    pub(crate) fn grant(&mut self, link: u8)
        requires { NodeMay self.old (Act.Fct link) }
        ensures { (plan : Plan) (k : ℕ) →
            IsActorOf plan k (OfNode self.old) →
            MakesGrant plan k (OfNode self.old) link (OfNode self.new) }
    {
        self.node.vcp.grant(link);
    }

    /// What the node does next where its links have this room: by the least link, or a move of the process, beginning after the
    /// site that acted last.
    #[inline(always)]
    pub(crate) fn next(&mut self, room: u32) -> Result<Option<Act>, Memory>
        ensures same { self.new ≡ self.old }
        ensures may { IfOk result (λ act. IfSome act (λ a. NodeMay self.old a)) }
        ensures lets { IfOk result (λ act. IfSome act (RoomLets room)) }
        ensures finds { (plan : Plan) (k : ℕ) →
            IsNodeOf plan k self.old →
            IfOk result (FindsTurn plan k (OfNode self.old) room) }
    {
        if let Some(act) = self.still_step(room) {
            return Ok(Some(act));
        }
        if let Some(act) = self.node.next_pass() {
            return Ok(Some(act));
        }
        if let Some(act) = self.node.next_put(room) {
            return Ok(Some(act));
        }
        if let Some(act) = self.node.next_grant(room) {
            return Ok(Some(act));
        }
        self.still_room = Some(room);
        self.next_move()
    }

    // The process's only move, where that is known to be a step without a communication, and the links are known to have nothing to do
    // with this room.
    fn still_step(&self, room: u32) -> Option<Act>
        ensures may { IfSome result (λ a. NodeMay self.now a) }
        ensures lets { IfSome result NeedsNoRoom }
        ensures finds { (plan : Plan) (k : ℕ) →
            IsNodeOf plan k self.now →
            IfSome result (λ a. FindsMove plan k self.now (Some a)) }
    {
        let still = self.still_room?;
        if room & !still != 0 {
            return None;
        }
        self.only_step()
    }

    // The process's only move, where that is known to be a step without a communication.
    fn only_step(&self) -> Option<Act>
        ensures may { IfSome result (λ a. NodeMay self.now a) }
        ensures lets { IfSome result NeedsNoRoom }
        ensures finds { (plan : Plan) (k : ℕ) →
            IsNodeOf plan k self.now →
            IfSome result (λ a. FindsMove plan k self.now (Some a)) }
    {
        self.node.only_step()
    }

    // The next move that the process can make, where the links have nothing to do, going round behind the site that acted last.
    #[inline(always)]
    fn next_move(&mut self) -> Result<Option<Act>, Memory>
        ensures same { self.new ≡ self.old }
        ensures may { IfOk result (λ act. IfSome act (λ a. NodeMay self.old a)) }
        ensures lets { IfOk result (λ act. IfSome act NeedsNoRoom) }
        ensures finds { (plan : Plan) (k : ℕ) →
            IsNodeOf plan k self.old →
            IfOk result (FindsMove plan k self.old) }
    {
        if self.is_listed {
            return Ok(self.node.next_move(self.moves.as_slice(), self.next_site));
        }
        if let Some(act) = self.only_step() {
            return Ok(Some(act));
        }
        if let Some(act) = self.found_move() {
            return Ok(Some(act));
        }
        self.next_listed()
    }

    // The next move, found without a list, where the process has changed: one of many, if they were many when they were listed last, or
    // else its only one, where that is known to be a meeting inside the node.
    fn found_move(&mut self) -> Option<Act>
        ensures same { self.new ≡ self.old }
        ensures may { IfSome result (λ a. NodeMay self.old a) }
        ensures lets { IfSome result NeedsNoRoom }
        ensures finds { (plan : Plan) (k : ℕ) →
            IsNodeOf plan k self.old →
            IfSome result (λ a. FindsMove plan k self.old (Some a)) }
    {
        if !self.are_many {
            let made = self.node.process.only_meeting()?;
            return self.node.let_move(made);
        }
        match self.node.first_round(self.next_site) {
            Some(made) => self.node.let_move(made),
            None => {
                self.list_none();
                None
            }
        }
    }

    // Where no channel is inside the node, the process has no move.
    fn list_none(&mut self)
        requires { ((c : ℕ) → inner_channels self.old.process c ≡ false) →
            moves_of self.old.process ≡ [] }
        ensures { self.new ≡ self.old }
    {
        if self.node.process.is_unjoined() {
            self.moves = Items::new(self.node.alloc);
            self.is_listed = true;
            self.are_many = false;
        }
    }

    // The next of the process's moves that can be made, which are listed where the process has changed.
    fn next_listed(&mut self) -> Result<Option<Act>, Memory>
        ensures same { self.new ≡ self.old }
        ensures may { IfOk result (λ act. IfSome act (λ a. NodeMay self.old a)) }
        ensures lets { IfOk result (λ act. IfSome act NeedsNoRoom) }
        ensures finds { (plan : Plan) (k : ℕ) →
            IsNodeOf plan k self.old →
            IfOk result (FindsMove plan k self.old) }
    {
        if !self.is_listed {
            self.node.process.list_actions(&mut self.moves)?;
            self.is_listed = true;
            self.are_many = self.moves.len() > FEW;
        }
        Ok(self.node.next_move(self.moves.as_slice(), self.next_site))
    }

    /// Whether the process has ended: nothing remains of it.
    pub(crate) fn ended(&self) -> bool
        ensures { IsTrue result ↔ ((state self.now.process).rest ≡ Done) }
    {
        self.node.ended()
    }

    /// How many packets and tokens were dropped.
    pub(crate) fn strays(&self) -> u64
        ensures { result ≡ (seen self.now.vcp).carrier.strays }
    {
        self.node.vcp.strays()
    }
}

// Where moves are listed and the site that made one waits, the others stay listed; answers whether that is so.
#[inline(always)]
fn stay_listed(moves: &mut Items<Move>, are_listed: bool, waits: bool, site: u16) -> bool
    ensures { result ≡ true →
        (are_listed ≡ true) × (waits ≡ true) × (moves.new ≡ without site moves.old) }
{
    if !are_listed || !waits {
        return false;
    }
    leave_out(moves, site);
    true
}

// Takes the first move at a site out of a list.
fn leave_out(moves: &mut Items<Move>, site: u16)
    ensures { moves.new ≡ without site moves.old }
{
    for place in 0..moves.len() {
        if site_of(&moves.as_slice()[place]) == site {
            moves.remove(place);
            return;
        }
    }
}
