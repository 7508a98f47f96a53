//! A switch as an actor.
ghost use Rattle.std.specs.Prelude.{◌≡◌, ◌<◌, ◌≤◌, ◌↔◌, ℕ, IsTrue, IfSome};
ghost use Rattle.vc_actor.specs.Acts.{SwitchMay, MakesOwn, MakesTake, MakesPut, MakesGrant};
ghost use Rattle.vc_actor.specs.Able.{SwitchCan};
ghost use Rattle.vc_actor.specs.OfPlan.{IsActorOf};
ghost use Rattle.vc_actor.specs.ActorView.{OfSwitch};
ghost use Rattle.vc_actor.specs.Turns.{IsTurn, FindsTurn, RoomLets};
ghost use Rattle.vc_actor.specs.Private.Turns.{FindsAt, FindsRoute, NeedsNoRoom};
ghost use Rattle.vc_network.specs.Plan.{Plan};
ghost use Rattle.vc_switch.specs.SwitchView.{seen};
ghost use Rattle.vc_tokens.specs.CodeTokens.{token};

use crate::act::Act;
use crate::room::without;
use vc_switch::{ReadySwitch, Switch, lowest};
use vc_tokens::Token;

/// The links of a switch.
const LINKS: u8 = 32;

/// A switch, which makes its steps by itself.
#[derive(Drop)]
pub(crate) struct SwitchActor {
    switch: ReadySwitch,
}

impl SwitchActor {
    pub(crate) fn new(switch: ReadySwitch) -> SwitchActor
        ensures { result.switch ≡ switch }
    {
        SwitchActor { switch }
    }

    pub(crate) fn switch(&self) -> &Switch
        ensures { result.now ≡ self.now.switch }
    {
        self.switch.switch()
    }

    /// Whether an act is one that the switch can make now, whatever is on its ways.
    pub(crate) fn can(&self, act: &Act) -> bool
        ensures may { IsTrue result ↔ SwitchMay self.now.switch act.now }
        ensures can { IsTrue result ↔ SwitchCan self.now.switch act.now }
    {
        let switch = self.switch.switch();
        prove!(switch.links() == LINKS);
        match *act {
            Act::Proc(_) => false,
            Act::Take { link, .. } => switch.may_take(link),
            Act::Put { link } => switch.may_put(link),
            Act::Fct { link } => switch.may_grant(link),
            Act::Pass { link } => switch.may_pass(link),
            Act::Route { input, output } => switch.may_route(input, output),
        }
    }

    /// A token comes over a link, with a word for a random header.
    #[inline(always)]
    pub(crate) fn accept(&mut self, link: u8, came: Token, word: u32)
        requires { link < 32 }
        ensures { (plan : Plan) (k : ℕ) →
            IsActorOf plan k (OfSwitch self.old.switch) →
            MakesTake plan k (OfSwitch self.old.switch) link word (token came)
            (OfSwitch self.new.switch) }
    {
        let _taken = self.switch.take(link, came, word);
    }

    /// A token passes from a link's buffer.
    #[inline(always)]
    pub(crate) fn pass(&mut self, link: u8)
        requires { SwitchMay self.old.switch (Act.Pass link) }
        ensures { (plan : Plan) (k : ℕ) →
            IsActorOf plan k (OfSwitch self.old.switch) →
            MakesOwn plan k (OfSwitch self.old.switch) (Act.Pass link) (OfSwitch self.new.switch) }
    {
        let _passed = self.switch.pass(link);
    }

    /// A packet is bound to an output.
    pub(crate) fn route(&mut self, input: u8, output: u8)
        requires { SwitchMay self.old.switch (Act.Route input output) }
        ensures { (plan : Plan) (k : ℕ) →
            IsActorOf plan k (OfSwitch self.old.switch) →
            MakesOwn plan k (OfSwitch self.old.switch) (Act.Route input output)
            (OfSwitch self.new.switch) }
    {
        self.switch.route(input, output);
    }

    /// Puts the next token of the packet that is bound to an output.
    #[inline(always)]
    pub(crate) fn put(&mut self, link: u8) -> Token
        requires { SwitchMay self.old.switch (Act.Put link) }
        ensures { (plan : Plan) (k : ℕ) →
            IsActorOf plan k (OfSwitch self.old.switch) →
            MakesPut plan k (OfSwitch self.old.switch) link (token result)
            (OfSwitch self.new.switch) }
    {
        self.switch.put(link)
    }

    /// Grants eight places of a link's buffer.
    #[inline(always)]
    pub(crate) fn grant(&mut self, link: u8)
        requires { SwitchMay self.old.switch (Act.Fct link) }
        ensures { (plan : Plan) (k : ℕ) →
            IsActorOf plan k (OfSwitch self.old.switch) →
            MakesGrant plan k (OfSwitch self.old.switch) link (OfSwitch self.new.switch) }
    {
        self.switch.grant(link);
    }

    /// What the switch does next where its links have this room: by the least link, or it binds the packet of the least input to the
    /// least output.
    #[inline(always)]
    pub(crate) fn next(&self, room: u32) -> Option<Act>
        ensures may { IfSome result (λ a. SwitchMay self.now.switch a) }
        ensures lets { IfSome result (RoomLets room) }
        ensures finds { (plan : Plan) (k : ℕ) →
            FindsTurn plan k (OfSwitch self.now.switch) room result }
    {
        if let Some(act) = self.next_pass() {
            return Some(act);
        }
        if let Some(act) = self.next_route() {
            return Some(act);
        }
        if let Some(act) = self.next_put(room) {
            return Some(act);
        }
        self.next_grant(room)
    }

    // The least link whose buffer has a token that may pass.
    fn next_pass(&self) -> Option<Act>
        ensures may { IfSome result (λ a. SwitchMay self.now.switch a) }
        ensures lets { IfSome result NeedsNoRoom }
        ensures finds { FindsAt (λ link. Act.Pass link) (SwitchCan self.now.switch) result }
    {
        prove!(self.switch.switch().links() == LINKS);
        let link = lowest(self.switch.passes())?;
        Some(Act::Pass { link })
    }

    // The least input whose packet may be bound, and the least output to which it may.
    fn next_route(&self) -> Option<Act>
        ensures may { IfSome result (λ a. SwitchMay self.now.switch a) }
        ensures lets { IfSome result NeedsNoRoom }
        ensures finds { FindsRoute self.now.switch result }
    {
        prove!(self.switch.switch().links() == LINKS);
        let (input, output) = self.switch.next_route()?;
        Some(Act::Route { input, output })
    }

    // The least link with room on which a token may be put.
    fn next_put(&self, room: u32) -> Option<Act>
        ensures may { IfSome result (λ a. SwitchMay self.now.switch a) }
        ensures lets { IfSome result (RoomLets room) }
        ensures finds { (plan : Plan) (k : ℕ) →
            FindsAt (λ link. Act.Put link) (IsTurn plan k (OfSwitch self.now.switch) room) result }
    {
        prove!(self.switch.switch().links() == LINKS);
        let mut left = self.switch.puts() & room;
        for _ in 0..LINKS {
            let link = lowest(left)?;
            if self.switch.switch().may_put(link) {
                return Some(Act::Put { link });
            }
            left = without(left, link);
        }
        None
    }

    // The least link with room on which a flow control token may be put.
    fn next_grant(&self, room: u32) -> Option<Act>
        ensures may { IfSome result (λ a. SwitchMay self.now.switch a) }
        ensures lets { IfSome result (RoomLets room) }
        ensures finds { (plan : Plan) (k : ℕ) →
            FindsAt (λ link. Act.Fct link) (IsTurn plan k (OfSwitch self.now.switch) room) result }
    {
        let link = lowest(self.switch.grants() & room)?;
        Some(Act::Fct { link })
    }

    /// How many packets and tokens were dropped.
    pub(crate) fn lost(&self) -> u64
        ensures { result ≡ (seen self.now.switch).lost }
    {
        self.switch.switch().lost()
    }
}
