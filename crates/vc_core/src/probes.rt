//! What can be seen in a network beside its traffic: who is blocked, what is on its wires, and what was dropped.
ghost use Rattle.std.specs.Prelude.{◌≡◌, ◌+◌, ◌*◌, ◌<◌, ◌++◌, [], ℕ, List, length, Some, None, IfOk};
ghost use Rattle.vc_core.specs.Replay.{Replays};
ghost use Rattle.vc_plan.specs.declared.plan.Plan.{Plan};
ghost use Rattle.std.specs.Option.{option_copied, option_map};
ghost use Rattle.vc_accepted.specs.NetworkOf.{network_of};
ghost use Rattle.vc_accepted.specs.ActorWays.{link_port};
ghost use Rattle.vc_packets.specs.Functions.{shown_or};
ghost use Rattle.vc_network.specs.Plan.{IsOutOf};
ghost use Rattle.vc_core.specs.BlockedParts.{blocked_in, blocked_of as blocked_as};
ghost use Rattle.vc_core.specs.Links.{buffer_at, buffered_in, credit_at, credit_in, last_of, way_of};
ghost use Rattle.vc_actor.specs.Parts.{strays_of, lost_of, saturated};
ghost use Rattle.std.specs.List.{sum_by};
ghost use Rattle.vc_actor.specs.ActorView.{actor_of};
ghost use Rattle.vc_core.specs.declared.event.Event.{Event as Happening};
ghost use Rattle.vc_core.specs.State.{shown, state_of, IsNetworkOf};
ghost use Rattle.vc_tokens.specs.CodeTokens.{token as spelt, tokens as all_spelt};

use crate::network::Network;
use crate::way::Way;
use sqlite_items::{Items, at};
use std::alloc::Global;
use vc_actor::Actor;
use vc_occam::Blocked;
use vc_packets::Memory;
use vc_tokens::Token;

impl Network {
    /// What the parts of a node's process are at that do not go on by themselves, in order of site; nothing where the network has no
    /// such node. It fails only when out of memory.
    pub fn blocked(&self, alloc: Global, node: usize) -> Result<Items<Blocked>, Memory>
        ensures { IfOk result (λ found. found ≡ blocked_in (shown (state_of self.now)) node) }
    {
        match at(self.actors.as_slice(), node) {
            Some(actor) => blocked_of(alloc, actor),
            None => Ok(Items::new(alloc)),
        }
    }

    /// How many tokens are on a wire in one direction: from its port one, or from its port two. None where there is no such wire.
    pub fn tokens_on(&self, wire: u16, from_one: bool) -> usize
        ensures { result ≡ length ((shown (state_of self.now)).way (way_of wire from_one)) }
    {
        let way = 2 * usize::from(wire) + usize::from(!from_one);
        match self.lines.way(way) {
            Some(line) => line.len(),
            None => 0,
        }
    }

    /// How many more tokens an actor may put on a link: at most 16, and none where there is no such link.
    pub fn credit(&self, actor: usize, link: u8) -> u8
        ensures { result ≡ credit_in (shown (state_of self.now)) actor link }
    {
        match at(self.actors.as_slice(), actor) {
            Some(actor) => credit_of(actor, link),
            None => 0,
        }
    }

    /// The token at the end of the way that goes out by an actor's link, which was put last of those that are there. None where none
    /// is there, or no way goes out by the link.
    pub fn last_put(&self, actor: u8, link: u8) -> Option<Token>
        ensures token { (p : Plan) (way : ℕ) →
            IsNetworkOf p (state_of self.now) →
            IsOutOf (network_of p) way (link_port p actor link) →
            option_map spelt result ≡ last_of ((shown (state_of self.now)).way way) }
        ensures none { (p : Plan) →
            IsNetworkOf p (state_of self.now) →
            ((way : ℕ) → IsOutOf (network_of p) way (link_port p actor link) → ⊥) →
            result ≡ None }
    {
        match self.lines.outgoing(actor, link) {
            Some(way) => last_on(self.lines.way(way)),
            None => None,
        }
    }

    /// How many tokens are in the receive buffer of an actor's link: at most 16, and none where there is no such link.
    pub fn buffered(&self, actor: usize, link: u8) -> usize
        ensures { result ≡ buffered_in (shown (state_of self.now)) actor link }
    {
        match at(self.actors.as_slice(), actor) {
            Some(actor) => buffered_of(actor, link),
            None => 0,
        }
    }

    /// How many packets and tokens the nodes dropped: none, after any events from the opening state on.
    pub fn strays(&self) -> u64
        ensures counts { result ≡ saturated (sum_by strays_of (state_of self.now).actors) }
        ensures none { (p : Plan) (events : List Happening) →
            Replays p events (state_of self.now) →
            result ≡ 0 }
    {
        let mut all = 0u64;
        for actor in &self.actors {
            all = all.saturating_add(actor.strays());
        }
        all
    }

    /// How many packets and tokens the switches dropped: none, after any events from the opening state on.
    pub fn lost(&self) -> u64
        ensures counts { result ≡ saturated (sum_by lost_of (state_of self.now).actors) }
        ensures none { (p : Plan) (events : List Happening) →
            Replays p events (state_of self.now) →
            result ≡ 0 }
    {
        let mut all = 0u64;
        for actor in &self.actors {
            all = all.saturating_add(actor.lost());
        }
        all
    }
}

// What the parts of an actor's process are at that do not go on by themselves, if it is a node.
fn blocked_of(alloc: Global, actor: &Actor) -> Result<Items<Blocked>, Memory>
    ensures { IfOk result (λ found. found ≡ blocked_as (actor_of actor.now)) }
{
    match actor.node() {
        Some(node) => node.blocked(),
        None => Ok(Items::new(alloc)),
    }
}

// How many more tokens an actor may put on a link.
fn credit_of(actor: &Actor, link: u8) -> u8
    ensures { result ≡ credit_at (actor_of actor.now) link }
{
    if let Some(node) = actor.node() {
        return node.credit_at(link);
    }
    match actor.switch() {
        Some(switch) => switch.credit_left(link),
        None => 0,
    }
}

// The token at the end of a way, if there is one.
fn last_on(line: Option<&Way>) -> Option<Token>
    ensures { option_map spelt result ≡
        last_of (shown_or [] (λ ts. ts) (option_copied line.entry)) }
{
    match line {
        Some(line) => line.last(),
        None => None,
    }
}

// How many tokens the two parts of a buffer have together.
fn count_of(front: &[Token], back: &[Token]) -> usize
    ensures { result ≡ length (all_spelt (front.now ++ back.now)) }
{
    front.len() + back.len()
}

// How many tokens stand in the receive buffer of an actor's link.
fn buffered_of(actor: &Actor, link: u8) -> usize
    ensures { result ≡ length (buffer_at (actor_of actor.now) link) }
{
    if let Some(node) = actor.node() {
        let (front, back) = node.tokens_at(link);
        return count_of(front, back);
    }
    match actor.switch() {
        Some(switch) => {
            let (front, back) = switch.tokens(link);
            count_of(front, back)
        }
        None => 0,
    }
}
