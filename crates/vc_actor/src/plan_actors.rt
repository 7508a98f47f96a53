//! Building the actors of an accepted plan.
ghost use Rattle.std.specs.Prelude.{◌≡◌, ◌≤◌, ◌++◌, [], true, false, Some, IfOk, OnOk, length, slice_get};
ghost use Rattle.vc_accepted.specs.NodeEnds.{ends_among};
ghost use Rattle.vc_accepted.specs.NetworkOf.{network_of};
ghost use Rattle.vc_actor.specs.Begin.{AreFirst, BeginsAs};
ghost use Rattle.vc_actor.specs.Private.Begin.{AreWaysOf, carried, carrying, given, given_to, on_link};
ghost use Rattle.vc_actor.specs.ActorView.{OfNode};
ghost use Rattle.vc_actor.specs.Turns.{actors as actors_in};
ghost use Rattle.vc_network.specs.Plan as network;
ghost use Rattle.vc_plan.specs.Accepted.{IsAccepted};
ghost use Rattle.vc_plan.specs.Limits.{kinds_of};
ghost use Rattle.vc_accepted.specs.Begin.{numbers_inside};

use crate::actor::Actor;
use crate::inside::Inside;
use crate::node::Node;
use crate::plan_switches::build_switch;
use sqlite_items::Items;
use std::alloc::Global;
use vc_occam::{Running, ValueKind};
use vc_packets::Memory;
use vc_plan::{Accepted, Channel, End as PlanEnd, Home, NodePlan, Plan};
use vc_vcp::{End, Vcp};

/// The channels on the two ways of a virtual link.
#[derive(Clone, Copy, Drop)]
pub(crate) struct Ways {
    pub(crate) from_a: Option<u16>,
    pub(crate) from_b: Option<u16>,
}

/// No channel on either way.
const EMPTY: Ways = Ways {
    from_a: None,
    from_b: None,
};

/// The channels on each virtual link.
fn ways_of(alloc: Global, plan: &Plan) -> Result<Vec<Ways>, Memory>
    requires { IsAccepted plan.now }
    ensures { IfOk result (λ ways. AreWaysOf plan.now ways.items) }
{
    let mut ways = vec![in alloc; EMPTY; plan.vlinks.len()]?;
    for (chan, channel) in plan.channels.as_slice().iter().enumerate() {
        carry(&mut ways, channel.home, chan as u16);
    }
    Ok(ways)
}

// The channel is on its way.
fn carry(ways: &mut Vec<Ways>, home: Home, chan: u16)
    ensures { ways.new.items ≡ carried ways.old.items home chan }
{
    if let Home::Way { vlink, from_a } = home {
        if let Some(ways) = ways.get_mut(usize::from(vlink)) {
            *ways = ways.carrying(from_a, chan);
        }
    }
}

impl Ways {
    // The same, with a channel on the way that leaves end a, or end b.
    fn carrying(self, from_a: bool, chan: u16) -> Ways
        ensures { result ≡ carrying self from_a chan }
    {
        if from_a {
            Ways {
                from_a: Some(chan),
                from_b: self.from_b,
            }
        } else {
            Ways {
                from_a: self.from_a,
                from_b: Some(chan),
            }
        }
    }
}

// The channels on a virtual link.
fn ways_at(ways: &[Ways], vlink: usize) -> Ways
    ensures from_a { result.from_a ≡ on_link ways.now vlink true }
    ensures from_b { result.from_b ≡ on_link ways.now vlink false }
{
    match ways.get(vlink) {
        Some(found) => *found,
        None => EMPTY,
    }
}

// An end of a virtual link, with the channels that go out and come in by it.
fn end_of(
    alloc: Global,
    end: &PlanEnd,
    output: Option<u16>,
    input: Option<u16>,
) -> Result<End, Memory>
    ensures { IfOk result (λ e. e ≡ given end.now output input) }
{
    let route = Items::from_slice(alloc, end.route.as_slice())?;
    Ok(End {
        link: end.link,
        block: end.block,
        route,
        output,
        input,
    })
}

// The end joins those that are there, where it is the node's.
fn push_end(
    ends: &mut Vec<End>,
    alloc: Global,
    number: u8,
    end: &PlanEnd,
    output: Option<u16>,
    input: Option<u16>,
) -> Result<(), Memory>
    ensures { OnOk result
        (ends.new.items ≡ ends.old.items ++ given_to number end.now output input) }
{
    if end.node == number {
        let end = end_of(alloc, end, output, input)?;
        ends.push(end)?;
    }
    Ok(())
}

// A node's ends of virtual links.
fn ends_of(alloc: Global, plan: &Plan, number: u8, ways: &[Ways]) -> Result<Vec<End>, Memory>
    ensures { IfOk result
        (λ ends. ends.items ≡ ends_among (on_link ways.now) number 0 plan.now.vlinks) }
{
    let mut ends = Vec::new(alloc);
    for (i, vlink) in plan.vlinks.as_slice().iter().enumerate() {
        let way = ways_at(ways, i);
        push_end(&mut ends, alloc, number, &vlink.a, way.from_a, way.from_b)?;
        push_end(&mut ends, alloc, number, &vlink.b, way.from_b, way.from_a)?;
    }
    Ok(ends)
}

// The kinds of a node's variables.
fn kinds_in(alloc: Global, node: &NodePlan) -> Result<Items<ValueKind>, Memory>
    ensures { IfOk result (λ kinds. kinds ≡ kinds_of node.now.vars) }
{
    let mut kinds = Items::new(alloc);
    for var in node.vars.as_slice() {
        kinds.push(var.kind)?;
    }
    Ok(kinds)
}

// The channels inside a node.
fn inside_of(alloc: Global, number: u8, channels: &[Channel]) -> Result<Vec<u16>, Memory>
    requires { length channels.now ≤ 65536 }
    ensures { IfOk result (λ inside. inside.items ≡ numbers_inside number 0 channels.now) }
{
    let mut inside = Vec::new(alloc);
    for (chan, channel) in channels.iter().enumerate() {
        if channel.home == (Home::Inside { node: number }) {
            inside.push(chan as u16)?;
        }
    }
    Ok(inside)
}

// How many bytes a packet of the plan's network may have.
fn body_limit(plan: &Plan) -> usize
    ensures { result ≡ network.body_limit (network_of plan.now) }
{
    if plan.version == 1 { 40 } else { 44 }
}

// A node with its process, about to begin.
fn build_node(
    alloc: Global,
    plan: &Plan,
    node: &NodePlan,
    number: u8,
    ways: &[Ways],
) -> Result<Node, Memory>
    requires accepted { IsAccepted plan.now }
    requires node { slice_get plan.now.nodes number ≡ Some node.now }
    requires ways { AreWaysOf plan.now ways.now }
    ensures { IfOk result (λ built. BeginsAs plan.now number (OfNode built)) }
{
    let ends = ends_of(alloc, plan, number, ways)?;
    let vcp = Vcp::new(alloc, &ends, body_limit(plan))?;
    let kinds = kinds_in(alloc, node)?;
    let chans = inside_of(alloc, number, plan.channels.as_slice())?;
    let process = Running::new(alloc, &node.process, kinds.as_slice(), &chans)?;
    let inside = Inside::new(alloc, plan.channels.as_slice(), number)?;
    Ok(Node::new(alloc, vcp, process, inside))
}

// The nodes of a plan join the actors, which are none yet.
fn add_nodes(alloc: Global, plan: &Plan, actors: &mut Vec<Actor>) -> Result<(), Memory>
    requires accepted { IsAccepted plan.now }
    requires none { actors.old.items ≡ [] }
    ensures { OnOk result (AreFirst plan.now (length plan.now.nodes) actors.new.items) }
{
    let ways = ways_of(alloc, plan)?;
    for (i, node) in plan.nodes.as_slice().iter().enumerate() {
        let node = build_node(alloc, plan, node, i as u8, &ways)?;
        actors.push(Actor::of_node(node))?;
    }
    Ok(())
}

// The switches of a plan join its nodes.
fn add_switches(alloc: Global, plan: &Plan, actors: &mut Vec<Actor>) -> Result<(), Memory>
    requires accepted { IsAccepted plan.now }
    requires nodes { AreFirst plan.now (length plan.now.nodes) actors.old.items }
    ensures { OnOk result (AreFirst plan.now (actors_in plan.now) actors.new.items) }
{
    let body_limit = body_limit(plan);
    for switch in plan.switches.as_slice() {
        let switch = build_switch(alloc, switch, body_limit)?;
        actors.push(Actor::of_switch(switch))?;
    }
    Ok(())
}

/// The actors of an accepted plan: its nodes, in order, and then its switches, each of which begins.
pub fn actors(alloc: Global, accepted: &Accepted) -> Result<Vec<Actor>, Memory>
    ensures { IfOk result (λ actors. AreFirst accepted.now (actors_in accepted.now) actors.items) }
{
    let plan = accepted.plan();
    let mut actors = Vec::new(alloc);
    add_nodes(alloc, plan, &mut actors)?;
    add_switches(alloc, plan, &mut actors)?;
    Ok(actors)
}
