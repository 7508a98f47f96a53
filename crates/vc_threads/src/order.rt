//! What was taken off each way and what is left on it, beside what was put on it.
ghost use Rattle.std.specs.Prelude.{◌≡◌, ◌*◌, ◌<◌, ◌≤◌, IfOk, length, map};
ghost use Rattle.std.specs.List.{AllZip, HoldsAt};
ghost use Rattle.rtrb.specs.Ring.{known_items, IsPair, SameConsumer};
ghost use Rattle.vc_plan.specs.Accepted.{IsAccepted};
ghost use Rattle.vc_threads.specs.Private.Order.{actor_left, outs_left, ins_left, log_left, HasEnd, IsLeft, AtLinks, Meet, TakenBy, IsPort, EndsTaken, MeetAt, LeftAt, LeftOn, OnWires};
ghost use Rattle.vc_threads.specs.Order.{OnWays};
ghost use Rattle.vc_threads.specs.Stamps.{item_of};
ghost use Rattle.vc_threads.specs.Wires.{OutLooked, SameIn};

use crate::link::{Ends, In, Out};
use crate::run::ActorRun;
use std::alloc::Global;
use vc_core::{Actor, actor_of};
use vc_packets::Memory;
use vc_plan::{Plan, Port};
use vc_tokens::Token;

/// The ends of all actors, in their order.
#[derive(Drop)]
pub(crate) struct AllEnds {
    outs: Vec<Vec<(u8, Out)>>,
    ins: Vec<Vec<(u8, In)>>,
}

/// What the runs of all actors leave, in their order.
#[derive(Drop)]
pub(crate) struct AllParts<L> {
    pub(crate) actors: Vec<Actor>,
    pub(crate) ends: AllEnds,
    pub(crate) logs: Vec<L>,
}

// The actor, the ends and the log that a run leaves.
fn parts_of<L: Drop>(run: ActorRun<L>) -> (Actor, Ends, L)
    ensures { result ≡ (run.actor, run.ends, run.log) }
{
    (run.actor, run.ends, run.log)
}

/// The actors, the ends and the logs that the runs leave.
pub(crate) fn all_parts<L: Drop>(
    alloc: Global,
    runs: Vec<ActorRun<L>>,
) -> Result<AllParts<L>, Memory>
    ensures actors { IfOk result (λ parts. parts.actors.items ≡ map actor_left runs.items) }
    ensures outs { IfOk result
        (λ parts. map (λ v. v.items) parts.ends.outs.items ≡ map outs_left runs.items) }
    ensures ins { IfOk result
        (λ parts. map (λ v. v.items) parts.ends.ins.items ≡ map ins_left runs.items) }
    ensures logs { IfOk result (λ parts. parts.logs.items ≡ map log_left runs.items) }
{
    let mut actors = Vec::new(alloc);
    let mut outs = Vec::new(alloc);
    let mut ins = Vec::new(alloc);
    let mut logs = Vec::new(alloc);
    for run in runs {
        let (actor, ends, log) = parts_of(run);
        actors.push(actor)?;
        outs.push(ends.outs)?;
        ins.push(ends.ins)?;
        logs.push(log)?;
    }
    let ends = AllEnds { outs, ins };
    Ok(AllParts { actors, ends, logs })
}

// The place of the end that goes out by a link.
fn place_out(outs: &[(u8, Out)], link: u8) -> usize
    requires { HasEnd outs.now link }
    ensures within { result < length outs.now }
    ensures link { HoldsAt (λ o. o.0 ≡ link) outs.now result }
{
    for k in 0..outs.len() {
        if outs[k].0 == link {
            return k;
        }
    }
    unreachable!()
}

// The place of the end that comes in by a link.
fn place_in(ins: &[(u8, In)], link: u8) -> usize
    requires { HasEnd ins.now link }
    ensures within { result < length ins.now }
    ensures link { HoldsAt (λ i. i.0 ≡ link) ins.now result }
{
    for k in 0..ins.len() {
        if ins[k].0 == link {
            return k;
        }
    }
    unreachable!()
}

// Takes off the items that are known to wait in a ring, front first.
fn take_known(alloc: Global, consumer: &mut In) -> Result<Vec<Token>, Memory>
    ensures ring { SameConsumer consumer.old consumer.new }
    ensures tokens { IfOk result (λ tokens. tokens.items ≡ map item_of (known_items consumer.old)) }
{
    let mut tokens = Vec::new(alloc);
    for _ in 0..consumer.cached_slots() {
        tokens.push(consumer.pop_known().item)?;
    }
    Ok(tokens)
}

// Takes off what is left in a ring, whose two ends these are.
fn take_rest(alloc: Global, out: &mut (u8, Out), into: &mut (u8, In)) -> Result<Vec<Token>, Memory>
    requires { IsPair out.old.1 into.old.1 }
    ensures out { OutLooked out.old out.new }
    ensures into { SameIn into.old into.new }
    ensures left { IfOk result (λ tokens. IsLeft tokens.items out.old into.old) }
{
    let (_, producer) = out;
    let (_, consumer) = into;
    consumer.slots_beside(producer);
    take_known(alloc, consumer)
}

// Takes off what is left in the ring from one actor's link to another's.
fn take_between(
    alloc: Global,
    outs: &mut Vec<(u8, Out)>,
    ins: &mut Vec<(u8, In)>,
    from: u8,
    to: u8,
) -> Result<Vec<Token>, Memory>
    requires { Meet outs.old.items ins.old.items from to }
    ensures outs { AllZip OutLooked outs.old.items outs.new.items }
    ensures ins { AllZip (TakenBy (λ link. link ≡ to)) ins.old.items ins.new.items }
    ensures left { IfOk result
        (λ tokens. AtLinks (IsLeft tokens.items) outs.old.items ins.old.items from to) }
{
    let a = place_out(outs.as_slice(), from);
    let b = place_in(ins.as_slice(), to);
    take_rest(alloc, &mut outs[a], &mut ins[b])
}

// Takes off what is left in the ring of the way from one port to another.
fn take_way(
    alloc: Global,
    ends: &mut AllEnds,
    nodes: usize,
    from: Port,
    to: Port,
) -> Result<Vec<Token>, Memory>
    requires nodes { nodes ≤ 32 }
    requires ring { MeetAt nodes ends.old from to }
    ensures taken { EndsTaken (IsPort nodes to) ends.old ends.new }
    ensures left { IfOk result (λ tokens. LeftAt nodes ends.old tokens.items from to) }
{
    let source = actor_of(from.spot, nodes);
    let sink = actor_of(to.spot, nodes);
    take_between(
        alloc,
        &mut ends.outs[source],
        &mut ends.ins[sink],
        from.link,
        to.link,
    )
}

/// What is left in the ring of each way, the ways in their order: what was received there, and then this, is what was sent.
pub(crate) fn take_all(alloc: Global, ends: AllEnds, plan: &Plan) -> Result<Vec<Vec<Token>>, Memory>
    requires plan { IsAccepted plan.now }
    requires rings { OnWires (MeetAt (length plan.now.nodes) ends) plan.now.wires
        (length plan.now.wires) }
    ensures count { IfOk result (λ left. length left.items ≡ 2 * length plan.now.wires) }
    ensures left { IfOk result
        (λ left.
        OnWays (LeftOn (length plan.now.nodes) ends left.items) plan.now.wires
        (length plan.now.wires)) }
{
    let mut ends = ends;
    let mut left = Vec::new(alloc);
    let nodes = plan.nodes.len();
    for wire in plan.wires.as_slice() {
        left.push(take_way(alloc, &mut ends, nodes, wire.one, wire.two)?)?;
        left.push(take_way(alloc, &mut ends, nodes, wire.two, wire.one)?)?;
    }
    Ok(left)
}
