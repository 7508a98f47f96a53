//! The ways that go out by the links of actors.
ghost use Rattle.std.specs.Prelude.{◌≡◌, ◌≤◌, ◌+◌, ◌*◌, ℕ, IfOk, length};
ghost use Rattle.vc_accepted.specs.ActorWays.{actor_of as number_of, outgoing};
ghost use Rattle.vc_core.specs.Private.OutgoingTable.{left};
ghost use Rattle.vc_core.specs.Wiring.{out_at};
ghost use Rattle.vc_plan.specs.Accepted.{IsAccepted};

use crate::wiring::LINKS;
use std::alloc::Global;
use vc_packets::Memory;
use vc_plan::{Plan, Port, Spot};

/// The way that goes out by each link of each actor of an accepted plan, 32 places an actor.
pub(crate) fn ways_out(alloc: Global, plan: &Plan) -> Result<Vec<Option<u16>>, Memory>
    requires { IsAccepted plan.now }
    ensures tells { IfOk result
        (λ out. (actor link : ℕ) → out_at out.items actor link ≡ outgoing plan.now actor link) }
    ensures long { IfOk result
        (λ out. length out.items ≡ (length plan.now.nodes + length plan.now.switches) * 32) }
{
    let nodes = plan.nodes.len();
    let actors = nodes + plan.switches.len();
    let mut out = vec![in alloc; None; actors * LINKS]?;
    for (i, wire) in plan.wires.as_slice().iter().enumerate() {
        let way = 2 * i as u16;
        leave(&mut out, nodes, wire.one, way);
        leave(&mut out, nodes, wire.two, way + 1);
    }
    Ok(out)
}

// The way leaves by the port.
fn leave(out: &mut Vec<Option<u16>>, nodes: usize, port: Port, way: u16)
    requires { nodes ≤ 32 }
    ensures { out.new.items ≡ left out.old.items nodes port way }
{
    let place = actor_of(port.spot, nodes) * LINKS + usize::from(port.link);
    if let Some(found) = out.get_mut(place) {
        *found = Some(way);
    }
}

/// The number of a node or a switch among the actors of a plan with so many nodes, at most 32: the nodes come first, in their order, and
/// then the switches. It is found also where the plan has no such node or switch.
pub fn actor_of(spot: Spot, nodes: usize) -> usize
    requires { nodes ≤ 32 }
    ensures number { result ≡ number_of nodes spot }
    ensures few { result ≤ 300 }
{
    match spot {
        Spot::Node(node) => usize::from(node),
        Spot::Switch(switch) => nodes + usize::from(switch),
    }
}
