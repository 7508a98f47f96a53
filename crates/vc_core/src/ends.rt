//! Where the ways of a network lead.
ghost use Rattle.std.specs.Prelude.{◌≡◌, ◌≤◌, ◌+◌, ◌*◌, IfOk, length, map};
ghost use Rattle.vc_core.specs.Private.Wiring.{end_at as port_end, ends_of as ends_along, far_end_of};

use crate::outgoing_ways::actor_of;
use crate::wiring::LINKS;
use std::alloc::Global;
use vc_packets::Memory;
use vc_plan::{Plan, Port};

/// The port to which a way leads: an actor, and its link.
#[derive(Clone, Copy, Drop)]
pub(crate) struct End {
    pub(crate) actor: u16,
    pub(crate) link: u8,
}

// A port that stands where no way goes out.
const NOWHERE: End = End { actor: 0, link: 0 };

/// The place of an actor's link among those of all actors, 32 an actor.
#[inline(always)]
pub(crate) fn place_at(actor: u16, link: u8) -> usize
    ensures { result ≡ actor * 32 + link }
{
    usize::from(actor) * LINKS + usize::from(link)
}

// A port as an actor's link.
fn end_at(port: Port, nodes: usize) -> End
    requires { nodes ≤ 32 }
    ensures { result ≡ port_end nodes port }
{
    End {
        actor: actor_of(port.spot, nodes) as u16,
        link: port.link,
    }
}

/// Where each way of a plan leads: that of an even number to port two of its wire, and the next one back to port one.
pub(crate) fn ends_of(alloc: Global, plan: &Plan) -> Result<Vec<End>, Memory>
    requires { length plan.now.nodes ≤ 32 }
    ensures { IfOk result (λ ends. ends.items ≡ ends_along (length plan.now.nodes) plan.now.wires) }
{
    let nodes = plan.nodes.len();
    let mut ends = Vec::new(alloc);
    for wire in plan.wires.as_slice() {
        ends.push(end_at(wire.two, nodes))?;
        ends.push(end_at(wire.one, nodes))?;
    }
    Ok(ends)
}

// Where the way leads that goes out by a link; any port where none does.
fn far_end(ends: &[End], way: Option<u16>) -> End
    ensures { result ≡ far_end_of ends.now way }
{
    match way {
        Some(way) => match ends.get(usize::from(way)) {
            Some(end) => *end,
            None => NOWHERE,
        },
        None => NOWHERE,
    }
}

/// Where the way leads that goes out by each link of each actor, where these go out and these are their ends.
pub(crate) fn far_of(alloc: Global, out: &[Option<u16>], ends: &[End]) -> Result<Vec<End>, Memory>
    ensures { IfOk result (λ far. far.items ≡ map (far_end_of ends.now) out.now) }
{
    let mut far = Vec::new(alloc);
    for way in out {
        far.push(far_end(ends, *way))?;
    }
    Ok(far)
}
