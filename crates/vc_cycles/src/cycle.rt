//! Cycles of dependencies.
ghost use Rattle.std.specs.Prelude.{◌≡◌, IfOk, IfNone, IfSome, None};
ghost use Rattle.vc_plan.specs.Dependencies.{HasRanks, IsLeastCycle};
ghost use Rattle.vc_cycles.specs.Private.Round.{IsShorter};

use crate::number::PORTS;
use crate::round::find_round;
use crate::search::find_dependencies;
use std::alloc::Global;
use vc_packets::Memory;
use vc_plan::{Accepted, Port};

/// The shorter one of two cycles, the first one where they have as many ports.
fn shorter(one: Option<Vec<Port>>, other: Option<Vec<Port>>) -> Option<Vec<Port>>
    ensures none { IfNone result ((one ≡ None) × (other ≡ None)) }
    ensures some { IfSome result (λ ports. IsShorter one other ports) }
{
    match (one, other) {
        (Some(one), Some(other)) => Some(if other.len() < one.len() { other } else { one }),
        (None, other) => other,
        (one, None) => one,
    }
}

/// Finds the least cycle of dependencies: its ports, each of which depends on the next, and the last on the first. No cycle has fewer
/// ports, and of those with as many it is the first by the ports in order. It answers none where there is no cycle, and then the ports
/// have ranks. It fails only when out of memory.
pub fn find_cycle(alloc: Global, accepted: &Accepted) -> Result<Option<Vec<Port>>, Memory>
    ensures free { IfOk result (λ found. IfNone found (HasRanks accepted.now)) }
    ensures cycle { IfOk result (λ found.
        IfSome found (λ ports. IsLeastCycle accepted.now ports.items)) }
{
    let rows = find_dependencies(alloc, accepted.plan())?;
    let mut least = None;
    for start in 0..PORTS {
        let found = find_round(alloc, &rows, start as u16)?;
        least = shorter(least, found);
    }
    Ok(least)
}
