//! The choice of a numbering.
use crate::distances::distances_to;
use crate::fabric::Fabric;
use crate::grid::Grid;
use crate::numbering::{Numbering, Way, number_from};
use crate::part::Part;
use crate::set::MOST;
use crate::up_and_down::Made;
use std::alloc::Global;
use vc_packets::Memory;

/// How many switches are passed on all ways: the way of a pair of nodes counts once, and 65,536 times more for each channel on it.
fn total_hops(fabric: &Fabric, part: &Part, numbering: &Numbering, ways: &Grid<u32>) -> u64 {
    let mut total = 0u64;
    for d in 0..MOST {
        if part.nodes.has(d) {
            let found = distances_to(fabric, numbering, part.switches, d);
            for n in 0..MOST {
                if part.nodes.has(n) && n != d {
                    let weight = u64::from(ways.at(n, d))
                        .saturating_mul(65536)
                        .saturating_add(1);
                    let hops = fabric.entry(n, &found.hops);
                    total = total.saturating_add(hops.saturating_mul(weight));
                }
            }
        }
    }
    total
}

/// The numberings by which fewest switches are passed, in order.
fn with_fewest_hops(
    alloc: Global,
    fabric: &Fabric,
    part: &Part,
    ways: &Grid<u32>,
) -> Result<Vec<Numbering>, Memory> {
    let mut found = Vec::new(alloc);
    let mut least = u64::MAX;
    for way in [Way::Breadth, Way::Depth, Way::Most] {
        for root in 0..MOST {
            if part.switches.has(root) {
                let numbering = number_from(alloc, fabric, root, way)?;
                let total = total_hops(fabric, part, &numbering, ways);
                if total < least {
                    least = total;
                    found = Vec::new(alloc);
                }
                if total == least {
                    found.push(numbering)?;
                }
            }
        }
    }
    Ok(found)
}

/// The numbering by which fewest switches are passed; of several the one with the least load, and then the first.
pub(crate) fn best_numbering(
    alloc: Global,
    fabric: &Fabric,
    part: &Part,
    ways: &Grid<u32>,
) -> Result<Numbering, Memory> {
    let found = with_fewest_hops(alloc, fabric, part, ways)?;
    let mut best = Numbering::new(Vec::new(alloc));
    let mut least = None;
    for numbering in found {
        let mut made = Made::new(alloc)?;
        made.fill(fabric, &numbering, part);
        let load = made.greatest_load(fabric, part);
        let is_better = match least {
            Some(before) => load < before,
            None => true,
        };
        if is_better {
            least = Some(load);
            best = numbering;
        }
    }
    Ok(best)
}
