//! Tables by dimension.
use crate::coordinates::{Coordinates, find_coordinates};
use crate::fabric::Fabric;
use crate::group::longest;
use crate::part::Part;
use crate::set::{MOST, Set};
use crate::tables::Tables;
use std::alloc::Global;
use vc_packets::Memory;

/// Whether each node of a part has a wire at one of its switches alone.
fn are_at_home(fabric: &Fabric, part: &Part) -> bool {
    (0..MOST).all(|n| { !part.nodes.has(n) || fabric.homes(n).and(part.switches).count() == 1 })
}

/// The coordinates of a part that is labelled by dimension.
pub(crate) fn product(
    alloc: Global,
    fabric: &Fabric,
    part: &Part,
) -> Result<Option<Coordinates>, Memory> {
    if are_at_home(fabric, part) {
        find_coordinates(alloc, fabric, part.switches)
    } else {
        Ok(None)
    }
}

/// The links by which packets for a node at a switch leave another.
fn links(fabric: &Fabric, at: &Coordinates, s: u8, home: u8) -> Set {
    let next = at.toward(fabric.near(s), s, home);
    fabric.links_to(s, next)
}

fn fill_for(tables: &mut Tables, fabric: &Fabric, at: &Coordinates, (s, node, home): (u8, u8, u8)) {
    let links = if s == home {
        fabric.links_home(s, node)
    } else {
        links(fabric, at, s, home)
    };
    tables.set_group(s, node, longest(links));
    tables.set_hops(s, node, at.steps(s, home));
}

/// Makes the tables of a part by dimension.
pub(crate) fn fill_by_dimension(
    tables: &mut Tables,
    fabric: &Fabric,
    at: &Coordinates,
    part: &Part,
) {
    for node in 0..MOST {
        let home = fabric.homes(node).and(part.switches).first();
        if let Some(home) = home {
            for s in 0..MOST {
                if part.switches.has(s) {
                    fill_for(tables, fabric, at, (s, node, home));
                }
            }
        }
    }
}
