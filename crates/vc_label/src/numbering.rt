//! Numberings of the switches of a part.
use crate::column::Column;
use crate::fabric::Fabric;
use crate::set::{MOST, Set};
use std::alloc::Global;
use vc_packets::Memory;

/// The switches of a part in an order in which each but the first has an earlier neighbour.
#[derive(Drop)]
pub(crate) struct Numbering {
    pub order: Vec<u8>,
    pub place: Column,
}

impl Numbering {
    pub(crate) fn new(order: Vec<u8>) -> Numbering {
        let mut place = Column::new();
        let mut next = 0u64;
        for switch in order.iter() {
            place.put(*switch, next);
            next = next.saturating_add(1);
        }
        Numbering { order, place }
    }
}

/// How the switches are numbered from the first one on.
#[derive(Clone, Copy, Drop)]
pub(crate) enum Way {
    /// Breadth first.
    Breadth,
    /// Depth first, to the neighbour with most numbered neighbours.
    Depth,
    /// Next the one with most numbered neighbours.
    Most,
}

/// The numbering of a kind from a switch on.
pub(crate) fn number_from(
    alloc: Global,
    fabric: &Fabric,
    root: u8,
    way: Way,
) -> Result<Numbering, Memory> {
    let order = match way {
        Way::Breadth => breadth_first(alloc, fabric, root)?,
        Way::Depth => depth_first(alloc, fabric, root)?,
        Way::Most => most_first(alloc, fabric, root)?,
    };
    Ok(Numbering::new(order))
}

fn breadth_first(alloc: Global, fabric: &Fabric, root: u8) -> Result<Vec<u8>, Memory> {
    let mut order = Vec::new(alloc);
    order.push(root)?;
    let mut seen = Set::EMPTY.with(root);
    for k in 0..32usize {
        let Some(switch) = order.get(k).copied() else {
            return Ok(order);
        };
        let new = fabric.near(switch).without(seen);
        for t in 0..MOST {
            if new.has(t) {
                order.push(t)?;
            }
        }
        seen = seen.or(new);
    }
    Ok(order)
}

fn depth_first(alloc: Global, fabric: &Fabric, root: u8) -> Result<Vec<u8>, Memory> {
    let mut order = Vec::new(alloc);
    let mut stack = Vec::new(alloc);
    order.push(root)?;
    stack.push(root)?;
    let mut seen = Set::EMPTY.with(root);
    for _ in 0..64u8 {
        let Some(switch) = stack.last().copied() else {
            return Ok(order);
        };
        match most_numbered(fabric, fabric.near(switch).without(seen), seen) {
            Some(t) => {
                seen = seen.with(t);
                order.push(t)?;
                stack.push(t)?;
            }
            None => {
                stack.pop();
            }
        }
    }
    Ok(order)
}

fn most_first(alloc: Global, fabric: &Fabric, root: u8) -> Result<Vec<u8>, Memory> {
    let mut order = Vec::new(alloc);
    order.push(root)?;
    let mut seen = Set::EMPTY.with(root);
    let mut near = fabric.near(root);
    for _ in 0..MOST {
        let Some(t) = most_numbered(fabric, near.without(seen), seen) else {
            return Ok(order);
        };
        seen = seen.with(t);
        near = near.or(fabric.near(t));
        order.push(t)?;
    }
    Ok(order)
}

/// Of these switches the one with most numbered neighbours, the least on a tie.
fn most_numbered(fabric: &Fabric, among: Set, numbered: Set) -> Option<u8> {
    let mut best: Option<u8> = None;
    let mut most = 0;
    for t in 0..MOST {
        if among.has(t) {
            let count = fabric.near(t).and(numbered).count();
            if best.is_none() || most < count {
                best = Some(t);
                most = count;
            }
        }
    }
    best
}
