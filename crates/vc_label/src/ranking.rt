//! Orders of the nodes, by which headers are given.
use crate::fabric::Fabric;
use crate::numbering::Numbering;
use crate::set::{MOST, Set};
use std::alloc::Global;
use vc_packets::Memory;

/// Nodes in an order, each once.
#[derive(Drop)]
pub(crate) struct Ranking {
    pub nodes: Vec<u8>,
    seen: Set,
}

impl Ranking {
    fn new(alloc: Global) -> Ranking {
        Ranking {
            nodes: Vec::new(alloc),
            seen: Set::EMPTY,
        }
    }

    /// Adds a node, unless it is there.
    fn add(&mut self, node: u8) -> Result<(), Memory> {
        if !self.seen.has(node) {
            self.seen = self.seen.with(node);
            self.nodes.push(node)?;
        }
        Ok(())
    }

    /// Adds the nodes of a switch.
    fn add_at(&mut self, fabric: &Fabric, switch: u8) -> Result<(), Memory> {
        for n in 0..MOST {
            if !fabric.links_home(switch, n).is_empty() {
                self.add(n)?;
            }
        }
        Ok(())
    }

    /// Adds all nodes that are left, in the file's order.
    fn add_rest(&mut self, count: u8) -> Result<(), Memory> {
        for n in 0..count {
            self.add(n)?;
        }
        Ok(())
    }

    /// The place of a node.
    pub(crate) fn place(&self, node: u8) -> usize {
        match self.nodes.iter().position(|n| *n == node) {
            Some(place) => place,
            None => 0,
        }
    }
}

/// The order of the file.
pub(crate) fn by_file(alloc: Global, count: u8) -> Result<Ranking, Memory> {
    let mut ranking = Ranking::new(alloc);
    ranking.add_rest(count)?;
    Ok(ranking)
}

/// The order of the switches of each part.
pub(crate) fn by_switches(
    alloc: Global,
    fabric: &Fabric,
    parts: &[Numbering],
    count: u8,
) -> Result<Ranking, Memory> {
    let mut ranking = Ranking::new(alloc);
    for part in parts {
        for s in part.order.iter() {
            ranking.add_at(fabric, *s)?;
        }
    }
    ranking.add_rest(count)?;
    Ok(ranking)
}

/// The earliest neighbour of a switch, if it is earlier than the switch.
fn parent(fabric: &Fabric, part: &Numbering, s: u8) -> Option<u8> {
    let mut best: Option<u8> = None;
    let mut least = part.place.at(s);
    let near = fabric.near(s);
    for t in 0..MOST {
        if near.has(t) && part.place.at(t) < least {
            best = Some(t);
            least = part.place.at(t);
        }
    }
    best
}

/// Adds the nodes of a part on a walk of the tree in which each switch is under its earliest neighbour.
fn walk(
    alloc: Global,
    fabric: &Fabric,
    part: &Numbering,
    ranking: &mut Ranking,
) -> Result<(), Memory> {
    let Some(root) = part.order.first() else {
        return Ok(());
    };
    let mut stack = Vec::new(alloc);
    stack.push(*root)?;
    for _ in 0..MOST {
        let Some(s) = stack.pop() else {
            return Ok(());
        };
        ranking.add_at(fabric, s)?;
        for t in part.order.iter().rev() {
            if parent(fabric, part, *t) == Some(s) {
                stack.push(*t)?;
            }
        }
    }
    Ok(())
}

/// The order of a walk of a tree of each part.
pub(crate) fn by_trees(
    alloc: Global,
    fabric: &Fabric,
    parts: &[Numbering],
    count: u8,
) -> Result<Ranking, Memory> {
    let mut ranking = Ranking::new(alloc);
    for part in parts {
        walk(alloc, fabric, part, &mut ranking)?;
    }
    ranking.add_rest(count)?;
    Ok(ranking)
}
