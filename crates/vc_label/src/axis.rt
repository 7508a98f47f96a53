//! Axes of a product of paths.
use crate::column::{Column, FAR};
use crate::fabric::Fabric;
use crate::grid::Grid;
use crate::set::{MOST, Set};
use std::alloc::Global;
use vc_packets::Memory;

/// How many wires apart the switches are.
#[derive(Drop)]
pub(crate) struct Apart(Grid<u64>);

impl Apart {
    pub(crate) fn new(alloc: Global, fabric: &Fabric, part: Set) -> Result<Apart, Memory> {
        let mut apart = Grid::new(alloc, FAR)?;
        for s in 0..MOST {
            if part.has(s) {
                put_distances(&mut apart, fabric, s);
            }
        }
        Ok(Apart(apart))
    }

    pub(crate) fn at(&self, s: u8, t: u8) -> u64 {
        self.0.at(s, t)
    }
}

/// Sets how far each switch is from one.
fn put_distances(apart: &mut Grid<u64>, fabric: &Fabric, s: u8) {
    let mut seen = Set::EMPTY.with(s);
    let mut front = seen;
    for hops in 0..MOST {
        let mut next = Set::EMPTY;
        for t in 0..MOST {
            if front.has(t) {
                apart.put(s, t, u64::from(hops));
                next = next.or(fabric.near(t));
            }
        }
        front = next.without(seen);
        seen = seen.or(front);
    }
}

/// The switches on an axis, by their distance from the corner.
#[derive(Clone, Copy, Drop)]
pub(crate) struct Axis {
    line: Column,
    pub len: u8,
}

impl Axis {
    /// The axis from the corner through a neighbour; none if it has no switch at some distance, or two at one.
    pub(crate) fn new(apart: &Apart, part: Set, others: Set, corner: u8) -> Option<Axis> {
        let mut line = Column::new();
        let mut len = 0u8;
        for v in 0..MOST {
            if part.has(v) && is_on(apart, others, corner, v) {
                let distance = apart.at(corner, v).min(255) as u8;
                if line.at(distance) != FAR {
                    return None;
                }
                line.put(distance, u64::from(v));
                len = len.saturating_add(1);
            }
        }
        for t in 0..len {
            if line.at(t) == FAR {
                return None;
            }
        }
        Some(Axis { line, len })
    }

    /// The coordinate of a switch: the place on the axis of the switch that is nearest to it.
    pub(crate) fn coordinate(&self, apart: &Apart, v: u8) -> u64 {
        let mut best = 0u8;
        let mut least = FAR;
        for t in 0..self.len {
            let distance = apart.at(self.line.at(t).min(255) as u8, v);
            if distance < least {
                best = t;
                least = distance;
            }
        }
        u64::from(best)
    }
}

/// Whether a switch is on the axis of a corner: one further from each neighbour that is on another axis.
fn is_on(apart: &Apart, others: Set, corner: u8, v: u8) -> bool {
    let away = apart.at(corner, v).saturating_add(1);
    (0..MOST).all(|o| !others.has(o) || apart.at(o, v) == away)
}
