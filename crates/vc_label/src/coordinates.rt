//! Coordinates of the switches of a product of paths.
use crate::axis::{Apart, Axis};
use crate::column::Column;
use crate::fabric::Fabric;
use crate::set::{MOST, Set};
use std::alloc::Global;
use vc_packets::Memory;

/// No product of paths of at most 32 switches has more axes.
const MOST_AXES: u32 = 5;

/// Of each axis the coordinate of each switch.
#[derive(Drop)]
pub(crate) struct Coordinates {
    axes: Vec<Column>,
}

impl Coordinates {
    /// How many steps there are between two switches.
    pub(crate) fn steps(&self, a: u8, b: u8) -> u64 {
        let mut steps = 0u64;
        for axis in self.axes.iter() {
            steps = steps.saturating_add(axis.at(a).abs_diff(axis.at(b)));
        }
        steps
    }

    /// The neighbour to which packets go from a switch to another: one step nearer on the last axis on which the two differ.
    pub(crate) fn toward(&self, near: Set, from: u8, to: u8) -> Set {
        for axis in self.axes.iter().rev() {
            let (here, there) = (axis.at(from), axis.at(to));
            if here != there {
                let next = if here < there {
                    here.saturating_add(1)
                } else {
                    here.saturating_sub(1)
                };
                return axis.those_at(near, next);
            }
        }
        Set::EMPTY
    }

    /// A number by which the switches are in order, the last axis first.
    fn key(&self, s: u8) -> u64 {
        let mut key = 0u64;
        for axis in self.axes.iter().rev() {
            key = key.saturating_mul(32).saturating_add(axis.at(s));
        }
        key
    }

    /// The switches of a part by their coordinates, the last axis first.
    pub(crate) fn order(&self, alloc: Global, part: Set) -> Result<Vec<u8>, Memory> {
        let mut order = Vec::new(alloc);
        let mut left = part;
        for _ in 0..MOST {
            let Some(next) = self.least(left) else {
                return Ok(order);
            };
            order.push(next)?;
            left = left.without(Set::EMPTY.with(next));
        }
        Ok(order)
    }

    fn least(&self, among: Set) -> Option<u8> {
        let mut best = among.first()?;
        for s in 0..MOST {
            if among.has(s) && self.key(s) < self.key(best) {
                best = s;
            }
        }
        Some(best)
    }

    /// Whether switches are neighbours exactly if they are one step apart, and no two have the same coordinates.
    fn is_product(&self, fabric: &Fabric, part: Set) -> bool {
        (0..MOST).all(|v| !part.has(v) || self.is_right_at(fabric, part, v))
    }

    fn is_right_at(&self, fabric: &Fabric, part: Set, v: u8) -> bool {
        for w in 0..MOST {
            if part.has(w) && w != v {
                let steps = self.steps(v, w);
                if steps == 0 || (steps == 1) != fabric.near(v).has(w) {
                    return false;
                }
            }
        }
        true
    }
}

/// The switch of a part with fewest neighbours, the first on a tie.
fn corner(fabric: &Fabric, part: Set) -> Option<u8> {
    let mut corner = part.first()?;
    for s in 0..MOST {
        if part.has(s) && fabric.near(s).count() < fabric.near(corner).count() {
            corner = s;
        }
    }
    Some(corner)
}

/// The coordinates of each switch on an axis.
fn along(apart: &Apart, axis: &Axis) -> Column {
    let mut column = Column::new();
    for v in 0..MOST {
        column.put(v, axis.coordinate(apart, v));
    }
    column
}

/// The coordinates of the switches of a part, if they are a product of paths.
pub(crate) fn find_coordinates(
    alloc: Global,
    fabric: &Fabric,
    part: Set,
) -> Result<Option<Coordinates>, Memory> {
    let apart = Apart::new(alloc, fabric, part)?;
    let Some(corner) = corner(fabric, part) else {
        return Ok(None);
    };
    let near = fabric.near(corner);
    if near.count() > MOST_AXES {
        return Ok(None);
    }
    let mut axes = Vec::new(alloc);
    let mut size = 1u64;
    for e in 0..MOST {
        if near.has(e) {
            let others = near.without(Set::EMPTY.with(e));
            let Some(axis) = Axis::new(&apart, part, others, corner) else {
                return Ok(None);
            };
            size = size.saturating_mul(u64::from(axis.len));
            axes.push(along(&apart, &axis))?;
        }
    }
    let found = Coordinates { axes };
    let is_product = size == u64::from(part.count()) && found.is_product(fabric, part);
    Ok(if is_product { Some(found) } else { None })
}
