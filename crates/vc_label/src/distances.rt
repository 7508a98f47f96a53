//! How packets for a node go up and then down.
use crate::column::{Column, FAR};
use crate::fabric::Fabric;
use crate::numbering::Numbering;
use crate::set::Set;

/// Of each switch whether packets for a node go on to later switches, and how many more switches they pass.
#[derive(Drop)]
pub(crate) struct Distances {
    pub down: Set,
    pub hops: Column,
}

/// How far a node is by later and later switches alone.
fn downward(fabric: &Fabric, numbering: &Numbering, node: u8) -> Column {
    let mut hops = Column::new();
    let mut later = Set::EMPTY;
    for switch in numbering.order.iter().rev() {
        let s = *switch;
        let near = fabric.near(s).and(later);
        let count = if fabric.links_home(s, node).is_empty() {
            hops.least(near).saturating_add(1)
        } else {
            0
        };
        hops.put(s, count);
        later = later.with(s);
    }
    hops
}

/// The later neighbours to which packets that go down may go on.
fn forced(fabric: &Fabric, hops: &Column, later: Set, s: u8) -> Set {
    let near = fabric.near(s).and(later);
    match hops.at(s) {
        0 | FAR => Set::EMPTY,
        n => hops.those_at(near, n.saturating_sub(1)),
    }
}

/// The distances of a node in a part. A switch goes down if packets come to it downwards, and if that way is no longer.
pub(crate) fn distances_to(
    fabric: &Fabric,
    numbering: &Numbering,
    part: Set,
    node: u8,
) -> Distances {
    let downward = downward(fabric, numbering, node);
    let mut found = Distances {
        down: Set::EMPTY,
        hops: Column::new(),
    };
    let mut earlier = Set::EMPTY;
    let mut must = Set::EMPTY;
    for switch in numbering.order.iter() {
        let s = *switch;
        let near = fabric.near(s).and(earlier);
        let up = found.hops.least(near).saturating_add(1);
        let later = part.without(earlier);
        if must.has(s) || downward.at(s) <= up {
            found.down = found.down.with(s);
            found.hops.put(s, downward.at(s));
            must = must.or(forced(fabric, &downward, later, s));
        } else {
            found.hops.put(s, up);
        }
        earlier = earlier.with(s);
    }
    found
}
