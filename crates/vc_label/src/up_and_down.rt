//! Tables by a numbering: up, then down.
use crate::column::Column;
use crate::distances::{Distances, distances_to};
use crate::fabric::Fabric;
use crate::loads::{Loads, UNIT, rounded};
use crate::numbering::Numbering;
use crate::part::Part;
use crate::set::{MOST, Set};
use crate::tables::Tables;
use std::alloc::Global;
use vc_packets::Memory;

/// What goes to a node by a numbering.
#[derive(Drop)]
struct Traffic<'a> {
    fabric: &'a Fabric,
    numbering: &'a Numbering,
    part: &'a Part,
    node: u8,
    distances: &'a Distances,
}

impl Traffic<'_> {
    /// Adds what a node sends, in equal parts at its nearest links.
    fn enter(&self, flow: &mut Column, from: u8) {
        let least = self.fabric.entry(from, &self.distances.hops);
        let mut count = 0u64;
        for link in 0..MOST {
            if self.is_nearest(from, link, least).is_some() {
                count = count.saturating_add(1);
            }
        }
        for link in 0..MOST {
            if let Some(s) = self.is_nearest(from, link, least) {
                add(flow, s, UNIT / count.max(1));
            }
        }
    }

    /// The switch of a node's link, if it is as near as the least.
    fn is_nearest(&self, from: u8, link: u8, least: u64) -> Option<u8> {
        let switch = self.fabric.home(from, link)?;
        let is_near = self.part.switches.has(switch) && self.distances.hops.at(switch) == least;
        if is_near { Some(switch) } else { None }
    }

    /// What comes in from all other nodes.
    fn entering(&self) -> Column {
        let mut flow = Column::new();
        for s in 0..MOST {
            flow.put(s, 0);
        }
        for n in 0..MOST {
            if self.part.nodes.has(n) && n != self.node {
                self.enter(&mut flow, n);
            }
        }
        flow
    }

    /// The links by which packets may leave a switch.
    fn links(&self, s: u8) -> Set {
        let hops = &self.distances.hops;
        let left = hops.at(s);
        if left == 0 {
            return self.fabric.links_home(s, self.node);
        }
        let near = self.fabric.near(s);
        let to = hops.those_at(near, left.saturating_sub(1));
        let earlier = self.earlier(s, to);
        if self.distances.down.has(s) {
            let later = to.without(earlier).and(self.distances.down);
            self.fabric.links_to(s, later)
        } else {
            self.fabric.links_to(s, earlier)
        }
    }

    /// The switches of a set that come before a switch in the numbering.
    fn earlier(&self, s: u8, among: Set) -> Set {
        let place = &self.numbering.place;
        let mut found = Set::EMPTY;
        for t in 0..MOST {
            if among.has(t) && place.at(t) < place.at(s) {
                found = found.with(t);
            }
        }
        found
    }
}

/// What is made of the tables of a part.
#[derive(Drop)]
pub(crate) struct Made {
    pub tables: Tables,
    pub loads: Loads,
}

impl Made {
    pub(crate) fn new(alloc: Global) -> Result<Made, Memory> {
        Ok(Made {
            tables: Tables::new(alloc)?,
            loads: Loads::new(alloc)?,
        })
    }

    /// Sends on what comes to a switch for a node.
    fn pass(&mut self, traffic: &Traffic<'_>, flow: &mut Column, s: u8) {
        let all = flow.at(s);
        let group = self.loads.lightest(s, traffic.links(s), all);
        self.tables.set_group(s, traffic.node, group);
        let hops = traffic.distances.hops.at(s);
        self.tables.set_hops(s, traffic.node, hops);
        if let Some(group) = group {
            let share = all / u64::from(group.len());
            for link in group.first..=group.last {
                self.loads.add(s, link, share);
                if let Some(t) = traffic.fabric.beyond(s, link) {
                    add(flow, t, share);
                }
            }
        }
    }

    /// Sends on what goes to a node: first from the switches that go up, the latest first, then from those that go down, the earliest
    /// first. So all that comes to a switch is known.
    fn send(&mut self, traffic: &Traffic<'_>) {
        let mut flow = traffic.entering();
        let down = traffic.distances.down;
        for s in traffic.numbering.order.iter().rev() {
            if !down.has(*s) {
                self.pass(traffic, &mut flow, *s);
            }
        }
        for s in traffic.numbering.order.iter() {
            if down.has(*s) {
                self.pass(traffic, &mut flow, *s);
            }
        }
    }

    /// Makes the tables of a part by a numbering.
    pub(crate) fn fill(&mut self, fabric: &Fabric, numbering: &Numbering, part: &Part) {
        for node in 0..MOST {
            if part.nodes.has(node) {
                let distances = distances_to(fabric, numbering, part.switches, node);
                self.send(&Traffic {
                    fabric,
                    numbering,
                    part,
                    node,
                    distances: &distances,
                });
            }
        }
    }

    /// The greatest load of a wire between two switches of a part.
    pub(crate) fn greatest_load(&self, fabric: &Fabric, part: &Part) -> u64 {
        let mut most = 0;
        for s in 0..MOST {
            for link in 0..MOST {
                if part.switches.has(s) && fabric.beyond(s, link).is_some() {
                    most = self.loads.at(s, link).max(most);
                }
            }
        }
        rounded(most)
    }
}

fn add(flow: &mut Column, s: u8, share: u64) {
    let before = flow.at(s);
    flow.put(s, before.saturating_add(share));
}
