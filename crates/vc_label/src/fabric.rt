//! The wires of a network, from each end.
use crate::column::Column;
use crate::grid::Grid;
use crate::set::{MOST, Set};
use std::alloc::Global;
use vc_packets::Memory;
use vc_plan::{Port, Spot, Wire};

/// Which links lead where. Wires of a node or a switch to itself are left out.
#[derive(Drop)]
pub(crate) struct Fabric {
    // of two switches, the links of the first to the second
    to_switch: Grid<u32>,
    // of a switch and a node, the links of the switch to the node
    to_node: Grid<u32>,
    // of two nodes, the links of the first to the second
    direct: Grid<u32>,
    // of a switch and a link, the switch at its other end
    beyond: Grid<Option<u8>>,
    // of a node and a link, the switch at its other end
    homes: Grid<Option<u8>>,
    // of each switch its neighbours
    near: [Set; 32],
}

impl Fabric {
    pub(crate) fn new(alloc: Global, wires: &[Wire]) -> Result<Fabric, Memory> {
        let mut fabric = Fabric {
            to_switch: Grid::new(alloc, 0)?,
            to_node: Grid::new(alloc, 0)?,
            direct: Grid::new(alloc, 0)?,
            beyond: Grid::new(alloc, None)?,
            homes: Grid::new(alloc, None)?,
            near: [Set::EMPTY; 32],
        };
        for wire in wires {
            fabric.join(wire.one, wire.two);
            fabric.join(wire.two, wire.one);
        }
        Ok(fabric)
    }

    /// Notes that a port leads to another.
    fn join(&mut self, from: Port, to: Port) {
        match (from.spot, to.spot) {
            (Spot::Switch(s), Spot::Switch(t)) => if s != t {
                self.join_switches(s, t, from.link);
            },
            (Spot::Switch(s), Spot::Node(n)) => add_link(&mut self.to_node, s, n, from.link),
            (Spot::Node(n), Spot::Switch(s)) => self.homes.put(n, from.link, Some(s)),
            (Spot::Node(a), Spot::Node(b)) => if a != b {
                add_link(&mut self.direct, a, b, from.link);
            },
        }
    }

    fn join_switches(&mut self, s: u8, t: u8, link: u8) {
        add_link(&mut self.to_switch, s, t, link);
        self.beyond.put(s, link, Some(t));
        if s < MOST {
            self.near[usize::from(s)] = self.near[usize::from(s)].with(t);
        }
    }

    /// The neighbours of a switch.
    pub(crate) fn near(&self, switch: u8) -> Set {
        match self.near.get(usize::from(switch)) {
            Some(near) => *near,
            None => Set::EMPTY,
        }
    }

    /// The links of a switch to these switches.
    pub(crate) fn links_to(&self, switch: u8, to: Set) -> Set {
        let mut links = Set::EMPTY;
        for t in 0..MOST {
            if to.has(t) {
                links = links.or(Set {
                    bits: self.to_switch.at(switch, t),
                });
            }
        }
        links
    }

    /// The links of a switch to a node.
    pub(crate) fn links_home(&self, switch: u8, node: u8) -> Set {
        Set {
            bits: self.to_node.at(switch, node),
        }
    }

    /// The links of a node straight to another.
    pub(crate) fn direct(&self, from: u8, to: u8) -> Set {
        Set {
            bits: self.direct.at(from, to),
        }
    }

    /// The switch at the other end of a link of a switch.
    pub(crate) fn beyond(&self, switch: u8, link: u8) -> Option<u8> {
        self.beyond.at(switch, link)
    }

    /// The switch at the other end of a link of a node.
    pub(crate) fn home(&self, node: u8, link: u8) -> Option<u8> {
        self.homes.at(node, link)
    }

    /// The switches at which a node has a wire.
    pub(crate) fn homes(&self, node: u8) -> Set {
        let mut homes = Set::EMPTY;
        for link in 0..MOST {
            if let Some(switch) = self.home(node, link) {
                homes = homes.with(switch);
            }
        }
        homes
    }

    /// The switches that are joined to a switch.
    pub(crate) fn part_of(&self, switch: u8) -> Set {
        let mut part = Set::EMPTY.with(switch);
        for _ in 0..MOST {
            for s in 0..MOST {
                if part.has(s) {
                    part = part.or(self.near(s));
                }
            }
        }
        part
    }

    /// The nodes that have a wire at one of these switches.
    pub(crate) fn nodes_at(&self, switches: Set) -> Set {
        let mut nodes = Set::EMPTY;
        for n in 0..MOST {
            if !self.homes(n).and(switches).is_empty() {
                nodes = nodes.with(n);
            }
        }
        nodes
    }

    /// The least of the distances that a column has at a node's switches.
    pub(crate) fn entry(&self, node: u8, hops: &Column) -> u64 {
        hops.least(self.homes(node))
    }
}

fn add_link(links: &mut Grid<u32>, a: u8, b: u8, link: u8) {
    let before = Set {
        bits: links.at(a, b),
    };
    links.put(a, b, before.with(link).bits);
}
