//! Tables of switches, by nodes.
use crate::column::FAR;
use crate::grid::Grid;
use crate::group::Group;
use std::alloc::Global;
use vc_packets::Memory;

/// Of each switch the group by which packets leave it for each node, and how many more switches they pass.
#[derive(Drop)]
pub(crate) struct Tables {
    groups: Grid<Option<Group>>,
    hops: Grid<u64>,
}

impl Tables {
    pub(crate) fn new(alloc: Global) -> Result<Tables, Memory> {
        Ok(Tables {
            groups: Grid::new(alloc, None)?,
            hops: Grid::new(alloc, FAR)?,
        })
    }

    /// The group by which packets for a node leave a switch.
    pub(crate) fn group(&self, switch: u8, node: u8) -> Option<Group> {
        self.groups.at(switch, node)
    }

    /// How many more switches packets for a node pass from a switch on; `FAR` if none leads there.
    pub(crate) fn hops(&self, switch: u8, node: u8) -> u64 {
        self.hops.at(switch, node)
    }

    pub(crate) fn set_group(&mut self, switch: u8, node: u8, group: Option<Group>) {
        self.groups.put(switch, node, group);
    }

    pub(crate) fn set_hops(&mut self, switch: u8, node: u8, hops: u64) {
        self.hops.put(switch, node, hops);
    }
}
