//! Parts of a network.
use crate::fabric::Fabric;
use crate::set::Set;

/// Switches joined by wires, and the nodes that have a wire at one of them.
#[derive(Clone, Copy, Drop)]
pub(crate) struct Part {
    pub switches: Set,
    pub nodes: Set,
}

impl Part {
    /// The part of a switch.
    pub(crate) fn of(fabric: &Fabric, switch: u8) -> Part {
        let switches = fabric.part_of(switch);
        Part {
            switches,
            nodes: fabric.nodes_at(switches),
        }
    }
}
