//! Networks without their labelling.
use sqlite_items::Items;
use vc_plan::{Name, Spot, Wire};
use vc_process::ValueKind;

/// What an entry of `wires` asks for.
#[derive(Clone, Copy, Debug, PartialEq, Eq, Drop)]
pub enum BareWire {
    /// A wire between two ports.
    Linked(Wire),
    /// Wires between a node or switch and another, by any links.
    Unlinked {
        /// One of the two.
        one: Spot,
        /// The other one, or the same.
        two: Spot,
        /// How many wires, 1 to 256.
        count: u16,
    },
}

/// Where a channel goes, as far as the file says it.
#[derive(Clone, Copy, Debug, PartialEq, Eq, Drop)]
pub enum BareEnds {
    /// From a node to a node.
    Between {
        /// The number of the node whose process outputs.
        from: Option<u8>,
        /// The number of the node whose process inputs.
        to: Option<u8>,
    },
    /// Inside the node of this number.
    Within(u8),
}

/// A channel that the file lists.
#[derive(Debug, Drop)]
pub struct BareChannel {
    /// Its name, which no other channel of the list has.
    pub name: Name,
    /// What its messages are, if the file says it.
    pub kind: Option<ValueKind>,
    /// Where it goes.
    pub ends: BareEnds,
}

/// A network as a file without labelling says it, but for what its nodes have inside.
#[derive(Debug, Drop)]
pub struct BareNetwork {
    /// The file's version, 1 or 2.
    pub version: u8,
    /// The names of the nodes.
    pub nodes: Items<Name>,
    /// The names of the switches.
    pub switches: Items<Name>,
    /// The entries of `wires`.
    pub wires: Items<BareWire>,
    /// The channels that are listed.
    pub channels: Items<BareChannel>,
}
