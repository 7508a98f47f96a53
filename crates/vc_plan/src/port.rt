//! Ports, and the wires that join them.

/// A node or a switch.
#[derive(Clone, Copy, Debug, PartialEq, Eq, Drop)]
pub enum Spot {
    /// The node of this number.
    Node(u8),
    /// The switch of this number.
    Switch(u8),
}

/// A link of a node or a switch.
#[derive(Clone, Copy, Debug, PartialEq, Eq, Drop)]
pub struct Port {
    /// Where the link is.
    pub spot: Spot,
    /// The link's number, 0 to 3 at a node and 0 to 31 at a switch.
    pub link: u8,
}

/// A wire, which carries tokens both ways between two ports.
#[derive(Clone, Copy, Debug, PartialEq, Eq, Drop)]
pub struct Wire {
    /// One port.
    pub one: Port,
    /// The other port, which may be of the same node or switch.
    pub two: Port,
}
