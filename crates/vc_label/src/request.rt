//! What is to be labelled.
ghost use Rattle.std.specs.Prelude.{◌≡◌, ◌≤◌, true};

use vc_plan::Wire;

/// The wires of a network, and between which nodes its channels go.
#[derive(Drop)]
pub struct Request {
    /// How many nodes there are.
    pub nodes: usize,
    /// How many switches there are.
    pub switches: usize,
    /// The wires, with their links.
    pub wires: Vec<Wire>,
    /// Of each channel the node that outputs, and the node that inputs.
    pub ways: Vec<(u8, u8)>,
}

impl Request {
    /// Whether the network has no more nodes, switches, wires and channels than a network may have.
    pub(crate) fn is_small(&self) -> bool
        ensures nodes { result ≡ true → self.now.nodes ≤ 32 }
        ensures switches { result ≡ true → self.now.switches ≤ 32 }
    {
        self.nodes <= 32 && self.switches <= 32 && self.wires.len() <= 256 && self.ways.len() <= 512
    }
}
