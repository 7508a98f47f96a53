//! Plans.
ghost use Rattle.std.specs.Prelude.{◌≡◌};
ghost use Rattle.vc_plan.specs.Names.{actor_name as name_of_actor, channel_name as name_of_channel, node_name as name_of_node, spot_name as name_of_spot, switch_name as name_of_switch, vlink_name as name_of_vlink};

use crate::channel::Channel;
use crate::node_plan::NodePlan;
use crate::port::{Spot, Wire};
use crate::switch_plan::SwitchPlan;
use crate::vlink::Vlink;
use sqlite_items::Items;

/// A network as its file says it. Nodes, switches, virtual links and channels are named by their places in these lists.
pub struct Plan {
    /// 1, or 2 for a plan that may have random inputs and portals.
    pub version: u8,
    /// At most 32 nodes.
    pub nodes: Items<NodePlan>,
    /// At most 32 switches.
    pub switches: Items<SwitchPlan>,
    /// At most 256 wires.
    pub wires: Items<Wire>,
    /// At most 256 virtual links.
    pub vlinks: Items<Vlink>,
    /// At most 512 channels.
    pub channels: Items<Channel>,
}

impl Plan {
    /// The name of a node of this number; no bytes where there is none.
    pub fn node_name(&self, node: usize) -> &[u8]
        ensures { result.now ≡ name_of_node self.now node }
    {
        match self.nodes.get(node) {
            Some(node) => node.name.as_slice(),
            None => &[],
        }
    }

    /// The name of a switch of this number; no bytes where there is none.
    pub fn switch_name(&self, switch: usize) -> &[u8]
        ensures { result.now ≡ name_of_switch self.now switch }
    {
        match self.switches.get(switch) {
            Some(switch) => switch.name.as_slice(),
            None => &[],
        }
    }

    /// The name of a virtual link of this number; no bytes where there is none.
    pub fn vlink_name(&self, vlink: usize) -> &[u8]
        ensures { result.now ≡ name_of_vlink self.now vlink }
    {
        match self.vlinks.get(vlink) {
            Some(vlink) => vlink.name.as_slice(),
            None => &[],
        }
    }

    /// The name of a channel of this number; no bytes where there is none.
    pub fn channel_name(&self, channel: usize) -> &[u8]
        ensures { result.now ≡ name_of_channel self.now channel }
    {
        match self.channels.get(channel) {
            Some(channel) => channel.name.as_slice(),
            None => &[],
        }
    }

    /// The name of the node or switch at one end of a wire; no bytes where there is none.
    pub fn spot_name(&self, spot: Spot) -> &[u8]
        ensures { result.now ≡ name_of_spot self.now spot }
    {
        match spot {
            Spot::Node(node) => self.node_name(usize::from(node)),
            Spot::Switch(switch) => self.switch_name(usize::from(switch)),
        }
    }

    /// The name of an actor: the nodes are the first actors, and the switches those after them. No bytes where there is none.
    pub fn actor_name(&self, actor: usize) -> &[u8]
        ensures { result.now ≡ name_of_actor self.now actor }
    {
        let nodes = self.nodes.len();
        if actor < nodes {
            self.node_name(actor)
        } else {
            self.switch_name(actor - nodes)
        }
    }
}

impl Drop for Plan {
    // written, so that the crates above need not prove again how all that it holds is dropped
    fn drop(self) {
        let Plan {
            version: _,
            nodes: _,
            switches: _,
            wires: _,
            vlinks: _,
            channels: _,
        } = self;
    }
}
