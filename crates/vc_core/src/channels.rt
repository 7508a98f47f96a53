//! What the channels of a plan are called, and where they are.
ghost use Rattle.std.specs.Prelude.{◌≡◌, IfOk};
ghost use Rattle.std.specs.Str.{IsUtf8};
ghost use Rattle.std.specs.String.{string_bytes};
ghost use Rattle.vc_accepted.specs.NetworkOf.{network_of, home_of};
ghost use Rattle.vc_core.specs.Channels.{AreChannelsOf, end_block, ends_at};
ghost use Rattle.vc_core.specs.Private.Channels.{IsInfoOf};
ghost use Rattle.vc_core.specs.Private.Targets.{target_at};
ghost use Rattle.vc_network.specs.Plan as network;
ghost use Rattle.vc_network.specs.Views.{source_node, sink_node};
ghost use Rattle.vc_plan.specs.Accepted.{IsAccepted};
ghost use Rattle.vc_plan.specs.KeptLimits.{IsName};

use crate::target::Target;
use std::alloc::Global;
use vc_occam::ValueKind;
use vc_packets::Memory;
use vc_plan::{Channel, End, Home, Plan};

/// What a channel is called, and where it is.
#[derive(Drop)]
pub(crate) struct ChannelInfo {
    /// Its name.
    pub(crate) name: String,
    /// What its messages are.
    pub(crate) kind: ValueKind,
    /// The node that outputs on it.
    pub(crate) source: usize,
    /// The node that inputs on it.
    pub(crate) sink: usize,
    /// The ends of the virtual link that it is on, unless it is inside a node.
    pub(crate) ends: Option<Ends>,
}

/// A block of a node, to which packets of a virtual link come.
#[derive(Clone, Copy, Drop)]
pub(crate) struct BlockAt {
    /// The node.
    pub(crate) node: u8,
    /// The block.
    pub(crate) block: u16,
}

/// The ends of the virtual link that a channel is on.
#[derive(Clone, Copy, Drop)]
pub(crate) struct Ends {
    /// That of the node that outputs on the channel, to which its acknowledges come.
    pub(crate) from: BlockAt,
    /// That of the node that inputs on the channel, to which its pieces come.
    pub(crate) to: BlockAt,
}

impl Ends {
    /// The channel's packets among those that reach a node.
    pub(crate) fn target_at(&self, node: u8) -> Target
        ensures { result ≡ target_at self.now node }
    {
        Target {
            pieces: (self.to.node == node).then_some(self.to.block),
            acks: (self.from.node == node).then_some(self.from.block),
        }
    }
}

/// The channels of an accepted plan, in their order.
pub(crate) fn channels_of(alloc: Global, plan: &Plan) -> Result<Vec<ChannelInfo>, Memory>
    requires { IsAccepted plan.now }
    ensures { IfOk result (λ channels. AreChannelsOf plan.now channels.items) }
{
    let mut channels = Vec::new(alloc);
    for channel in plan.channels.as_slice() {
        channels.push(info_of(alloc, plan, channel)?)?;
    }
    Ok(channels)
}

// What a channel of the plan is called, and where it is.
fn info_of(alloc: Global, plan: &Plan, channel: &Channel) -> Result<ChannelInfo, Memory>
    requires { IsName channel.now.name }
    ensures { IfOk result (IsInfoOf plan.now channel.now) }
{
    Ok(ChannelInfo {
        name: text_of(alloc, channel.name.as_slice())?,
        kind: channel.kind,
        source: source_of(plan, channel.home),
        sink: sink_of(plan, channel.home),
        ends: ends_of(plan, channel.home),
    })
}

// A name as a text.
fn text_of(alloc: Global, name: &[u8]) -> Result<String, Memory>
    requires { IsUtf8 name.now }
    ensures { IfOk result (λ text. string_bytes text ≡ name.now) }
{
    match str::from_utf8(name) {
        Ok(text) => Ok(String::from_str(alloc, text)?),
        Err(_) => unreachable!(),
    }
}

// The node that outputs on a channel of this home.
fn source_of(plan: &Plan, home: Home) -> usize
    ensures { result ≡ source_node (network_of plan.now) (home_of home) }
{
    match home {
        Home::Inside { node } => usize::from(node),
        Home::Way { vlink, from_a } => node_at(plan, vlink, from_a),
    }
}

// The node that inputs on a channel of this home.
fn sink_of(plan: &Plan, home: Home) -> usize
    ensures { result ≡ sink_node (network_of plan.now) (home_of home) }
{
    match home {
        Home::Inside { node } => usize::from(node),
        Home::Way { vlink, from_a } => node_at(plan, vlink, !from_a),
    }
}

// The ends of the virtual link that a channel of this home is on.
fn ends_of(plan: &Plan, home: Home) -> Option<Ends>
    ensures { result ≡ ends_at (network_of plan.now) (home_of home) }
{
    match home {
        Home::Inside { .. } => None,
        Home::Way { vlink, from_a } => Some(Ends {
            from: block_at(plan, vlink, from_a),
            to: block_at(plan, vlink, !from_a),
        }),
    }
}

// The block of end a or end b of a virtual link.
fn block_at(plan: &Plan, vlink: u16, is_a: bool) -> BlockAt
    ensures { result ≡
        end_block (network.end_of (network.virtual_link (network_of plan.now) vlink) is_a) }
{
    match plan.vlinks.as_slice().get(usize::from(vlink)) {
        Some(link) if is_a => block_of(&link.a),
        Some(link) => block_of(&link.b),
        None => BlockAt { node: 0, block: 0 },
    }
}

// The block of an end.
fn block_of(end: &End) -> BlockAt
    ensures { result ≡ record { node = end.now.node; block = end.now.block } }
{
    BlockAt {
        node: end.node,
        block: end.block,
    }
}

// The node at end a or end b of a virtual link.
fn node_at(plan: &Plan, vlink: u16, is_a: bool) -> usize
    ensures { result ≡
        (network.end_of (network.virtual_link (network_of plan.now) vlink) is_a).node }
{
    match plan.vlinks.as_slice().get(usize::from(vlink)) {
        Some(link) if is_a => usize::from(link.a.node),
        Some(link) => usize::from(link.b.node),
        None => 0,
    }
}
