//! Lines that a drawing adds to its labels.
ghost use Rattle.std.specs.Prelude.{◌≡◌, List, IfOk};
ghost use Rattle.vc_core.specs.Replay.{Reached};
ghost use Rattle.vc_core.specs.State.{shown, state_of};
ghost use Rattle.vc_core.specs.declared.event.Event.{Event};
ghost use Rattle.vc_draw.specs.Graph.{no_labels, lines_at as lines_in};
ghost use Rattle.vc_draw.specs.State.{AreStateLabels};

use crate::channel_label::channel_labels;
use crate::node_label::node_labels;
use crate::wire_label::wire_labels;
use sqlite_items::Items;
use std::alloc::Global;
use vc_core::Network;
use vc_packets::{Bytes, Memory};
use vc_plan::Plan;
use vc_waits::places;

/// The lines that a drawing adds to the labels of nodes, wires and channels, for each in the plan's order. There are none after the end
/// of a list.
#[derive(Drop)]
pub(crate) struct Labels {
    pub(crate) nodes: Items<Bytes>,
    pub(crate) wires: Items<Bytes>,
    pub(crate) channels: Items<Bytes>,
}

/// No lines.
pub(crate) fn empty_labels(alloc: Global) -> Labels
    ensures { result ≡ no_labels }
{
    Labels {
        nodes: Items::new(alloc),
        wires: Items::new(alloc),
        channels: Items::new(alloc),
    }
}

/// The lines for the thing of this number.
pub(crate) fn lines_at(labels: &Items<Bytes>, number: usize) -> &[u8]
    ensures { result.now ≡ lines_in labels.now number }
{
    match labels.get(number) {
        Some(lines) => lines.as_slice(),
        None => &[],
    }
}

/// The lines that show a network's state.
pub(crate) fn state_labels(alloc: Global, plan: &Plan, network: &Network) -> Result<Labels, Memory>
    requires { (events : List Event) × Reached plan.now events (state_of network.now) }
    ensures { IfOk result (AreStateLabels plan.now (shown (state_of network.now))) }
{
    let places = places(alloc, network)?;
    Ok(Labels {
        nodes: node_labels(alloc, plan, network)?,
        wires: wire_labels(alloc, plan, network)?,
        channels: channel_labels(alloc, plan, network, places.as_slice())?,
    })
}
