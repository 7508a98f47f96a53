//! The whole file of a network file without labelling.
ghost use Rattle.std.specs.Prelude.{IfErr, IfOk, Ok};
ghost use Rattle.vc_reader.specs.Bare.{ReadsBare};
ghost use Rattle.vc_reader.specs.NetworkText.{Reads};
ghost use Rattle.vc_label_text.specs.Labelled.{IsLabelledText, IsRefusal};

use crate::cause::LabelCause;
use crate::channels::{WholeChannel, node_name, whole_channels};
use crate::file::WholeFile;
use crate::judge::is_labelling;
use crate::nodes::{has_same_nodes, parse};
use crate::refused::LabelRefused;
use crate::unmade::Unmade;
use crate::uses::Uses;
use crate::wires::whole_wires;
use crate::writer::Whole;
use serde_json::Value;
use sqlite_items::Items;
use std::alloc::Global;
use vc_cycles::find_cycle;
use vc_label::{LabelFault, Labelling, Request, label};
use vc_plan::{Wire, check};
use vc_reader::{BareNetwork, read_bare, read_network};

/// How the processes of these nodes use channels.
fn uses(alloc: Global, nodes: &[Value]) -> Result<Uses, Unmade> {
    let mut uses = Uses::new(alloc);
    let mut number = 0u8;
    for node in nodes {
        uses.add_node(alloc, number, node)?;
        number = number.saturating_add(1);
    }
    Ok(uses)
}

/// The labelling of a network of these wires and channels.
fn labelling(
    alloc: Global,
    bare: &BareNetwork,
    wires: &[Wire],
    channels: &[WholeChannel],
) -> Result<Labelling, Unmade> {
    let mut ways = Vec::new(alloc);
    for channel in channels {
        ways.push((channel.from, channel.to))?;
    }
    let request = Request {
        nodes: bare.nodes.len(),
        switches: bare.switches.len(),
        wires: Vec::from_slice(alloc, wires)?,
        ways,
    };
    match label(alloc, &request) {
        Ok(labelling) => Ok(labelling),
        Err(LabelFault::Memory) => Err(Unmade::Memory),
        Err(LabelFault::NoPath(channel)) => no_path(alloc, bare, channels.get(channel)),
    }
}

/// The refusal of a channel for which there is no way.
fn no_path(
    alloc: Global,
    bare: &BareNetwork,
    channel: Option<&WholeChannel>,
) -> Result<Labelling, Unmade> {
    match channel {
        Some(channel) => Err(Unmade::Network(LabelCause::NoPath {
            channel: Items::from_slice(alloc, channel.name.as_slice())?,
            from: node_name(alloc, bare, channel.from)?,
            to: node_name(alloc, bare, channel.to)?,
        })),
        None => Err(Unmade::Network(LabelCause::Unlabelled)),
    }
}

/// The text of the whole file.
fn written(alloc: Global, text: &[u8], bare: &BareNetwork) -> Result<Vec<u8>, Unmade> {
    let value = parse(alloc, text)?;
    let nodes = match value.as_ref().and_then(|value| value.get("nodes")) {
        Some(Value::Array(nodes)) => nodes.as_slice(),
        _ => &[],
    };
    let uses = uses(alloc, nodes)?;
    let wires = whole_wires(alloc, bare)?;
    let channels = whole_channels(alloc, bare, &uses)?;
    let labelling = labelling(alloc, bare, wires.as_slice(), channels.as_slice())?;
    let whole = Whole {
        bare,
        nodes,
        wires: wires.as_slice(),
        channels: channels.as_slice(),
        labelling: &labelling,
    };
    Ok(whole.text(alloc)?)
}

/// The file that was made, if `check` accepts it, with ranks of ports, and it is a labelling of the network that was read.
fn judged(
    alloc: Global,
    text: &[u8],
    bare: &BareNetwork,
    made: Vec<u8>,
) -> Result<WholeFile, LabelRefused>
    requires { ReadsBare text.now (Ok bare.now) }
    ensures made { IfOk result (λ whole. IsLabelledText text.now whole.text.items) }
    ensures network { IfOk result (λ whole. Reads whole.text.items (Ok whole.network)) }
    ensures refused { IfErr result (IsRefusal text.now) }
{
    let plan = match read_network(alloc, made.as_slice()) {
        Ok(plan) => plan,
        Err(refused) => return Err(LabelRefused::Text(refused)),
    };
    let accepted = match check(alloc, plan) {
        Ok(accepted) => accepted,
        Err(refusal) => return Err(LabelRefused::Plan(refusal)),
    };
    if find_cycle(alloc, &accepted)?.is_some() {
        return Err(LabelRefused::Network(LabelCause::Unlabelled));
    }
    let is_same = has_same_nodes(alloc, text, made.as_slice())?;
    if is_same && is_labelling(bare, accepted.plan()) {
        Ok(WholeFile {
            text: made,
            network: accepted,
        })
    } else {
        Err(LabelRefused::Network(LabelCause::Unlabelled))
    }
}

/// The whole file of a file without labelling: with the same nodes, and with the switches, wires and channels of what was read. It is one
/// that `check` accepts, and its ports have ranks, so its packets never come to wait for one another in a circle. Otherwise the text is
/// refused for what is wrong with it, for a channel of no end, two ends, no kind or no way, for too many wires, for what `check` finds in
/// the file that was made, or because there is no memory.
pub fn whole_file(alloc: Global, text: &[u8]) -> Result<WholeFile, LabelRefused>
    ensures made { IfOk result (λ whole. IsLabelledText text.now whole.text.items) }
    ensures network { IfOk result (λ whole. Reads whole.text.items (Ok whole.network)) }
    ensures refused { IfErr result (IsRefusal text.now) }
{
    let bare = match read_bare(alloc, text) {
        Ok(bare) => bare,
        Err(refused) => return Err(LabelRefused::Text(refused)),
    };
    match written(alloc, text, &bare) {
        Ok(made) => judged(alloc, text, &bare, made),
        Err(Unmade::Network(cause)) => Err(LabelRefused::Network(cause)),
        Err(Unmade::Memory) => Err(LabelRefused::Memory),
    }
}

/// The text of the whole file of a file without labelling, which is refused as [`whole_file`] refuses it.
pub fn label_text(alloc: Global, text: &[u8]) -> Result<Vec<u8>, LabelRefused>
    ensures made { IfOk result (λ made. IsLabelledText text.now made.items) }
    ensures refused { IfErr result (IsRefusal text.now) }
{
    match whole_file(alloc, text) {
        Ok(WholeFile { text, network: _ }) => Ok(text),
        Err(refused) => Err(refused),
    }
}
