//! A network as Graphviz text.
ghost use Rattle.std.specs.Prelude.{◌≡◌, ◌++◌, [], IfOk, OnOk};
ghost use Rattle.std.specs.List.{enumerate_from, flat_map};
ghost use Rattle.vc_draw.specs.Graph.{channel_text, edge_ends, edges_text, graph_text as text_of_graph, inside_line, inside_line_at, kind_text as text_of_kind, link_labels, middle_label, node_line, place_label, place_line, places_text, vlink_line, way_label, way_label_at, wire_line};

use crate::labels::{Labels, lines_at};
use sqlite_items::Items;
use std::alloc::Global;
use vc_occam::ValueKind;
use vc_packets::{Bytes, Memory};
use vc_plan::{Channel, Home, NodePlan, Plan, Spot, SwitchPlan, Vlink, Wire};
use vc_text::{push_number, push_way};

/// The label of a node of which there are lines to show.
#[tactic(auto, using(std::proofs::Common::append_assoc))]
fn push_place_label(out: &mut Vec<u8>, name: &[u8], lines: &[u8]) -> Result<(), Memory>
    ensures { OnOk result (out.new.items ≡ out.old.items ++ place_label name.now lines.now) }
{
    if !lines.is_empty() {
        out.extend_from_slice(b" [label=\"")?;
        out.extend_from_slice(name)?;
        out.extend_from_slice(b"\\n")?;
        out.extend_from_slice(lines)?;
        out.extend_from_slice(b"\"]")?;
    }
    Ok(())
}

/// A node or a switch, by its name.
#[tactic(auto, using(std::proofs::Common::append_assoc), unfolding(crate::specs::Graph::place_line))]
fn push_place(out: &mut Vec<u8>, name: &[u8], lines: &[u8]) -> Result<(), Memory>
    ensures { OnOk result (out.new.items ≡ out.old.items ++ place_line name.now lines.now) }
{
    out.extend_from_slice(b"  \"")?;
    out.extend_from_slice(name)?;
    out.extend_from_slice(b"\"")?;
    push_place_label(out, name, lines)?;
    out.extend_from_slice(b";\n")?;
    Ok(())
}

fn push_nodes(out: &mut Vec<u8>, nodes: &[NodePlan], labels: &Items<Bytes>) -> Result<(), Memory>
    ensures { OnOk result (out.new.items
        ≡ out.old.items ++ flat_map (node_line labels.now) (enumerate_from 0 nodes.now)) }
{
    for (n, node) in nodes.iter().enumerate() {
        push_place(out, node.name.as_slice(), lines_at(labels, n))?;
    }
    Ok(())
}

fn push_switches(out: &mut Vec<u8>, switches: &[SwitchPlan]) -> Result<(), Memory>
    ensures { OnOk result (out.new.items
        ≡ out.old.items ++ flat_map (λ switch. place_line switch.name []) switches.now) }
{
    for switch in switches {
        push_place(out, switch.name.as_slice(), &[])?;
    }
    Ok(())
}

/// The two places that an edge joins.
#[tactic(auto, using(std::proofs::Common::append_assoc), unfolding(crate::specs::Graph::edge_ends))]
fn push_ends(out: &mut Vec<u8>, plan: &Plan, one: Spot, two: Spot) -> Result<(), Memory>
    ensures { OnOk result (out.new.items ≡ out.old.items ++ edge_ends plan.now one two) }
{
    out.extend_from_slice(b"  \"")?;
    out.extend_from_slice(plan.spot_name(one))?;
    out.extend_from_slice(b"\" -- \"")?;
    out.extend_from_slice(plan.spot_name(two))?;
    out.extend_from_slice(b"\" [")?;
    Ok(())
}

/// The numbers of a wire's two links.
#[tactic(auto, using(std::proofs::Common::append_assoc))]
fn push_link_labels(out: &mut Vec<u8>, wire: &Wire) -> Result<(), Memory>
    ensures { OnOk result (out.new.items ≡ out.old.items ++ link_labels wire.now) }
{
    out.extend_from_slice(b"taillabel=\"")?;
    push_number(out, u64::from(wire.one.link))?;
    out.extend_from_slice(b"\", headlabel=\"")?;
    push_number(out, u64::from(wire.two.link))?;
    out.extend_from_slice(b"\"")?;
    Ok(())
}

/// The label of a wire of which there are lines to show.
#[tactic(auto, using(std::proofs::Common::append_assoc))]
fn push_middle_label(out: &mut Vec<u8>, lines: &[u8]) -> Result<(), Memory>
    ensures { OnOk result (out.new.items ≡ out.old.items ++ middle_label lines.now) }
{
    if !lines.is_empty() {
        out.extend_from_slice(b", label=\"")?;
        out.extend_from_slice(lines)?;
        out.extend_from_slice(b"\"")?;
    }
    Ok(())
}

/// A wire, with the number of its link at each end.
#[tactic(auto, using(std::proofs::Common::append_assoc), unfolding(crate::specs::Graph::wire_line))]
fn push_wire(
    out: &mut Vec<u8>,
    plan: &Plan,
    labels: &Items<Bytes>,
    number: usize,
    wire: &Wire,
) -> Result<(), Memory>
    ensures { OnOk result (out.new.items
        ≡ out.old.items ++ wire_line plan.now labels.now (number, wire.now)) }
{
    push_ends(out, plan, wire.one.spot, wire.two.spot)?;
    push_link_labels(out, wire)?;
    push_middle_label(out, lines_at(labels, number))?;
    out.extend_from_slice(b"];\n")?;
    Ok(())
}

fn push_wires(out: &mut Vec<u8>, plan: &Plan, labels: &Items<Bytes>) -> Result<(), Memory>
    ensures { OnOk result (out.new.items ≡ out.old.items
        ++ flat_map (wire_line plan.now labels.now) (enumerate_from 0 plan.now.wires)) }
{
    for (number, wire) in plan.wires.as_slice().iter().enumerate() {
        push_wire(out, plan, labels, number, wire)?;
    }
    Ok(())
}

fn kind_text(kind: ValueKind) -> &'static str
    ensures { result.now ≡ text_of_kind kind }
{
    match kind {
        ValueKind::Int => ": int",
        ValueKind::Bytes => ": bytes",
    }
}

/// A channel's name and its kind.
fn push_channel(out: &mut Vec<u8>, channel: &Channel) -> Result<(), Memory>
    ensures { OnOk result (out.new.items ≡ out.old.items ++ channel_text channel.now) }
{
    out.extend_from_slice(channel.name.as_slice())?;
    out.extend_from_slice(kind_text(channel.kind).as_bytes())?;
    Ok(())
}

/// A channel's line in the label of virtual link n, where it is on that one.
#[tactic(auto, using(std::proofs::Common::append_assoc))]
fn push_way_label(
    out: &mut Vec<u8>,
    n: usize,
    channel: &Channel,
    lines: &[u8],
) -> Result<(), Memory>
    ensures { OnOk result (out.new.items
        ≡ out.old.items ++ way_label n lines.now channel.now channel.now.home) }
{
    match channel.home {
        Home::Way { vlink, from_a } if vlink as usize == n => {
            out.extend_from_slice(b"\\n")?;
            push_channel(out, channel)?;
            out.extend_from_slice(b", ")?;
            push_way(out, from_a)?;
            out.extend_from_slice(lines)?;
            Ok(())
        }
        _ => Ok(()),
    }
}

fn push_way_labels(
    out: &mut Vec<u8>,
    n: usize,
    channels: &[Channel],
    labels: &Items<Bytes>,
) -> Result<(), Memory>
    ensures { OnOk result (out.new.items
        ≡ out.old.items ++ flat_map (way_label_at n labels.now) (enumerate_from 0 channels.now)) }
{
    for (number, channel) in channels.iter().enumerate() {
        push_way_label(out, n, channel, lines_at(labels, number))?;
    }
    Ok(())
}

/// Virtual link n, with its name and its channels.
#[tactic(auto, using(std::proofs::Common::append_assoc), unfolding(crate::specs::Graph::vlink_line))]
fn push_vlink(
    out: &mut Vec<u8>,
    plan: &Plan,
    labels: &Items<Bytes>,
    n: usize,
    vlink: &Vlink,
) -> Result<(), Memory>
    ensures { OnOk result (out.new.items
        ≡ out.old.items ++ vlink_line plan.now labels.now (n, vlink.now)) }
{
    push_ends(
        out,
        plan,
        Spot::Node(vlink.a.node),
        Spot::Node(vlink.b.node),
    )?;
    out.extend_from_slice(b"style=dashed, label=\"")?;
    out.extend_from_slice(vlink.name.as_slice())?;
    push_way_labels(out, n, plan.channels.as_slice(), labels)?;
    out.extend_from_slice(b"\"];\n")?;
    Ok(())
}

fn push_vlinks(out: &mut Vec<u8>, plan: &Plan, labels: &Items<Bytes>) -> Result<(), Memory>
    ensures { OnOk result (out.new.items ≡ out.old.items
        ++ flat_map (vlink_line plan.now labels.now) (enumerate_from 0 plan.now.vlinks)) }
{
    for (n, vlink) in plan.vlinks.as_slice().iter().enumerate() {
        push_vlink(out, plan, labels, n, vlink)?;
    }
    Ok(())
}

/// A channel inside a node, from the node to itself.
#[tactic(auto, using(std::proofs::Common::append_assoc))]
fn push_inside(
    out: &mut Vec<u8>,
    plan: &Plan,
    channel: &Channel,
    lines: &[u8],
) -> Result<(), Memory>
    ensures { OnOk result (out.new.items
        ≡ out.old.items ++ inside_line plan.now lines.now channel.now channel.now.home) }
{
    if let Home::Inside { node } = channel.home {
        push_ends(out, plan, Spot::Node(node), Spot::Node(node))?;
        out.extend_from_slice(b"style=dotted, label=\"")?;
        push_channel(out, channel)?;
        out.extend_from_slice(lines)?;
        out.extend_from_slice(b"\"];\n")?;
    }
    Ok(())
}

fn push_insides(out: &mut Vec<u8>, plan: &Plan, labels: &Items<Bytes>) -> Result<(), Memory>
    ensures { OnOk result (out.new.items ≡ out.old.items
        ++ flat_map (inside_line_at plan.now labels.now) (enumerate_from 0 plan.now.channels)) }
{
    for (number, channel) in plan.channels.as_slice().iter().enumerate() {
        push_inside(out, plan, channel, lines_at(labels, number))?;
    }
    Ok(())
}

/// Nodes as boxes and switches as ellipses.
#[tactic(auto, using(std::proofs::Common::append_assoc), unfolding(crate::specs::Graph::places_text))]
fn push_places(out: &mut Vec<u8>, plan: &Plan, labels: &Items<Bytes>) -> Result<(), Memory>
    ensures { OnOk result (out.new.items ≡ out.old.items ++ places_text plan.now labels.now) }
{
    out.extend_from_slice(b"  node [shape=box];\n")?;
    push_nodes(out, plan.nodes.as_slice(), labels)?;
    out.extend_from_slice(b"  node [shape=ellipse];\n")?;
    push_switches(out, plan.switches.as_slice())?;
    Ok(())
}

/// Wires, virtual links, and channels inside nodes.
#[tactic(auto, using(std::proofs::Common::append_assoc), unfolding(crate::specs::Graph::edges_text))]
fn push_edges(out: &mut Vec<u8>, plan: &Plan, labels: &Labels) -> Result<(), Memory>
    ensures { OnOk result (out.new.items ≡ out.old.items ++ edges_text plan.now labels.now) }
{
    push_wires(out, plan, &labels.wires)?;
    push_vlinks(out, plan, &labels.channels)?;
    push_insides(out, plan, &labels.channels)
}

/// A network as Graphviz text, with these lines in its labels.
#[tactic(auto, using(std::proofs::Common::append_assoc), unfolding(crate::specs::Graph::graph_text))]
pub(crate) fn graph_text(alloc: Global, plan: &Plan, labels: &Labels) -> Result<Vec<u8>, Memory>
    ensures { IfOk result (λ text. text.items ≡ text_of_graph plan.now labels.now) }
{
    let mut out = Vec::new(alloc);
    out.extend_from_slice(b"graph network {\n")?;
    push_places(&mut out, plan, &labels.nodes)?;
    push_edges(&mut out, plan, labels)?;
    out.extend_from_slice(b"}\n")?;
    Ok(out)
}
