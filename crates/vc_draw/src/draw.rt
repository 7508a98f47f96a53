//! Writing a network as a drawing.
ghost use Rattle.std.specs.Prelude.{List, IfOk};
ghost use Rattle.vc_core.specs.Replay.{Reached};
ghost use Rattle.vc_core.specs.State.{shown, state_of};
ghost use Rattle.vc_core.specs.declared.event.Event.{Event};
ghost use Rattle.vc_draw.specs.Graph.{WritesGraph, graph_text as text_of_graph, no_labels};
ghost use Rattle.vc_draw.specs.State.{IsStateDrawing, IsStateGraph};
ghost use Rattle.vc_text.specs.CheckText.{ReadsAccepted};
ghost use Rattle.vc_text.specs.RunText.{WritesRun, WritesRunBy};
ghost use Rattle.vc_text.specs.Streams.{Writes};

use crate::graph::graph_text;
use crate::labels::{empty_labels, state_labels};
use std::alloc::Global;
use std::io::{Read, Write};
use vc_core::{Close, Network};
use vc_packets::Memory;
use vc_plan::{Accepted, Plan};
use vc_text::{Meter, RunFault, Schedule, read_accepted, run_unlogged, write_text};

fn write_graph<W: Write>(alloc: Global, plan: &Plan, writer: &mut W) -> Result<(), RunFault>
    ensures { Writes (W.contents writer.old) (W.contents writer.new)
        (text_of_graph plan.now no_labels) result }
{
    let text = graph_text(alloc, plan, &empty_labels(alloc))?;
    write_text(writer, text.as_slice())
}

/// Reads a network file, and writes an accepted one as Graphviz text. A refusal is answered, and nothing is written for it.
pub fn run_draw<R: Read, W: Write>(
    alloc: Global,
    reader: &mut R,
    writer: &mut W,
) -> Result<(), RunFault>
    ensures { WritesGraph (R.remaining reader.old)
        (W.contents writer.old) (W.contents writer.new) result }
{
    let accepted = read_accepted(alloc, reader)?;
    write_graph(alloc, accepted.plan(), writer)
}

/// A network and its state as Graphviz text.
fn state_graph(alloc: Global, plan: &Plan, network: &Network) -> Result<Vec<u8>, Memory>
    requires { (events : List Event) × Reached plan.now events (state_of network.now) }
    ensures { IfOk result (λ text.
        IsStateGraph plan.now (shown (state_of network.now)) text.items) }
{
    let labels = state_labels(alloc, plan, network)?;
    graph_text(alloc, plan, &labels)
}

/// Runs an accepted network, and writes it and its state as Graphviz text. The text is made first, so want of memory writes nothing.
fn draw_after<W: Write>(
    alloc: Global,
    accepted: &Accepted,
    writer: &mut W,
    limit: u64,
    meter: &Meter,
) -> Result<Close, RunFault>
    ensures { WritesRun IsStateDrawing accepted.now
        (W.contents writer.old) (W.contents writer.new) Schedule.InTurn limit result }
{
    let (network, close) = run_unlogged(alloc, accepted, limit, Schedule::InTurn, meter)?;
    let text = state_graph(alloc, accepted.plan(), &network)?;
    match write_text(writer, text.as_slice()) {
        Ok(()) => Ok(close),
        Err(fault) => Err(fault),
    }
}

/// Reads a network file, runs the network for at most `limit` events as [`run_step_unlogged`](vc_text::run_step_unlogged) does in turn, and
/// writes it as Graphviz text with its state in the labels: what the processes wait for, the tokens on the wires, and the messages and
/// packets of the channels. Where it fails, a front of the text was written if the writer failed, and else nothing.
pub fn run_draw_after<R: Read, W: Write>(
    alloc: Global,
    reader: &mut R,
    writer: &mut W,
    limit: u64,
    meter: &Meter,
) -> Result<Close, RunFault>
    ensures { WritesRunBy IsStateDrawing (ReadsAccepted (R.remaining reader.old))
        (W.contents writer.old) (W.contents writer.new) Schedule.InTurn limit result }
{
    let accepted = read_accepted(alloc, reader)?;
    draw_after(alloc, &accepted, writer, limit, meter)
}
