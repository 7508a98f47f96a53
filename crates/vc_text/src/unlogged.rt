//! Running a network event by event without a list of its events.
ghost use Rattle.std.specs.Prelude.{List, IfOk};
ghost use Rattle.vc_core.specs.State.{shown, state_of, IsNetworkOf};
ghost use Rattle.vc_core.specs.declared.event.Event.{Event};
ghost use Rattle.vc_text.specs.OneNode.{ReadsAs};
ghost use Rattle.vc_text.specs.RunText.{IsRunWithin, WritesRun, WritesRunBy};
ghost use Rattle.vc_text.specs.Tail.{IsTail};

use crate::event_sink::Unlogged;
use crate::fault::RunFault;
use crate::one_node::read_as;
use crate::run::run_into;
use crate::schedule::Schedule;
use crate::step_options::StepOptions;
use crate::tail::write_tail;
use std::alloc::Global;
use std::io::{Read, Write};
use vc_core::{Close, Network};
use vc_packets::Memory;
use vc_plan::Accepted;
use vc_threads::Meter;

/// Runs an accepted network event by event, until no event is enabled or there are `limit` events, and keeps none: its memory does not
/// grow with their number. The answer is the network after it, and how the run ended. It fails only when out of memory.
pub fn run_unlogged(
    alloc: Global,
    accepted: &Accepted,
    limit: u64,
    schedule: Schedule,
    meter: &Meter,
) -> Result<(Network, Close), Memory>
    ensures is { IfOk result (λ r. IsNetworkOf accepted.now (state_of r.0)) }
    ensures run { IfOk result (λ r. (events : List Event) ×
        IsRunWithin accepted.now schedule limit events (shown (state_of r.0)) r.1) }
{
    run_into(alloc, accepted, &mut Unlogged, limit, schedule, meter)
}

/// Runs an accepted network so, and writes its traffic.
fn run_plan<W: Write>(
    alloc: Global,
    accepted: &Accepted,
    writer: &mut W,
    options: StepOptions,
    meter: &Meter,
) -> Result<Close, RunFault>
    ensures { WritesRun (IsTail options.is_why) accepted.now
        (W.contents writer.old) (W.contents writer.new) options.schedule options.limit result }
{
    let (network, close) = run_unlogged(alloc, accepted, options.limit, options.schedule, meter)?;
    write_tail(
        alloc,
        accepted.plan(),
        &network,
        close,
        options.is_why,
        writer,
    )?;
    Ok(close)
}

/// Reads a network file, runs the network event by event as the options say, and writes its traffic. It keeps no events: its memory does
/// not grow with their number. Where it fails, a front of the text was written if the writer failed, and else nothing.
pub fn run_step_unlogged<R: Read, W: Write>(
    alloc: Global,
    reader: &mut R,
    writer: &mut W,
    options: StepOptions,
    meter: &Meter,
) -> Result<Close, RunFault>
    ensures { WritesRunBy (IsTail options.is_why)
        (ReadsAs options.is_together (R.remaining reader.old))
        (W.contents writer.old) (W.contents writer.new) options.schedule options.limit result }
{
    let accepted = read_as(alloc, reader, options.is_together)?;
    run_plan(alloc, &accepted, writer, options, meter)
}
