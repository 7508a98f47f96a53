//! Running a network event by event, with its counts or as JSON.
ghost use Rattle.vc_text.specs.OneNode.{ReadsAs};
ghost use Rattle.vc_text.specs.RunText.{WritesRun, WritesRunBy};
ghost use Rattle.vc_stats.specs.Texts.{IsStatsText, IsTrafficJson};

use crate::form::Form;
use crate::monitor::Monitor;
use crate::text::{stats_tail, traffic_tail, write_told};
use std::alloc::Global;
use std::io::{Read, Write};
use vc_core::Close;
use vc_plan::Accepted;
use vc_text::{RunFault, StepOptions, read_as, run_into, run_unlogged};
use vc_threads::Meter;

/// Runs an accepted network event by event, and writes its traffic and its counts. All memory is taken first, so running out of
/// it writes nothing.
fn stats_plan<W: Write>(
    alloc: Global,
    accepted: &Accepted,
    writer: &mut W,
    form: Form,
    options: StepOptions,
    meter: &Meter,
) -> Result<Close, RunFault>
    ensures { WritesRun (IsStatsText form options.is_why) accepted.now
        (W.contents writer.old) (W.contents writer.new) options.schedule options.limit result }
{
    let plan = accepted.plan();
    let mut monitor = Monitor::new(alloc, plan)?;
    let (network, close) = run_into(
        alloc,
        accepted,
        &mut monitor,
        options.limit,
        options.schedule,
        meter,
    )?;
    let states = monitor.states(alloc, plan)?;
    let tail = stats_tail(
        alloc,
        plan,
        &network,
        close,
        monitor.stats(),
        &states,
        form,
        options.is_why,
    )?;
    write_told(form, &tail, writer)?;
    Ok(close)
}

/// Reads a network file, runs the network event by event as the options say, and writes its traffic and then the counts of its events, and of
/// the states between them. It keeps neither. For these counts an event costs time in the number of the links of its node or switch, and of
/// the channels that the node outputs. It fails where the reader or the writer fails, where the network is refused, and for want of memory;
/// nothing is written then, or by a writer that fails a front of the text.
pub fn stats_step<R: Read, W: Write>(
    alloc: Global,
    reader: &mut R,
    writer: &mut W,
    form: Form,
    options: StepOptions,
    meter: &Meter,
) -> Result<Close, RunFault>
    ensures { WritesRunBy (IsStatsText form options.is_why)
        (ReadsAs options.is_together (R.remaining reader.old))
        (W.contents writer.old) (W.contents writer.new) options.schedule options.limit result }
{
    let accepted = read_as(alloc, reader, options.is_together)?;
    stats_plan(alloc, &accepted, writer, form, options, meter)
}

/// Runs an accepted network event by event, and writes its traffic as JSON.
fn json_plan<W: Write>(
    alloc: Global,
    accepted: &Accepted,
    writer: &mut W,
    options: StepOptions,
    meter: &Meter,
) -> Result<Close, RunFault>
    ensures { WritesRun IsTrafficJson accepted.now
        (W.contents writer.old) (W.contents writer.new) options.schedule options.limit result }
{
    let (network, close) = run_unlogged(alloc, accepted, options.limit, options.schedule, meter)?;
    let tail = traffic_tail(alloc, &network, close)?;
    write_told(Form::Json, &tail, writer)?;
    Ok(close)
}

/// Reads a network file, runs the network event by event as the options say, and writes its traffic as JSON, without who waits for what. It
/// keeps no events. It fails where the reader or the writer fails, where the network is refused, and for want of memory; nothing is written
/// then, or by a writer that fails a front of the text.
pub fn json_step<R: Read, W: Write>(
    alloc: Global,
    reader: &mut R,
    writer: &mut W,
    options: StepOptions,
    meter: &Meter,
) -> Result<Close, RunFault>
    ensures { WritesRunBy IsTrafficJson (ReadsAs options.is_together (R.remaining reader.old))
        (W.contents writer.old) (W.contents writer.new) options.schedule options.limit result }
{
    let accepted = read_as(alloc, reader, options.is_together)?;
    json_plan(alloc, &accepted, writer, options, meter)
}
