//! Running a network event by event, with its events written.
ghost use Rattle.vc_text.specs.OneNode.{ReadsAs};
ghost use Rattle.vc_trace.specs.TraceText.{WritesTrace, WritesTraceBy};

use crate::trace_sink::TraceSink;
use std::alloc::Global;
use std::io::{Read, Write};
use vc_core::Close;
use vc_plan::Accepted;
use vc_text::{RunFault, StepOptions, Tail, read_as, run_into};
use vc_threads::Meter;

/// Runs an accepted network event by event, and writes its events as they happen, and then its traffic.
fn trace_plan<W: Write>(
    alloc: Global,
    accepted: &Accepted,
    writer: &mut W,
    options: StepOptions,
    meter: &Meter,
) -> Result<Close, RunFault>
    ensures { WritesTrace options.is_why accepted.now
        (W.contents writer.old) (W.contents writer.new) options.schedule options.limit result }
{
    let plan = accepted.plan();
    let mut trace = TraceSink::new(writer, plan);
    let ran = run_into(
        alloc,
        accepted,
        &mut trace,
        options.limit,
        options.schedule,
        meter,
    );
    let Ok((network, close)) = ran else {
        return Err(trace.stop());
    };
    let Ok(tail) = Tail::new(alloc, plan, &network, close, options.is_why) else {
        return Err(trace.stop());
    };
    trace.end(&tail)?;
    Ok(close)
}

/// Does what [`run_step_unlogged`](vc_text::run_step_unlogged) does, and writes the run's events before the traffic, a line each. They go
/// out as they happen, through a buffer of 4,096 bytes, so that memory does not grow with their number. The call fails if the reader or the
/// writer fails, the network is refused, or memory runs out. If the writer fails, the run ends, and the writer has got a prefix of the
/// text. If memory runs out, the lines of the events so far have been written, each whole. Otherwise nothing was written.
pub fn trace_step<R: Read, W: Write>(
    alloc: Global,
    reader: &mut R,
    writer: &mut W,
    options: StepOptions,
    meter: &Meter,
) -> Result<Close, RunFault>
    ensures { WritesTraceBy options.is_why
        (ReadsAs options.is_together (R.remaining reader.old))
        (W.contents writer.old) (W.contents writer.new) options.schedule options.limit result }
{
    let accepted = read_as(alloc, reader, options.is_together)?;
    trace_plan(alloc, &accepted, writer, options, meter)
}
