//! Running a network in threads, with its events written.
ghost use Rattle.vc_text.specs.ThreadsText.{WritesThreads};
ghost use Rattle.vc_trace.specs.TraceText.{IsTracedText};

use crate::output::write_steps;
use std::alloc::Global;
use std::io::{Read, Write};
use std::sync::Wait;
use std::thread::Threads;
use vc_text::{RunFault, Tail, ThreadOptions, read_accepted};
use vc_threads::{Ending, Meter, run_until_ended};

/// Does what [`run_net_unlogged`](vc_text::run_net_unlogged) does, and writes the events that the threads report in front of the traffic,
/// a line each. It fails where the reader or the writer fails, where the network is refused, where the threads give no report, and for want
/// of memory; nothing is written then, or by a writer that fails a front of the text.
pub fn trace_net<T: Threads + Wait + Sync, R: Read, W: Write>(
    rt: &T,
    alloc: Global,
    reader: &mut R,
    writer: &mut W,
    options: ThreadOptions,
    meter: &Meter,
) -> Result<Ending, RunFault>
    ensures { WritesThreads (IsTracedText options.is_why) options.turns options.seed
        (R.remaining reader.old) (W.contents writer.old) (W.contents writer.new) result }
{
    let accepted = read_accepted(alloc, reader)?;
    let report = run_until_ended(rt, alloc, &accepted, options.turns, options.seed, meter)?;
    let plan = accepted.plan();
    {
        let tail = Tail::new(alloc, plan, &report.state, report.close, options.is_why)?;
        write_steps(writer, plan, report.steps.as_slice(), &tail)?;
    }
    Ok(report.into_ending())
}
