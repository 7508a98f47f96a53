//! Running a network in threads, with its counts or as JSON.
ghost use Rattle.std.specs.Prelude.{List, IfOk};
ghost use Rattle.vc_core.specs.State.{state_of};
ghost use Rattle.vc_core.specs.declared.event.Event.{Event};
ghost use Rattle.vc_text.specs.ThreadsText.{WritesThreads};
ghost use Rattle.vc_threads.specs.Gates.{once_ended};
ghost use Rattle.vc_threads.specs.Threads.{IsThreadRun};
ghost use Rattle.vc_stats.specs.Counts.{AreCounts};
ghost use Rattle.vc_stats.specs.Texts.{IsEventsText, IsTrafficJson};

use crate::counted_acts::{CountedActs, counts_of};
use crate::form::Form;
use crate::state_figures::StateFigures;
use crate::stats::Stats;
use crate::text::{stats_tail, traffic_tail, write_told};
use std::alloc::Global;
use std::io::{Read, Write};
use std::sync::Wait;
use std::thread::Threads;
use vc_plan::Accepted;
use vc_text::{RunFault, ThreadOptions, read_accepted};
use vc_threads::{Ending, Meter, ThreadFault, run_until_ended_into, run_until_ended_unlogged};

// Runs an accepted network in threads, of which each counts its own events, and adds the counts up.
fn run_counted<T: Threads + Wait + Sync>(
    rt: &T,
    alloc: Global,
    accepted: &Accepted,
    turns: u64,
    seed: u32,
    meter: &Meter,
) -> Result<(Ending, Stats), ThreadFault>
    ensures { IfOk result (λ r. (events : List Event) ×
        IsThreadRun accepted.now (once_ended accepted.now (state_of r.0.state))
        turns seed events (state_of r.0.state) r.0.stops.items r.0.close ×
        AreCounts r.1 events) }
{
    let logged = run_until_ended_into::<CountedActs, T>(rt, alloc, accepted, turns, seed, meter)?;
    let stats = counts_of(alloc, logged.logs.as_slice())?;
    Ok((logged.ending, stats))
}

/// Reads a network file, runs the network in threads as the options say, and writes its traffic and then the counts of the events, of which
/// each thread counts its own; the states between them are not known. It keeps no events. It fails if the reader or the writer fails, if the
/// network is refused, if the threads give no report, and when out of memory; nothing is written then, or a prefix of the text if the writer
/// fails.
pub fn stats_net<T: Threads + Wait + Sync, R: Read, W: Write>(
    rt: &T,
    alloc: Global,
    reader: &mut R,
    writer: &mut W,
    form: Form,
    options: ThreadOptions,
    meter: &Meter,
) -> Result<Ending, RunFault>
    ensures { WritesThreads (IsEventsText form options.is_why) options.turns options.seed
        (R.remaining reader.old) (W.contents writer.old) (W.contents writer.new) result }
{
    let accepted = read_accepted(alloc, reader)?;
    let (ending, stats) = run_counted(rt, alloc, &accepted, options.turns, options.seed, meter)?;
    {
        let tail = stats_tail(
            alloc,
            accepted.plan(),
            &ending.state,
            ending.close,
            &stats,
            &StateFigures::unknown(alloc),
            form,
            options.is_why,
        )?;
        write_told(form, &tail, writer)?;
    }
    Ok(ending)
}

/// Reads a network file, runs the network in threads as the options say, and writes its traffic as JSON, without who waits for what. It
/// keeps no events. It fails where the reader or the writer fails, where the network is refused, where the threads give no report, and for
/// want of memory; nothing is written then, or by a writer that fails a front of the text.
pub fn json_net<T: Threads + Wait + Sync, R: Read, W: Write>(
    rt: &T,
    alloc: Global,
    reader: &mut R,
    writer: &mut W,
    options: ThreadOptions,
    meter: &Meter,
) -> Result<Ending, RunFault>
    ensures { WritesThreads IsTrafficJson options.turns options.seed
        (R.remaining reader.old) (W.contents writer.old) (W.contents writer.new) result }
{
    let accepted = read_accepted(alloc, reader)?;
    let ending = run_until_ended_unlogged(
        rt,
        alloc,
        &accepted,
        options.turns,
        options.seed,
        meter,
    )?;
    {
        let tail = traffic_tail(alloc, &ending.state, ending.close)?;
        write_told(Form::Json, &tail, writer)?;
    }
    Ok(ending)
}
