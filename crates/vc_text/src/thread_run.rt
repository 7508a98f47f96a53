//! Running a network in threads.
ghost use Rattle.std.specs.Prelude.{◌≡◌, length};
ghost use Rattle.vc_text.specs.Tail.{IsTail};
ghost use Rattle.vc_text.specs.ThreadsText.{RunsInThreads, WritesThreads};

use crate::check::read_accepted;
use crate::fault::RunFault;
use crate::run::write_traffic;
use crate::tail::write_tail;
use crate::thread_options::ThreadOptions;
use std::alloc::Global;
use std::io::{Read, Write};
use std::sync::Wait;
use std::thread::Threads;
use vc_plan::Accepted;
use vc_threads::{Ending, Meter, Report, run_until_ended, run_until_ended_unlogged};

/// Reads a network file, runs the network with a thread for each node and each switch, and writes its traffic. Each thread makes at
/// most so many turns, and ends earlier once the process of every node has ended. The words of an actor's takes are those of the
/// generator of this seed and the actor's number. Where it fails, a front of the text was written if the writer failed, and else nothing.
pub fn run_net<T: Threads + Wait + Sync, R: Read, W: Write>(
    rt: &T,
    alloc: Global,
    reader: &mut R,
    writer: &mut W,
    turns: u64,
    seed: u32,
) -> Result<Report, RunFault>
    ensures { RunsInThreads turns seed (R.remaining reader.old)
        (W.contents writer.old) (W.contents writer.new) result }
{
    let accepted = read_accepted(alloc, reader)?;
    let report = run_until_ended(rt, alloc, &accepted, turns, seed, &Meter::new())?;
    write_traffic(alloc, &report.state, report.close, writer)?;
    Ok(report)
}

/// Reads a network file, runs the network with a thread for each node and each switch as the options say, and writes its traffic. It keeps
/// no events: its memory does not grow with their number. Where it fails, a front of the text was written if the writer failed, and else
/// nothing.
pub fn run_net_unlogged<T: Threads + Wait + Sync, R: Read, W: Write>(
    rt: &T,
    alloc: Global,
    reader: &mut R,
    writer: &mut W,
    options: ThreadOptions,
    meter: &Meter,
) -> Result<Ending, RunFault>
    ensures { WritesThreads (IsTail options.is_why) options.turns options.seed
        (R.remaining reader.old) (W.contents writer.old) (W.contents writer.new) result }
{
    let accepted = read_accepted(alloc, reader)?;
    let ending = run_until_ended_unlogged(
        rt,
        alloc,
        &accepted,
        options.turns,
        options.seed,
        meter,
    )?;
    write_tail(
        alloc,
        accepted.plan(),
        &ending.state,
        ending.close,
        options.is_why,
        writer,
    )?;
    Ok(ending)
}
