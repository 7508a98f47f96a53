//! A network in threads, until its processes have ended.
ghost use Rattle.std.specs.Prelude.{◌≡◌, ◌≢◌, IfOk, length};
ghost use Rattle.vc_core.specs.State.{state_of};
ghost use Rattle.vc_core.specs.declared.close.Close.TheVariants.{Done};
ghost use Rattle.vc_threads.specs.Close.{NoneStopped, stop_among};
ghost use Rattle.vc_threads.specs.Gates.{once_ended};
ghost use Rattle.vc_threads.specs.Threads.{EndsRun, EndsRunIn, Reports};

use crate::act_log::ActLog;
use crate::gate::{EndGate, Gate};
use crate::meter::Meter;
use crate::report::{Ending, Logged, Report};
use crate::run::Stop;
use crate::spawn::ThreadFault;
use crate::threads::{run_threads, run_threads_into, run_threads_unlogged};
use std::alloc::Global;
use std::sync::Wait;
use std::thread::Threads;
use vc_core::Close;
use vc_plan::Accepted;

/// The first worker notes how far it is after so many turns.
const STRETCH: u64 = 1024;

// A gate that closes once the process of each node has ended, and notes how far the first worker is.
#[derive(Drop)]
struct MeteredGate<'a> {
    gate: EndGate,
    meter: &'a Meter,
}

impl<'a> MeteredGate<'a> {
    // The gate of a plan, which has at most 32 nodes.
    fn new(accepted: &Accepted, meter: &'a Meter) -> MeteredGate<'a> {
        MeteredGate {
            gate: EndGate::new(accepted.plan().nodes.len().min(64) as u8),
            meter,
        }
    }
}

impl Gate for MeteredGate<'_> {
    fn pass(&self, actor: u8, turn: u64) -> bool {
        if actor == 0 && turn % STRETCH == 0 {
            self.meter.set(turn);
        }
        self.gate.pass(actor, turn)
    }

    fn ended(&self, actor: u8) {
        self.gate.ended(actor);
    }
}

// Fails if a worker ended by its gate in a run that did not close `Done`.
fn check_stops(close: Close, stops: &[Stop]) -> Result<(), ThreadFault>
    ensures { IfOk result (λ _. close ≢ Done →
        NoneStopped (length stops.now) (stop_among stops.now) Stop.Gate) }
{
    if close != Close::Done && stops.contains(&Stop::Gate) {
        Err(ThreadFault::Gate)
    } else {
        Ok(())
    }
}

/// Does what [`run_threads_into`] does, by a gate that closes once every process has ended. A worker ends by it only if every process has
/// ended in the network that is reported, so the run never closes [`Close::GateClosed`].
///
/// The meter notes every 1,024 turns how far the first worker is.
///
/// The call fails for the reasons of [`run_threads_into`]. It looks at the ending before it returns, and fails if a worker was refused a
/// turn too early; the gate does not do so.
pub fn run_until_ended_into<L: ActLog, R: Threads + Wait + Sync>(
    rt: &R,
    alloc: Global,
    accepted: &Accepted,
    turns: u64,
    seed: u32,
    meter: &Meter,
) -> Result<Logged<L>, ThreadFault>
    ensures { IfOk result (λ r. EndsRunIn L.holds accepted.now
        (once_ended accepted.now (state_of r.ending.state)) turns seed r) }
{
    let gate = MeteredGate::new(accepted, meter);
    let logged = run_threads_into::<L, MeteredGate<'_>, R>(
        rt, alloc, accepted, &gate, turns, seed,
    )?;
    check_stops(logged.ending.close, logged.ending.stops.as_slice())?;
    Ok(logged)
}

/// Does what [`run_until_ended_into`] does, and keeps the acts of all workers, which it makes one list.
pub fn run_until_ended<R: Threads + Wait + Sync>(
    rt: &R,
    alloc: Global,
    accepted: &Accepted,
    turns: u64,
    seed: u32,
    meter: &Meter,
) -> Result<Report, ThreadFault>
    ensures { IfOk result (λ r.
        Reports accepted.now (once_ended accepted.now (state_of r.state)) turns seed r) }
{
    let gate = MeteredGate::new(accepted, meter);
    let report = run_threads(rt, alloc, accepted, &gate, turns, seed)?;
    check_stops(report.close, report.stops.as_slice())?;
    Ok(report)
}

/// Does what [`run_until_ended_into`] does, and keeps no acts: its memory does not grow with their number. There are events that
/// [`run_until_ended`] could have reported.
pub fn run_until_ended_unlogged<R: Threads + Wait + Sync>(
    rt: &R,
    alloc: Global,
    accepted: &Accepted,
    turns: u64,
    seed: u32,
    meter: &Meter,
) -> Result<Ending, ThreadFault>
    ensures { IfOk result (λ e.
        EndsRun accepted.now (once_ended accepted.now (state_of e.state)) turns seed e) }
{
    let gate = MeteredGate::new(accepted, meter);
    let ending = run_threads_unlogged(rt, alloc, accepted, &gate, turns, seed)?;
    check_stops(ending.close, ending.stops.as_slice())?;
    Ok(ending)
}
