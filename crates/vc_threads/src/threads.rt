//! A network in threads, one for each actor.
ghost use Rattle.std.specs.Prelude.{IfOk};
ghost use Rattle.vc_threads.specs.Threads.{EndsRun, EndsRunIn, Reports};

use crate::act_log::{ActLog, ActorActs, NoActs};
use crate::gate::Gate;
use crate::jobs::make_jobs;
use crate::merged_runs::merge;
use crate::order::{all_parts, take_all};
use crate::report::{Ending, Logged, Report, close_of, stopped, stops_of};
use crate::spawn::{ThreadFault, run_jobs};
use std::alloc::Global;
use std::sync::Wait;
use std::thread::Threads;
use vc_core::Network;
use vc_plan::Accepted;

/// Runs each node and each switch of an accepted plan in a thread of its own, for at most so many turns each, as long as the gate lets it.
/// Each worker records its acts in a log of its own. The threads are joined: whatever they did, the acts of all by stamp, then actor, are a
/// run of the network, and each log holds those of its actor. The network that is reported is put together from the actors, as their acts
/// left them, and from the tokens that are left in the rings. Why each worker ended is reported: one that ended by the gate may have been
/// refused its next turn. If one ran out of memory the run closes with the least of their actors, unless every process has ended. If a
/// thread can't be started, the workers that run end at their next turns, and the call then fails. Else it fails only when out of memory.
///
/// The words of an actor's takes are those of the generator of this seed and the actor's number.
pub fn run_threads_into<L: ActLog, G: Gate, R: Threads + Wait + Sync>(
    rt: &R,
    alloc: Global,
    accepted: &Accepted,
    gate: &G,
    turns: u64,
    seed: u32,
) -> Result<Logged<L>, ThreadFault>
    ensures { IfOk result (EndsRunIn L.holds accepted.now (G.refuses gate.now) turns seed) }
{
    let jobs = make_jobs(alloc, accepted)?;
    let runs = run_jobs::<L, G, R>(rt, alloc, jobs, gate, turns, seed)?;
    let stops = stops_of(alloc, runs.as_slice())?;
    let otherwise = stopped(runs.as_slice());
    let parts = all_parts(alloc, runs)?;
    let left = take_all(alloc, parts.ends, accepted.plan())?;
    let state = Network::of_parts(alloc, accepted, parts.actors, left.as_slice())?;
    let close = close_of(otherwise, &state);
    let ending = Ending {
        state,
        stops,
        close,
    };
    Ok(Logged {
        ending,
        logs: parts.logs,
    })
}

/// Does what [`run_threads_into`] does, and keeps the acts of all workers, which it makes one list.
pub fn run_threads<G: Gate, R: Threads + Wait + Sync>(
    rt: &R,
    alloc: Global,
    accepted: &Accepted,
    gate: &G,
    turns: u64,
    seed: u32,
) -> Result<Report, ThreadFault>
    ensures { IfOk result (Reports accepted.now (G.refuses gate.now) turns seed) }
{
    let logged = run_threads_into::<ActorActs, G, R>(rt, alloc, accepted, gate, turns, seed)?;
    let steps = merge(alloc, logged.logs.as_slice())?;
    Ok(logged.ending.into_report(steps))
}

/// Does what [`run_threads_into`] does, and keeps no acts: its memory does not grow with their number. There are events that
/// [`run_threads`] could have reported.
pub fn run_threads_unlogged<G: Gate, R: Threads + Wait + Sync>(
    rt: &R,
    alloc: Global,
    accepted: &Accepted,
    gate: &G,
    turns: u64,
    seed: u32,
) -> Result<Ending, ThreadFault>
    ensures { IfOk result (EndsRun accepted.now (G.refuses gate.now) turns seed) }
{
    let logged = run_threads_into::<NoActs, G, R>(rt, alloc, accepted, gate, turns, seed)?;
    Ok(logged.ending)
}
