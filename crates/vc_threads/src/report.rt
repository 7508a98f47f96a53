//! What a run in threads reports.
ghost use Rattle.std.specs.Prelude.{◌≡◌, ◌≢◌, ◌↔◌, ◌<◌, length, map, IsNone, IfOk, IfSome};
ghost use Rattle.vc_core.specs.State.{state_of, IsNetworkOf};
ghost use Rattle.vc_core.specs.Turns.{AllHaveEnded};
ghost use Rattle.vc_core.specs.declared.close.Close.TheVariants.{Done};
ghost use Rattle.vc_plan.specs.declared.plan.Plan.{Plan};
ghost use Rattle.vc_threads.specs.Private.Close.{AreInOrder, stop_at, stop_in};
ghost use Rattle.vc_threads.specs.Close.{ClosesBy, NoneStopped};

use crate::run::{ActorRun, Stop};
use std::alloc::Global;
use vc_core::{Close, Event, Network};
use vc_packets::Memory;

/// What a run in threads reports.
#[derive(Drop)]
pub struct Report {
    /// All acts of the threads in one list, by stamp, then actor.
    pub steps: Vec<Event>,
    /// The network after them.
    pub state: Network,
    /// Why the worker of each actor ended, in the actors' order.
    pub stops: Vec<Stop>,
    /// How the run ended.
    pub close: Close,
}

/// How a run in threads ended, without its events.
#[derive(Drop)]
pub struct Ending {
    /// The network after all acts of the threads.
    pub state: Network,
    /// Why the worker of each actor ended, in the actors' order.
    pub stops: Vec<Stop>,
    /// How the run ended.
    pub close: Close,
}

/// How a run in threads ended, and the log of each actor.
#[derive(Drop)]
pub struct Logged<L> {
    /// How the run ended.
    pub ending: Ending,
    /// What became of the acts of each actor, in the actors' order.
    pub logs: Vec<L>,
}

impl Report {
    ghost use Rattle.std.specs.Prelude.{◌≡◌};

    /// What the report says without its events.
    pub fn into_ending(self) -> Ending
        ensures { result ≡ record {
          state = self.state;
          stops = self.stops;
          close = self.close;
        } }
    {
        let Report {
            steps: _,
            state,
            stops,
            close,
        } = self;
        Ending {
            state,
            stops,
            close,
        }
    }
}

impl Ending {
    ghost use Rattle.std.specs.Prelude.{◌≡◌};

    /// The report of the run whose events these are.
    pub(crate) fn into_report(self, steps: Vec<Event>) -> Report
        ensures { result ≡ record {
          steps = steps;
          state = self.state;
          stops = self.stops;
          close = self.close;
        } }
    {
        let Ending {
            state,
            stops,
            close,
        } = self;
        Report {
            steps,
            state,
            stops,
            close,
        }
    }
}

/// Why each worker ended, in the order of the runs.
pub(crate) fn stops_of<L>(alloc: Global, runs: &[ActorRun<L>]) -> Result<Vec<Stop>, Memory>
    ensures { IfOk result (λ stops. stops.items ≡ map stop_in runs.now) }
{
    let mut stops = Vec::new(alloc);
    for run in runs {
        stops.push(run.stop)?;
    }
    Ok(stops)
}

// The first worker that ended so.
fn first_stop<L>(runs: &[ActorRun<L>], stop: Stop) -> Option<usize>
    ensures none { IsNone result → NoneStopped (length runs.now) (stop_at runs.now) stop }
    ensures first { IfSome result
        (λ k.
        (k < length runs.now) ×
        (stop_at runs.now k ≡ stop) ×
        NoneStopped k (stop_at runs.now) stop) }
{
    for k in 0..runs.len() {
        if runs[k].stop == stop {
            return Some(k);
        }
    }
    None
}

/// How a run ended in which not every process has: the first that fits of an actor that found no memory, a clock at its end, a gate that
/// closed, and turns that were used. The runs are in the actors' order.
pub(crate) fn stopped<L>(runs: &[ActorRun<L>]) -> Close
    requires { AreInOrder runs.now }
    ensures { ClosesBy (length runs.now) (stop_at runs.now) result }
{
    if let Some(k) = first_stop(runs, Stop::Memory) {
        Close::Failed(runs[k].id)
    } else if first_stop(runs, Stop::Clock).is_some() {
        Close::ClockFull
    } else if first_stop(runs, Stop::Gate).is_some() {
        Close::GateClosed
    } else {
        Close::Limit
    }
}

/// How a run ended, where it ended as `otherwise` says if not every process has.
pub(crate) fn close_of(otherwise: Close, state: &Network) -> Close
    requires { otherwise ≢ Done }
    ensures done { (p : Plan) →
        IsNetworkOf p (state_of state.now) →
        result ≡ Done ↔ AllHaveEnded p (state_of state.now) }
    ensures other { result ≢ Done → result ≡ otherwise }
{
    if state.ended() {
        Close::Done
    } else {
        otherwise
    }
}
