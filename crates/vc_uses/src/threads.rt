//! A run in threads.
ghost use Rattle.std.specs.Prelude.{◌≡◌, ◌≤◌, ◌<◌, ◌≢◌, ℕ, false, length, IfOk};
ghost use Rattle.vc_core.specs.declared.close.Close.TheVariants.{Done};
ghost use Rattle.vc_threads.specs.Close.{stop_among};

use crate::traffic::under_way;
use std::alloc::Global;
use std::sync::Wait;
use std::thread::Threads;
use vc_core::Close;
use vc_plan::Accepted;
use vc_threads::{
    Ending, Gate, Meter, Stop, ThreadFault, run_threads_unlogged, run_until_ended,
    run_until_ended_unlogged,
};

/// Runs a network in threads until every process has ended, or so many turns, and reports how many outputs on a channel are not finished
/// then: none or one, whatever the threads did.
pub fn left_by_threads<R: Threads + Wait + Sync>(
    rt: &R,
    alloc: Global,
    accepted: &Accepted,
    turns: u64,
    chan: u16,
) -> Result<u64, ThreadFault>
    requires { chan < length accepted.now.channels }
    ensures { IfOk result (λ left. left ≤ 1) }
{
    let report = run_until_ended(rt, alloc, accepted, turns, 1, &Meter::new())?;
    Ok(under_way(&report.state, chan))
}

/// Whether a run closed because every process has ended.
fn is_done(close: Close) -> bool
    ensures { result ≡ false → close ≢ Done }
{
    match close {
        Close::Done => true,
        Close::Quiet | Close::Limit | Close::GateClosed | Close::ClockFull | Close::Failed(_) =>
            false,
    }
}

/// Runs a network in threads until every process has ended, or so many turns, and reports why each worker ended, and whether every
/// process has. If not, no worker ended by its gate.
pub fn stops_until_ended<R: Threads + Wait + Sync>(
    rt: &R,
    alloc: Global,
    accepted: &Accepted,
    turns: u64,
) -> Result<(Vec<Stop>, bool), ThreadFault>
    ensures { IfOk result (λ r. r.1 ≡ false →
        (k : ℕ) → stop_among r.0.items k ≢ Stop.Gate) }
{
    let ending = run_until_ended_unlogged(rt, alloc, accepted, turns, 1, &Meter::new())?;
    let has_ended = is_done(ending.close);
    Ok((ending.stops, has_ended))
}

/// A gate that lets every turn pass, and says so.
#[derive(Drop)]
pub struct OpenGate;

impl Gate for OpenGate {
    ghost refuses = { λ _ _ _. ⊥ };

    fn pass(&self, _actor: u8, _turn: u64) -> bool {
        true
    }

    fn ended(&self, _actor: u8) {}
}

/// Runs a network in threads with an open gate, for so many turns each, and reports why each worker ended: not by its gate.
pub fn stops_behind_an_open_gate<R: Threads + Wait + Sync>(
    rt: &R,
    alloc: Global,
    accepted: &Accepted,
    turns: u64,
) -> Result<Vec<Stop>, ThreadFault>
    ensures { IfOk result (λ stops. (k : ℕ) → stop_among stops.items k ≢ Stop.Gate) }
{
    let ending = run_threads_unlogged(rt, alloc, accepted, &OpenGate, turns, 1)?;
    let Ending {
        state: _,
        stops,
        close: _,
    } = ending;
    Ok(stops)
}
