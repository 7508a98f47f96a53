//! A worker: one actor with its ends of the rings, turn by turn.
ghost use Rattle.std.specs.Prelude.{◌≡◌, ◌≢◌, ℕ, ◌<◌, None, false, IfSome};
ghost use Rattle.std.specs.List.{All};
ghost use Rattle.vc_actor.specs.OfPlan.{IsActorOf};
ghost use Rattle.vc_network.specs.Plan.{Plan};
ghost use Rattle.vc_threads.specs.Jobs.{Ran};
ghost use Rattle.vc_threads.specs.Private.Works.{EndsFor, worker_state};
ghost use Rattle.vc_threads.specs.Wires.{Distinct, out_links, in_links};
ghost use Rattle.vc_threads.specs.Works.{HasRun};

use crate::act_log::ActLog;
use crate::gate::Gate;
use crate::link::Ends;
use crate::pause::{Pause, Yield};
use crate::run::{ActorRun, Stop};
use crate::spawn::Job;
use crate::worker_state::WorkerState;
use std::alloc::Global;
use std::sync::atomic::{AtomicBool, Ordering};
use vc_core::Actor;

// Whether a run was cancelled; one that nothing cancels never is.
fn is_cancelled(cancel: Option<&AtomicBool>) -> bool
    ensures { cancel.entry ≡ None → result ≡ false }
{
    match cancel {
        Some(is_cancelled) => is_cancelled.load(Ordering::SeqCst),
        None => false,
    }
}

// Has the actor make turns, at most so many, as long as the gate lets it, and tells why it ended. Nothing is answered where the run was
// cancelled.
fn make_turns<L: ActLog, G: Gate, P: Pause>(
    worker: &mut WorkerState<L>,
    id: u8,
    gate: &G,
    cancel: Option<&AtomicBool>,
    pause: &P,
    turns: u64,
) -> Option<Stop>
    requires outs { Distinct (out_links worker.old.outs.ends.items) }
    requires ins { Distinct (in_links worker.old.ins.items) }
    requires low { All (λ o. o.0 < 32) worker.old.outs.ends.items }
    ensures ends { IfSome result
        (EndsFor L.holds (G.refuses gate.now id) turns
        (worker_state worker.old) (worker_state worker.new)) }
    ensures cancelled { result ≡ None → cancel.entry ≢ None }
{
    let mut told = false;
    let mut rested = None;
    for turn in 0..turns {
        if is_cancelled(cancel) {
            return None;
        }
        if !gate.pass(id, turn) {
            return Some(Stop::Gate);
        }
        match worker.turn(rested) {
            Ok(room) => rested = room,
            Err(why) => return Some(why),
        }
        if !told && worker.idle() < 2 && worker.actor.ended() {
            gate.ended(id);
            told = true;
        }
        pause.after_idle(worker.idle());
    }
    Some(Stop::Turns)
}

/// Does a job: runs its actor for at most so many turns, as long as the gate lets it. Nothing is answered where the run was cancelled.
pub(crate) fn run_job<L: ActLog, G: Gate, P: Pause>(
    alloc: Global,
    job: Job,
    gate: &G,
    cancel: Option<&AtomicBool>,
    pause: &P,
    turns: u64,
    seed: u32,
) -> Option<ActorRun<L>>
    requires outs { Distinct (out_links job.ends.outs.items) }
    requires ins { Distinct (in_links job.ends.ins.items) }
    requires low { All (λ o. o.0 < 32) job.ends.outs.items }
    ensures ran { IfSome result (Ran L.holds (G.refuses gate.now) turns seed job) }
    ensures cancelled { result ≡ None → cancel.entry ≢ None }
{
    let Job { id, actor, ends } = job;
    let mut worker = WorkerState::new(alloc, id, actor, ends, seed);
    let Some(stop) = make_turns(&mut worker, id, gate, cancel, pause, turns) else {
        return None;
    };
    Some(worker.into_run(id, stop))
}

/// Runs an actor for at most so many turns, as long as the gate lets it. In a turn it takes the item of the least link from which it
/// may and whose ring has one, or else does what [`Actor::turn`] does. The actor's number is the stream of the generator of its takes'
/// words.
///
/// No link is twice among the ends that go out or among those that come in, and each that goes out is below 32. The clock at
/// `u64::MAX` ends the worker before the act, and so does want of memory. One that ended by the gate may have been refused its next turn.
pub fn worker<L: ActLog, G: Gate>(
    alloc: Global,
    id: u8,
    actor: Actor,
    ends: Ends,
    gate: &G,
    turns: u64,
    seed: u32,
) -> ActorRun<L>
    requires outs { Distinct (out_links ends.outs.items) }
    requires ins { Distinct (in_links ends.ins.items) }
    requires low { All (λ o. o.0 < 32) ends.outs.items }
    ensures id { result.id ≡ id }
    ensures run { (plan : Plan) (n : ℕ) → IsActorOf plan n actor →
        HasRun L.holds (G.refuses gate.now) plan n turns id seed actor ends result }
{
    let job = Job { id, actor, ends };
    let Some(run) = run_job(alloc, job, gate, None, &Yield, turns, seed) else {
        unreachable!();
    };
    run
}
