//! Starting a thread for each actor, and joining them all.
ghost use Rattle.std.specs.Prelude.{◌≡◌, ◌++◌, [], ◌∷◌, IfOk, IfSome, OnOk};
ghost use Rattle.std.specs.List.{All, AllZip};
ghost use Rattle.vc_threads.specs.Private.Jobs.{IsFit};
ghost use Rattle.vc_threads.specs.Jobs.{Ran};

use crate::act_log::ActLog;
use crate::gate::Gate;
use crate::link::Ends;
use crate::pause::Sleep;
use crate::run::ActorRun;
use crate::work::run_job;
use std::alloc::Global;
use std::snapshot::Snapshot;
use std::sync::Wait;
use std::sync::atomic::{AtomicBool, Ordering};
use std::thread;
use std::thread::{Promise, Scope, Threads};
use thiserror::Error;
use vc_core::Actor;
use vc_packets::Memory;

/// What a worker begins with.
#[derive(Drop)]
pub(crate) struct Job {
    /// The actor's number.
    pub(crate) id: u8,
    /// The actor.
    pub(crate) actor: Actor,
    /// The actor's ends of the rings.
    pub(crate) ends: Ends,
}

/// Why a run in threads gives no report.
#[derive(Clone, Copy, Debug, PartialEq, Eq, Drop, Error)]
pub enum ThreadFault {
    /// There was no memory.
    #[error("there is no memory")]
    Memory,
    /// A thread was not started.
    #[error("a thread was not started")]
    Start,
    /// A worker ended by its gate before it should have.
    #[error("a worker was refused a turn before every process had ended")]
    Gate,
}

/// A job, as it is given to a thread.
pub(crate) trait HasJob {
    ghost use Rattle.std.specs.Prelude.{◌≡◌};
    ghost use Rattle.vc_threads.specs.declared.spawn.Job.{Job};

    // the job
    ghost job: { Self → Job };

    fn job(self) -> Job
        ensures { result ≡ Self.job self };
}

impl HasJob for Job {
    ghost job = { λ j. j };

    fn job(self) -> Job {
        self
    }
}

// That a run is one of this job behind this gate, unless it was cancelled.
#[derive(Drop)]
struct RunOf<J, G> {
    turns: u64,
    seed: u32,
    job: Snapshot<J>,
    gate: Snapshot<G>,
}

impl<L: ActLog, J: HasJob, G: Gate> Promise<Option<ActorRun<L>>> for RunOf<J, G> {
    ghost kept_by = { λ p result.
        IfSome result
        (Ran L.holds (G.refuses p.gate.value) p.turns p.seed (J.job p.job.value)) };
}

impl From<Memory> for ThreadFault {
    ghost use Rattle.std.specs.Prelude.{◌≡◌};
    ghost use Rattle.vc_threads.specs.declared.spawn.ThreadFault.TheVariants as fault;

    ghost from_gives = { λ _ why. why ≡ fault.Memory };

    fn from(_error: Memory) -> ThreadFault {
        ThreadFault::Memory
    }
}

// One run more.
fn add_run<L: Drop>(runs: &mut Vec<ActorRun<L>>, run: ActorRun<L>) -> Result<(), Memory>
    ensures { OnOk result (runs.new.items ≡ runs.old.items ++ run ∷ []) }
{
    runs.push(run)?;
    Ok(())
}

// Does a job. Nothing is answered where the run was cancelled.
fn work<L: ActLog, G: Gate, R: Wait>(
    rt: &R,
    alloc: Global,
    job: Job,
    gate: &G,
    cancel: &AtomicBool,
    turns: u64,
    seed: u32,
) -> Option<ActorRun<L>>
    requires { IsFit job }
    ensures { IfSome result (Ran L.holds (G.refuses gate.now) turns seed job) }
{
    run_job(alloc, job, gate, Some(cancel), &Sleep { rt }, turns, seed)
}

// Starts a thread for the last job, then those of the others, and joins it, whether the others started or not. Where a thread is not
// started the run is cancelled, so that those that run end at their next turns.
fn run_all<'s, E, L: ActLog + 's, J: HasJob + Send + Drop + 's, G: Gate, R: Threads + Wait + Sync>(
    rt: &'s R,
    scope: &Scope<'s, E>,
    alloc: Global,
    jobs: Vec<J>,
    gate: &'s G,
    cancel: &'s AtomicBool,
    turns: u64,
    seed: u32,
) -> Result<Vec<ActorRun<L>>, ThreadFault>
    requires { All (λ j. IsFit (J.job j)) jobs.items }
    ensures { IfOk result
        (λ runs. AllZip (λ j r. Ran L.holds (G.refuses gate.now) turns seed (J.job j) r)
        jobs.items runs.items) }
{
    let mut jobs = jobs;
    let Some(job) = jobs.pop() else {
        return Ok(Vec::new(alloc));
    };
    let promise = RunOf {
        turns,
        seed,
        job: Snapshot::of(&job),
        gate: Snapshot::of(gate),
    };
    let started = scope.spawn_with(
        promise,
        move || -> Option<ActorRun<L>>
            requires { IsFit (J.job job) }
            ensures { IfSome result
                (Ran L.holds (G.refuses gate.entry.now) turns seed (J.job job)) }
        { work(rt, alloc, job.job(), gate, cancel, turns, seed) },
    );
    let Ok(child) = started else {
        cancel.store(true, Ordering::SeqCst);
        return Err(ThreadFault::Start);
    };
    let others = run_all(rt, scope, alloc, jobs, gate, cancel, turns, seed);
    let run = child.join(rt);
    let mut runs = others?;
    let Some(run) = run else {
        return Err(ThreadFault::Start);
    };
    add_run(&mut runs, run)?;
    Ok(runs)
}

/// Runs each job in a thread of its own, and gives the runs in the jobs' order once all threads have ended. Where a thread is not
/// started, the others end at their next turns.
pub(crate) fn run_jobs<L: ActLog, G: Gate, R: Threads + Wait + Sync>(
    rt: &R,
    alloc: Global,
    jobs: Vec<Job>,
    gate: &G,
    turns: u64,
    seed: u32,
) -> Result<Vec<ActorRun<L>>, ThreadFault>
    requires { All IsFit jobs.items }
    ensures { IfOk result
        (λ runs. AllZip (Ran L.holds (G.refuses gate.now) turns seed) jobs.items runs.items) }
{
    let cancelled = AtomicBool::new(false);
    let cancel = &cancelled;
    thread::scope(
        thread::scope_env(),
        rt,
        move |scope| -> Result<Vec<ActorRun<L>>, ThreadFault>
            requires { All IsFit jobs.items }
            ensures { IfOk result
                (λ runs.
                AllZip (Ran L.holds (G.refuses gate.entry.now) turns seed) jobs.items runs.items) }
        { run_all(rt, scope, alloc, jobs, gate, cancel, turns, seed) },
    )
}
