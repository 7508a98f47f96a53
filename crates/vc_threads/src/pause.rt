//! What a worker does after an idle turn, so that others get the processor.
use std::sync::Wait;
use std::thread;
use std::thread::Parker;
use std::time::Duration;

/// After so many idle turns one after another a worker leaves the processor to others at each further one.
const SPINS: u64 = 4;

/// From so many on a worker that can sleep does so at some of them, and no longer yields at the others.
const PATIENCE: u64 = 5_000;

/// Of so many such turns it sleeps at one.
const TURNS_PER_SLEEP: u64 = 512;

/// How long it sleeps, in microseconds.
const SLEEP: u64 = 100;

/// What a worker does after an idle turn.
pub(crate) trait Pause {
    /// The worker made so many idle turns one after another.
    fn after_idle(&self, turns: u64);
}

/// Leaves the processor to whoever is ready to run.
#[derive(Drop)]
pub(crate) struct Yield;

impl Pause for Yield {
    fn after_idle(&self, turns: u64) {
        if turns >= SPINS {
            thread::yield_now();
        }
    }
}

/// Leaves the processor to whoever is ready to run, and sleeps at some turns where the worker has waited for long. A worker that only
/// yields counts as one that runs, and the kernel leaves two that compute on one processor where two that wait have another. A turn at
/// which it sleeps counts as any other, so it sleeps seldom: else a network at rest would take minutes to use up its turns.
#[derive(Drop)]
pub(crate) struct Sleep<'r, R> {
    /// The handle by which it waits.
    pub(crate) rt: &'r R,
}

impl<'r, R: Wait> Pause for Sleep<'r, R> {
    fn after_idle(&self, turns: u64) {
        if turns < PATIENCE {
            Yield.after_idle(turns);
        } else if turns % TURNS_PER_SLEEP == 0 {
            Parker::new().park_timeout(self.rt, Duration::from_micros(SLEEP));
        }
    }
}
