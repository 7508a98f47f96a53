//! How far a run is.
use std::sync::atomic::{AtomicU64, Ordering};

/// How far a run is, for a thread that shows it while the run goes on. It is for the eye alone: the contracts of std's atomics do not say
/// what a load answers, so none says what it reads.
#[derive(Drop)]
pub struct Meter {
    done: AtomicU64,
}

impl Meter {
    /// A meter at 0.
    pub fn new() -> Meter {
        Meter {
            done: AtomicU64::new(0),
        }
    }

    /// Notes that so many events of the run have been made, or so many turns of its first worker.
    pub fn set(&self, done: u64) {
        self.done.store(done, Ordering::Relaxed);
    }

    /// How many were noted last.
    pub fn done(&self) -> u64 {
        self.done.load(Ordering::Relaxed)
    }
}
