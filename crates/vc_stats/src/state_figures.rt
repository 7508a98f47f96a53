//! Figures of the states of a run.
ghost use Rattle.std.specs.Prelude.{◌≡◌};
ghost use Rattle.vc_stats.specs.Monitor.{figures};
ghost use Rattle.vc_stats.specs.StateFigures.{no_figures};

use std::alloc::Global;

/// Figures of a way that the states of a run show.
#[derive(Clone, Copy, Drop)]
pub(crate) struct WayFigures {
    /// How many packets were put whole on it.
    pub(crate) packets: u64,
    /// How many of them are acknowledges.
    pub(crate) acks: u64,
    /// How many tokens stood on it at once, at most.
    pub(crate) most: u64,
    /// How many tokens stood in the receive buffer at its end at once, at most.
    pub(crate) buffered: u64,
    /// After how many events a token stood in that buffer.
    pub(crate) waited: u64,
}

/// Figures of the states of a run, one after each event.
#[derive(Drop)]
pub(crate) struct StateFigures {
    /// By channel, after how many events it had an output that was not finished; no number where the states are not known.
    pub(crate) unfinished: Vec<u64>,
    /// By way; none where the states are not known.
    pub(crate) ways: Vec<WayFigures>,
}

impl StateFigures {
    /// Of states that are not known.
    pub(crate) fn unknown(alloc: Global) -> StateFigures
        ensures { figures result ≡ no_figures }
    {
        StateFigures {
            unfinished: Vec::new(alloc),
            ways: Vec::new(alloc),
        }
    }
}
