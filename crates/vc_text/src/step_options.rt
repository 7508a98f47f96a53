//! How a network is run event by event, and what is written of that.
use crate::schedule::Schedule;

/// How a network is run event by event, and what is written of that.
#[derive(Clone, Copy, Debug, PartialEq, Eq, Drop)]
pub struct StepOptions {
    /// The most events that are made.
    pub limit: u64,
    /// In which order they are made.
    pub schedule: Schedule,
    /// Whether all processes run side by side on one node.
    pub is_together: bool,
    /// Whether it is written, after the traffic, who waits for what and where the packets are.
    pub is_why: bool,
}
