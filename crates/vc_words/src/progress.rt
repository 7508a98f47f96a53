//! What is shown of a run while it goes on.

/// What is counted of a run.
#[derive(Clone, Copy, Debug, PartialEq, Eq, Drop)]
pub enum Unit {
    /// Its events.
    Events,
    /// The turns of its first worker.
    Turns,
}

/// What is shown of a run while it goes on: how many it has made of what is counted, how many it makes a second, and which part that is of
/// the most that it may make.
#[derive(Clone, Copy, Debug, PartialEq, Eq, Drop)]
pub struct Progress {
    /// What is counted.
    pub unit: Unit,
    /// The most that the run may make, if the words say it.
    pub most: Option<u64>,
}
