//! How a run ended.

/// How a run ended.
#[derive(Clone, Copy, Debug, PartialEq, Eq, Drop)]
pub enum Close {
    /// Every process has ended. Of a run event by event no event is enabled then, either.
    Done,
    /// No event is enabled, and a process hasn't ended.
    Quiet,
    /// As many events were made as were allowed, or, in threads, turns used. Of events that were replayed: more can happen.
    Limit,
    /// The gate closed.
    GateClosed,
    /// The actor of this number found no memory.
    Failed(u8),
    /// A clock reached its greatest value.
    ClockFull,
}
