//! In which order a run makes its events.

/// Which event a run makes next, of those that can happen.
#[derive(Clone, Copy, Debug, PartialEq, Eq, Drop)]
pub enum Schedule {
    /// Each actor in turn: the run goes in rounds over the nodes and then the switches.
    InTurn,
    /// Any: the generator of this seed draws an actor of those that have an event, and then one of the actor's events. The same seed draws
    /// the same events.
    Random(u32),
}
