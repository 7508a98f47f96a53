//! What is known of all runs of a network.

/// What is known of all runs of a network.
#[derive(Clone, Copy, Debug, PartialEq, Eq, Drop)]
pub enum Finding {
    /// No run stops before all processes have ended.
    Free,
    /// A schedule gets the program stuck, or packets might wait for one another in a circle.
    MayStop,
    /// The bound was reached first.
    Open,
}
