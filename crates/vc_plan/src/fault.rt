//! What can be wrong at the end of a path.

/// What is wrong at the end of a path.
#[derive(Clone, Copy, Drop)]
pub(crate) enum Fault {
    /// A header in front at a switch is in no interval.
    NoInterval,
    /// A node is reached with headers left, and not as the right node and block.
    WrongEnd,
    /// A header is needed, and none is left.
    StackEmpty,
    /// A random header would be the seventh.
    StackFull,
    /// A 33rd hop is possible.
    Hops,
}
