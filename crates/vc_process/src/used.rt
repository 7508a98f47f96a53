//! What a process uses, and what parts side by side may not share.

/// What a process uses: a channel that it outputs on, a channel that it inputs on, guards by or stops, or a variable.
#[derive(Clone, Copy, PartialEq, Eq, PartialOrd, Ord, Drop)]
pub(crate) enum Used {
    /// The channel is output on.
    Output(u16),
    /// The channel is input on, is in a guard, or is stopped.
    Input(u16),
    /// The variable is changed, or is in an expression.
    Variable(u8),
}

/// One use by a process.
#[derive(Clone, Copy, Drop)]
pub(crate) struct Usage {
    /// What is used.
    pub(crate) used: Used,
    /// Whether it is a variable that is in an expression, and isn't changed here.
    pub(crate) reads: bool,
}

/// One use by a part of a PAR.
#[derive(Clone, Copy, PartialEq, Eq, PartialOrd, Ord, Drop)]
pub(crate) struct PartUsage {
    /// What is used.
    pub(crate) used: Used,
    /// Whether it is a variable that is in an expression, and isn't changed here.
    pub(crate) reads: bool,
    /// The part's place in the PAR.
    pub(crate) part: usize,
}
