//! How a process uses a channel.
use crate::value_kind::ValueKind;

/// One use of a channel by a process.
#[derive(Clone, Copy, Debug, PartialEq, Eq, Drop)]
pub struct ChannelUse {
    /// The channel.
    pub chan: u16,
    /// Whether the process outputs on it; else it inputs on it, guards by it or stops it.
    pub is_output: bool,
    /// What is output, or what the variable holds that takes the message; None for a stop, and where there is no such variable.
    pub kind: Option<ValueKind>,
}
