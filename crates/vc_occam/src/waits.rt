//! What a site of a running process may wait for.

/// What a site waits for: that its output is finished, or for the message of its input.
#[derive(Clone, Copy, PartialEq, Eq, Drop)]
pub(crate) enum Waits {
    /// That an output on a channel is finished.
    Output { chan: u16 },
    /// The message of an input on a channel.
    Input { chan: u16 },
}
