//! What a channel answers to a move.
ghost use Rattle.std.specs.Prelude.{◌≡◌, not, is_some};
ghost use Rattle.vc_occam.specs.States.{came};

use crate::variables::number_message;
use std::alloc::Global;
use vc_packets::Bytes;

/// What came of a move on its channel.
#[derive(Debug, Drop)]
pub enum Answer {
    /// Nothing came of it, as for an output, a stop or a quiet step.
    Nothing,
    /// The input waits for its message.
    Waits,
    /// The input has this message.
    Got(Bytes),
    /// The input has the message that carries this number.
    GotNumber(i64),
}

impl Answer {
    /// Whether no message came.
    pub(crate) fn has_none(&self) -> bool
        ensures { result ≡ not (is_some (came self.now)) }
    {
        matches!(self, Answer::Nothing | Answer::Waits)
    }

    /// The message that came, if one came.
    pub(crate) fn message(self, alloc: Global) -> Option<Bytes>
        ensures { result ≡ came self }
    {
        match self {
            Answer::Got(message) => Some(message),
            Answer::GotNumber(number) => Some(number_message(alloc, number)),
            _ => None,
        }
    }
}
