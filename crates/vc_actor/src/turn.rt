//! What an actor does when it is its turn.
use crate::act::Act;
use vc_tokens::Token;

/// What an actor does when it is its turn.
#[derive(Clone, Copy, Debug, PartialEq, Eq, Drop)]
pub enum Turn {
    /// It has no step to make.
    Idle,
    /// It made a step of its own.
    Local(Act),
    /// It put a token, which is to go to the end of the way that goes out by the link.
    Put {
        /// The link.
        link: u8,
        /// The step.
        act: Act,
        /// The token.
        item: Token,
    },
}
