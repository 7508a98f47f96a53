//! What an actor can do.
use vc_occam::Move;

/// What an actor does in one step.
#[derive(Clone, Copy, Debug, PartialEq, Eq, Drop)]
pub enum Act {
    /// A move of a node's process.
    Proc(Move),
    /// The token at the front of the way that comes in by a link is taken.
    Take {
        /// The link, 0 to 3 at a node and 0 to 31 at a switch.
        link: u8,
        /// The word of which a switch makes a random header.
        word: u32,
    },
    /// The next token of a packet is put on the way that goes out by a link.
    Put {
        /// The link.
        link: u8,
    },
    /// A switch binds the packet at an input to an output.
    Route {
        /// The input link.
        input: u8,
        /// The output link.
        output: u8,
    },
    /// A flow control token is put on the way that goes out by a link.
    Fct {
        /// The link.
        link: u8,
    },
    /// A token passes on from a link's receive buffer.
    Pass {
        /// The link.
        link: u8,
    },
}
