//! What became of a packet that reached a node, as it is given to the node's process.
ghost use Rattle.std.specs.Prelude.{◌≡◌};
ghost use Rattle.vc_vcp.specs.VcpView.{taken_of};
ghost use Rattle.vc_vcp.specs.Private.VcpView.{advance_told, arrival_told};

use vc_blocks::{Advance, Arrival};
use vc_packets::Bytes;

/// What became of a packet that reached a node, with its channel.
#[derive(Debug, Drop)]
pub enum Taken {
    /// A piece that no process inputs yet: it is held.
    Held {
        /// The channel.
        chan: u16,
    },
    /// A piece was stored, and its acknowledge queued; more follow.
    Stored {
        /// The channel.
        chan: u16,
    },
    /// A message's last piece was stored, and its acknowledge queued.
    Complete {
        /// The channel.
        chan: u16,
        /// The message.
        message: Bytes,
    },
    /// An acknowledge: the next piece was queued.
    More {
        /// The channel.
        chan: u16,
    },
    /// An acknowledge of a message's last piece: the output is finished.
    Finished {
        /// The channel.
        chan: u16,
    },
    /// No half may take it: it was dropped and counted.
    Stray,
}

/// What an acknowledge came to, on a channel.
pub(crate) fn of_advance(chan: u16, advance: Advance) -> Taken
    ensures { taken_of result ≡ advance_told chan advance }
{
    match advance {
        Advance::More => Taken::More { chan },
        Advance::Finished => Taken::Finished { chan },
    }
}

/// What became of a piece, on a channel.
pub(crate) fn of_arrival(chan: u16, arrival: Arrival) -> Taken
    ensures { taken_of result ≡ arrival_told chan arrival }
{
    match arrival {
        Arrival::Held => Taken::Held { chan },
        Arrival::Stored => Taken::Stored { chan },
        Arrival::Complete(message) => Taken::Complete { chan, message },
    }
}
