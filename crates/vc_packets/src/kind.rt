//! What a packet is to the node that it reaches.
ghost use Rattle.std.specs.Prelude.{◌≡◌};
ghost use Rattle.vc_packets.specs.Kind.{kind};

use crate::mark::Mark;

/// What a packet is to the node that it reaches.
#[derive(Clone, Copy, Debug, PartialEq, Eq, Drop)]
pub enum Kind {
    /// An acknowledge: the piece sent last has been stored.
    Ack,
    /// A piece of a message.
    Piece {
        /// Whether the message ends with it.
        last: bool,
    },
    /// No packet that a virtual link sends.
    Malformed,
}

/// The kind of the packet with these bytes after its block's header, and this mark ("Networks, Routers and Transputers",
/// chapter 2).
pub fn kind_of(bytes: &[u8], mark: Mark) -> Kind
    ensures { result ≡ kind bytes.now mark }
{
    match mark {
        Mark::Eop if bytes.is_empty() => Kind::Ack,
        Mark::Eop if bytes.len() == 32 => Kind::Piece { last: false },
        Mark::Eom if bytes.len() <= 32 => Kind::Piece { last: true },
        _ => Kind::Malformed,
    }
}
