//! The half that outputs.
ghost use Rattle.std.specs.Prelude.{◌≡◌, ◌≢◌, [], ◌↔◌, IsTrue, IfOk};
ghost use Rattle.vc_packets.specs.Pieces.{Pieces};
ghost use Rattle.vc_packets.specs.Spellings.{piece_packet};
ghost use Rattle.vc_blocks.specs.Acknowledges.{later_than, advanced};

use sqlite_items::Items;
use std::alloc::Global;
use std::marker::Model;
use vc_packets::{Bytes, Memory, Packet, piece, pieces};

/// The half of a virtual link's end that outputs. One piece at most is under way.
#[derive(Drop)]
pub struct OutHalf {
    route: Items<u16>,
    message: Bytes,
    count: usize,
    piece: usize,
    busy: bool,
}

/// What an acknowledge came to.
#[derive(Clone, Copy, Debug, PartialEq, Eq, Drop)]
pub enum Advance {
    /// The message has a next piece.
    More,
    /// The message's last piece was acknowledged: the output is finished.
    Finished,
}

impl Model for OutHalf {
    ghost use Rattle.vc_blocks.specs.Halves.{Outgoing};
    ghost use Rattle.vc_blocks.specs.Outputs.{unacked_of, IsUnderWay};

    ghost Value = { Outgoing };

    ghost view = { λ half. record {
      route = half.route;
      unacked = unacked_of half.busy half.message half.piece;
    } };

    ghost invariant = { λ half. IsUnderWay half.busy half.message half.count half.piece };
}

impl OutHalf {
    /// An idle half whose packets have this route's headers in front.
    pub fn new(alloc: Global, route: &[u16]) -> Result<OutHalf, Memory>
        ensures { IfOk result (λ half. half ≡ record { route = route.now; unacked = [] }) }
    {
        Ok(OutHalf {
            route: Items::from_slice(alloc, route)?,
            message: Bytes::new(alloc),
            count: 0,
            piece: 0,
            busy: false,
        })
    }

    /// The headers in front of its packets.
    pub fn route(&self) -> &[u16]
        ensures { result.now ≡ self.now.route }
    {
        self.route.as_slice()
    }

    /// Whether no message is under way.
    pub fn is_idle(&self) -> bool
        ensures { IsTrue result ↔ (self.now.unacked ≡ []) }
    {
        !self.busy
    }

    /// The message goes under way, with its first piece.
    pub fn offer(&mut self, msg: Bytes)
        requires { self.old.unacked ≡ [] }
        ensures route { self.new.route ≡ self.old.route }
        ensures pieces { Pieces msg self.new.unacked }
    {
        self.count = pieces(msg.len());
        self.message = msg;
        self.piece = 0;
        self.busy = true;
    }

    /// The packet of the piece under way.
    pub fn packet(&self, alloc: Global) -> Result<Packet, Memory>
        requires { self.now.unacked ≢ [] }
        ensures { IfOk result (λ packet. packet ≡ piece_packet self.now.route self.now.unacked) }
    {
        piece(
            alloc,
            self.route.as_slice(),
            self.message.as_slice(),
            self.piece,
        )
    }

    /// Whether the piece under way is its message's last.
    pub fn is_last(&self) -> bool
        requires { self.now.unacked ≢ [] }
        ensures { IsTrue result ↔ (later_than self.now.unacked ≡ []) }
    {
        self.count - self.piece == 1
    }

    /// The packet of the piece after the one under way.
    pub fn next_packet(&self, alloc: Global) -> Result<Packet, Memory>
        requires { later_than self.now.unacked ≢ [] }
        ensures { IfOk result
            (λ packet. packet ≡ piece_packet self.now.route (later_than self.now.unacked)) }
    {
        piece(
            alloc,
            self.route.as_slice(),
            self.message.as_slice(),
            self.piece + 1,
        )
    }

    /// The piece under way was acknowledged.
    pub fn acked(&mut self) -> Advance
        requires { self.old.unacked ≢ [] }
        ensures after { self.new ≡ record self.old { unacked = later_than self.old.unacked } }
        ensures result { result ≡ advanced (later_than self.old.unacked) }
    {
        if self.piece + 1 == self.count {
            self.busy = false;
            Advance::Finished
        } else {
            self.piece += 1;
            Advance::More
        }
    }
}
