//! The packets of a message, and their acknowledges.
ghost use Rattle.std.specs.Prelude.{◌≡◌, ◌<◌, List, ℕ, length, drop, IfOk};
ghost use Rattle.vc_packets.specs.Pieces.{Pieces, piece_count};
ghost use Rattle.vc_packets.specs.Spellings.{piece_packet, ack_packet};

use crate::header::routed;
use crate::mark::Mark;
use crate::memory::Memory;
use crate::packet::Packet;
use std::alloc::Global;

/// The data bytes of each packet of a message but its last ("Networks, Routers and Transputers", chapter 2).
const FULL: usize = 32;

/// The number of pieces of a message of `len` bytes: one for each 32 bytes that it begins, and one if it is empty.
pub fn pieces(len: usize) -> usize
    ensures count { result ≡ piece_count len }
    ensures pieces { (message : List ℕ) (cs : List (List ℕ)) →
        length message ≡ len →
        Pieces message cs →
        length cs ≡ result }
{
    len.saturating_sub(1) / FULL + 1
}

/// The packet of a message's piece number `k`, counted from 0, after a route's headers.
pub fn piece(alloc: Global, route: &[u16], msg: &[u8], k: usize) -> Result<Packet, Memory>
    requires { k < piece_count (length msg.now) }
    ensures { IfOk result
        (λ packet.
        (cs : List (List ℕ)) →
        Pieces msg.now cs →
        packet ≡ piece_packet route.now (drop k cs)) }
{
    let rest = &msg[FULL * k..];
    let is_last = rest.len() <= FULL;
    let mark = if is_last { Mark::Eom } else { Mark::Eop };
    let now = &rest[..rest.len().min(FULL)];
    let body = routed(alloc, route, now)?;
    Ok(Packet { body, mark })
}

/// The acknowledge after a route's headers: a packet with no data.
pub fn ack(alloc: Global, route: &[u16]) -> Result<Packet, Memory>
    ensures { IfOk result (λ packet. packet ≡ ack_packet route.now) }
{
    let body = routed(alloc, route, &[])?;
    Ok(Packet {
        body,
        mark: Mark::Eop,
    })
}
