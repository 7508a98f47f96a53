//! Headers, as the bytes of a packet's body.
ghost use Rattle.std.specs.Prelude.{◌≡◌, ◌++◌, [], ◌∷◌, drop, IfOk, IfSome};
ghost use Rattle.vc_packets.specs.Headers.{spelled, front_header_of};

use crate::bytes::Bytes;
use crate::memory::Memory;
use crate::packet::Packet;
use std::alloc::Global;

/// The header that a packet's body begins with, or nothing where the body has fewer than two bytes.
pub fn front_header(packet: &Packet) -> Option<u16>
    ensures header { result ≡ front_header_of packet.now.body }
    ensures spelled { IfSome result
        (λ header. packet.now.body ≡ spelled (header ∷ []) ++ drop 2 packet.now.body) }
{
    match packet.body.as_slice() {
        [high, low, ..] => Some(u16::from_be_bytes([*high, *low])),
        _ => None,
    }
}

/// A body of a route's headers and then this load.
pub(crate) fn routed(alloc: Global, route: &[u16], load: &[u8]) -> Result<Bytes, Memory>
    ensures { IfOk result (λ body. body ≡ spelled route.now ++ load.now) }
{
    let room = route.len().saturating_mul(2).saturating_add(load.len());
    let mut body = Bytes::with_capacity(alloc, room)?;
    for header in route {
        let [high, low] = header.to_be_bytes();
        body.push(high)?;
        body.push(low)?;
    }
    if !load.is_empty() {
        body.extend_from_slice(load)?;
    }
    Ok(body)
}
