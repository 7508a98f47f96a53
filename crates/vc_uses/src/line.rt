//! A packet over a line of tokens.
ghost use Rattle.std.specs.Prelude.{◌≡◌, [], ◌∷◌, IfOk};

use std::alloc::Global;
use vc_packets::{Memory, Packet};
use vc_tokens::{Decoder, encode, readings_are_one};

/// Spells a packet in tokens and reads them again: one packet comes out, the same.
pub fn over_a_line(alloc: Global, packet: &Packet) -> Result<Vec<Packet>, Memory>
    ensures { IfOk result (λ packets. packets.items ≡ packet.now ∷ []) }
{
    let spelled = encode(alloc, packet)?;
    let mut decoder = Decoder::new(alloc, packet.body.len())?;
    readings_are_one();
    match decoder.feed(spelled.as_slice()) {
        Ok(packets) => Ok(packets),
        Err(_refused) => Err(Memory),
    }
}
