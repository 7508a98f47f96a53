//! What a variable holds, and a message carries.
ghost use Rattle.std.specs.Prelude.{◌≡◌, IfOk, slice_index};
ghost use Rattle.vc_process.specs.Messages.{message as message_of, received, number_of};

use std::alloc::Global;
use vc_packets::{Bytes, Memory};

/// What a variable holds.
#[derive(Drop)]
pub enum Datum {
    /// A whole number of 64 bits with sign.
    Int(i64),
    /// Bytes.
    Bytes(Bytes),
}

/// The byte at a place of a message, 0 where it has none.
fn byte_at(message: &[u8], place: usize) -> u8
    ensures { result ≡ slice_index message.now place }
{
    match message.get(place) {
        Some(byte) => *byte,
        None => 0,
    }
}

/// The number that a message carries: its first eight bytes, low byte first, missing ones being 0.
#[tactic(auto, unfolding(crate::specs::Messages::number_of))]
pub fn number_in(message: &[u8]) -> i64
    ensures { result ≡ number_of message.now }
{
    if message.len() >= 8 {
        return i64::from_le_bytes([
            message[0], message[1], message[2], message[3], message[4], message[5], message[6],
            message[7],
        ]);
    }
    let low = [
        byte_at(message, 0),
        byte_at(message, 1),
        byte_at(message, 2),
        byte_at(message, 3),
    ];
    let high = [
        byte_at(message, 4),
        byte_at(message, 5),
        byte_at(message, 6),
        byte_at(message, 7),
    ];
    i64::from_le_bytes([
        low[0], low[1], low[2], low[3], high[0], high[1], high[2], high[3],
    ])
}

impl Datum {
    /// The message that carries the value.
    #[tactic(auto, unfolding(crate::specs::Messages::number_bytes))]
    pub fn into_message(self, alloc: Global) -> Result<Bytes, Memory>
        ensures { IfOk result (λ message. message ≡ message_of self) }
    {
        match self {
            Datum::Int(number) => Ok(Bytes::from_array(alloc, number.to_le_bytes())?),
            Datum::Bytes(bytes) => Ok(bytes),
        }
    }

    /// What a message is worth for a variable of this kind.
    pub fn receive(&self, message: Bytes) -> Datum
        ensures { result ≡ received self.now message }
    {
        match self {
            Datum::Int(_) => Datum::Int(number_in(message.as_slice())),
            Datum::Bytes(_) => Datum::Bytes(message),
        }
    }
}
