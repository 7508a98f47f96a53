//! The inputs and guards that outputs meet, by their channel.
ghost use Rattle.std.specs.Prelude.{◌≡◌, IfOk, false, nat_le, true};
ghost use Rattle.std.specs.List.Sorted.{IsNonDecreasingBy, IsPartitionPoint};
ghost use Rattle.vc_occam.specs.Private.Receivers.{HasReceivers, key};

use crate::moves::Move;
use std::alloc::Global;
use vc_packets::Memory;

/// Of an input or a guard one more than its channel's number, and 0 of another move.
pub(crate) fn key_of(made: &Move) -> u32
    ensures { result ≡ key made.now }
{
    match made {
        Move::Want { chan, .. } => u32::from(*chan) + 1,
        Move::Choose { chan, .. } => u32::from(*chan) + 1,
        _ => 0,
    }
}

/// The moves of a list with the inputs and guards in order of channel. Those on one channel stay in the order of the list.
pub(crate) fn by_channel(alloc: Global, moves: &[Move]) -> Result<Vec<Move>, Memory>
    ensures { IfOk result (λ found. HasReceivers found.items moves.now) }
{
    let mut found = Vec::from_slice(alloc, moves)?;
    found.sort_by_key(key_of)?;
    Ok(found)
}

/// The place of the first input or guard on a channel, or where it would be.
pub(crate) fn first_on(chan: u16, moves: &[Move]) -> usize
    requires { IsNonDecreasingBy key moves.now }
    ensures { IsPartitionPoint (λ m. nat_le (key m) chan ≡ true) (λ m. nat_le (key m) chan ≡ false)
        moves.now result }
{
    moves.partition_point(|made| key_of(made) <= u32::from(chan))
}
