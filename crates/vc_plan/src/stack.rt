//! The headers of a packet, and the hops that it made.
ghost use Rattle.std.specs.Prelude.{◌≡◌, ◌++◌, [], ◌∷◌, IfOk};
ghost use Rattle.vc_plan.specs.Hops.{put_in_front};

use crate::fault::Fault;
use crate::path_fault::Hop;
use sqlite_items::Items;
use std::alloc::Global;
use vc_packets::Memory;

/// What a switch does with a packet.
#[derive(Drop)]
pub(crate) enum Passage {
    /// It leaves by any link from `first` to `last`, with these headers where the link doesn't delete.
    Leaves {
        first: u8,
        last: u8,
        headers: Items<u16>,
    },
    /// It can't go on.
    Stops(Fault),
}

/// These headers, after the random one.
pub(crate) fn headers_behind(
    alloc: Global,
    value: Option<u16>,
    headers: &[u16],
) -> Result<Items<u16>, Memory>
    ensures { IfOk result (λ all. all ≡ put_in_front value headers.now) }
{
    let mut all = Vec::new(alloc);
    if let Some(header) = value {
        all.push(header)?;
    }
    all.extend_from_slice(headers)?;
    Ok(Items::from_vec(all))
}

/// These hops and one more.
pub(crate) fn with_hop(alloc: Global, hops: &[Hop], hop: Hop) -> Result<Items<Hop>, Memory>
    ensures { IfOk result (λ all. all ≡ hops.now ++ hop ∷ []) }
{
    let mut all = Items::from_slice(alloc, hops)?;
    all.push(hop)?;
    Ok(all)
}
