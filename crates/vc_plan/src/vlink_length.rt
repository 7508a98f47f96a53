//! How many switches the packets of virtual links pass.
ghost use Rattle.std.specs.Prelude.{◌≡◌, ℕ, Some, IfOk, IfSome, OnOk, length, slice_get, take};
ghost use Rattle.std.specs.List.{AllZip};
ghost use Rattle.vc_plan.specs.Accepted.{IsAccepted};
ghost use Rattle.vc_plan.specs.Private.Following.{AreSummaries};
ghost use Rattle.vc_plan.specs.WayLengths.{IsVlinkLength};

use crate::accepted::Accepted;
use crate::alike::are_like_links;
use crate::plan::Plan;
use crate::searched_plan::SearchedPlan;
use crate::summary::Summary;
use crate::vlink::Vlink;
use crate::way_length::{WayLength, way_length};
use std::alloc::Global;
use vc_packets::Memory;

/// How many switches the packets of a virtual link pass, each way.
#[derive(Clone, Copy, Debug, PartialEq, Eq, Drop)]
pub struct VlinkLength {
    /// From end a to end b.
    pub there: WayLength,
    /// From end b to end a.
    pub back: WayLength,
}

fn vlink_length(
    alloc: Global,
    net: &SearchedPlan<'_>,
    known: &mut Vec<Summary>,
    vlink: &Vlink,
) -> Result<VlinkLength, Memory>
    requires accepted { IsAccepted net.now }
    requires known { AreSummaries net.now known.old.items }
    requires there { (k : ℕ) × (slice_get net.now.vlinks k ≡ Some vlink.now) }
    ensures known { OnOk result (AreSummaries net.now known.new.items) }
    ensures length { IfOk result (λ length. IsVlinkLength net.now vlink.now length) }
{
    Ok(VlinkLength {
        there: way_length(alloc, net, known, &vlink.a, &vlink.b)?,
        back: way_length(alloc, net, known, &vlink.b, &vlink.a)?,
    })
}

/// The lengths of the virtual link before this one, if the packets of both go the same ways.
fn length_before(plan: &Plan, vlink: &Vlink, lengths: &[VlinkLength]) -> Option<VlinkLength>
    requires { AllZip (IsVlinkLength plan.now)
        (take (length lengths.now) plan.now.vlinks) lengths.now }
    ensures { IfSome result (IsVlinkLength plan.now vlink.now) }
{
    let length = lengths.last()?;
    let before = plan.vlinks.get(lengths.len() - 1)?;
    if are_like_links(plan, before, vlink) {
        Some(*length)
    } else {
        None
    }
}

/// The lengths of a virtual link after those with these lengths.
fn length_after(
    alloc: Global,
    net: &SearchedPlan<'_>,
    known: &mut Vec<Summary>,
    vlink: &Vlink,
    lengths: &[VlinkLength],
) -> Result<VlinkLength, Memory>
    requires accepted { IsAccepted net.now }
    requires known { AreSummaries net.now known.old.items }
    requires there { (k : ℕ) × (slice_get net.now.vlinks k ≡ Some vlink.now) }
    requires before { AllZip (IsVlinkLength net.now)
        (take (length lengths.now) net.now.vlinks) lengths.now }
    ensures known { OnOk result (AreSummaries net.now known.new.items) }
    ensures length { IfOk result (λ length. IsVlinkLength net.now vlink.now length) }
{
    match length_before(net.plan(), vlink, lengths) {
        Some(length) => Ok(length),
        None => vlink_length(alloc, net, known, vlink),
    }
}

/// Reports for each virtual link of an accepted plan, in order, how many switches its packets pass at least and at most, each way. It
/// fails only when out of memory.
pub fn vlink_lengths(alloc: Global, accepted: &Accepted) -> Result<Vec<VlinkLength>, Memory>
    ensures { IfOk result (λ lengths.
        AllZip (IsVlinkLength accepted.now) accepted.now.vlinks lengths.items) }
{
    let plan = accepted.plan();
    let net = SearchedPlan::new(alloc, plan)?;
    let mut known = Vec::new(alloc);
    let mut lengths = Vec::new(alloc);
    for vlink in plan.vlinks.as_slice() {
        let length = length_after(alloc, &net, &mut known, vlink, &lengths)?;
        lengths.push(length)?;
    }
    Ok(lengths)
}
