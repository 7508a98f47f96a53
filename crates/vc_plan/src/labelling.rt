//! Whether the labels take every packet of every virtual link to its end.

ghost use Rattle.std.specs.Prelude.{◌≡◌, ◌<◌, IfOk, IfSome, IfNone, OnOk, Some, true, false, length};
ghost use Rattle.vc_plan.specs.declared.vlink.Vlink.{Vlink};
ghost use Rattle.vc_plan.specs.Delivery.{DeliversTo, IsLabelled, IsLabelledLink};
ghost use Rattle.vc_plan.specs.Hops.{LimitsFit};
ghost use Rattle.vc_plan.specs.Wires.{IsWired};
ghost use Rattle.vc_plan.specs.Private.Following.{AreSummaries};
ghost use Rattle.vc_plan.specs.Labelling.{IsFaultOfWay, IsFaultOfLink, IsFirstFault};

use crate::fault::Fault;
use crate::hops::far_end;
use crate::path_fault::Hop;
use crate::port::{Port, Spot};
use crate::search::find_fault;
use crate::searched_plan::SearchedPlan;
use crate::summary::Summary;
use crate::vlink::{End, Vlink};
use sqlite_items::Items;
use std::alloc::Global;
use vc_packets::Memory;

/// A path of a virtual link's packets that ends in a fault, with the fault.
#[derive(Drop)]
pub(crate) struct FaultyPath {
    pub(crate) vlink: u16,
    pub(crate) from_a: bool,
    pub(crate) start: Port,
    pub(crate) hops: Items<Hop>,
    pub(crate) last: Spot,
    pub(crate) value: Option<u16>,
    pub(crate) fault: Fault,
}

fn way_fault(
    alloc: Global,
    net: &SearchedPlan<'_>,
    known: &mut Vec<Summary>,
    from: &End,
    to: &End,
    vlink: u16,
    from_a: bool,
) -> Result<Option<FaultyPath>, Memory>
    requires limits { LimitsFit net.now }
    requires wired { IsWired net.now }
    requires known { AreSummaries net.now known.old.items }
    ensures known { OnOk result (AreSummaries net.now known.new.items) }
    ensures delivers { IfOk result (λ found. IfNone found (DeliversTo net.now from.now to.now)) }
    ensures fault { IfOk result (λ found.
        IfSome found (λ f. IsFaultOfWay net.now from.now to.now f)) }
    ensures place { IfOk result (λ found. IfSome found (λ f. f.vlink ≡ vlink)) }
    ensures way { IfOk result (λ found. IfSome found (λ f. f.from_a ≡ from_a)) }
{
    let start = Port {
        spot: Spot::Node(from.node),
        link: from.link,
    };
    match far_end(net.plan().wires.as_slice(), start) {
        None => Ok(None),
        Some(port) => match find_fault(alloc, net, known, to, port, from.route.as_slice())? {
            None => Ok(None),
            Some(found) => Ok(Some(FaultyPath {
                vlink,
                from_a,
                start,
                hops: found.hops,
                last: found.last,
                value: found.value,
                fault: found.fault,
            })),
        },
    }
}

fn link_fault(
    alloc: Global,
    net: &SearchedPlan<'_>,
    known: &mut Vec<Summary>,
    vlink: &Vlink,
    number: u16,
) -> Result<Option<FaultyPath>, Memory>
    requires limits { LimitsFit net.now }
    requires wired { IsWired net.now }
    requires known { AreSummaries net.now known.old.items }
    ensures known { OnOk result (AreSummaries net.now known.new.items) }
    ensures delivers { IfOk result (λ found. IfNone found (IsLabelledLink net.now vlink.now)) }
    ensures fault { IfOk result (λ found.
        IfSome found (λ f. IsFaultOfLink net.now vlink.now f.from_a f)) }
    ensures place { IfOk result (λ found. IfSome found (λ f. f.vlink ≡ number)) }
{
    match way_fault(alloc, net, known, &vlink.a, &vlink.b, number, true)? {
        Some(fault) => Ok(Some(fault)),
        None => way_fault(alloc, net, known, &vlink.b, &vlink.a, number, false),
    }
}

/// The fault of the first virtual link that has one; None where every packet reaches its end.
pub(crate) fn labelling_fault(
    alloc: Global,
    net: &SearchedPlan<'_>,
    vlinks: &[Vlink],
) -> Result<Option<FaultyPath>, Memory>
    requires limits { LimitsFit net.now }
    requires wired { IsWired net.now }
    requires few { length vlinks.now < 65536 }
    ensures labelled { IfOk result (λ found. IfNone found (IsLabelled net.now vlinks.now)) }
    ensures first { IfOk result (λ found. IfSome found (λ f. IsFirstFault net.now vlinks.now f)) }
{
    let mut known = Vec::new(alloc);
    for (k, vlink) in vlinks.iter().enumerate() {
        if let Some(fault) = link_fault(alloc, net, &mut known, vlink, k as u16)? {
            return Ok(Some(fault));
        }
    }
    Ok(None)
}
