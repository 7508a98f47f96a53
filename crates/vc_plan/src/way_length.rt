//! How many switches the packets of one way of a virtual link pass.
ghost use Rattle.std.specs.Prelude.{◌≡◌, ◌<◌, ℕ, IfNone, IfOk, IfSome, IsSome, OnOk};
ghost use Rattle.vc_plan.specs.Accepted.{IsAccepted};
ghost use Rattle.vc_plan.specs.Delivery.{Delivers, DeliversTo};
ghost use Rattle.vc_plan.specs.WayLengths.{AreBounds, IsWayLength};
ghost use Rattle.vc_plan.specs.Hops.{LimitsFit};
ghost use Rattle.vc_plan.specs.Private.Following.{AreSummaries};
ghost use Rattle.vc_plan.specs.Private.Paths.{IsDelivering, IsNever, IsSometime, IsSurvey};
ghost use Rattle.vc_plan.specs.Wires.{across, sending_port};

use crate::arrival::arrives_surveyed;
use crate::entry::Entry;
use crate::hops::far_end;
use crate::least_path::Quest;
use crate::port::{Port, Spot};
use crate::search::first_place;
use crate::searched_plan::SearchedPlan;
use crate::summary::Summary;
use crate::survey::{Survey, survey_to};
use crate::vlink::End;
use std::alloc::Global;
use vc_packets::Memory;

/// How many switches packets pass from one end of a virtual link to the other. A switch counts as often as they pass it.
#[derive(Clone, Copy, Debug, PartialEq, Eq, Drop)]
pub struct WayLength {
    /// On the shortest path.
    pub least: u8,
    /// On the longest path, at most 32.
    pub most: u8,
}

/// The least number of hops by which packets of a place come to a node.
fn least_from(
    alloc: Global,
    net: &SearchedPlan<'_>,
    known: &mut Vec<Summary>,
    end: &End,
    place: &Entry,
    survey: &Survey,
) -> Result<Option<u8>, Memory>
    requires limits { LimitsFit net.now }
    requires known { AreSummaries net.now known.old.items }
    requires survey { IsSurvey net.now place.now survey.now }
    requires bound { survey.now.bound ≡ 32 }
    requires delivers { IsDelivering net.now end.now place.now }
    ensures known { OnOk result (AreSummaries net.now known.new.items) }
    ensures none { IfOk result (λ least. IfNone least
        ((n : ℕ) → n < 33 → IsNever net.now n 0 place.now)) }
    ensures some { IfOk result (λ least. IfSome least (λ k. IsSometime net.now k 0 place.now
        × ((n : ℕ) → n < k → IsNever net.now n 0 place.now))) }
{
    for total in 0..33u8 {
        let quest = Quest {
            net: &*net,
            end: &*end,
            bound: survey.bound,
            total,
        };
        if arrives_surveyed(alloc, &quest, known, place, survey, 0)? {
            return Ok(Some(total));
        }
    }
    Ok(None)
}

/// The greatest, which is no more than 32.
fn most_from(
    alloc: Global,
    net: &SearchedPlan<'_>,
    known: &mut Vec<Summary>,
    end: &End,
    place: &Entry,
    survey: &Survey,
) -> Result<Option<u8>, Memory>
    requires limits { LimitsFit net.now }
    requires known { AreSummaries net.now known.old.items }
    requires survey { IsSurvey net.now place.now survey.now }
    requires bound { survey.now.bound ≡ 32 }
    requires delivers { IsDelivering net.now end.now place.now }
    ensures known { OnOk result (AreSummaries net.now known.new.items) }
    ensures none { IfOk result (λ most. IfNone most
        ((n : ℕ) → n < 33 → IsNever net.now n 0 place.now)) }
    ensures some { IfOk result (λ most. IfSome most (λ k. IsSometime net.now k 0 place.now
        × ((n : ℕ) → k < n → n < 33 → IsNever net.now n 0 place.now))) }
{
    for left in 0..33u8 {
        let quest = Quest {
            net: &*net,
            end: &*end,
            bound: survey.bound,
            total: 32 - left,
        };
        if arrives_surveyed(alloc, &quest, known, place, survey, 0)? {
            return Ok(Some(32 - left));
        }
    }
    Ok(None)
}

/// The length of the way from a port with these headers.
fn length_from(
    alloc: Global,
    net: &SearchedPlan<'_>,
    known: &mut Vec<Summary>,
    end: &End,
    port: Port,
    route: &[u16],
) -> Result<WayLength, Memory>
    requires accepted { IsAccepted net.now }
    requires delivers { Delivers net.now end.now 32 port route.now }
    requires known { AreSummaries net.now known.old.items }
    ensures known { OnOk result (AreSummaries net.now known.new.items) }
    ensures bounds { IfOk result (λ length. AreBounds net.now port route.now length) }
{
    let place = first_place(alloc, port, route)?;
    let survey = survey_to(alloc, net, known, &place, 32)?;
    let Some(least) = least_from(alloc, net, known, end, &place, &survey)? else {
        unreachable!()
    };
    let Some(most) = most_from(alloc, net, known, end, &place, &survey)? else {
        unreachable!()
    };
    Ok(WayLength { least, most })
}

/// The length of the way from one end of a virtual link to the other.
pub(crate) fn way_length(
    alloc: Global,
    net: &SearchedPlan<'_>,
    known: &mut Vec<Summary>,
    from: &End,
    to: &End,
) -> Result<WayLength, Memory>
    requires accepted { IsAccepted net.now }
    requires sends { IsSome (across net.now.wires (sending_port from.now)) }
    requires delivers { DeliversTo net.now from.now to.now }
    requires known { AreSummaries net.now known.old.items }
    ensures known { OnOk result (AreSummaries net.now known.new.items) }
    ensures length { IfOk result (λ length. IsWayLength net.now from.now length) }
{
    let start = Port {
        spot: Spot::Node(from.node),
        link: from.link,
    };
    match far_end(net.plan().wires.as_slice(), start) {
        None => unreachable!(),
        Some(port) => length_from(alloc, net, known, to, port, from.route.as_slice()),
    }
}
