//! A path that leads astray, hop by hop.
ghost use Rattle.std.specs.Prelude.{◌≡◌, ◌++◌, IfOk, OnOk};
ghost use Rattle.vc_explain.specs.Walk.{header_text, headers_behind as headers_behind_hop, headers_text, hop_line, hops_text, last_line, past_portals as headers_past_portals, path_walked, route_of as route_of_path, start_line, walk_text};
ghost use Rattle.vc_plan.specs.Hops.{after_link as headers_after_link, deletes as does_delete, put_in_front as headers_in_front};

use std::alloc::Global;
use vc_labels::{Action, Row, find_action};
use vc_packets::Memory;
use vc_plan::{CheckRefused, Hop, PathFault, Plan, SwitchPlan};
use vc_text::{push_hop, push_last, push_number, push_port};

/// The headers of a packet, the front one first.
fn push_headers(out: &mut Vec<u8>, headers: &[u16]) -> Result<(), Memory>
    ensures { OnOk result (out.new.items ≡ out.old.items ++ headers_text headers.now) }
{
    if headers.is_empty() {
        out.extend_from_slice(b" no header")?;
        return Ok(());
    }
    out.extend_from_slice(b" headers")?;
    for header in headers {
        push_header(out, *header)?;
    }
    Ok(())
}

fn push_header(out: &mut Vec<u8>, header: u16) -> Result<(), Memory>
    ensures { OnOk result (out.new.items ≡ out.old.items ++ header_text header) }
{
    out.extend_from_slice(b" ")?;
    push_number(out, u64::from(header))
}

/// These headers, after the random one.
fn put_in_front(alloc: Global, value: Option<u16>, headers: &[u16]) -> Result<Vec<u16>, Memory>
    ensures { IfOk result (λ all. all.items ≡ headers_in_front value headers.now) }
{
    let mut all = Vec::new(alloc);
    if let Some(header) = value {
        all.push(header)?;
    }
    all.extend_from_slice(headers)?;
    Ok(all)
}

/// The headers from the first one on that no portal takes away.
fn past_portals<'a>(rows: &[Row], headers: &'a [u16]) -> &'a [u16]
    ensures { result.now ≡ headers_past_portals rows.now headers.now }
{
    let mut rest = headers;
    while let Some((front, behind)) = rest.split_first() {
        match find_action(rows, *front) {
            Some(Action::Portal) => rest = behind,
            _ => return rest,
        }
    }
    rest
}

pub(crate) fn deletes(links: &[u8], link: u8) -> bool
    ensures { result ≡ does_delete links.now link }
{
    for other in links {
        if *other == link {
            return true;
        }
    }
    false
}

/// The headers with which a packet leaves by a link.
fn after_link<'a>(links: &[u8], link: u8, headers: &'a [u16]) -> &'a [u16]
    ensures { result.now ≡ headers_after_link links.now link headers.now }
{
    match headers {
        [_, rest @ ..] if deletes(links, link) => rest,
        _ => headers,
    }
}

/// The headers of a packet after its hop through this switch.
fn behind_switch(
    alloc: Global,
    switch: &SwitchPlan,
    hop: &Hop,
    headers: &[u16],
) -> Result<Vec<u16>, Memory>
    ensures { IfOk result (λ left. left.items ≡ headers_after_link switch.now.delete hop.now.link
        (headers_past_portals switch.now.rows (headers_in_front hop.now.value headers.now))) }
{
    let mut left = Vec::new(alloc);
    let all = put_in_front(alloc, hop.value, headers)?;
    let looked_up = past_portals(switch.rows.as_slice(), all.as_slice());
    left.extend_from_slice(after_link(switch.delete.as_slice(), hop.link, looked_up))?;
    Ok(left)
}

/// The headers of a packet after a hop.
fn headers_behind(
    alloc: Global,
    plan: &Plan,
    hop: &Hop,
    headers: &[u16],
) -> Result<Vec<u16>, Memory>
    ensures { IfOk result (λ left. left.items ≡ headers_behind_hop plan.now hop.now headers.now) }
{
    match plan.switches.get(hop.switch as usize) {
        Some(switch) => behind_switch(alloc, switch, hop, headers),
        None => put_in_front(alloc, hop.value, headers),
    }
}

#[tactic(auto, using(std::proofs::Common::append_assoc), unfolding(crate::specs::Walk::hop_line))]
fn push_hop_line(out: &mut Vec<u8>, plan: &Plan, hop: &Hop, headers: &[u16]) -> Result<(), Memory>
    ensures { OnOk result (out.new.items
        ≡ out.old.items ++ hop_line plan.now hop.now headers.now) }
{
    out.extend_from_slice(b" ")?;
    push_hop(out, plan, hop)?;
    push_headers(out, headers)?;
    out.push(10)?;
    Ok(())
}

#[tactic(auto, using(std::proofs::Common::append_assoc), unfolding(crate::specs::Walk::last_line))]
fn push_last_line(
    out: &mut Vec<u8>,
    plan: &Plan,
    fault: &PathFault,
    headers: &[u16],
) -> Result<(), Memory>
    ensures { OnOk result (out.new.items
        ≡ out.old.items ++ last_line plan.now fault.now headers.now) }
{
    out.extend_from_slice(b" ")?;
    push_last(out, plan, fault)?;
    push_headers(out, headers)?;
    out.push(10)?;
    Ok(())
}

/// The hops and the last place, with the headers before each, where these are those before the first.
fn push_hops(
    alloc: Global,
    out: &mut Vec<u8>,
    plan: &Plan,
    fault: &PathFault,
    headers: &[u16],
) -> Result<(), Memory>
    ensures { OnOk result (out.new.items
        ≡ out.old.items ++ hops_text plan.now fault.now fault.now.hops headers.now) }
{
    let mut before = put_in_front(alloc, None, headers)?;
    let mut left = fault.hops.as_slice();
    while let Some((hop, hops)) = left.split_first() {
        push_hop_line(out, plan, hop, before.as_slice())?;
        before = headers_behind(alloc, plan, hop, before.as_slice())?;
        left = hops;
    }
    push_last_line(out, plan, fault, before.as_slice())
}

/// The headers with which the packets begin.
fn route_of<'a>(plan: &'a Plan, fault: &PathFault) -> &'a [u16]
    ensures { result.now ≡ route_of_path plan.now fault.now }
{
    match plan.vlinks.get(fault.vlink as usize) {
        Some(vlink) => if fault.from_a {
            vlink.a.route.as_slice()
        } else {
            vlink.b.route.as_slice()
        },
        None => &[],
    }
}

#[tactic(auto, using(std::proofs::Common::append_assoc), unfolding(crate::specs::Walk::start_line))]
fn push_start_line(out: &mut Vec<u8>, plan: &Plan, fault: &PathFault) -> Result<(), Memory>
    ensures { OnOk result (out.new.items ≡ out.old.items ++ start_line plan.now fault.now) }
{
    out.extend_from_slice(b"  ")?;
    push_port(out, plan, fault.start)?;
    push_headers(out, route_of(plan, fault))?;
    out.push(10)?;
    Ok(())
}

/// The path of a refusal that has one.
pub(crate) fn push_path(
    alloc: Global,
    out: &mut Vec<u8>,
    plan: &Plan,
    why: &CheckRefused,
) -> Result<(), Memory>
    ensures { OnOk result (out.new.items ≡ out.old.items ++ path_walked plan.now why.now) }
{
    match why {
        CheckRefused::NoInterval(fault)
        | CheckRefused::WrongEnd(fault)
        | CheckRefused::StackEmpty(fault)
        | CheckRefused::StackFull(fault)
        | CheckRefused::Hops(fault) => push_walk(alloc, out, plan, fault),
        _ => Ok(()),
    }
}

/// The path of a fault, hop by hop, from the sending port to the place where the fault shows.
#[tactic(auto, using(std::proofs::Common::append_assoc))]
fn push_walk(alloc: Global, out: &mut Vec<u8>, plan: &Plan, fault: &PathFault) -> Result<(), Memory>
    ensures { OnOk result (out.new.items ≡ out.old.items ++ walk_text plan.now fault.now) }
{
    push_start_line(out, plan, fault)?;
    push_hops(alloc, out, plan, fault, route_of(plan, fault))
}
