//! The checker: a plan is accepted, or refused for the first thing that is wrong.
ghost use Rattle.std.specs.Prelude.{◌≡◌, ◌==◌, ◌<◌, IfErr, IfNone, IfOk, IfSome, MatchOption, MatchResult, None, Some, length, true};
ghost use Rattle.std.specs.List.{list_any};
ghost use Rattle.vc_plan.specs.Accepted.{IsAccepted, AreApart, HasLawfulTables, IsLawfulSwitch, uses_of};
ghost use Rattle.vc_plan.specs.Check.{IsCause, IsFirstSameNode, IsFirstTable, IsSwitchFault, PassesPaths, PassesTables, block_twice as twice_block, channel_fault as fault_of_channels, has_end as end_there, kind_fits as fits_kind, misused_from, end_is_at as is_end_at, port_missing, port_twice, same_block, same_bool as is_same_bool, same_way as is_same_way, unwired_port, use_ok as is_use_ok, way_twice, wrong_use};
ghost use Rattle.vc_plan.specs.Private.Check.{IsRefusedPath, PassesUse};
ghost use Rattle.vc_plan.specs.declared.check_refused.CheckRefused.TheVariants as refused;
ghost use Rattle.vc_plan.specs.Limits.{limit_broken};
ghost use Rattle.vc_plan.specs.Wires.{same_port};

use crate::accepted::Accepted;
use crate::channel::{Channel, Home};
use crate::check_refused::{CheckRefused, Refusal};
use crate::fault::Fault;
use crate::hops::{equal_ports, far_end};
use crate::labelling::{FaultyPath, labelling_fault};
use crate::node_plan::NodePlan;
use crate::path_fault::PathFault;
use crate::plan::Plan;
use crate::plan_limits::{find_broken_limit, kinds_in};
use crate::port::{Port, Spot, Wire};
use crate::searched_plan::SearchedPlan;
use crate::switch_plan::SwitchPlan;
use crate::usage::find_usage;
use crate::vlink::{End, Vlink};
use crate::wiring::are_wired;
use sqlite_items::Items;
use std::alloc::Global;
use vc_labels::{TableFault, fault_of_rows};
use vc_packets::Memory;
use vc_process::{ChannelUse, ValueKind};

fn has_port(ports: &[Port], port: Port) -> bool
    ensures { result ≡ list_any (same_port port) ports.now }
{
    ports.iter().any(|other| equal_ports(port, *other))
}

fn find_port_twice(alloc: Global, wires: &[Wire]) -> Result<Option<Port>, Memory>
    ensures { IfOk result (λ found. found ≡ port_twice wires.now) }
{
    let mut seen = Vec::new(alloc);
    for wire in wires {
        if has_port(&seen, wire.one) {
            return Ok(Some(wire.one));
        }
        seen.push(wire.one)?;
        if has_port(&seen, wire.two) {
            return Ok(Some(wire.two));
        }
        seen.push(wire.two)?;
    }
    Ok(None)
}

fn unwired(wires: &[Wire], end: &End) -> Option<Port>
    ensures { result ≡ unwired_port wires.now end.now }
{
    let port = Port {
        spot: Spot::Node(end.node),
        link: end.link,
    };
    match far_end(wires, port) {
        Some(_) => None,
        None => Some(port),
    }
}

fn find_missing(wires: &[Wire], vlinks: &[Vlink]) -> Option<Port>
    ensures { result ≡ port_missing wires.now vlinks.now }
{
    for vlink in vlinks {
        if let Some(port) = unwired(wires, &vlink.a) {
            return Some(port);
        }
        if let Some(port) = unwired(wires, &vlink.b) {
            return Some(port);
        }
    }
    None
}

fn has_block(seen: &[(u8, u16)], block: (u8, u16)) -> bool
    ensures { result ≡ list_any (same_block block) seen.now }
{
    seen.iter()
        .any(|other| block.0 == other.0 && block.1 == other.1)
}

fn find_block_twice(alloc: Global, vlinks: &[Vlink]) -> Result<Option<(u8, u16)>, Memory>
    ensures { IfOk result (λ found. found ≡ twice_block vlinks.now) }
{
    let mut seen = Vec::new(alloc);
    for vlink in vlinks {
        let a = (vlink.a.node, vlink.a.block);
        if has_block(&seen, a) {
            return Ok(Some(a));
        }
        seen.push(a)?;
        let b = (vlink.b.node, vlink.b.block);
        if has_block(&seen, b) {
            return Ok(Some(b));
        }
        seen.push(b)?;
    }
    Ok(None)
}

fn fault_of_switch(net: &Plan, switch: u8, plan: &SwitchPlan) -> Option<TableFault>
    ensures { MatchOption result (IsLawfulSwitch net.now switch plan.now)
        (λ fault. IsSwitchFault net.now switch plan.now fault) }
{
    match fault_of_rows(plan.rows.as_slice()) {
        Some(fault) => Some(fault),
        None => {
            if are_wired(net, switch, plan.rows.as_slice()) {
                None
            } else {
                Some(TableFault::BadLink)
            }
        }
    }
}

fn find_table(net: &Plan) -> Option<(u8, TableFault)>
    requires { length net.now.switches < 256 }
    ensures { MatchOption result (HasLawfulTables net.now)
        (λ found. IsFirstTable net.now found.0 found.1) }
{
    for (n, plan) in net.switches.as_slice().iter().enumerate() {
        if let Some(fault) = fault_of_switch(net, n as u8, plan) {
            return Some((n as u8, fault));
        }
    }
    None
}

fn find_same_node(vlinks: &[Vlink]) -> Option<u16>
    requires { length vlinks.now < 65536 }
    ensures { MatchOption result (AreApart vlinks.now) (λ n. IsFirstSameNode vlinks.now n) }
{
    for (n, vlink) in vlinks.iter().enumerate() {
        if vlink.a.node == vlink.b.node {
            return Some(n as u16);
        }
    }
    None
}

fn same_bool(one: bool, two: bool) -> bool
    ensures { result ≡ is_same_bool one two }
{
    one == two
}

fn same_way(one: Home, two: Home) -> bool
    ensures { result ≡ is_same_way one two }
{
    match one {
        Home::Way { vlink, from_a } => match two {
            Home::Way {
                vlink: other,
                from_a: other_from_a,
            } => vlink == other && same_bool(from_a, other_from_a),
            Home::Inside { .. } => false,
        },
        Home::Inside { .. } => false,
    }
}

fn has_way(seen: &[Home], home: Home) -> bool
    ensures { result ≡ list_any (is_same_way home) seen.now }
{
    seen.iter().any(|other| same_way(home, *other))
}

fn find_way_twice(alloc: Global, channels: &[Channel]) -> Result<Option<u16>, Memory>
    requires { length channels.now < 65536 }
    ensures { IfOk result (λ found. found ≡ way_twice channels.now) }
{
    let mut seen = Vec::new(alloc);
    for (n, channel) in channels.iter().enumerate() {
        if has_way(&seen, channel.home) {
            return Ok(Some(n as u16));
        }
        seen.push(channel.home)?;
    }
    Ok(None)
}

fn end_is_at(vlink: &Vlink, is_a: bool, node: u8) -> bool
    ensures { result ≡ is_end_at vlink.now is_a node }
{
    if is_a {
        vlink.a.node == node
    } else {
        vlink.b.node == node
    }
}

fn has_end(plan: &Plan, home: Home, is_output: bool, node: u8) -> bool
    ensures { result ≡ end_there plan.now home is_output node }
{
    match home {
        Home::Way { vlink, from_a } => match plan.vlinks.get(usize::from(vlink)) {
            None => false,
            Some(vlink) => end_is_at(vlink, same_bool(from_a, is_output), node),
        },
        Home::Inside { node: inside } => inside == node,
    }
}

fn kind_fits(used: Option<ValueKind>, kind: ValueKind) -> bool
    ensures { result ≡ fits_kind used kind }
{
    match used {
        None => true,
        Some(used) => used == kind,
    }
}

fn use_is_ok(plan: &Plan, node: u8, used: ChannelUse) -> bool
    ensures { result ≡ is_use_ok plan.now node used }
{
    match plan.channels.get(usize::from(used.chan)) {
        None => false,
        Some(channel) => has_end(plan, channel.home, used.is_output, node)
            && kind_fits(used.kind, channel.kind),
    }
}

fn find_wrong_use(plan: &Plan, node: u8, uses: &[ChannelUse]) -> Option<u16>
    ensures { result ≡ wrong_use plan.now node uses.now }
{
    for used in uses {
        if !use_is_ok(plan, node, *used) {
            return Some(used.chan);
        }
    }
    None
}

fn misused_by(
    alloc: Global,
    plan: &Plan,
    number: u8,
    node: &NodePlan,
) -> Result<Option<u16>, Memory>
    ensures { IfOk result (λ found. found ≡ wrong_use plan.now number (uses_of node.now)) }
{
    let kinds = kinds_in(alloc, node.vars.as_slice())?;
    let uses = node.process.channel_uses(alloc, kinds.as_slice())?;
    Ok(find_wrong_use(plan, number, uses.as_slice()))
}

fn find_misused(alloc: Global, plan: &Plan, nodes: &[NodePlan]) -> Result<Option<u16>, Memory>
    requires { length nodes.now < 256 }
    ensures { IfOk result (λ found. found ≡ misused_from plan.now 0 nodes.now) }
{
    for (n, node) in nodes.iter().enumerate() {
        if let Some(chan) = misused_by(alloc, plan, n as u8, node)? {
            return Ok(Some(chan));
        }
    }
    Ok(None)
}

fn find_channel_fault(alloc: Global, plan: &Plan) -> Result<Option<u16>, Memory>
    requires nodes { length plan.now.nodes < 256 }
    requires channels { length plan.now.channels < 65536 }
    ensures { IfOk result (λ found. found ≡ fault_of_channels plan.now) }
{
    match find_way_twice(alloc, plan.channels.as_slice())? {
        Some(chan) => Ok(Some(chan)),
        None => find_misused(alloc, plan, plan.nodes.as_slice()),
    }
}

/// A path with its fault, as a refusal. A random header for which there is no room was not put, and isn't shown.
fn path_refused(found: FaultyPath) -> CheckRefused
    ensures { IsRefusedPath found result }
{
    let fault = found.fault;
    let path = PathFault {
        vlink: found.vlink,
        from_a: found.from_a,
        start: found.start,
        hops: found.hops,
        last: found.last,
        value: found.value,
    };
    match fault {
        Fault::NoInterval => CheckRefused::NoInterval(path),
        Fault::WrongEnd => CheckRefused::WrongEnd(path),
        Fault::StackEmpty => CheckRefused::StackEmpty(path),
        Fault::StackFull => CheckRefused::StackFull(PathFault {
            value: None,
            ..path
        }),
        Fault::Hops => CheckRefused::Hops(path),
    }
}

/// The first thing that is wrong with the wires, blocks and tables of a plan that keeps the limits.
fn find_cause_of_wiring(alloc: Global, plan: &Plan) -> Result<Option<CheckRefused>, Memory>
    requires { limit_broken plan.now ≡ None }
    ensures passes { IfOk result (λ found. IfNone found (PassesTables plan.now)) }
    ensures cause { IfOk result (λ found. IfSome found (λ why. IsCause plan.now why)) }
{
    if let Some(port) = find_port_twice(alloc, plan.wires.as_slice())? {
        return Ok(Some(CheckRefused::PortTwice(port)));
    }
    if let Some(port) = find_missing(plan.wires.as_slice(), plan.vlinks.as_slice()) {
        return Ok(Some(CheckRefused::PortMissing(port)));
    }
    if let Some((node, block)) = find_block_twice(alloc, plan.vlinks.as_slice())? {
        return Ok(Some(CheckRefused::BlockTwice { node, block }));
    }
    match find_table(plan) {
        Some((switch, fault)) => Ok(Some(CheckRefused::Table { switch, fault })),
        None => Ok(None),
    }
}

/// The first thing that is wrong with the nodes, the channels and their use of a plan whose paths all deliver.
fn find_cause_of_use(alloc: Global, plan: &Plan) -> Result<Option<CheckRefused>, Memory>
    requires { PassesPaths plan.now }
    ensures passes { IfOk result (λ found. IfNone found (PassesUse plan.now)) }
    ensures cause { IfOk result (λ found. IfSome found (λ why. IsCause plan.now why)) }
{
    if let Some(vlink) = find_same_node(plan.vlinks.as_slice()) {
        return Ok(Some(CheckRefused::SameNode(vlink)));
    }
    if let Some(chan) = find_channel_fault(alloc, plan)? {
        return Ok(Some(CheckRefused::Channel(chan)));
    }
    match find_usage(alloc, plan)? {
        Some((node, name)) => Ok(Some(CheckRefused::Usage { node, name })),
        None => Ok(None),
    }
}

/// The first thing that is wrong with the paths, the nodes and what they use of a plan whose tables are lawful.
fn find_cause_of_paths(alloc: Global, plan: &Plan) -> Result<Option<CheckRefused>, Memory>
    requires { PassesTables plan.now }
    ensures passes { IfOk result (λ found. IfNone found (PassesUse plan.now)) }
    ensures cause { IfOk result (λ found. IfSome found (λ why. IsCause plan.now why)) }
{
    let searched = SearchedPlan::new(alloc, plan)?;
    match labelling_fault(alloc, &searched, plan.vlinks.as_slice())? {
        Some(found) => Ok(Some(path_refused(found))),
        None => find_cause_of_use(alloc, plan),
    }
}

/// The first thing that is wrong with a plan.
fn find_refusal(alloc: Global, plan: &Plan) -> Result<Option<CheckRefused>, Memory>
    ensures passes { IfOk result (λ found. IfNone found (PassesUse plan.now)) }
    ensures cause { IfOk result (λ found. IfSome found (λ why. IsCause plan.now why)) }
{
    if let Some(word) = find_broken_limit(alloc, plan)? {
        return Ok(Some(CheckRefused::Limit(word)));
    }
    match find_cause_of_wiring(alloc, plan)? {
        Some(why) => Ok(Some(why)),
        None => find_cause_of_paths(alloc, plan),
    }
}

/// Accepts exactly the plans that may be accepted: those that keep the limits, deliver on every path and give no other cause for a
/// refusal. Else it gives the plan back with the first thing that is wrong. A plan that may be accepted is refused only where there
/// was no memory for the check.
pub fn check(alloc: Global, plan: Plan) -> Result<Accepted, Refusal>
    ensures verdict { MatchResult result (λ accepted. (accepted ≡ plan) × IsAccepted plan)
        (λ refusal. (refusal.plan ≡ plan) × IsCause plan refusal.why) }
    ensures exact { IfErr result (λ refusal. IsAccepted plan → refusal.why ≡ refused.Memory) }
{
    match find_refusal(alloc, &plan) {
        Ok(None) => Ok(Accepted::of(plan)),
        Ok(Some(why)) => Err(Refusal { plan, why }),
        Err(Memory) => Err(Refusal {
            plan,
            why: CheckRefused::Memory,
        }),
    }
}
