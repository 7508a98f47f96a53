//! The limits of a plan.
ghost use Rattle.std.specs.Prelude.{◌≡◌, ◌==◌, not, true, nat_le, IfOk};
ghost use Rattle.std.specs.List.{list_all, list_any};
ghost use Rattle.vc_plan.specs.declared.switch_plan.RandomInput.{RandomInput};
ghost use Rattle.vc_plan.specs.declared.node_plan.Variable.{Variable};
ghost use Rattle.vc_plan.specs.declared.channel.Channel.{Channel};
ghost use Rattle.vc_plan.specs.declared.vlink.Vlink.{Vlink};
ghost use Rattle.vc_plan.specs.declared.switch_plan.SwitchPlan.{SwitchPlan};
ghost use Rattle.vc_labels.specs.declared.row.Row.{Row};
ghost use Rattle.vc_plan.specs.Limits.{is_portal, depth_ok as has_depth, ends_there, home_there, is_letter, is_name, is_name_byte, kinds_of, limit_broken, link_ok, links_differ as all_differ, links_ok as has_links, message_ok, names_ok as has_names, begins_with_letter, ends_ok, node_names_ok, number_broken, number_ok as has_numbers, part_broken, parts_ok, port_ok as is_port, process_broken, process_names, random_ok, range_ok, route_ok, routes_ok, rows_ok, spot_there, switch_in_version_one, switch_links_ok, vars_ok, version_ok as has_version, wire_ok, wire_there};

use crate::channel::{Channel, Home};
use crate::limit_word::LimitWord;
use crate::node_plan::{NodePlan, Variable};
use crate::plan::Plan;
use crate::port::{Port, Spot, Wire};
use crate::switch_plan::{RandomInput, SwitchPlan};
use crate::vlink::{End, Vlink};
use sqlite_items::Items;
use std::alloc::Global;
use vc_labels::{Action, Row};
use vc_packets::Memory;
use vc_process::ValueKind;

fn has_no_portal(rows: &[Row]) -> bool
    ensures { result ≡ list_all (λ row. not (is_portal row.action)) rows.now }
{
    rows.iter().all(|row| !matches!(row.action, Action::Portal))
}

fn is_in_version_one(plan: &SwitchPlan) -> bool
    ensures { result ≡ switch_in_version_one plan.now }
{
    plan.random.is_empty() && has_no_portal(plan.rows.as_slice())
}

fn are_in_version_one(switches: &[SwitchPlan]) -> bool
    ensures { result ≡ list_all switch_in_version_one switches.now }
{
    switches.iter().all(is_in_version_one)
}

fn version_is_ok(plan: &Plan) -> bool
    ensures { result ≡ has_version plan.now }
{
    plan.version == 2 || (plan.version == 1 && are_in_version_one(plan.switches.as_slice()))
}

fn vars_are_ok(nodes: &[NodePlan]) -> bool
    ensures { result ≡ list_all vars_ok nodes.now }
{
    nodes.iter().all(|node| node.vars.len() <= 64)
}

fn rows_are_ok(switches: &[SwitchPlan]) -> bool
    ensures { result ≡ list_all rows_ok switches.now }
{
    switches.iter().all(|plan| plan.rows.len() <= 64)
}

fn route_is_ok(end: &End) -> bool
    ensures { result ≡ route_ok end.now }
{
    1 <= end.route.len() && end.route.len() <= 4
}

fn routes_are_ok(vlinks: &[Vlink]) -> bool
    ensures { result ≡ list_all routes_ok vlinks.now }
{
    vlinks
        .iter()
        .all(|vlink| route_is_ok(&vlink.a) && route_is_ok(&vlink.b))
}

fn link_is_ok(spot: Spot, link: u8) -> bool
    ensures { result ≡ link_ok spot link }
{
    match spot {
        Spot::Node(_) => link <= 3,
        Spot::Switch(_) => link <= 31,
    }
}

fn port_is_ok(port: Port) -> bool
    ensures { result ≡ is_port port }
{
    link_is_ok(port.spot, port.link)
}

fn wires_are_ok(wires: &[Wire]) -> bool
    ensures { result ≡ list_all wire_ok wires.now }
{
    wires
        .iter()
        .all(|wire| port_is_ok(wire.one) && port_is_ok(wire.two))
}

fn ends_are_ok(vlinks: &[Vlink]) -> bool
    ensures { result ≡ list_all ends_ok vlinks.now }
{
    vlinks
        .iter()
        .all(|vlink| vlink.a.link <= 3 && vlink.b.link <= 3)
}

fn deleting_links_are_ok(links: &[u8]) -> bool
    ensures { result ≡ list_all (λ l. nat_le l 31) links.now }
{
    links.iter().all(|link| *link <= 31)
}

fn random_links_are_ok(ranges: &[RandomInput]) -> bool
    ensures { result ≡ list_all (λ r. nat_le r.link 31) ranges.now }
{
    ranges.iter().all(|range| range.link <= 31)
}

fn links_of_switch_are_ok(plan: &SwitchPlan) -> bool
    ensures { result ≡ switch_links_ok plan.now }
{
    deleting_links_are_ok(plan.delete.as_slice()) && random_links_are_ok(plan.random.as_slice())
}

fn links_of_switches_are_ok(switches: &[SwitchPlan]) -> bool
    ensures { result ≡ list_all switch_links_ok switches.now }
{
    switches.iter().all(links_of_switch_are_ok)
}

fn links_are_ok(plan: &Plan) -> bool
    ensures { result ≡ has_links plan.now }
{
    wires_are_ok(plan.wires.as_slice())
        && (ends_are_ok(plan.vlinks.as_slice())
            && links_of_switches_are_ok(plan.switches.as_slice()))
}

fn ranges_are_ok(ranges: &[RandomInput]) -> bool
    ensures { result ≡ list_all range_ok ranges.now }
{
    ranges.iter().all(|range| range.lower < range.limit
        && range.limit - range.lower <= 64
        && range.limit <= 65536)
}

fn is_link_among(link: u8, ranges: &[RandomInput]) -> bool
    ensures { result ≡ list_any (λ r. r.link == link) ranges.now }
{
    ranges.iter().any(|range| range.link == link)
}

fn links_all_differ(ranges: &[RandomInput]) -> bool
    ensures { result ≡ all_differ ranges.now }
{
    match ranges {
        [] => true,
        [range, rest @ ..] => !is_link_among(range.link, rest) && links_all_differ(rest),
    }
}

fn random_of_switch_is_ok(plan: &SwitchPlan) -> bool
    ensures { result ≡ random_ok plan.now }
{
    ranges_are_ok(plan.random.as_slice()) && links_all_differ(plan.random.as_slice())
}

fn random_is_ok(switches: &[SwitchPlan]) -> bool
    ensures { result ≡ list_all random_ok switches.now }
{
    switches.iter().all(random_of_switch_is_ok)
}

fn depth_of_node_is_ok(node: &NodePlan) -> bool
    ensures { result ≡ has_depth node.now }
{
    node.process.is_within(32) && node.process.expressions_are_within(8)
}

fn depth_is_ok(nodes: &[NodePlan]) -> bool
    ensures { result ≡ list_all has_depth nodes.now }
{
    nodes.iter().all(depth_of_node_is_ok)
}

fn parts_of_node_are_ok(node: &NodePlan) -> bool
    ensures { result ≡ parts_ok node.now }
{
    node.process.sites(4096).is_some()
}

fn parts_are_ok(nodes: &[NodePlan]) -> bool
    ensures { result ≡ list_all parts_ok nodes.now }
{
    nodes.iter().all(parts_of_node_are_ok)
}

fn message_is_ok(nodes: &[NodePlan]) -> bool
    ensures { result ≡ list_all message_ok nodes.now }
{
    nodes.iter().all(|node| node.process.is_in_length())
}

fn spot_is_there(plan: &Plan, spot: Spot) -> bool
    ensures { result ≡ spot_there plan.now spot }
{
    match spot {
        Spot::Node(node) => usize::from(node) < plan.nodes.len(),
        Spot::Switch(switch) => usize::from(switch) < plan.switches.len(),
    }
}

fn wires_are_there(plan: &Plan, wires: &[Wire]) -> bool
    ensures { result ≡ list_all (wire_there plan.now) wires.now }
{
    wires.iter().all(|wire| spot_is_there(plan, wire.one.spot)
        && spot_is_there(plan, wire.two.spot))
}

fn ends_are_there(plan: &Plan, vlinks: &[Vlink]) -> bool
    ensures { result ≡ list_all (ends_there plan.now) vlinks.now }
{
    let nodes = plan.nodes.len();
    vlinks.iter().all(|vlink| usize::from(vlink.a.node) < nodes
        && usize::from(vlink.b.node) < nodes)
}

fn home_is_there(plan: &Plan, home: Home) -> bool
    ensures { result ≡ home_there plan.now home }
{
    match home {
        Home::Way { vlink, .. } => usize::from(vlink) < plan.vlinks.len(),
        Home::Inside { node } => usize::from(node) < plan.nodes.len(),
    }
}

fn homes_are_there(plan: &Plan, channels: &[Channel]) -> bool
    ensures { result ≡ list_all (λ c. home_there plan.now c.home) channels.now }
{
    channels
        .iter()
        .all(|channel| home_is_there(plan, channel.home))
}

/// The kinds of a node's variables.
pub(crate) fn kinds_in(alloc: Global, vars: &[Variable]) -> Result<Items<ValueKind>, Memory>
    ensures { IfOk result (λ kinds. kinds ≡ kinds_of vars.now) }
{
    let mut kinds = Items::new(alloc);
    for var in vars {
        kinds.push(var.kind)?;
    }
    Ok(kinds)
}

fn names_of_process_fit(alloc: Global, plan: &Plan, node: &NodePlan) -> Result<bool, Memory>
    ensures { IfOk result (λ fits. fits ≡ process_names plan.now node.now) }
{
    let kinds = kinds_in(alloc, node.vars.as_slice())?;
    Ok(node.process.fits(kinds.as_slice(), plan.channels.len()))
}

fn names_of_processes_fit(alloc: Global, plan: &Plan, nodes: &[NodePlan]) -> Result<bool, Memory>
    ensures { IfOk result (λ fit. fit ≡ list_all (process_names plan.now) nodes.now) }
{
    for node in nodes {
        if !names_of_process_fit(alloc, plan, node)? {
            return Ok(false);
        }
    }
    Ok(true)
}

fn numbers_are_ok(alloc: Global, plan: &Plan) -> Result<bool, Memory>
    ensures { IfOk result (λ ok. ok ≡ has_numbers plan.now) }
{
    let parts_are_there = wires_are_there(plan, plan.wires.as_slice())
        && ends_are_there(plan, plan.vlinks.as_slice())
        && homes_are_there(plan, plan.channels.as_slice());
    let names_fit = names_of_processes_fit(alloc, plan, plan.nodes.as_slice())?;
    Ok(parts_are_there && names_fit)
}

fn letter(byte: u8) -> bool
    ensures { result ≡ is_letter byte }
{
    (65 <= byte && byte <= 90) || (97 <= byte && byte <= 122)
}

fn name_byte(byte: u8) -> bool
    ensures { result ≡ is_name_byte byte }
{
    letter(byte) || ((48 <= byte && byte <= 57) || (byte == 95 || byte == 45))
}

fn name_bytes(bytes: &[u8]) -> bool
    ensures { result ≡ list_all is_name_byte bytes.now }
{
    bytes.iter().all(|byte| name_byte(*byte))
}

fn first_is_letter(bytes: &[u8]) -> bool
    ensures { result ≡ begins_with_letter bytes.now }
{
    match bytes {
        [] => false,
        [first, ..] => letter(*first),
    }
}

fn name_is_ok(name: &[u8]) -> bool
    ensures { result ≡ is_name name.now }
{
    first_is_letter(name) && name.len() <= 16 && name_bytes(name)
}

fn variable_names_are_ok(vars: &[Variable]) -> bool
    ensures { result ≡ list_all (λ v. is_name v.name) vars.now }
{
    vars.iter().all(|var| name_is_ok(var.name.as_slice()))
}

fn names_of_node_are_ok(node: &NodePlan) -> bool
    ensures { result ≡ node_names_ok node.now }
{
    name_is_ok(node.name.as_slice()) && variable_names_are_ok(node.vars.as_slice())
}

fn node_names_are_ok(nodes: &[NodePlan]) -> bool
    ensures { result ≡ list_all node_names_ok nodes.now }
{
    nodes.iter().all(names_of_node_are_ok)
}

fn switch_names_are_ok(switches: &[SwitchPlan]) -> bool
    ensures { result ≡ list_all (λ s. is_name s.name) switches.now }
{
    switches.iter().all(|plan| name_is_ok(plan.name.as_slice()))
}

fn vlink_names_are_ok(vlinks: &[Vlink]) -> bool
    ensures { result ≡ list_all (λ v. is_name v.name) vlinks.now }
{
    vlinks.iter().all(|vlink| name_is_ok(vlink.name.as_slice()))
}

fn channel_names_are_ok(channels: &[Channel]) -> bool
    ensures { result ≡ list_all (λ c. is_name c.name) channels.now }
{
    channels
        .iter()
        .all(|channel| name_is_ok(channel.name.as_slice()))
}

fn names_are_ok(plan: &Plan) -> bool
    ensures { result ≡ has_names plan.now }
{
    node_names_are_ok(plan.nodes.as_slice())
        && (switch_names_are_ok(plan.switches.as_slice())
            && (vlink_names_are_ok(plan.vlinks.as_slice())
                && channel_names_are_ok(plan.channels.as_slice())))
}

fn find_broken_number(alloc: Global, plan: &Plan) -> Result<Option<LimitWord>, Memory>
    ensures { IfOk result (λ word. word ≡ number_broken plan.now) }
{
    if !numbers_are_ok(alloc, plan)? {
        return Ok(Some(LimitWord::Number));
    }
    if !names_are_ok(plan) {
        return Ok(Some(LimitWord::Name));
    }
    Ok(None)
}

fn find_broken_process(alloc: Global, plan: &Plan) -> Result<Option<LimitWord>, Memory>
    ensures { IfOk result (λ word. word ≡ process_broken plan.now) }
{
    if !depth_is_ok(plan.nodes.as_slice()) {
        return Ok(Some(LimitWord::Depth));
    }
    if !parts_are_ok(plan.nodes.as_slice()) {
        return Ok(Some(LimitWord::Parts));
    }
    if !message_is_ok(plan.nodes.as_slice()) {
        return Ok(Some(LimitWord::Message));
    }
    find_broken_number(alloc, plan)
}

fn find_broken_part(alloc: Global, plan: &Plan) -> Result<Option<LimitWord>, Memory>
    ensures { IfOk result (λ word. word ≡ part_broken plan.now) }
{
    if !vars_are_ok(plan.nodes.as_slice()) {
        return Ok(Some(LimitWord::Vars));
    }
    if !rows_are_ok(plan.switches.as_slice()) {
        return Ok(Some(LimitWord::Rows));
    }
    if !routes_are_ok(plan.vlinks.as_slice()) {
        return Ok(Some(LimitWord::Route));
    }
    if !links_are_ok(plan) {
        return Ok(Some(LimitWord::Link));
    }
    if !random_is_ok(plan.switches.as_slice()) {
        return Ok(Some(LimitWord::Random));
    }
    find_broken_process(alloc, plan)
}

/// The first limit that the plan breaks.
pub(crate) fn find_broken_limit(alloc: Global, plan: &Plan) -> Result<Option<LimitWord>, Memory>
    ensures { IfOk result (λ word. word ≡ limit_broken plan.now) }
{
    if !version_is_ok(plan) {
        return Ok(Some(LimitWord::Version));
    }
    if plan.nodes.len() > 32 {
        return Ok(Some(LimitWord::Nodes));
    }
    if plan.switches.len() > 32 {
        return Ok(Some(LimitWord::Switches));
    }
    if plan.wires.len() > 256 {
        return Ok(Some(LimitWord::Wires));
    }
    if plan.vlinks.len() > 256 {
        return Ok(Some(LimitWord::Vlinks));
    }
    if plan.channels.len() > 512 {
        return Ok(Some(LimitWord::Channels));
    }
    find_broken_part(alloc, plan)
}
