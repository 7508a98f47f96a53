//! The first part of a network that is beyond a limit.
ghost use Rattle.std.specs.Prelude.{◌≡◌, ◌==◌, nat_le};
ghost use Rattle.std.specs.List.{list_all, list_any};
ghost use Rattle.vc_explain.specs.Offenders.{first_failing};
ghost use Rattle.vc_plan.specs.Limits.{depth_ok, ends_ok, link_ok, links_differ, parts_ok, port_ok, random_ok, range_ok, route_ok, routes_ok, rows_ok, switch_links_ok, vars_ok, wire_ok};

use vc_plan::{End, NodePlan, Port, RandomInput, Spot, SwitchPlan, Vlink, Wire};

fn has_few_vars(node: &NodePlan) -> bool
    ensures { result ≡ vars_ok node.now }
{
    node.vars.len() <= 64
}

/// The first node with more than 64 variables.
pub(crate) fn many_vars(nodes: &[NodePlan]) -> Option<usize>
    ensures { result ≡ first_failing vars_ok nodes.now }
{
    nodes.iter().position(|node| !has_few_vars(node))
}

fn has_few_rows(switch: &SwitchPlan) -> bool
    ensures { result ≡ rows_ok switch.now }
{
    switch.rows.len() <= 64
}

/// The first switch with more than 64 rows.
pub(crate) fn many_rows(switches: &[SwitchPlan]) -> Option<usize>
    ensures { result ≡ first_failing rows_ok switches.now }
{
    switches.iter().position(|switch| !has_few_rows(switch))
}

fn has_route(end: &End) -> bool
    ensures { result ≡ route_ok end.now }
{
    1 <= end.route.len() && end.route.len() <= 4
}

fn has_routes(vlink: &Vlink) -> bool
    ensures { result ≡ routes_ok vlink.now }
{
    has_route(&vlink.a) && has_route(&vlink.b)
}

/// The first virtual link with a route of no header or more than 4.
pub(crate) fn bad_route(vlinks: &[Vlink]) -> Option<usize>
    ensures { result ≡ first_failing routes_ok vlinks.now }
{
    vlinks.iter().position(|vlink| !has_routes(vlink))
}

fn is_link(spot: Spot, link: u8) -> bool
    ensures { result ≡ link_ok spot link }
{
    match spot {
        Spot::Node(_) => link <= 3,
        Spot::Switch(_) => link <= 31,
    }
}

fn is_port(port: Port) -> bool
    ensures { result ≡ port_ok port }
{
    is_link(port.spot, port.link)
}

fn has_ports(wire: &Wire) -> bool
    ensures { result ≡ wire_ok wire.now }
{
    is_port(wire.one) && is_port(wire.two)
}

/// The first wire at a link that its place has not.
pub(crate) fn bad_wire(wires: &[Wire]) -> Option<usize>
    ensures { result ≡ first_failing wire_ok wires.now }
{
    wires.iter().position(|wire| !has_ports(wire))
}

fn has_ends(vlink: &Vlink) -> bool
    ensures { result ≡ ends_ok vlink.now }
{
    vlink.a.link <= 3 && vlink.b.link <= 3
}

/// The first virtual link with an end at a link that a node has not.
pub(crate) fn bad_end(vlinks: &[Vlink]) -> Option<usize>
    ensures { result ≡ first_failing ends_ok vlinks.now }
{
    vlinks.iter().position(|vlink| !has_ends(vlink))
}

fn are_links(links: &[u8]) -> bool
    ensures { result ≡ list_all (λ l. nat_le l 31) links.now }
{
    links.iter().all(|link| *link <= 31)
}

fn are_at_links(ranges: &[RandomInput]) -> bool
    ensures { result ≡ list_all (λ r. nat_le r.link 31) ranges.now }
{
    ranges.iter().all(|range| range.link <= 31)
}

fn has_links(switch: &SwitchPlan) -> bool
    ensures { result ≡ switch_links_ok switch.now }
{
    are_links(switch.delete.as_slice()) && are_at_links(switch.random.as_slice())
}

/// The first switch that deletes headers or puts random ones at a link past 31.
pub(crate) fn bad_switch_link(switches: &[SwitchPlan]) -> Option<usize>
    ensures { result ≡ first_failing switch_links_ok switches.now }
{
    switches.iter().position(|switch| !has_links(switch))
}

fn are_ranges(ranges: &[RandomInput]) -> bool
    ensures { result ≡ list_all range_ok ranges.now }
{
    ranges.iter().all(|range| range.lower < range.limit
        && range.limit - range.lower <= 64
        && range.limit <= 65536)
}

fn is_among(link: u8, ranges: &[RandomInput]) -> bool
    ensures { result ≡ list_any (λ r. r.link == link) ranges.now }
{
    ranges.iter().any(|range| range.link == link)
}

fn differ(ranges: &[RandomInput]) -> bool
    ensures { result ≡ links_differ ranges.now }
{
    match ranges {
        [] => true,
        [range, rest @ ..] => !is_among(range.link, rest) && differ(rest),
    }
}

fn has_ranges(switch: &SwitchPlan) -> bool
    ensures { result ≡ random_ok switch.now }
{
    are_ranges(switch.random.as_slice()) && differ(switch.random.as_slice())
}

/// The first switch with a random input that has no value, more than 64, one past 65,535, or a link of another one.
pub(crate) fn bad_random(switches: &[SwitchPlan]) -> Option<usize>
    ensures { result ≡ first_failing random_ok switches.now }
{
    switches.iter().position(|switch| !has_ranges(switch))
}

fn is_shallow(node: &NodePlan) -> bool
    ensures { result ≡ depth_ok node.now }
{
    node.process.is_within(32) && node.process.expressions_are_within(8)
}

/// The first node whose processes nest more than 32 deep, or an expression more than 8.
pub(crate) fn too_deep(nodes: &[NodePlan]) -> Option<usize>
    ensures { result ≡ first_failing depth_ok nodes.now }
{
    nodes.iter().position(|node| !is_shallow(node))
}

fn has_few_parts(node: &NodePlan) -> bool
    ensures { result ≡ parts_ok node.now }
{
    node.process.sites(4096).is_some()
}

/// The first node with more than 4,096 processes.
pub(crate) fn many_parts(nodes: &[NodePlan]) -> Option<usize>
    ensures { result ≡ first_failing parts_ok nodes.now }
{
    nodes.iter().position(|node| !has_few_parts(node))
}
