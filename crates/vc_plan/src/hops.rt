//! One passage through a switch.

ghost use Rattle.std.specs.Prelude.{◌≡◌, [], IfOk};
ghost use Rattle.vc_plan.specs.Hops.{passage, look_up, deletes, random_at, after_link};
ghost use Rattle.vc_plan.specs.Wires.{across, same_spot, same_port};

use crate::fault::Fault;
use crate::plan::Plan;
use crate::port::{Port, Spot, Wire};
use crate::stack::{Passage, headers_behind};
use crate::switch_plan::{RandomInput, SwitchPlan};
use sqlite_items::Items;
use std::alloc::Global;
use vc_labels::{Action, Row, find_action};
use vc_packets::Memory;

pub(crate) fn equal_spots(a: Spot, b: Spot) -> bool
    ensures { result ≡ same_spot a b }
{
    match (a, b) {
        (Spot::Node(m), Spot::Node(n)) => m == n,
        (Spot::Switch(m), Spot::Switch(n)) => m == n,
        _ => false,
    }
}

pub(crate) fn equal_ports(a: Port, b: Port) -> bool
    ensures { result ≡ same_port a b }
{
    equal_spots(a.spot, b.spot) && a.link == b.link
}

/// The other end of the wire at a port.
pub fn far_end(wires: &[Wire], port: Port) -> Option<Port>
    ensures { result ≡ across wires.now port }
{
    for wire in wires {
        if equal_ports(wire.one, port) {
            return Some(wire.two);
        }
        if equal_ports(wire.two, port) {
            return Some(wire.one);
        }
    }
    None
}

/// The range of random headers of an input.
pub(crate) fn random_range(inputs: &[RandomInput], link: u8) -> Option<RandomInput>
    ensures { result ≡ random_at inputs.now link }
{
    for input in inputs {
        if input.link == link {
            return Some(*input);
        }
    }
    None
}

/// Whether an output deletes the front header.
pub fn does_delete(links: &[u8], link: u8) -> bool
    ensures { result ≡ deletes links.now link }
{
    for other in links {
        if *other == link {
            return true;
        }
    }
    false
}

/// The headers with which a packet leaves by a link.
pub(crate) fn headers_after(
    alloc: Global,
    links: &[u8],
    link: u8,
    headers: &[u16],
) -> Result<Items<u16>, Memory>
    ensures { IfOk result (λ h. h ≡ after_link links.now link headers.now) }
{
    match headers {
        [_, rest @ ..] if does_delete(links, link) => Ok(Items::from_slice(alloc, rest)?),
        _ => Ok(Items::from_slice(alloc, headers)?),
    }
}

/// The group for the front header, portals passed.
pub(crate) fn look_up_headers(
    alloc: Global,
    rows: &[Row],
    headers: &[u16],
) -> Result<Passage, Memory>
    ensures { IfOk result (λ p. p ≡ look_up rows.now headers.now) }
{
    match headers {
        [] => Ok(Passage::Stops(Fault::StackEmpty)),
        [front, rest @ ..] => match find_action(rows, *front) {
            None => Ok(Passage::Stops(Fault::NoInterval)),
            Some(Action::Portal) => look_up_headers(alloc, rows, rest),
            Some(Action::Out { first, last }) => Ok(Passage::Leaves {
                first,
                last,
                headers: Items::from_slice(alloc, headers)?,
            }),
        },
    }
}

/// What a switch with these rows does with a packet, once the random header is put in front.
pub(crate) fn passage(
    alloc: Global,
    rows: &[Row],
    value: Option<u16>,
    headers: &[u16],
) -> Result<Passage, Memory>
    ensures { IfOk result (λ p. p ≡ passage rows.now value headers.now) }
{
    if value.is_some() && headers.len() > 5 {
        return Ok(Passage::Stops(Fault::StackFull));
    }
    let all = headers_behind(alloc, value, headers)?;
    look_up_headers(alloc, rows, all.as_slice())
}
