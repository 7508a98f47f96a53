//! Readers of wires.
ghost use Rattle.std.specs.Prelude.{◌≡◌};
ghost use Rattle.vc_reader.specs.Private.Reading.{Gives};
ghost use Rattle.vc_reader.specs.Names.{known_or_not};
ghost use Rattle.vc_reader.specs.Network.{place_named as place_of_name, read_place, read_wire};

use crate::fault::Stop;
use crate::name::known;
use crate::node::Head;
use crate::reader::{ItemReader, Reader, cell, row, text};
use crate::register::Register;
use crate::scalar::Link;
use serde_json::Value;
use std::alloc::Global;
use vc_plan::{Port, Spot, SwitchPlan, Wire};

/// The node, or else the switch, that has the name.
fn place_named(nodes: &Register<Head>, switches: &Register<SwitchPlan>, name: &[u8]) -> Option<Spot>
    ensures { result ≡ place_of_name nodes.now switches.now name.now }
{
    match nodes.find(name) {
        Some((number, _)) => Some(Spot::Node(number.min(255) as u8)),
        None => match switches.find(name) {
            Some((number, _)) => Some(Spot::Switch(number.min(255) as u8)),
            None => None,
        },
    }
}

/// The node, or else the switch, to which a text refers.
fn place(
    alloc: Global,
    nodes: &Register<Head>,
    switches: &Register<SwitchPlan>,
    text: &str,
) -> Result<Spot, Stop>
    ensures { Gives (λ x. x) result (known_or_not (place_of_name nodes.now switches.now text.now)) }
{
    known(alloc, place_named(nodes, switches, text.as_bytes()))
}

/// A node or a switch, by its name.
#[derive(Drop)]
pub(crate) struct PlaceReader<'a> {
    pub nodes: &'a Register<Head>,
    pub switches: &'a Register<SwitchPlan>,
}

impl Reader for PlaceReader<'_> {
    type Out = Spot;

    ghost meaning = { λ r. read_place r.nodes.now r.switches.now };

    fn read(&self, alloc: Global, value: &Value) -> Result<Spot, Stop> {
        let text = text(alloc, value)?;
        place(alloc, self.nodes, self.switches, text)
    }
}

/// A wire.
#[derive(Drop)]
pub(crate) struct WireReader<'a> {
    pub nodes: &'a Register<Head>,
    pub switches: &'a Register<SwitchPlan>,
}

impl ItemReader for WireReader<'_> {
    type Out = Wire;

    ghost meaning = { λ r _. read_wire r.nodes.now r.switches.now };

    fn read(&self, alloc: Global, _before: &[Wire], value: &Value) -> Result<Wire, Stop> {
        let place = PlaceReader {
            nodes: self.nodes,
            switches: self.switches,
        };
        row(alloc, 4, value)?;
        let a = cell(alloc, 0, &place, value)?;
        let m = cell(alloc, 1, &Link, value)?;
        let b = cell(alloc, 2, &place, value)?;
        let n = cell(alloc, 3, &Link, value)?;
        Ok(Wire {
            one: Port { spot: a, link: m },
            two: Port { spot: b, link: n },
        })
    }
}
