//! Readers of wires whose links may be left out.
ghost use Rattle.std.specs.Prelude.{◌≡◌};
ghost use Rattle.serde_json.specs.View.{view};
ghost use Rattle.vc_reader.specs.Private.Reading.{Gives};
ghost use Rattle.vc_reader.specs.Bare.{linked as linked_of, one_wire as one_wire_of, several_wires, read_bare_wire};

use crate::bare::BareWire;
use crate::fault::Stop;
use crate::node::Head;
use crate::reader::{ItemReader, Reader, cell, items_in, number, row};
use crate::register::Register;
use crate::wire::{PlaceReader, WireReader};
use serde_json::Value;
use std::alloc::Global;
use vc_plan::SwitchPlan;

/// How many wires an entry asks for.
#[derive(Drop)]
struct Count;

impl Reader for Count {
    type Out = u16;

    ghost use Rattle.vc_reader.specs.Reading.{read_number};

    ghost meaning = { λ _. read_number 1 256 };

    fn read(&self, alloc: Global, value: &Value) -> Result<u16, Stop> {
        Ok(number(alloc, 1, 256, value)? as u16)
    }
}

/// An entry of `wires`.
#[derive(Drop)]
pub(crate) struct BareWireReader<'a> {
    pub nodes: &'a Register<Head>,
    pub switches: &'a Register<SwitchPlan>,
}

impl BareWireReader<'_> {
    /// A wire with its links.
    fn linked(&self, alloc: Global, value: &Value) -> Result<BareWire, Stop>
        ensures { Gives (λ x. x) result
            (linked_of self.now.nodes.now self.now.switches.now (view value.now)) }
    {
        let wire = WireReader {
            nodes: self.nodes,
            switches: self.switches,
        };
        Ok(BareWire::Linked(wire.read(alloc, &[], value)?))
    }

    /// A wire by any links.
    fn one_wire(&self, alloc: Global, value: &Value) -> Result<BareWire, Stop>
        ensures { Gives (λ x. x) result
            (one_wire_of self.now.nodes.now self.now.switches.now (view value.now)) }
    {
        let place = PlaceReader {
            nodes: self.nodes,
            switches: self.switches,
        };
        row(alloc, 2, value)?;
        let one = cell(alloc, 0, &place, value)?;
        let two = cell(alloc, 1, &place, value)?;
        Ok(BareWire::Unlinked { one, two, count: 1 })
    }

    /// Several wires by any links.
    fn several_wires(&self, alloc: Global, value: &Value) -> Result<BareWire, Stop>
        ensures { Gives (λ x. x) result
            (several_wires self.now.nodes.now self.now.switches.now (view value.now)) }
    {
        let place = PlaceReader {
            nodes: self.nodes,
            switches: self.switches,
        };
        let one = cell(alloc, 0, &place, value)?;
        let two = cell(alloc, 1, &place, value)?;
        let count = cell(alloc, 2, &Count, value)?;
        Ok(BareWire::Unlinked { one, two, count })
    }
}

impl ItemReader for BareWireReader<'_> {
    type Out = BareWire;

    ghost meaning = { λ r _. read_bare_wire r.nodes.now r.switches.now };

    fn read(&self, alloc: Global, _before: &[BareWire], value: &Value) -> Result<BareWire, Stop> {
        match items_in(value) {
            4 => self.linked(alloc, value),
            3 => self.several_wires(alloc, value),
            _ => self.one_wire(alloc, value),
        }
    }
}
