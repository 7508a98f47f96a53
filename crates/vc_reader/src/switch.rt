//! Readers of switches.
ghost use Rattle.std.specs.Prelude.{◌≡◌};
ghost use Rattle.serde_json.specs.View.{view};
ghost use Rattle.vc_reader.specs.Private.Reading.{Gives};
ghost use Rattle.vc_reader.specs.Reading.{read_object};
ghost use Rattle.vc_reader.specs.Names.{own_name as own_name_of, new_name};
ghost use Rattle.vc_reader.specs.Network.{portal_row as portal_row_of, out_row as out_row_of, table_row, read_random, is_place as is_place_name, switch_words, read_switch};

use crate::fault::Stop;
use crate::name::own_name;
use crate::node::Head;
use crate::reader::{NamedReader, Reader, cell, field, items_in, list_field, object, row, text};
use crate::register::{Named, Register};
use crate::scalar::{Each, Limit, Link, ListOf, Lower, PortalWord};
use crate::word::Word;
use serde_json::Value;
use std::alloc::Global;
use vc_labels::{Action, Row};
use vc_plan::{Name, RandomInput, SwitchPlan};

impl Named for SwitchPlan {
    ghost name_of = { λ w. w.name };

    fn name(&self) -> &[u8] {
        self.name.as_slice()
    }
}

/// The row of a portal.
fn portal_row(alloc: Global, value: &Value) -> Result<Row, Stop>
    ensures { Gives (λ x. x) result (portal_row_of (view value.now)) }
{
    let lower = cell(alloc, 0, &Lower, value)?;
    let limit = cell(alloc, 1, &Limit, value)?;
    cell(alloc, 2, &PortalWord, value)?;
    Ok(Row {
        lower,
        limit,
        action: Action::Portal,
    })
}

/// A row that leads out by a group of links.
fn out_row(alloc: Global, value: &Value) -> Result<Row, Stop>
    ensures { Gives (λ x. x) result (out_row_of (view value.now)) }
{
    row(alloc, 4, value)?;
    let lower = cell(alloc, 0, &Lower, value)?;
    let limit = cell(alloc, 1, &Limit, value)?;
    let first = cell(alloc, 2, &Link, value)?;
    let last = cell(alloc, 3, &Link, value)?;
    Ok(Row {
        lower,
        limit,
        action: Action::Out { first, last },
    })
}

/// A row of a table, in a file of that version.
#[derive(Drop)]
struct TableRow(u8);

impl Reader for TableRow {
    type Out = Row;

    ghost meaning = { λ r. table_row r.0 };

    fn read(&self, alloc: Global, value: &Value) -> Result<Row, Stop> {
        if self.0 == 2 && items_in(value) == 3 {
            portal_row(alloc, value)
        } else {
            out_row(alloc, value)
        }
    }
}

#[derive(Drop)]
struct RandomReader;

impl Reader for RandomReader {
    type Out = RandomInput;

    ghost meaning = { λ _. read_random };

    fn read(&self, alloc: Global, value: &Value) -> Result<RandomInput, Stop> {
        row(alloc, 3, value)?;
        let link = cell(alloc, 0, &Link, value)?;
        let lower = cell(alloc, 1, &Lower, value)?;
        let limit = cell(alloc, 2, &Limit, value)?;
        Ok(RandomInput { link, lower, limit })
    }
}

/// Whether a node or a switch has the name.
fn is_place(nodes: &Register<Head>, switches: &Register<SwitchPlan>, name: &[u8]) -> bool
    ensures { result ≡ is_place_name nodes.now switches.now name.now }
{
    nodes.has(name) || switches.has(name)
}

/// A text that must be a name, and none of a node or a switch.
fn place_name(
    alloc: Global,
    nodes: &Register<Head>,
    switches: &Register<SwitchPlan>,
    text: &str,
) -> Result<Name, Stop>
    ensures { Gives (λ x. x) result
        (own_name_of (is_place_name nodes.now switches.now text.now) text.now) }
{
    let text = text.as_bytes();
    own_name(alloc, is_place(nodes, switches, text), text)
}

/// A name that no node and no switch has.
#[derive(Drop)]
pub(crate) struct NewPlace<'a> {
    pub nodes: &'a Register<Head>,
    pub switches: &'a Register<SwitchPlan>,
}

impl Reader for NewPlace<'_> {
    type Out = Name;

    ghost meaning = { λ r. new_name (is_place_name r.nodes.now r.switches.now) };

    fn read(&self, alloc: Global, value: &Value) -> Result<Name, Stop> {
        let text = text(alloc, value)?;
        place_name(alloc, self.nodes, self.switches, text)
    }
}

/// An object that has no fields but those of a switch.
fn switch_object(alloc: Global, version: u8, value: &Value) -> Result<(), Stop>
    ensures { Gives (λ x. x) result (read_object (switch_words version) (view value.now)) }
{
    if version == 2 {
        object(
            alloc,
            &[Word::Name, Word::Table, Word::Delete, Word::Random],
            value,
        )
    } else {
        object(alloc, &[Word::Name, Word::Table, Word::Delete], value)
    }
}

/// A switch, in a file of that version.
#[derive(Drop)]
pub(crate) struct SwitchReader<'a> {
    pub version: u8,
    pub nodes: &'a Register<Head>,
}

impl NamedReader for SwitchReader<'_> {
    type Out = SwitchPlan;

    ghost meaning = { λ r. read_switch r.version r.nodes.now };

    fn read(
        &self,
        alloc: Global,
        before: &Register<SwitchPlan>,
        value: &Value,
    ) -> Result<SwitchPlan, Stop> {
        switch_object(alloc, self.version, value)?;
        let place = NewPlace {
            nodes: self.nodes,
            switches: before,
        };
        let name = field(alloc, Word::Name, &place, value)?;
        let table = ListOf(Each(TableRow(self.version)));
        let rows = field(alloc, Word::Table, &table, value)?;
        let delete = list_field(alloc, Word::Delete, &Each(Link), value)?;
        let random = list_field(alloc, Word::Random, &Each(RandomReader), value)?;
        Ok(SwitchPlan {
            name,
            rows,
            delete,
            random,
        })
    }
}
