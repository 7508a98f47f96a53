//! Readers of nodes, but for their processes.
ghost use Rattle.vc_reader.specs.Network.{read_var, read_head, read_node};

use crate::fault::Stop;
use crate::name::{NewName, one_of};
use crate::reader::{NamedReader, Reader, cell, field, object, register_field, row};
use crate::register::{Named, Register};
use crate::scalar::Kind;
use crate::word::Word;
use serde_json::Value;
use std::alloc::Global;
use vc_plan::{Name, Variable};

impl Named for Variable {
    ghost name_of = { λ v. v.name };

    fn name(&self) -> &[u8] {
        self.name.as_slice()
    }
}

/// What is read of a node before its process.
#[derive(Drop)]
pub(crate) struct Head {
    pub name: Name,
    pub vars: Register<Variable>,
}

impl Named for Head {
    ghost name_of = { λ h. h.name };

    fn name(&self) -> &[u8] {
        self.name.as_slice()
    }
}

#[derive(Drop)]
struct VariableReader;

impl NamedReader for VariableReader {
    type Out = Variable;

    ghost meaning = { λ _. read_var };

    fn read(
        &self,
        alloc: Global,
        before: &Register<Variable>,
        value: &Value,
    ) -> Result<Variable, Stop> {
        row(alloc, 2, value)?;
        let name = cell(alloc, 0, &NewName(before), value)?;
        let kind = cell(alloc, 1, &Kind, value)?;
        Ok(Variable { name, kind })
    }
}

/// A node's name and variables.
#[derive(Drop)]
pub(crate) struct HeadReader;

impl NamedReader for HeadReader {
    type Out = Head;

    ghost meaning = { λ _. read_head };

    fn read(&self, alloc: Global, before: &Register<Head>, value: &Value) -> Result<Head, Stop> {
        object(alloc, &[Word::Name, Word::Vars, Word::Process], value)?;
        let name = field(alloc, Word::Name, &NewName(before), value)?;
        let vars = register_field(alloc, Word::Vars, &VariableReader, value)?;
        Ok(Head { name, vars })
    }
}

/// The number of a node, by its name.
#[derive(Drop)]
pub(crate) struct NodeOf<'a>(pub &'a Register<Head>);

impl Reader for NodeOf<'_> {
    type Out = u8;

    ghost meaning = { λ r. read_node r.0.now };

    fn read(&self, alloc: Global, value: &Value) -> Result<u8, Stop> {
        let (number, _) = one_of(alloc, self.0, value)?;
        Ok(number.min(255) as u8)
    }
}
