//! Readers of virtual links.
ghost use Rattle.vc_reader.specs.Network.{read_end, read_vlink, vlink_number};

use crate::fault::Stop;
use crate::name::{NewName, one_of};
use crate::node::{Head, NodeOf};
use crate::reader::{NamedReader, Reader, cell, field, object, row};
use crate::register::{Named, Register};
use crate::scalar::{Each, Header, Link, ListOf};
use crate::word::Word;
use serde_json::Value;
use std::alloc::Global;
use vc_plan::{End, Vlink};

impl Named for Vlink {
    ghost name_of = { λ v. v.name };

    fn name(&self) -> &[u8] {
        self.name.as_slice()
    }
}

#[derive(Drop)]
struct EndReader<'a>(&'a Register<Head>);

impl Reader for EndReader<'_> {
    type Out = End;

    ghost meaning = { λ r. read_end r.0.now };

    fn read(&self, alloc: Global, value: &Value) -> Result<End, Stop> {
        row(alloc, 4, value)?;
        let node = cell(alloc, 0, &NodeOf(self.0), value)?;
        let link = cell(alloc, 1, &Link, value)?;
        let block = cell(alloc, 2, &Header, value)?;
        let route = cell(alloc, 3, &ListOf(Each(Header)), value)?;
        Ok(End {
            node,
            link,
            block,
            route,
        })
    }
}

/// A virtual link between two of these nodes.
#[derive(Drop)]
pub(crate) struct VlinkReader<'a>(pub &'a Register<Head>);

impl NamedReader for VlinkReader<'_> {
    type Out = Vlink;

    ghost meaning = { λ r. read_vlink r.0.now };

    fn read(&self, alloc: Global, before: &Register<Vlink>, value: &Value) -> Result<Vlink, Stop> {
        object(alloc, &[Word::Name, Word::A, Word::B], value)?;
        let name = field(alloc, Word::Name, &NewName(before), value)?;
        let a = field(alloc, Word::A, &EndReader(self.0), value)?;
        let b = field(alloc, Word::B, &EndReader(self.0), value)?;
        Ok(Vlink { name, a, b })
    }
}

/// The number of a virtual link, by its name.
#[derive(Drop)]
pub(crate) struct VlinkOf<'a>(pub &'a Register<Vlink>);

impl Reader for VlinkOf<'_> {
    type Out = u16;

    ghost meaning = { λ r. vlink_number r.0.now };

    fn read(&self, alloc: Global, value: &Value) -> Result<u16, Stop> {
        let (number, _) = one_of(alloc, self.0, value)?;
        Ok(number.min(65535) as u16)
    }
}
