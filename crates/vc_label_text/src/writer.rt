//! Writing a whole network file.
use crate::channels::WholeChannel;
use itoa::Buffer;
use serde_json::Value;
use std::alloc::Global;
use vc_label::{LabelledEnd, LabelledLink, Labelling, TableRow};
use vc_packets::Memory;
use vc_plan::{Home, Spot, Wire};
use vc_process::ValueKind;
use vc_reader::BareNetwork;

/// What a network file is made of.
#[derive(Drop)]
pub(crate) struct Whole<'a> {
    pub bare: &'a BareNetwork,
    pub nodes: &'a [Value],
    pub wires: &'a [Wire],
    pub channels: &'a [WholeChannel],
    pub labelling: &'a Labelling,
}

fn put(out: &mut Vec<u8>, text: &[u8]) -> Result<(), Memory> {
    out.extend_from_slice(text)?;
    Ok(())
}

fn put_number(out: &mut Vec<u8>, n: u32) -> Result<(), Memory> {
    let mut digits = Buffer::new();
    put(out, digits.format(n).as_bytes())
}

/// A name in quotes.
fn put_name(out: &mut Vec<u8>, name: Option<&[u8]>) -> Result<(), Memory> {
    put(out, b"\"")?;
    if let Some(name) = name {
        put(out, name)?;
    }
    put(out, b"\"")
}

/// Writes what separates an item of a list from so many items before it.
fn put_between(out: &mut Vec<u8>, before: usize, between: &[u8]) -> Result<(), Memory> {
    if before == 0 {
        Ok(())
    } else {
        put(out, between)
    }
}

/// What separates the items of a field's list that has an item a line.
const LINES: &[u8] = b",\n   ";

impl Whole<'_> {
    /// The whole file.
    pub(crate) fn text(&self, alloc: Global) -> Result<Vec<u8>, Memory> {
        let mut out = Vec::new(alloc);
        put(&mut out, b"{\"version\":")?;
        put_number(&mut out, u32::from(self.bare.version))?;
        self.put_nodes(alloc, &mut out)?;
        self.put_switches(&mut out)?;
        self.put_wires(&mut out)?;
        self.put_links(&mut out)?;
        self.put_channels(&mut out)?;
        put(&mut out, b"}\n")?;
        Ok(out)
    }

    fn node_name(&self, node: u8) -> Option<&[u8]> {
        Some(self.bare.nodes.get(usize::from(node))?.as_slice())
    }

    fn spot_name(&self, spot: Spot) -> Option<&[u8]> {
        match spot {
            Spot::Node(n) => self.node_name(n),
            Spot::Switch(n) => Some(self.bare.switches.get(usize::from(n))?.as_slice()),
        }
    }

    fn put_nodes(&self, alloc: Global, out: &mut Vec<u8>) -> Result<(), Memory> {
        if self.nodes.is_empty() {
            return Ok(());
        }
        put(out, b",\n \"nodes\":[")?;
        for (k, node) in self.nodes.iter().enumerate() {
            put_between(out, k, LINES)?;
            put_node(alloc, out, node)?;
        }
        put(out, b"]")
    }

    fn put_switches(&self, out: &mut Vec<u8>) -> Result<(), Memory> {
        if self.bare.switches.is_empty() {
            return Ok(());
        }
        put(out, b",\n \"switches\":[")?;
        for (k, name) in self.bare.switches.as_slice().iter().enumerate() {
            put_between(out, k, LINES)?;
            put(out, b"{\"name\":")?;
            put_name(out, Some(name.as_slice()))?;
            put(out, b",\"table\":[")?;
            if let Some(table) = self.labelling.tables.get(k) {
                put_rows(out, table.as_slice())?;
            }
            put(out, b"]}")?;
        }
        put(out, b"]")
    }

    fn put_wires(&self, out: &mut Vec<u8>) -> Result<(), Memory> {
        if self.wires.is_empty() {
            return Ok(());
        }
        put(out, b",\n \"wires\":[")?;
        for (k, wire) in self.wires.iter().enumerate() {
            put_between(out, k, b",")?;
            put(out, b"[")?;
            put_name(out, self.spot_name(wire.one.spot))?;
            put(out, b",")?;
            put_number(out, u32::from(wire.one.link))?;
            put(out, b",")?;
            put_name(out, self.spot_name(wire.two.spot))?;
            put(out, b",")?;
            put_number(out, u32::from(wire.two.link))?;
            put(out, b"]")?;
        }
        put(out, b"]")
    }

    /// The name of a virtual link, which is that of its channel.
    fn link_name(&self, link: Option<&LabelledLink>) -> Option<&[u8]> {
        let channel = self.channels.get(link?.channel)?;
        Some(channel.name.as_slice())
    }

    /// An end, from which packets leave with the other end's header.
    fn put_end(&self, out: &mut Vec<u8>, end: LabelledEnd, other: u32) -> Result<(), Memory> {
        put(out, b"[")?;
        put_name(out, self.node_name(end.node))?;
        put(out, b",")?;
        put_number(out, u32::from(end.link))?;
        put(out, b",")?;
        put_number(out, end.block)?;
        put(out, b",[")?;
        put_number(out, other)?;
        put(out, b"]]")
    }

    fn put_links(&self, out: &mut Vec<u8>) -> Result<(), Memory> {
        if self.labelling.links.is_empty() {
            return Ok(());
        }
        put(out, b",\n \"vlinks\":[")?;
        for (k, link) in self.labelling.links.iter().enumerate() {
            put_between(out, k, LINES)?;
            put(out, b"{\"name\":")?;
            put_name(out, self.link_name(Some(link)))?;
            put(out, b",\"a\":")?;
            self.put_end(out, link.a, link.b.block)?;
            put(out, b",\"b\":")?;
            self.put_end(out, link.b, link.a.block)?;
            put(out, b"}")?;
        }
        put(out, b"]")
    }

    fn put_home(&self, out: &mut Vec<u8>, home: Option<&Home>) -> Result<(), Memory> {
        match home {
            Some(Home::Way { vlink, from_a }) => {
                put(out, b",\"vlink\":")?;
                put_name(
                    out,
                    self.link_name(self.labelling.links.get(usize::from(*vlink))),
                )?;
                put(
                    out,
                    if *from_a {
                        b",\"way\":\"ab\""
                    } else {
                        b",\"way\":\"ba\""
                    },
                )
            }
            Some(Home::Inside { node }) => {
                put(out, b",\"node\":")?;
                put_name(out, self.node_name(*node))
            }
            None => Ok(()),
        }
    }

    fn put_channels(&self, out: &mut Vec<u8>) -> Result<(), Memory> {
        if self.channels.is_empty() {
            return Ok(());
        }
        put(out, b",\n \"channels\":[")?;
        for (k, channel) in self.channels.iter().enumerate() {
            put_between(out, k, LINES)?;
            put(out, b"{\"name\":")?;
            put_name(out, Some(channel.name.as_slice()))?;
            put(
                out,
                match channel.kind {
                    ValueKind::Int => b",\"kind\":\"int\"",
                    ValueKind::Bytes => b",\"kind\":\"bytes\"",
                },
            )?;
            self.put_home(out, self.labelling.homes.get(k))?;
            put(out, b"}")?;
        }
        put(out, b"]")
    }
}

fn put_rows(out: &mut Vec<u8>, rows: &[TableRow]) -> Result<(), Memory> {
    for (k, row) in rows.iter().enumerate() {
        put_between(out, k, b",")?;
        put(out, b"[")?;
        put_number(out, row.lower)?;
        put(out, b",")?;
        put_number(out, row.limit)?;
        put(out, b",")?;
        put_number(out, u32::from(row.group.first))?;
        put(out, b",")?;
        put_number(out, u32::from(row.group.last))?;
        put(out, b"]")?;
    }
    Ok(())
}

/// A node's fields, as they were read.
fn put_node(alloc: Global, out: &mut Vec<u8>, node: &Value) -> Result<(), Memory> {
    put(out, b"{")?;
    let mut before = 0usize;
    for (key, start) in [
        ("name", b"\"name\":".as_slice()),
        ("vars", b"\"vars\":".as_slice()),
        ("process", b"\"process\":".as_slice()),
    ] {
        if let Some(part) = node.get(key) {
            put_between(out, before, b",")?;
            put(out, start)?;
            put(out, part.to_string(alloc)?.as_bytes())?;
            before = 1;
        }
    }
    put(out, b"}")
}
