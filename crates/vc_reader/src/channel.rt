//! Readers of channels.
ghost use Rattle.serde_json.specs.View.{view};
ghost use Rattle.vc_reader.specs.Private.Reading.{Gives};
ghost use Rattle.vc_reader.specs.Reading.{read_object};
ghost use Rattle.vc_reader.specs.Network.{way_home as way_home_of, node_home as node_home_of, channel_words, read_home, read_channel};

use crate::fault::Stop;
use crate::name::NewName;
use crate::node::{Head, NodeOf};
use crate::reader::{NamedReader, field, has_field, object};
use crate::register::{Named, Register};
use crate::scalar::{FromA, Kind};
use crate::vlink::VlinkOf;
use crate::word::Word;
use serde_json::Value;
use std::alloc::Global;
use vc_plan::{Channel, Home, Vlink};

impl Named for Channel {
    ghost name_of = { λ c. c.name };

    fn name(&self) -> &[u8] {
        self.name.as_slice()
    }
}

/// A way of a virtual link.
fn way_home(alloc: Global, vlinks: &Register<Vlink>, value: &Value) -> Result<Home, Stop>
    ensures { Gives (λ x. x) result (way_home_of vlinks.now (view value.now)) }
{
    let vlink = field(alloc, Word::Vlink, &VlinkOf(vlinks), value)?;
    let from_a = field(alloc, Word::Way, &FromA, value)?;
    Ok(Home::Way { vlink, from_a })
}

/// The inside of a node.
fn node_home(alloc: Global, nodes: &Register<Head>, value: &Value) -> Result<Home, Stop>
    ensures { Gives (λ x. x) result (node_home_of nodes.now (view value.now)) }
{
    let node = field(alloc, Word::Node, &NodeOf(nodes), value)?;
    Ok(Home::Inside { node })
}

/// What carries a channel: it is inside the node that it names, or on a way of a virtual link.
fn home(
    alloc: Global,
    nodes: &Register<Head>,
    vlinks: &Register<Vlink>,
    value: &Value,
) -> Result<Home, Stop>
    ensures { Gives (λ x. x) result (read_home nodes.now vlinks.now (view value.now)) }
{
    if has_field(Word::Node, value) {
        node_home(alloc, nodes, value)
    } else {
        way_home(alloc, vlinks, value)
    }
}

/// An object that has no fields but those of a channel.
fn channel_object(alloc: Global, value: &Value) -> Result<(), Stop>
    ensures { Gives (λ x. x) result
        (read_object (channel_words (view value.now)) (view value.now)) }
{
    if has_field(Word::Node, value) {
        object(alloc, &[Word::Name, Word::Kind, Word::Node], value)
    } else {
        object(
            alloc,
            &[Word::Name, Word::Kind, Word::Vlink, Word::Way],
            value,
        )
    }
}

/// A channel inside one of these nodes, or on one of these virtual links.
#[derive(Drop)]
pub(crate) struct ChannelReader<'a> {
    pub nodes: &'a Register<Head>,
    pub vlinks: &'a Register<Vlink>,
}

impl NamedReader for ChannelReader<'_> {
    type Out = Channel;

    ghost meaning = { λ r. read_channel r.nodes.now r.vlinks.now };

    fn read(
        &self,
        alloc: Global,
        before: &Register<Channel>,
        value: &Value,
    ) -> Result<Channel, Stop> {
        channel_object(alloc, value)?;
        let name = field(alloc, Word::Name, &NewName(before), value)?;
        let kind = field(alloc, Word::Kind, &Kind, value)?;
        let home = home(alloc, self.nodes, self.vlinks, value)?;
        Ok(Channel { name, kind, home })
    }
}
