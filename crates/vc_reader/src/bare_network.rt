//! Reading a whole network file without its labelling.
ghost use Rattle.std.specs.Prelude.{◌≡◌, map, IfOk};
ghost use Rattle.serde_json.specs.View.{view};
ghost use Rattle.vc_reader.specs.Private.Reading.{Gives};
ghost use Rattle.vc_reader.specs.Bare.{bare_with_nodes as bare_of_nodes, read_bare as bare_of, ReadsBare};

use crate::bare::BareNetwork;
use crate::bare_channel::BareChannelReader;
use crate::bare_switch::BareSwitchReader;
use crate::bare_wire::BareWireReader;
use crate::fault::{Fault, Stop};
use crate::network::{Heads, Version, parse};
use crate::node::Head;
use crate::reader::{field, list_field, object, register_field};
use crate::refused::ReadRefused;
use crate::register::{Named, Register};
use crate::word::Word;
use serde_json::Value;
use sqlite_items::Items;
use std::alloc::Global;
use vc_packets::Memory;
use vc_plan::Name;

/// The names of things.
fn names<T: Named>(alloc: Global, things: &[T]) -> Result<Items<Name>, Memory>
    ensures { IfOk result (λ names. names ≡ map T.name_of things.now) }
{
    let mut names = Items::new(alloc);
    for thing in things {
        names.push(Items::from_slice(alloc, thing.name())?)?;
    }
    Ok(names)
}

/// The network of these nodes, in a file of this version.
fn bare_with_nodes(
    alloc: Global,
    version: u8,
    heads: Register<Head>,
    value: &Value,
) -> Result<BareNetwork, Stop>
    ensures { Gives (λ x. x) result (bare_of_nodes version heads (view value.now)) }
{
    let switches = register_field(alloc, Word::Switches, &BareSwitchReader(&heads), value)?;
    let wire = BareWireReader {
        nodes: &heads,
        switches: &switches,
    };
    let wires = list_field(alloc, Word::Wires, &wire, value)?;
    let channels = register_field(alloc, Word::Channels, &BareChannelReader(&heads), value)?;
    let nodes = names(alloc, heads.into_items().as_slice())?;
    let switches = names(alloc, switches.into_items().as_slice())?;
    Ok(BareNetwork {
        version,
        nodes,
        switches,
        wires,
        channels: channels.into_items(),
    })
}

/// The network that a value means, without its labelling.
fn bare(alloc: Global, value: &Value) -> Result<BareNetwork, Stop>
    ensures { Gives (λ x. x) result (bare_of (view value.now)) }
{
    let fields = [
        Word::Version,
        Word::Nodes,
        Word::Switches,
        Word::Wires,
        Word::Channels,
    ];
    object(alloc, &fields, value)?;
    let version = field(alloc, Word::Version, &Version, value)?;
    let heads = field(alloc, Word::Nodes, &Heads, value)?;
    bare_with_nodes(alloc, version, heads, value)
}

/// Reads the short form of a network file, which has no labelling. The answer is exactly the network that the text means.
///
/// The call reads the names and variables of the nodes, and leaves their processes unread. It takes time linear in the length of the
/// text, times the logarithm that a look-up by name takes.
///
/// # Errors
///
/// The text is refused if it is not JSON, or for its first fault, in the order in which the format is read. The call also fails when out
/// of memory.
pub fn read_bare(alloc: Global, text: &[u8]) -> Result<BareNetwork, ReadRefused>
    ensures { ReadsBare text.now result }
{
    let value = parse(alloc, text)?;
    match bare(alloc, &value) {
        Ok(bare) => Ok(bare),
        Err(Stop::Memory) => Err(ReadRefused::Memory),
        Err(Stop::Fault(fault)) => {
            let Fault { why, path } = fault;
            Err(ReadRefused::at(why, path))
        }
    }
}
