//! Reading a whole network file.
ghost use Rattle.std.specs.Prelude.{◌≡◌, ◌⊎◌, Ok, Some, None, IfOk, IfErr, IsUtf8};
ghost use Rattle.std.specs.Option.{option_copied};
ghost use Rattle.serde_json.specs.View.{view};
ghost use Rattle.serde_json.specs.Read.{read};
ghost use Rattle.vc_reader.specs.Private.Reading.{Gives};
ghost use Rattle.vc_reader.specs.Reading.{read_number, read_list, field as field_of};
ghost use Rattle.vc_reader.specs.Network.{read_head};
ghost use Rattle.vc_reader.specs.Processes.{whole_process};
ghost use Rattle.vc_reader.specs.NetworkText.{vars_of, node_process, node_plans, read_nodes, plan_with_wires, plan_with_nodes, read_plan, Reads};
ghost use Rattle.vc_reader.specs.declared.refused.ReadRefused.TheVariants.{Memory as OutOfMemory, Json};

use crate::channel::ChannelReader;
use crate::fault::{Fault, Stop};
use crate::node::{Head, HeadReader};
use crate::process::WholeProcess;
use crate::reader::{
    ItemReader, Reader, field, list_field, number, object, register, register_field,
};
use crate::refused::ReadRefused;
use crate::register::Register;
use crate::scalar::ListOf;
use crate::switch::SwitchReader;
use crate::vlink::VlinkReader;
use crate::wire::WireReader;
use crate::word::Word;
use serde_json::Value;
use sqlite_items::Items;
use std::alloc::Global;
use vc_packets::Memory;
use vc_plan::{Channel, NodePlan, Plan, SwitchPlan, Wire};
use vc_process::Process;

#[derive(Drop)]
pub(crate) struct Version;

impl Reader for Version {
    type Out = u8;

    ghost meaning = { λ _. read_number 1 2 };

    fn read(&self, alloc: Global, value: &Value) -> Result<u8, Stop> {
        Ok(number(alloc, 1, 2, value)? as u8)
    }
}

/// All nodes, but for their processes.
#[derive(Drop)]
pub(crate) struct Heads;

impl Reader for Heads {
    type Out = Register<Head>;

    ghost meaning = { λ _. read_list read_head };

    fn read(&self, alloc: Global, value: &Value) -> Result<Register<Head>, Stop> {
        register(alloc, &HeadReader, value)
    }
}

/// The process of the node whose number is that of the processes before it.
#[derive(Drop)]
struct NodeProcess<'a> {
    heads: &'a Register<Head>,
    channels: &'a Register<Channel>,
}

/// The process of a node with this head.
fn process_at(
    alloc: Global,
    head: Option<&Head>,
    channels: &Register<Channel>,
    value: &Value,
) -> Result<Process, Stop>
    ensures { Gives (λ x. x) result
        (field_of Word.Process (whole_process (vars_of (option_copied head.entry)) channels.now)
        (view value.now)) }
{
    match head {
        Some(head) => {
            let vars = &head.vars;
            field(
                alloc,
                Word::Process,
                &WholeProcess { vars, channels },
                value,
            )
        }
        None => {
            let vars = &Register::new(alloc);
            field(
                alloc,
                Word::Process,
                &WholeProcess { vars, channels },
                value,
            )
        }
    }
}

impl ItemReader for NodeProcess<'_> {
    type Out = Process;

    ghost meaning = { λ r. node_process r.heads.now r.channels.now };

    fn read(&self, alloc: Global, before: &[Process], value: &Value) -> Result<Process, Stop> {
        process_at(alloc, self.heads.get(before.len()), self.channels, value)
    }
}

/// The items, to be taken one by one from the front.
fn taken_apart<T: Drop>(alloc: Global, items: Items<T>) -> Result<Vec<T>, Memory>
    ensures { IfOk result (λ v. v.items ≡ items) }
{
    let mut rest = items;
    let mut backward = Vec::new(alloc);
    while let Some(last) = rest.pop() {
        backward.push(last)?;
    }
    backward.reverse();
    Ok(backward)
}

/// The nodes, each of a head and its process.
fn joined(
    alloc: Global,
    heads: Items<Head>,
    processes: Items<Process>,
) -> Result<Items<NodePlan>, Memory>
    ensures { IfOk result (λ nodes. nodes ≡ node_plans heads processes) }
{
    let mut heads = taken_apart(alloc, heads)?.into_iter();
    let mut processes = taken_apart(alloc, processes)?.into_iter();
    let mut nodes = Items::new(alloc);
    while let Some(head) = heads.next() {
        let Some(process) = processes.next() else {
            return Ok(nodes);
        };
        let Head { name, vars } = head;
        nodes.push(NodePlan {
            name,
            vars: vars.into_items(),
            process,
        })?;
    }
    Ok(nodes)
}

/// The nodes that have these heads.
fn nodes(
    alloc: Global,
    heads: Register<Head>,
    channels: &Register<Channel>,
    value: &Value,
) -> Result<Items<NodePlan>, Stop>
    ensures { Gives (λ x. x) result (read_nodes heads channels.now (view value.now)) }
{
    let process = NodeProcess {
        heads: &heads,
        channels,
    };
    let processes = field(alloc, Word::Nodes, &ListOf(process), value)?;
    Ok(joined(alloc, heads.into_items(), processes)?)
}

/// The plan of these nodes, switches and wires.
fn plan_with_wires(
    alloc: Global,
    heads: Register<Head>,
    switches: Items<SwitchPlan>,
    wires: Items<Wire>,
    value: &Value,
) -> Result<Plan, Stop>
    ensures { Gives (λ x. x) result (plan_with_wires heads switches wires (view value.now)) }
{
    let vlinks = register_field(alloc, Word::Vlinks, &VlinkReader(&heads), value)?;
    let channel = ChannelReader {
        nodes: &heads,
        vlinks: &vlinks,
    };
    let channels = register_field(alloc, Word::Channels, &channel, value)?;
    let nodes = nodes(alloc, heads, &channels, value)?;
    Ok(Plan {
        version: 2,
        nodes,
        switches,
        wires,
        vlinks: vlinks.into_items(),
        channels: channels.into_items(),
    })
}

/// The plan of these nodes, in a file of this version.
fn plan_with_nodes(
    alloc: Global,
    version: u8,
    heads: Register<Head>,
    value: &Value,
) -> Result<Plan, Stop>
    ensures { Gives (λ x. x) result (plan_with_nodes version heads (view value.now)) }
{
    let switch = SwitchReader {
        version,
        nodes: &heads,
    };
    let switches = register_field(alloc, Word::Switches, &switch, value)?;
    let wire = WireReader {
        nodes: &heads,
        switches: &switches,
    };
    let wires = list_field(alloc, Word::Wires, &wire, value)?;
    plan_with_wires(alloc, heads, switches.into_items(), wires, value)
}

/// The plan that a value means.
fn plan(alloc: Global, value: &Value) -> Result<Plan, Stop>
    ensures { Gives (λ x. x) result (read_plan (view value.now)) }
{
    let fields = [
        Word::Version,
        Word::Nodes,
        Word::Switches,
        Word::Wires,
        Word::Vlinks,
        Word::Channels,
    ];
    object(alloc, &fields, value)?;
    let version = field(alloc, Word::Version, &Version, value)?;
    let heads = field(alloc, Word::Nodes, &Heads, value)?;
    plan_with_nodes(alloc, version, heads, value)
}

/// The JSON value of a text.
pub(crate) fn parse(alloc: Global, text: &[u8]) -> Result<Value, ReadRefused>
    ensures ok { IfOk result (λ v. IsUtf8 text.now × (read text.now ≡ Some (view v))) }
    ensures err { IfErr result
        (λ e. (e ≡ OutOfMemory) ⊎ ((e ≡ Json) × (IsUtf8 text.now → read text.now ≡ None))) }
{
    match Value::from_slice(alloc, text) {
        Ok(value) => Ok(value),
        Err(e) => if e.is_memory() {
            Err(ReadRefused::Memory)
        } else {
            Err(ReadRefused::Json)
        },
    }
}

/// The plan of a network file's text. It is exactly the plan that the text means; otherwise the text is refused for its first
/// fault, in the order in which the format is read, for being no JSON, or for want of memory. It takes time linear in the text,
/// but for the logarithm of a look-up by name.
pub fn read_network(alloc: Global, text: &[u8]) -> Result<Plan, ReadRefused>
    ensures { Reads text.now result }
{
    let value = parse(alloc, text)?;
    match plan(alloc, &value) {
        Ok(plan) => Ok(plan),
        Err(Stop::Memory) => Err(ReadRefused::Memory),
        Err(Stop::Fault(fault)) => {
            let Fault { why, path } = fault;
            Err(ReadRefused::at(why, path))
        }
    }
}
