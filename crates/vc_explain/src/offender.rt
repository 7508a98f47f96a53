//! What a refusal names.
ghost use Rattle.std.specs.Prelude.{◌≡◌, ◌++◌, ◌∷◌, IfOk, OnOk, Some, slice_get};
ghost use Rattle.vc_explain.specs.Offenders.{end_field as field_of_end, has_block as has_block_of, of_block, of_channel, of_first, of_item, of_limit, of_misuse, of_part, of_path, of_port, of_spot, of_table, of_usage, of_vlink, of_wire, offenders as offenders_of, path_of};
ghost use Rattle.vc_explain.specs.Place.{path_line};
ghost use Rattle.vc_plan.specs.Wires.{same_port, same_spot};

use crate::detail::bad_row;
use crate::limits::{
    bad_end, bad_random, bad_route, bad_switch_link, bad_wire, many_parts, many_rows, many_vars,
    too_deep,
};
use crate::misuse::{earlier_on_way, misuse};
use crate::offence::{Places, offence_of};
use crate::place::push_path_line;
use sqlite_items::Items;
use std::alloc::Global;
use vc_packets::Memory;
use vc_plan::{Channel, CheckRefused, End, LimitWord, PathFault, Plan, Port, Spot, Vlink, Wire};
use vc_reader::{Step, Word};

/// A part of the network file that a refusal names.
#[derive(Debug, Drop)]
pub enum Offender {
    /// A field of the file.
    All(Word),
    /// An item of a list of the file, by its number from 0.
    Item(Word, usize),
    /// A field of such an item.
    Part(Word, usize, Word),
    /// A place in a process, by the steps to it from the top of the file.
    Place(Items<Step>),
}

/// An item of a list, if there is one.
pub(crate) fn push_item(
    found: &mut Vec<Offender>,
    list: Word,
    n: Option<usize>,
) -> Result<(), Memory>
    ensures { OnOk result (found.new.items ≡ found.old.items ++ of_item list n) }
{
    if let Some(n) = n {
        found.push(Offender::Item(list, n))?;
    }
    Ok(())
}

/// A field of an item of a list, if there is such an item.
pub(crate) fn push_part(
    found: &mut Vec<Offender>,
    list: Word,
    field: Word,
    n: Option<usize>,
) -> Result<(), Memory>
    ensures { OnOk result (found.new.items ≡ found.old.items ++ of_part list field n) }
{
    if let Some(n) = n {
        found.push(Offender::Part(list, n, field))?;
    }
    Ok(())
}

/// The wire of this number, else the virtual link, else the switch.
fn push_first(
    found: &mut Vec<Offender>,
    wire: Option<usize>,
    vlink: Option<usize>,
    switch: Option<usize>,
) -> Result<(), Memory>
    ensures { OnOk result (found.new.items ≡ found.old.items ++ of_first wire vlink switch) }
{
    match (wire, vlink) {
        (Some(n), _) => found.push(Offender::Item(Word::Wires, n))?,
        (None, Some(n)) => found.push(Offender::Item(Word::Vlinks, n))?,
        (None, None) => push_item(found, Word::Switches, switch)?,
    }
    Ok(())
}

/// The first part that breaks a limit, or the field of the file that does.
fn push_limit(found: &mut Vec<Offender>, plan: &Plan, word: LimitWord) -> Result<(), Memory>
    ensures { OnOk result (found.new.items ≡ found.old.items ++ of_limit plan.now word) }
{
    let (nodes, switches) = (plan.nodes.as_slice(), plan.switches.as_slice());
    match word {
        LimitWord::Version => found.push(Offender::All(Word::Version))?,
        LimitWord::Nodes => found.push(Offender::All(Word::Nodes))?,
        LimitWord::Switches => found.push(Offender::All(Word::Switches))?,
        LimitWord::Wires => found.push(Offender::All(Word::Wires))?,
        LimitWord::Vlinks => found.push(Offender::All(Word::Vlinks))?,
        LimitWord::Channels => found.push(Offender::All(Word::Channels))?,
        LimitWord::Vars => push_part(found, Word::Nodes, Word::Vars, many_vars(nodes))?,
        LimitWord::Rows => push_part(found, Word::Switches, Word::Table, many_rows(switches))?,
        LimitWord::Route => push_item(found, Word::Vlinks, bad_route(plan.vlinks.as_slice()))?,
        LimitWord::Link => push_first(
            found,
            bad_wire(plan.wires.as_slice()),
            bad_end(plan.vlinks.as_slice()),
            bad_switch_link(switches),
        )?,
        LimitWord::Random => push_part(found, Word::Switches, Word::Random, bad_random(switches))?,
        LimitWord::Depth => push_part(found, Word::Nodes, Word::Process, too_deep(nodes))?,
        LimitWord::Parts => push_part(found, Word::Nodes, Word::Process, many_parts(nodes))?,
        _ => {}
    }
    Ok(())
}

fn spot_item(spot: Spot) -> Offender
    ensures { result ≡ of_spot spot }
{
    match spot {
        Spot::Node(n) => Offender::Item(Word::Nodes, usize::from(n)),
        Spot::Switch(n) => Offender::Item(Word::Switches, usize::from(n)),
    }
}

pub(crate) fn equal_spots(a: Spot, b: Spot) -> bool
    ensures { result ≡ same_spot a b }
{
    match (a, b) {
        (Spot::Node(m), Spot::Node(n)) => m == n,
        (Spot::Switch(m), Spot::Switch(n)) => m == n,
        _ => false,
    }
}

pub(crate) fn equal_ports(a: Port, b: Port) -> bool
    ensures { result ≡ same_port a b }
{
    equal_spots(a.spot, b.spot) && a.link == b.link
}

/// Wire n, where it has the port.
fn push_wire(found: &mut Vec<Offender>, port: Port, n: usize, wire: &Wire) -> Result<(), Memory>
    ensures { OnOk result (found.new.items ≡ found.old.items ++ of_wire port (n, wire.now)) }
{
    if equal_ports(wire.one, port) || equal_ports(wire.two, port) {
        found.push(Offender::Item(Word::Wires, n))?;
    }
    Ok(())
}

/// The first two wires that have the port.
fn wires_at(alloc: Global, wires: &[Wire], port: Port) -> Result<Vec<Offender>, Memory>
    ensures { IfOk result (λ found. found.items ≡ of_port wires.now port) }
{
    let mut found = Vec::new(alloc);
    for (n, wire) in wires.iter().enumerate() {
        push_wire(&mut found, port, n, wire)?;
    }
    found.truncate(2);
    Ok(found)
}

fn has_block(node: u8, block: u16, end: &End) -> bool
    ensures { result ≡ has_block_of node block end.now }
{
    end.node == node && end.block == block
}

/// The ends of virtual link n that have the block.
fn push_ends(
    found: &mut Vec<Offender>,
    node: u8,
    block: u16,
    n: usize,
    vlink: &Vlink,
) -> Result<(), Memory>
    ensures { OnOk result (found.new.items
        ≡ found.old.items ++ of_vlink node block (n, vlink.now)) }
{
    if has_block(node, block, &vlink.a) {
        found.push(Offender::Part(Word::Vlinks, n, Word::A))?;
    }
    if has_block(node, block, &vlink.b) {
        found.push(Offender::Part(Word::Vlinks, n, Word::B))?;
    }
    Ok(())
}

/// The first two ends that have the block.
fn ends_at(alloc: Global, vlinks: &[Vlink], node: u8, block: u16) -> Result<Vec<Offender>, Memory>
    ensures { IfOk result (λ found. found.items ≡ of_block vlinks.now node block) }
{
    let mut found = Vec::new(alloc);
    for (n, vlink) in vlinks.iter().enumerate() {
        push_ends(&mut found, node, block, n, vlink)?;
    }
    found.truncate(2);
    Ok(found)
}

fn end_field(is_a: bool) -> Word
    ensures { result ≡ field_of_end is_a }
{
    if is_a { Word::A } else { Word::B }
}

/// The end from which the packets come, and the place where the fault shows.
fn push_path_ends(found: &mut Vec<Offender>, fault: &PathFault) -> Result<(), Memory>
    ensures { OnOk result (found.new.items ≡ found.old.items ++ of_path fault.now) }
{
    let field = end_field(fault.from_a);
    found.push(Offender::Part(Word::Vlinks, usize::from(fault.vlink), field))?;
    found.push(spot_item(fault.last))?;
    Ok(())
}

fn push_misuse(found: &mut Vec<Offender>, path: Option<Items<Step>>) -> Result<(), Memory>
    ensures { OnOk result (found.new.items ≡ found.old.items ++ of_misuse path) }
{
    if let Some(path) = path {
        found.push(Offender::Place(path))?;
    }
    Ok(())
}

/// The earlier channel on the way of this one, or else the first use of it that is wrong.
fn push_beside(
    alloc: Global,
    found: &mut Vec<Offender>,
    plan: &Plan,
    chan: usize,
    channel: &Channel,
) -> Result<(), Memory>
    ensures { OnOk result (found.new.items
        ≡ found.old.items ++ of_channel plan.now chan (Some channel.now)) }
{
    match earlier_on_way(plan.channels.as_slice(), chan, channel.home) {
        Some(earlier) => {
            found.push(Offender::Item(Word::Channels, earlier))?;
            Ok(())
        }
        None => push_misuse(found, misuse(alloc, plan, chan, channel)?),
    }
}

/// A channel, and what it is at odds with.
#[tactic(auto, using(std::proofs::Common::append_assoc))]
fn push_channel(
    alloc: Global,
    found: &mut Vec<Offender>,
    plan: &Plan,
    chan: usize,
) -> Result<(), Memory>
    ensures { OnOk result (found.new.items ≡ found.old.items ++ Offender.Item Word.Channels chan
        ∷ of_channel plan.now chan (slice_get plan.now.channels chan)) }
{
    found.push(Offender::Item(Word::Channels, chan))?;
    match plan.channels.get(chan) {
        Some(channel) => push_beside(alloc, found, plan, chan, channel),
        None => Ok(()),
    }
}

/// The two places of a use that is not lawful, or else the process of the node.
fn push_usage(found: &mut Vec<Offender>, node: usize, places: Option<Places>) -> Result<(), Memory>
    ensures { OnOk result (found.new.items ≡ found.old.items ++ of_usage node places) }
{
    match places {
        Some(Places { first, second }) => {
            found.push(Offender::Place(first))?;
            found.push(Offender::Place(second))?;
        }
        None => found.push(Offender::Part(Word::Nodes, node, Word::Process))?,
    }
    Ok(())
}

/// The row of a switch's table that is at fault, or else the table.
fn push_row(
    alloc: Global,
    found: &mut Vec<Offender>,
    switch: usize,
    row: Option<usize>,
) -> Result<(), Memory>
    ensures { OnOk result (found.new.items ≡ found.old.items ++ of_table switch row) }
{
    match row {
        Some(row) => {
            let path = [
                Step::Field(Word::Switches),
                Step::Index(switch),
                Step::Field(Word::Table),
                Step::Index(row),
            ];
            found.push(Offender::Place(Items::from_slice(alloc, &path)?))?;
        }
        None => found.push(Offender::Part(Word::Switches, switch, Word::Table))?,
    }
    Ok(())
}

/// What a refusal names, in the order in which it is written.
pub(crate) fn offenders(
    alloc: Global,
    plan: &Plan,
    why: &CheckRefused,
) -> Result<Vec<Offender>, Memory>
    ensures { IfOk result (λ found. found.items ≡ offenders_of plan.now why.now) }
{
    let mut found = Vec::new(alloc);
    match why {
        CheckRefused::Limit(word) => push_limit(&mut found, plan, *word)?,
        CheckRefused::PortTwice(port) => {
            found.push(spot_item(port.spot))?;
            found.append(&mut wires_at(alloc, plan.wires.as_slice(), *port)?)?;
        }
        CheckRefused::PortMissing(port) => found.push(spot_item(port.spot))?,
        CheckRefused::BlockTwice { node, block } => {
            found.push(Offender::Item(Word::Nodes, usize::from(*node)))?;
            found.append(&mut ends_at(alloc, plan.vlinks.as_slice(), *node, *block)?)?;
        }
        CheckRefused::Table { switch, fault: _ } => {
            push_row(
                alloc,
                &mut found,
                usize::from(*switch),
                bad_row(plan, *switch),
            )?;
        }
        CheckRefused::NoInterval(path)
        | CheckRefused::WrongEnd(path)
        | CheckRefused::StackEmpty(path)
        | CheckRefused::StackFull(path)
        | CheckRefused::Hops(path) => push_path_ends(&mut found, path)?,
        CheckRefused::SameNode(n) => found.push(Offender::Item(Word::Vlinks, usize::from(*n)))?,
        CheckRefused::Channel(n) => push_channel(alloc, &mut found, plan, usize::from(*n))?,
        CheckRefused::Usage { node, name } => {
            let places = offence_of(alloc, plan, usize::from(*node), name.as_slice())?;
            push_usage(&mut found, usize::from(*node), places)?;
        }
        CheckRefused::Memory => {}
    }
    Ok(found)
}

/// The place of a part of the file, and its path.
pub(crate) fn push_offender_line(
    out: &mut Vec<u8>,
    text: &[u8],
    offender: &Offender,
) -> Result<(), Memory>
    ensures { OnOk result (out.new.items
        ≡ out.old.items ++ path_line text.now (path_of offender.now)) }
{
    match offender {
        Offender::All(list) => push_path_line(out, text, &[Step::Field(*list)]),
        Offender::Item(list, n) => {
            push_path_line(out, text, &[Step::Field(*list), Step::Index(*n)])
        }
        Offender::Part(list, n, field) => {
            let path = [Step::Field(*list), Step::Index(*n), Step::Field(*field)];
            push_path_line(out, text, &path)
        }
        Offender::Place(path) => push_path_line(out, text, path.as_slice()),
    }
}
