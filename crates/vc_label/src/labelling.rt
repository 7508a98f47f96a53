//! The labelling of a network.
ghost use Rattle.std.specs.Prelude.{◌≡◌, IfOk, vec_len};

use crate::dimension::{fill_by_dimension, product};
use crate::ends::{Ends, LabelledLink, NoEnd, Pairs, homes, labelled_links};
use crate::fabric::Fabric;
use crate::grid::Grid;
use crate::numbering::Numbering;
use crate::part::Part;
use crate::ranking::{Ranking, by_file, by_switches, by_trees};
use crate::request::Request;
use crate::rows::{TableRow, count_rows, rows};
use crate::search::best_numbering;
use crate::set::{MOST, Set};
use crate::up_and_down::Made;
use std::alloc::Global;
use vc_packets::Memory;
use vc_plan::Home;

/// The labelling of a network.
#[derive(Drop)]
pub struct Labelling {
    /// The table of each switch.
    pub tables: Vec<Vec<TableRow>>,
    /// The virtual links.
    pub links: Vec<LabelledLink>,
    /// What carries each channel.
    pub homes: Vec<Home>,
}

/// Why a network gets no labelling.
#[derive(Clone, Copy, Debug, Drop)]
pub enum LabelFault {
    /// No wire joins the two nodes of the channel of this number, and no switches do.
    NoPath(usize),
    /// There was no memory.
    Memory,
}

impl From<Memory> for LabelFault {
    fn from(_error: Memory) -> LabelFault {
        LabelFault::Memory
    }
}

impl From<NoEnd> for LabelFault {
    fn from(why: NoEnd) -> LabelFault {
        match why {
            NoEnd::Memory => LabelFault::Memory,
            NoEnd::NoPath(channel) => LabelFault::NoPath(channel),
        }
    }
}

/// How many channels there are from each node to each other, and back.
fn ways(alloc: Global, request: &Request) -> Result<Grid<u32>, Memory> {
    let mut ways = Grid::new(alloc, 0u32)?;
    for (from, to) in request.ways.iter() {
        if from != to {
            for (a, b) in [(*from, *to), (*to, *from)] {
                let before = ways.at(a, b);
                ways.put(a, b, before.saturating_add(1));
            }
        }
    }
    Ok(ways)
}

/// Makes the tables of a part, and answers the order of its switches.
fn fill_part(
    alloc: Global,
    made: &mut Made,
    (fabric, ways): (&Fabric, &Grid<u32>),
    part: &Part,
) -> Result<Numbering, Memory> {
    if let Some(at) = product(alloc, fabric, part)? {
        fill_by_dimension(&mut made.tables, fabric, &at, part);
        return Ok(Numbering::new(at.order(alloc, part.switches)?));
    }
    let numbering = best_numbering(alloc, fabric, part, ways)?;
    made.fill(fabric, &numbering, part);
    Ok(numbering)
}

/// Makes the tables of all parts, and answers the orders of their switches.
fn fill_parts(
    alloc: Global,
    made: &mut Made,
    (fabric, ways): (&Fabric, &Grid<u32>),
    switches: u8,
) -> Result<Vec<Numbering>, Memory> {
    let mut parts = Vec::new(alloc);
    let mut done = Set::EMPTY;
    for s in 0..switches.min(MOST) {
        if !done.has(s) {
            let part = Part::of(fabric, s);
            done = done.or(part.switches);
            parts.push(fill_part(alloc, made, (fabric, ways), &part)?)?;
        }
    }
    Ok(parts)
}

/// Of three orders of the nodes the one with the fewest rows, the first on a tie.
fn ranking(
    alloc: Global,
    (fabric, made): (&Fabric, &Made),
    parts: &[Numbering],
    (nodes, switches): (u8, u8),
) -> Result<Ranking, Memory> {
    let mut best = by_file(alloc, nodes)?;
    let mut least = count_rows(alloc, &made.tables, best.nodes.as_slice(), switches)?;
    let trees = by_trees(alloc, fabric, parts, nodes)?;
    let in_order = by_switches(alloc, fabric, parts, nodes)?;
    for other in [trees, in_order] {
        let count = count_rows(alloc, &made.tables, other.nodes.as_slice(), switches)?;
        if count < least {
            least = count;
            best = other;
        }
    }
    Ok(best)
}

/// The tables of all switches.
fn tables(
    alloc: Global,
    made: &Made,
    ranking: &Ranking,
    switches: u8,
) -> Result<Vec<Vec<TableRow>>, Memory>
    ensures { IfOk result (λ tables. vec_len tables ≡ switches) }
{
    let mut tables = Vec::new(alloc);
    for s in 0..switches {
        tables.push(rows(alloc, &made.tables, ranking.nodes.as_slice(), s)?)?;
    }
    Ok(tables)
}

/// The labelling of a network of more nodes, switches, wires or channels than there may be. It puts each channel inside a node.
fn nothing(alloc: Global, request: &Request) -> Result<Labelling, Memory>
    ensures tables { IfOk result (λ made. vec_len made.tables ≡ request.now.switches) }
    ensures homes { IfOk result (λ made. vec_len made.homes ≡ vec_len request.now.ways) }
{
    let mut homes = Vec::new(alloc);
    for way in request.ways.as_slice() {
        homes.push(Home::Inside { node: way.0 })?;
    }
    let mut tables = Vec::new(alloc);
    for _table in 0..request.switches {
        tables.push(Vec::new(alloc))?;
    }
    Ok(Labelling {
        tables,
        links: Vec::new(alloc),
        homes,
    })
}

/// Labels a network: a table for each switch, and for each channel a way of a virtual link, or the node that it is inside. A
/// network that has more of anything than there may be gets no rows and no virtual links. The call fails if no wire and no switches join
/// the nodes of a channel, and when out of memory.
pub fn label(alloc: Global, request: &Request) -> Result<Labelling, LabelFault>
    ensures tables { IfOk result (λ made. vec_len made.tables ≡ request.now.switches) }
    ensures homes { IfOk result (λ made. vec_len made.homes ≡ vec_len request.now.ways) }
{
    if !request.is_small() {
        return Ok(nothing(alloc, request)?);
    }
    let nodes = request.nodes as u8;
    let switches = request.switches as u8;
    let fabric = Fabric::new(alloc, request.wires.as_slice())?;
    let ways = ways(alloc, request)?;
    let mut made = Made::new(alloc)?;
    let parts = fill_parts(alloc, &mut made, (&fabric, &ways), switches)?;
    let ranking = ranking(alloc, (&fabric, &made), parts.as_slice(), (nodes, switches))?;
    let mut pairs = Pairs::new(alloc);
    let homes = homes(alloc, &mut pairs, request.ways.as_slice())?;
    let mut ends = Ends::new(alloc, &fabric, &made.tables, &ranking)?;
    let links = labelled_links(alloc, &pairs, &mut ends)?;
    Ok(Labelling {
        tables: tables(alloc, &made, &ranking, switches)?,
        links,
        homes,
    })
}
