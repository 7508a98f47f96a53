//! Virtual links and their ends.
ghost use Rattle.std.specs.Prelude.{◌≡◌, IfOk, length, vec_len};

use crate::column::{Column, FAR};
use crate::fabric::Fabric;
use crate::grid::Grid;
use crate::ranking::Ranking;
use crate::rows::{BASE, header};
use crate::set::{MOST, Set};
use crate::tables::Tables;
use std::alloc::Global;
use vc_packets::Memory;
use vc_plan::Home;

/// An end of a virtual link.
#[derive(Clone, Copy, Debug, Drop)]
pub struct LabelledEnd {
    /// The number of the node.
    pub node: u8,
    /// The link by which the end sends.
    pub link: u8,
    /// The number of its block, and the header of packets to it.
    pub block: u32,
}

/// A virtual link, which has the name of a channel.
#[derive(Clone, Copy, Debug, Drop)]
pub struct LabelledLink {
    /// The number of that channel.
    pub channel: usize,
    /// One end.
    pub a: LabelledEnd,
    /// The other end.
    pub b: LabelledEnd,
}

/// The virtual links of channels: of each the channel whose name it has, and its nodes.
#[derive(Drop)]
pub(crate) struct Pairs {
    links: Vec<Pair>,
}

#[derive(Clone, Copy, Drop)]
struct Pair {
    channel: usize,
    a: u8,
    b: u8,
    is_full: bool,
}

impl Pairs {
    pub(crate) fn new(alloc: Global) -> Pairs {
        Pairs {
            links: Vec::new(alloc),
        }
    }

    /// What carries a channel: the free way of the first virtual link between its nodes whose other way is taken by a channel back, else a
    /// new one, or its node.
    fn home(&mut self, channel: usize, from: u8, to: u8) -> Result<Home, Memory> {
        if from == to {
            return Ok(Home::Inside { node: from });
        }
        let mut number = 0u16;
        for pair in self.links.iter_mut() {
            if pair.a == to && pair.b == from && !pair.is_full {
                pair.is_full = true;
                return Ok(Home::Way {
                    vlink: number,
                    from_a: false,
                });
            }
            number = number.saturating_add(1);
        }
        self.links.push(Pair {
            channel,
            a: from,
            b: to,
            is_full: false,
        })?;
        Ok(Home::Way {
            vlink: number,
            from_a: true,
        })
    }
}

/// What carries each channel.
pub(crate) fn homes(
    alloc: Global,
    pairs: &mut Pairs,
    ways: &[(u8, u8)],
) -> Result<Vec<Home>, Memory>
    ensures { IfOk result (λ homes. vec_len homes ≡ length ways.now) }
{
    let mut homes = Vec::new(alloc);
    let mut channel = 0usize;
    for way in ways {
        let home = pairs.home(channel, way.0, way.1)?;
        homes.push(home)?;
        channel = channel.saturating_add(1);
    }
    Ok(homes)
}

/// What is given to ends.
#[derive(Drop)]
pub(crate) struct Ends<'a> {
    fabric: &'a Fabric,
    tables: &'a Tables,
    ranking: &'a Ranking,
    // of each node and link, how many ends send by it
    busy: Grid<u64>,
    // of each node, how many ends it has
    ends: Column,
}

impl Ends<'_> {
    pub(crate) fn new<'a>(
        alloc: Global,
        fabric: &'a Fabric,
        tables: &'a Tables,
        ranking: &'a Ranking,
    ) -> Result<Ends<'a>, Memory> {
        let mut ends = Column::new();
        for n in 0..MOST {
            ends.put(n, 0);
        }
        Ok(Ends {
            fabric,
            tables,
            ranking,
            busy: Grid::new(alloc, 0)?,
            ends,
        })
    }

    /// How many switches packets pass from a node's link on.
    fn hops(&self, from: u8, link: u8, to: u8) -> u64 {
        match self.fabric.home(from, link) {
            Some(switch) => self.tables.hops(switch, to),
            None => FAR,
        }
    }

    /// The links by which a node may send to another: straight, or to its nearest switches.
    fn choices(&self, from: u8, to: u8) -> Set {
        let direct = self.fabric.direct(from, to);
        if !direct.is_empty() {
            return direct;
        }
        let mut least = FAR;
        for link in 0..MOST {
            least = self.hops(from, link, to).min(least);
        }
        let mut links = Set::EMPTY;
        for link in 0..MOST {
            if least != FAR && self.hops(from, link, to) == least {
                links = links.with(link);
            }
        }
        links
    }

    /// Of these links the one by which fewest ends send, the least on a tie.
    fn least_busy(&self, node: u8, links: Set) -> Option<u8> {
        let mut best = links.first()?;
        for link in 0..MOST {
            if links.has(link) && self.busy.at(node, link) < self.busy.at(node, best) {
                best = link;
            }
        }
        Some(best)
    }

    /// The link by which the next end at a node sends to another, which then sends by it.
    fn link(&mut self, from: u8, to: u8) -> Option<u8> {
        let link = self.least_busy(from, self.choices(from, to))?;
        let before = self.busy.at(from, link);
        self.busy.put(from, link, before.saturating_add(1));
        Some(link)
    }

    /// The next block of a node.
    fn block(&mut self, node: u8) -> u32 {
        let end = self.ends.at(node);
        self.ends.put(node, end.saturating_add(1));
        let place = self.ranking.place(node).min(255) as u32;
        header(place)
            .saturating_add(end.min(65535) as u32)
            .min(65535)
    }

    fn end(&mut self, from: u8, to: u8) -> Option<LabelledEnd> {
        let link = self.link(from, to)?;
        Some(LabelledEnd {
            node: from,
            link,
            block: self.block(from),
        })
    }
}

/// Why there are no ends: there is no way for the channel of this number, or there is no memory.
#[derive(Drop)]
pub(crate) enum NoEnd {
    Memory,
    NoPath(usize),
}

impl From<Memory> for NoEnd {
    fn from(_error: Memory) -> NoEnd {
        NoEnd::Memory
    }
}

/// The virtual links with their ends, or the channel for which there is no way.
pub(crate) fn labelled_links(
    alloc: Global,
    pairs: &Pairs,
    ends: &mut Ends<'_>,
) -> Result<Vec<LabelledLink>, NoEnd> {
    let mut links = Vec::new(alloc);
    for pair in pairs.links.iter() {
        let (Some(a), Some(b)) = (ends.end(pair.a, pair.b), ends.end(pair.b, pair.a)) else {
            return Err(NoEnd::NoPath(pair.channel));
        };
        links
            .push(LabelledLink {
                channel: pair.channel,
                a,
                b,
            })
            .map_err(Memory::from)?;
    }
    Ok(links)
}
