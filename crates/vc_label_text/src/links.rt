//! Links that no wire has yet.
use std::alloc::Global;
use vc_packets::Memory;
use vc_plan::{Port, Spot};

/// How many nodes have numbers, and how many switches.
const SPOTS: u16 = 512;

/// Which links of each node and switch have wires.
#[derive(Drop)]
pub(crate) struct Links {
    used: Vec<u32>,
}

/// The place of a node or a switch in the list.
fn index(spot: Spot) -> usize {
    match spot {
        Spot::Node(n) => usize::from(n),
        Spot::Switch(n) => 256 + usize::from(n),
    }
}

/// How many links a node or a switch has.
fn count(spot: Spot) -> u8 {
    match spot {
        Spot::Node(_) => 4,
        Spot::Switch(_) => 32,
    }
}

fn has(links: u32, link: u8) -> bool {
    link < 32 && (links >> link) & 1 == 1
}

impl Links {
    pub(crate) fn new(alloc: Global) -> Result<Links, Memory> {
        let mut used = Vec::new(alloc);
        for _ in 0..SPOTS {
            used.push(0u32)?;
        }
        Ok(Links { used })
    }

    fn used(&self, spot: Spot) -> u32 {
        match self.used.get(index(spot)) {
            Some(links) => *links,
            None => 0,
        }
    }

    /// Notes that a port is on a wire.
    pub(crate) fn take(&mut self, port: Port) {
        if let Some(links) = self.used.get_mut(index(port.spot)) {
            if port.link < 32 {
                *links |= 1u32 << port.link;
            }
        }
    }

    /// The least of so many free links in a row, if there are.
    fn row(&self, spot: Spot, wanted: u16) -> Option<u8> {
        let used = self.used(spot);
        let mut free = 0u16;
        for link in 0..count(spot) {
            free = if has(used, link) {
                0
            } else {
                free.saturating_add(1)
            };
            if free == wanted {
                return Some((u16::from(link) + 1).saturating_sub(wanted).min(31) as u8);
            }
        }
        None
    }

    /// So many free links, which are then taken: in a row if there are, and else the least ones. It answers fewer if there are fewer.
    pub(crate) fn free(
        &mut self,
        alloc: Global,
        spot: Spot,
        wanted: u16,
    ) -> Result<Vec<u8>, Memory> {
        let used = self.used(spot);
        let first = self.row(spot, wanted).unwrap_or(0);
        let mut found = Vec::new(alloc);
        for link in first..count(spot) {
            if !has(used, link) && found.len() < usize::from(wanted) {
                found.push(link)?;
                self.take(Port { spot, link });
            }
        }
        Ok(found)
    }
}
