//! How much is sent by each link.
use crate::grid::Grid;
use crate::group::{Group, group_at};
use crate::set::{MOST, Set};
use std::alloc::Global;
use vc_packets::Memory;

/// What each node sends to each other one. It is divided over links in whole numbers.
pub(crate) const UNIT: u64 = 1_000_000_000_000;

/// Loads that differ by less count as equal, so that what was lost in divisions decides nothing.
const GRAIN: u64 = 1_000_000;

/// A load, rounded.
pub(crate) fn rounded(load: u64) -> u64 {
    load.saturating_add(GRAIN / 2) / GRAIN
}

/// How much each link of each switch carries.
#[derive(Drop)]
pub(crate) struct Loads(Grid<u64>);

impl Loads {
    pub(crate) fn new(alloc: Global) -> Result<Loads, Memory> {
        Ok(Loads(Grid::new(alloc, 0u64)?))
    }

    pub(crate) fn at(&self, switch: u8, link: u8) -> u64 {
        self.0.at(switch, link)
    }

    /// Adds what a link carries.
    pub(crate) fn add(&mut self, switch: u8, link: u8, share: u64) {
        let before = self.at(switch, link);
        self.0.put(switch, link, before.saturating_add(share));
    }

    /// The greatest load of a group once each of its links carries that much more.
    fn most_with(&self, switch: u8, group: Group, share: u64) -> u64 {
        let mut most = 0;
        for link in group.first..=group.last {
            most = self.at(switch, link).saturating_add(share).max(most);
        }
        most
    }

    /// The group of these links whose greatest load is least once it carries its part of the flow, the first on a tie.
    pub(crate) fn lightest(&self, switch: u8, links: Set, flow: u64) -> Option<Group> {
        let mut lightest: Option<Group> = None;
        let mut least = 0;
        for first in 0..MOST {
            if let Some(group) = group_at(links, first) {
                let share = flow / u64::from(group.len());
                let most = rounded(self.most_with(switch, group, share));
                if lightest.is_none() || most < least {
                    lightest = Some(group);
                    least = most;
                }
            }
        }
        lightest
    }
}
