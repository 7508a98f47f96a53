//! Groups of consecutive links.
ghost use Rattle.std.specs.Prelude.{◌<◌};

use crate::set::{MOST, Set};

/// A group of consecutive links of a switch.
#[derive(Clone, Copy, Debug, PartialEq, Eq, Drop)]
pub struct Group {
    /// The least link.
    pub first: u8,
    /// The greatest link.
    pub last: u8,
}

impl Group {
    /// How many links it has.
    pub(crate) fn len(self) -> u32
        ensures { 0 < result }
    {
        u32::from(self.last.saturating_sub(self.first)) + 1
    }
}

/// The last of the links that follow one another from this one on.
fn last_of(links: Set, first: u8) -> u8 {
    let mut last = first;
    for link in first..MOST {
        if !links.has(link) {
            return last;
        }
        last = link;
    }
    last
}

/// The group that begins at a link and is as long as can be, if one does.
pub(crate) fn group_at(links: Set, first: u8) -> Option<Group> {
    if !links.has(first) || (0 < first && links.has(first - 1)) {
        return None;
    }
    Some(Group {
        first,
        last: last_of(links, first),
    })
}

/// The longest group, the first of those on a tie.
pub(crate) fn longest(links: Set) -> Option<Group> {
    let mut longest: Option<Group> = None;
    for first in 0..MOST {
        if let Some(group) = group_at(links, first) {
            longest = match longest {
                Some(before) if group.len() <= before.len() => Some(before),
                _ => Some(group),
            };
        }
    }
    longest
}
