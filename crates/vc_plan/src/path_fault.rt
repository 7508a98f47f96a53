//! Paths that don't deliver.
use crate::port::{Port, Spot};
use sqlite_items::Items;

/// One passage of a packet through a switch.
#[derive(Clone, Copy, Debug, PartialEq, Eq, Drop)]
pub struct Hop {
    /// The number of the switch.
    pub switch: u8,
    /// The random header that was put in front, where the input puts one.
    pub value: Option<u16>,
    /// The link by which the packet left.
    pub link: u8,
}

/// A path of a virtual link's packets that ends in a fault.
#[derive(Debug, Drop)]
pub struct PathFault {
    /// The number of the virtual link.
    pub vlink: u16,
    /// Whether the packets go from end a to end b.
    pub from_a: bool,
    /// The sending port.
    pub start: Port,
    /// The hops that were made.
    pub hops: Items<Hop>,
    /// Where the fault shows.
    pub last: Spot,
    /// The random header that was put in front there, where one was.
    pub value: Option<u16>,
}
