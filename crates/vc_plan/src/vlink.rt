//! Virtual links.
use crate::name::Name;
use sqlite_items::Items;

/// One end of a virtual link.
#[derive(Debug, Drop)]
pub struct End {
    /// The number of the node.
    pub node: u8,
    /// The link by which the end sends, 0 to 3.
    pub link: u8,
    /// The number of its block, which no other end at the node has.
    pub block: u16,
    /// The headers with which its packets leave, the front one first; 1 to 4 of them.
    pub route: Items<u16>,
}

/// A virtual link: a pair of channels, one each way, with each other's acknowledges ("Networks, Routers and Transputers",
/// chapter 2).
#[derive(Debug, Drop)]
pub struct Vlink {
    /// Its name, which no other virtual link has.
    pub name: Name,
    /// One end.
    pub a: End,
    /// The other end.
    pub b: End,
}
