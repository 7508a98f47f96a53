//! Ends of virtual links, as a node is given them.
use sqlite_items::Items;

/// A node's end of a virtual link.
#[derive(Debug, Drop)]
pub struct End {
    /// The link by which it sends, 0 to 3.
    pub link: u8,
    /// Its block: the header with which packets for it reach the node.
    pub block: u16,
    /// The headers of its packets, the front one first.
    pub route: Items<u16>,
    /// The channel that goes out by it, if there is one.
    pub output: Option<u16>,
    /// The channel that comes in by it, if there is one.
    pub input: Option<u16>,
}
