//! Switches.
use crate::name::Name;
use sqlite_items::Items;
use vc_labels::Row;

/// An input link of a switch that puts a random header before each packet ("Networks, Routers and Transputers", chapter 1,
/// universal routing).
#[derive(Clone, Copy, Debug, PartialEq, Eq, Drop)]
pub struct RandomInput {
    /// The link, 0 to 31.
    pub link: u8,
    /// The least header that it puts.
    pub lower: u32,
    /// One more than the greatest; 1 to 64 more than `lower`, and at most 65,536.
    pub limit: u32,
}

/// A switch: a C104 with 32 links, numbered 0 to 31.
#[derive(Debug, Drop)]
pub struct SwitchPlan {
    /// Its name, which no node and no other switch has.
    pub name: Name,
    /// The rows of its table, at most 64.
    pub rows: Items<Row>,
    /// The links that delete the front header of each packet that leaves by them.
    pub delete: Items<u8>,
    /// The input links that put a random header.
    pub random: Items<RandomInput>,
}
