//! Switches, as they are given their plan.
use vc_labels::Table;

/// An input link that puts a random header before each packet ("Networks, Routers and Transputers", chapter 1, universal routing).
#[derive(Clone, Copy, Debug, PartialEq, Eq, Drop)]
pub struct RandomInput {
    /// The link, 0 to 31.
    pub link: u8,
    /// The least header that it puts.
    pub lower: u32,
    /// One more than the greatest; more than `lower`, and at most 65,536.
    pub limit: u32,
}

/// What a switch is given: its table, and what its links do with headers. The lists are read and not kept.
#[derive(Drop)]
pub struct SwitchPlan<'a> {
    /// By which links a header leaves.
    pub table: Table,
    /// The output links that delete the front header of each packet that leaves by them, each 0 to 31.
    pub delete: &'a [u8],
    /// The input links that put a random header. If a link is there twice, the first counts.
    pub random: &'a [RandomInput],
}
