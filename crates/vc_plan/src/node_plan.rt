//! Nodes.
use crate::name::Name;
use sqlite_items::Items;
use vc_process::{Process, ValueKind};

/// A variable of a node.
#[derive(Debug, Drop)]
pub struct Variable {
    /// Its name, which no other variable of the node has.
    pub name: Name,
    /// What it holds.
    pub kind: ValueKind,
}

/// A node: a T9000 transputer with four links, numbered 0 to 3.
#[derive(Drop)]
pub struct NodePlan {
    /// Its name, which no other node and no switch has.
    pub name: Name,
    /// Its variables, at most 64, by their numbers.
    pub vars: Items<Variable>,
    /// What it runs.
    pub process: Process,
}
