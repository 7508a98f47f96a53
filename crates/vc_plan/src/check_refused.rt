//! Why a plan is refused.
use crate::limit_word::LimitWord;
use crate::name::Name;
use crate::path_fault::PathFault;
use crate::plan::Plan;
use crate::port::Port;
use std::fmt::{self, Debug, Formatter, Write};
use thiserror::Error;
use vc_labels::TableFault;

/// The first fault of a plan, in the order in which the checker looks.
#[derive(Debug, Drop, Error)]
pub enum CheckRefused {
    /// A limit is broken.
    #[error("a limit is broken: {0}")]
    Limit(LimitWord),
    /// A port is on two wires, or at both ends of one.
    #[error("a port stands on two wires")]
    PortTwice(Port),
    /// The end of a virtual link sends by a port that is on no wire.
    #[error("a virtual link sends by a port that is on no wire")]
    PortMissing(Port),
    /// Two ends have one block of one node.
    #[error("two ends have block {block} of node {node}")]
    BlockTwice {
        /// The number of the node.
        node: u8,
        /// The block.
        block: u16,
    },
    /// The rows of a switch are no table, or lead to a link on no wire.
    #[error("the rows of switch {switch} are no table: {fault}")]
    Table {
        /// The number of the switch.
        switch: u8,
        /// What is wrong with its rows.
        fault: TableFault,
    },
    /// A header in front at a switch is in no interval.
    #[error("a header is in no interval")]
    NoInterval(PathFault),
    /// A packet reaches a node with headers left, and not as that way's node and block.
    #[error("a packet reaches a wrong end")]
    WrongEnd(PathFault),
    /// A header is needed, and none is left.
    #[error("a header is needed, and none is left")]
    StackEmpty(PathFault),
    /// A random header would be the seventh.
    #[error("a random header would be the seventh")]
    StackFull(PathFault),
    /// A 33rd hop is possible.
    #[error("a path has more than 32 hops")]
    Hops(PathFault),
    /// Both ends of the virtual link of this number are on one node.
    #[error("virtual link {0} has both ends on one node")]
    SameNode(u16),
    /// The channel of this number is on one way with another, or a process uses it elsewhere, at the wrong end, or with the
    /// wrong kind.
    #[error("channel {0} stands or is used as it may not be")]
    Channel(u16),
    /// The process of a node uses a channel or a variable unlawfully in parallel, or changes the index of a replicated SEQ.
    #[error("a process of node {node} uses a name unlawfully")]
    Usage {
        /// The number of the node.
        node: u8,
        /// The name of the channel or the variable.
        name: Name,
    },
    /// There was no memory for the check.
    #[error("there is no memory")]
    Memory,
}

/// A plan that was refused, as it came, and why.
#[derive(Drop, Error)]
#[error("the plan is refused: {why}")]
pub struct Refusal {
    /// The plan.
    pub plan: Plan,
    /// Its first fault.
    pub why: CheckRefused,
}

impl Debug for Refusal {
    // by hand, since a plan shows no text
    fn fmt<W: Write>(&self, f: &mut Formatter<W>) -> fmt::Result {
        write!(f, "Refusal {{ why: {:?}, .. }}", self.why)
    }
}
