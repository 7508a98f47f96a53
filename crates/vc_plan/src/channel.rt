//! Channels.
use crate::name::Name;
use vc_process::ValueKind;

/// What carries a channel.
#[derive(Clone, Copy, Debug, PartialEq, Eq, Drop)]
pub enum Home {
    /// One way of a virtual link.
    Way {
        /// The number of the virtual link.
        vlink: u16,
        /// Whether the channel goes from end a's node to end b's.
        from_a: bool,
    },
    /// A node, within which both ends are.
    Inside {
        /// The number of the node.
        node: u8,
    },
}

/// A channel of occam.
#[derive(Debug, Drop)]
pub struct Channel {
    /// Its name, which no other channel has.
    pub name: Name,
    /// What its messages are.
    pub kind: ValueKind,
    /// What carries it.
    pub home: Home,
}
