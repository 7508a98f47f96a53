//! Why a decoder refuses.

use thiserror::Error;
use vc_packets::Packet;

/// Why a decoder refuses.
#[derive(Clone, Copy, Debug, PartialEq, Eq, Drop, Error)]
pub enum Why {
    /// A byte past the body limit came.
    #[error("a packet is longer than its limit")]
    TooLong,
    /// An FCT came: flow control is no part of a packet.
    #[error("flow control came in a stream of packets")]
    StrayFct,
    /// There was no memory for a packet.
    #[error("there is no memory")]
    Memory,
}

/// A feed that was refused.
#[derive(Debug, Drop, Error)]
#[error("{why}")]
pub struct Refused {
    /// The packets of this feed that ended before the token that broke the spelling; none for want of memory.
    pub before: Vec<Packet>,
    /// What was wrong.
    pub why: Why,
}
