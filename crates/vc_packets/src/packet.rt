//! Packets.

use crate::bytes::Bytes;
use crate::mark::Mark;

/// A packet: headers of two bytes each, then data, then an end mark.
#[derive(Debug, Drop)]
pub struct Packet {
    /// The headers and the data, as bytes.
    pub body: Bytes,
    /// The mark that ends it.
    pub mark: Mark,
}
