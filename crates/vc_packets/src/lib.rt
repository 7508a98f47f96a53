//! Packets of virtual links: a message is cut into pieces of at most 32 bytes, each a packet after a route's headers, and each
//! piece is answered by an acknowledge, a packet with no data ("Networks, Routers and Transputers", chapter 2).
//!
//! The layer above knows that the packets of a message are those of its pieces (`specs/Pieces`, `specs/Spellings`), that a message
//! has one list of pieces and packets distinguish it from every other message (`specs/Laws`), and which packet is what to the node that
//! it reaches (`specs/Kind`). A packet is plain data: there is no invariant but in what these functions answer.
#![tactic(auto)]

mod bytes;
mod header;
mod kind;
mod laws;
mod mark;
mod memory;
mod message;
mod packet;

pub use bytes::Bytes;
pub use header::front_header;
pub use kind::{Kind, kind_of};
pub use laws::{a_message_has_pieces, packets_tell_the_message, the_pieces_are_one};
pub use mark::Mark;
pub use memory::Memory;
pub use message::{ack, piece, pieces};
pub use packet::Packet;
