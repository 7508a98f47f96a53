//! Tokens of a link: a packet is spelled as a byte token for each byte of its body and then its end mark, and a stream of such
//! tokens is read back into packets ("Networks, Routers and Transputers", chapter 2).
//!
//! The layer above knows that [`encode`] and [`Encoder`] give a packet's spelling, and that a [`Decoder`], however the stream is
//! cut into feeds, answers the packets that the stream spells and keeps the bytes after them (`specs/Tokens`, `specs/Decoding`,
//! `specs/Laws`). A link that takes its tokens one at a time uses an [`Assembler`], over which the decoder is built. The invariant of
//! both is that no more bytes are kept than a packet may have, so that a token takes no memory, and a packet takes its own.
#![tactic(auto)]

mod assembler;
mod decoder;
mod encoder;
mod laws;
mod refused;
mod token;

pub use assembler::Assembler;
pub use decoder::Decoder;
pub use encoder::{Encoder, encode};
pub use laws::{breaks_are_one, cuttings_agree, cuttings_break_alike, readings_are_one};
pub use refused::{Refused, Why};
pub use token::Token;
