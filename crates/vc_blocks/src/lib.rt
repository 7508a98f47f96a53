//! The two halves of a virtual link's end at a node: the one that outputs sends a message piece by piece, each when the one before
//! it was acknowledged, and the one that inputs puts the pieces of a message together, and holds a first piece that finds no
//! process inputting ("Networks, Routers and Transputers", chapter 2).
//!
//! The layer above knows that an [`OutHalf`] has at most one piece under way (`specs/Halves`), and that an [`InHalf`] gives a message
//! whole, when its last piece was stored (`specs/WholeMessages`).
//!
//! A [`MessageLog`] keeps the messages that went over a channel, packed into one buffer, and [`Messages`] shows them.
#![tactic(auto)]

mod ends;
mod in_half;
mod laws;
mod message_log;
mod messages;
mod out_half;

pub use in_half::{Arrival, InHalf, Want};
pub use laws::messages_arrive_whole;
pub use message_log::MessageLog;
pub use messages::{Messages, MessagesIter};
pub use out_half::{Advance, OutHalf};
