//! Credit on a link: each end's receive buffer has 16 places, an FCT promises eight of them to the other end, and the other end
//! sends a byte or an end mark only for a place that was promised ("Networks, Routers and Transputers", chapter 2).
//!
//! The layer above knows that what a [`Sender`] and a [`Receiver`] do are the steps of the two ends of a way (`specs/Ends`), and
//! that under these steps the sum of credit stays within 16, so that no buffer overflows (`specs/Credit`, `specs/Laws`). The
//! invariant of a sender is a credit of at most 16, that of a receiver that the tokens in its buffer and the places promised are
//! at most 16. Only [`Receiver::new`] takes memory.
#![tactic(auto)]

mod laws;
mod receiver;
mod sender;

pub use laws::credit_is_kept;
pub use receiver::Receiver;
pub use sender::Sender;
