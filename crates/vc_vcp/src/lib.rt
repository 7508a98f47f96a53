//! A node's virtual channel processor: it carries the channels of a node's processes over the virtual links of its four links
//! ("Networks, Routers and Transputers", chapter 2; the virtual channel processor of the T9000).
//!
//! Tokens come to a link under credit and pass on to packets; a packet reaches the half of a virtual link that its block header
//! names. Packets wait in a queue for each link and go out token by token. What comes from no accepted network is dropped and
//! counted.
//!
//! To the layer above, each call of [`Vcp`] is exactly one step of a node: of its halves and send queues (`specs/Steps`), or of
//! its links (`specs/Links`), between what the processor is before and after in the words of those steps (`specs/VcpView`). A call
//! that may be made only at times has a `may_` call beside it, which answers whether such a step exists (`specs/Able`).
//!
//! What always holds (`specs/State`): there are four links; no two outputs, and no two inputs, have one channel or one block, as
//! `Vcp::new` asks; where a piece is under way something was offered; an input holds only what came to its block, and nothing where
//! a process inputs; no flow control token waits in a buffer; each link has the same limit.
#![tactic(auto)]

mod bound;
mod end;
mod hints;
mod input;
mod laws;
mod link_in;
mod link_out;
mod opening;
mod output;
mod places;
mod taken;
mod vcp;

pub use end::End;
pub use laws::each_token_comes;
pub use link_in::LinkIn;
pub use link_out::LinkOut;
pub use taken::Taken;
pub use vc_blocks::Want;
pub use vcp::Vcp;
