//! A switch of a network: a C104 with 32 links, numbered 0 to 31 ("Networks, Routers and Transputers", chapters 1 and 3).
//!
//! Tokens come to a link under credit and pass on to the packet that is arriving there. As soon as the packet's front header is
//! there, it may be bound to a free link of the header's group (wormhole routing), and then leaves by that link token by token;
//! the link is free again when the end mark is put. An input link may put a random header in front of each packet, a header of a
//! portal falls away, and an output link may delete the front header. What comes from no accepted network is dropped and counted.
//!
//! To the layer above, each call of [`Switch`] is exactly one step of a switch (`specs/Switch`), between what the switch is before
//! and after in the words of those steps (`specs/SwitchView`). A call that may be made only at times has a `may_` call beside it, which
//! answers whether such a step exists (`specs/Able`).
//!
//! What always holds (`specs/State`): there are 32 links; an input is bound to an output exactly where the output's source is that
//! input; what is bound leaves by its output, and no more of it was put than has come; no flow control token waits in a buffer;
//! each input has the same limit.
#![tactic(auto)]

mod bits;
mod front;
mod laws;
mod link_in;
mod link_out;
mod opening;
mod random_range;
mod ready_switch;
mod requests;
mod switch;
mod switch_plan;

pub use bits::lowest;
pub use laws::each_token_comes;
pub use ready_switch::ReadySwitch;
pub use switch::Switch;
pub use switch_plan::{RandomInput, SwitchPlan};
