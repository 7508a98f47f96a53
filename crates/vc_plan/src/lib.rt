//! The plan of a network, and its checker.
//!
//! A [`Plan`] is what a network file says: nodes with their processes, switches with their tables, wires, virtual links and
//! channels, named by their numbers. [`check`] takes a plan and answers an [`Accepted`], which nothing else makes, or a
//! [`Refusal`] that gives the plan back as it came, with its first fault in a fixed order (`specs/Check`).
//!
//! The layer above knows of an accepted plan what `specs/Accepted` says: each limit is kept (`specs/KeptLimits`), each port is on
//! one wire, each end sends by a wire and has its own block, each table is lawful, every path of every virtual link delivers
//! (`specs/Hops`, `specs/Delivery`), each channel is alone on its way, each process uses its node's channels at the right end and
//! with the right kind, and uses channels and variables lawfully. A path that doesn't deliver is refused with the least such path:
//! of the first virtual link in order, way ab before ba, with the fewest hops, then the least by its choices (`specs/Faults`).
//!
//! The search for that path follows packets while the front ones of their headers last, and keeps what becomes of a header that an
//! input draws until it has gone, by the number of the headers below it: hops look up the front header alone. So its time does not grow
//! with the number of lists of headers that packets can have. The definitions speak of all paths. Of an accepted plan it is also found
//! how many switches the packets of each virtual link pass, at least and at most ([`vlink_lengths`]).
//!
//! The plan of one node that runs all processes of a plan side by side, with every channel inside it, is made by [`together`].
//!
//! A plan of version 1 means the same network as a plan of version 2 ([`as_version_two`], [`versions_agree`]).
#![tactic(auto)]

mod accepted;
mod alike;
mod arrival;
mod channel;
mod check_refused;
mod checker;
mod entry;
mod explore;
mod fault;
mod follow;
mod hops;
mod labelling;
mod laws;
mod least_path;
mod limit_word;
mod mark;
mod name;
mod node_plan;
mod one_node;
mod path_fault;
mod plan;
mod plan_limits;
mod port;
mod search;
mod searched_plan;
mod stack;
mod summary;
mod survey;
mod switch_plan;
mod usage;
mod version;
mod vlink;
mod vlink_length;
mod way_length;
mod wiring;

pub use accepted::Accepted;
pub use alike::are_like_links;
pub use channel::{Channel, Home};
pub use check_refused::{CheckRefused, Refusal};
pub use checker::check;
pub use entry::Entry;
pub use hops::{does_delete, far_end};
pub use laws::{cycles_are_right, refusals_are_right};
pub use limit_word::LimitWord;
pub use name::Name;
pub use node_plan::{NodePlan, Variable};
pub use one_node::together;
pub use path_fault::{Hop, PathFault};
pub use plan::Plan;
pub use port::{Port, Spot, Wire};
pub use search::next_places;
pub use searched_plan::SearchedPlan;
pub use switch_plan::{RandomInput, SwitchPlan};
pub use version::{as_version_two, versions_agree};
pub use vlink::{End, Vlink};
pub use vlink_length::{VlinkLength, vlink_lengths};
pub use way_length::WayLength;
