//! Reads the network file: one JSON text that names nodes, switches, wires, virtual links, channels and the process of each node.
//!
//! The layer above knows that what `read_network` answers is exactly the network that the text means, a function from the JSON
//! value to a plan or its first fault (`specs/NetworkText`).
//!
//! [`read_bare`] reads the short form of the file, which has no labelling (`specs/Bare`): no virtual links, and switches without tables.
//! Links, kinds and ends may be left out there.
//!
//! Laws say in the format's own words what holds of that function (`laws.rt`): names differ, no file is refused by four of the limits,
//! a file of version 1 has no portals, and the path of a refusal leads to what is wrong.
#![tactic(auto)]

mod bare;
mod bare_channel;
mod bare_network;
mod bare_switch;
mod bare_wire;
mod bytes;
mod channel;
mod condition;
mod expression;
mod fault;
mod laws;
mod name;
mod network;
mod node;
mod path;
mod process;
mod reader;
mod refused;
mod register;
mod scalar;
mod switch;
mod vlink;
mod wire;
mod word;

pub use bare::{BareChannel, BareEnds, BareNetwork, BareWire};
pub use bare_network::read_bare;
pub use fault::Why;
pub use laws::{
    faults_are_where_paths_lead, four_limits_refuse_no_file, names_differ,
    version_one_has_no_portals,
};
pub use network::read_network;
pub use path::{Path, Step};
pub use refused::ReadRefused;
pub use word::Word;
