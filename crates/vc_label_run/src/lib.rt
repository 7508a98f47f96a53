//! Labels the network that a reader has, and writes its whole file.
//!
//! What is written is a network file with the nodes, switches, wires and channels of what was read, which `check` accepts and whose ports have
//! ranks, or the line of what is wrong with the network (`specs/Labels`).
#![tactic(auto)]

mod run;

pub use run::run_label;
