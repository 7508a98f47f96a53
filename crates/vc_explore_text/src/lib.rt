//! The text of what all schedules of a network's program come to, and explorations from a reader to a writer.
//!
//! The layer above knows that what is written is exactly the text of a verdict that is right of the network (`specs/Exploration`), or a
//! prefix of it if the writer failed.
#![tactic(auto)]

mod finding;
mod json;
mod lines;
mod run;

pub use finding::Finding;
pub use run::run_explore;
