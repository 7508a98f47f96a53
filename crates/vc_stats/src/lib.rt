//! The counts of a run, and a run's traffic as JSON.
//!
//! The layer above knows that what is written is exactly the text of the traffic and of the counts (`specs/Texts`), or a front of that where
//! the writer failed, over any reader and any writer whose bytes are known. Each count is how many events of the run are so
//! (`specs/Counts`), or is a figure of the states that the events visit (`specs/StateFigures`). The counts take no memory that grows with the
//! events. In a run in threads each thread counts the events of its own, and the counts are added up at the end.
#![tactic(auto)]

mod buffers;
mod busy_time;
mod counted_acts;
mod fields;
mod form;
mod json;
mod kind;
mod monitor;
mod occupancy;
mod packets;
mod peaks;
mod rows;
mod sections;
mod state_figures;
mod stats;
mod step_run;
mod table;
mod tally;
mod text;
mod thread_run;
mod traffic_json;
mod unfinished;

pub use form::Form;
pub use step_run::{json_step, stats_step};
pub use thread_run::{json_net, stats_net};
